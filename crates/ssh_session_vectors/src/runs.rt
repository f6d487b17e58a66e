// Runs over links in memory, from their first input on.
use ssh_stories::Line::{Ends, In, Later, Out};
use ssh_stories::{
    ACCEPT, BEHIND_LOGIN, End, PASSWORD, Plan, QUIET, Run, SERVICE, takes_a_request,
};
use std::test::*;

// From the first input on, of which the frames are looked at.
const FROM_THE_FIRST: Run = Run {
    logs_in: false,
    frames_alone: true,
    ..BEHIND_LOGIN
};

// USERAUTH_REQUEST of alice by method none.
const NONE: &[u8] = b"\x32\0\0\0\x05alice\0\0\0\x0essh-connection\0\0\0\x04none";

// USERAUTH_FAILURE, with the methods that the config has but for the one that was refused.
const FAILURE: &[u8] = b"\x33\0\0\0\x31password,publickey,hostbased,keyboard-interactive\0";

// Call 1 takes the input, call 2 hands the frame on, call 3 takes the end.
static RUNS: [Run; 6] = [
    Run {
        shows: "a link that fails as it gives the input",
        fails: Some(1),
        lines: &[In(SERVICE), Ends(End::LinkFault)],
        calls: Some(0),
        ..FROM_THE_FIRST
    },
    Run {
        shows: "a link that fails as it is told the frame",
        fails: Some(2),
        lines: &[In(SERVICE), Ends(End::LinkFault)],
        calls: Some(1),
        ..FROM_THE_FIRST
    },
    Run {
        shows: "a link that fails as it gives the end",
        fails: Some(3),
        lines: &[In(SERVICE), Out(ACCEPT), Ends(End::LinkFault)],
        calls: Some(1),
        ..FROM_THE_FIRST
    },
    Run {
        shows: "a handler that fails: it is asked for a banner, and nothing goes out",
        plan: Plan {
            fails: true,
            ..QUIET
        },
        lines: &[In(SERVICE), Ends(End::Tired)],
        calls: Some(1),
        ..FROM_THE_FIRST
    },
    Run {
        shows: "callbacks that are not written let nobody in: there is no banner, and a refusal",
        lines: &[
            In(SERVICE),
            Out(ACCEPT),
            In(NONE),
            Later(FAILURE),
            Ends(End::Over),
        ],
        software: Some(b""),
        ..FROM_THE_FIRST
    },
    Run {
        shows: "a handler counts on the line of its peer",
        lines: &[
            In(SERVICE),
            Out(ACCEPT),
            In(PASSWORD),
            Out(b"\x34"),
            Ends(End::Over),
        ],
        software: Some(b"PuTTY"),
        ..FROM_THE_FIRST
    },
];

#[test]
fn runs_from_the_first_input(rt: HostRuntime) {
    for run in &RUNS {
        assert!(rt; run.holds(rt.alloc()), "{}", run.shows);
    }
}

#[test]
fn a_handler_counts_on_the_line_of_its_peer(rt: HostRuntime) {
    assert!(rt; takes_a_request(rt.alloc()));
}
