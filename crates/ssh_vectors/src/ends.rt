// The word `ends`: what happens to two ends, and what the program writes of it.
use ssh_scripted::{Case, Outcome, comes_to};
use std::alloc::Global;
use std::test::*;

static TALES: [Case; 9] = [
    Case {
        shows: "a window of three bytes is filled again for the last two",
        script: b"\
            a open\nmove a\nmove b\n\
            a data 2 68656c6c6f\n\
            move a\nmove b\nmove a\n",
        status: 0,
        written: b"b 2 68656c\nb 2 6c6f\nok\n",
    },
    Case {
        shows: "data meet a closed channel and are passed over",
        script: b"a open\nmove a\nmove b\na data 2 78\nb close 2\nmove a\n",
        status: 0,
        written: b"ok\n",
    },
    Case {
        shows: "both sides send, and the last line needs no end",
        script: b"\
            # the window is larger from here on\n\
            b open\nmove b\nmove a\n\n\
            a target 2 4294967295\n\
            b data 2 61\na data 2 62\na eof 2\n\
            move a\nmove a\nmove b\nmove b",
        status: 0,
        written: b"b 2 62\na 2 61\nok\n",
    },
    Case {
        shows: "nothing happens where nothing is under way, and on no channel",
        script: b"move a\nmove b\na data 7 00\nb eof 7\na close 7\nb target 7 0\nmove a\n",
        status: 0,
        written: b"ok\n",
    },
    Case {
        shows: "no events",
        script: b"",
        status: 0,
        written: b"ok\n",
    },
    Case {
        shows: "a word that no side has",
        script: b"a open\n\na shut 2\n",
        status: 2,
        written: b"bad line 3\n",
    },
    Case {
        shows: "a third side",
        script: b"move c\n",
        status: 2,
        written: b"bad line 1\n",
    },
    Case {
        shows: "a target above the largest",
        script: b"a open\na target 2 4294967296\n",
        status: 2,
        written: b"bad line 2\n",
    },
    Case {
        shows: "half a byte",
        script: b"a data 2 0\n",
        status: 2,
        written: b"bad line 1\n",
    },
];

// Whether the program writes this for two ends with a window of 3, where reads of these numbers fail.
fn is_told(alloc: Global, case: &Case, failing: &[u64]) -> bool {
    let outcome = Outcome {
        status: case.status,
        written: case.written,
    };
    comes_to(
        alloc,
        &["ends", "3", "100"],
        case.script,
        (failing, &[]),
        outcome,
    )
}

#[test]
fn what_happens_to_two_ends_is_told_by_what_they_deliver(rt: HostRuntime) {
    for case in &TALES {
        assert!(rt; is_told(rt.alloc(), case, &[]), "{}", case.shows);
    }
}

static UNREAD: Case = Case {
    shows: "a source that fails",
    script: b"a open\n",
    status: 3,
    written: b"read fault\n",
};

#[test]
fn a_source_of_events_that_fails_is_told(rt: HostRuntime) {
    assert!(rt; is_told(rt.alloc(), &UNREAD, &[1]));
}
