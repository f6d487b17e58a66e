// Ticks of whoever keeps the time.
use ssh_stories::Line::{Asks, Ends, In, Inactivity, Keepalive, Out};
use ssh_stories::{ACCEPT, ACCEPTED, ALIVE, End, PASSWORD, SERVICE, STANDARD, Story, Turn, Wish};
use std::test::*;

const TICK: Turn = &[Keepalive, ALIVE];

const TIMEOUT: Turn = &[Keepalive, Ends(End::KeepaliveTimeout)];

// It ends a run by an error, whatever was done before.
const SILENCE: Turn = &[Inactivity, Ends(End::InactivityTimeout)];

static TICKS: [Story; 11] = [
    Story {
        shows: "one tick asks for a sign of life, and the second ends the run where one is allowed",
        ticks: Some(1),
        turns: &[TICK, TIMEOUT, &[Keepalive, Ends(End::Inconsistent)]],
        ..STANDARD
    },
    Story {
        shows: "three are allowed by the standard configuration",
        turns: &[TICK, TICK, TICK, TIMEOUT],
        ..STANDARD
    },
    Story {
        shows: "a payload of the peer begins the count anew, one that is not read too",
        ticks: Some(1),
        turns: &[
            TICK,
            &[In(b"\x02")],
            TICK,
            &[In(b"\xff")],
            TICK,
            &[In(b"\x52")],
            TICK,
            &[In(b"\x5e\0\0\0\x09")],
            TICK,
            TIMEOUT,
        ],
        ..STANDARD
    },
    Story {
        shows: "an empty payload does not",
        ticks: Some(1),
        turns: &[TICK, &[In(b"")], TIMEOUT],
        ..STANDARD
    },
    Story {
        shows: "commands neither begin the count anew nor count",
        ticks: Some(2),
        turns: &[
            TICK,
            &[Asks(Wish::Keepalive), ACCEPTED, ALIVE],
            &[Asks(Wish::Ping(7)), ACCEPTED, ALIVE],
            TICK,
            TIMEOUT,
        ],
        ..STANDARD
    },
    Story {
        shows: "where none is allowed any number is",
        ticks: Some(0),
        turns: &[TICK, TICK, TICK, TICK, TICK, TICK],
        ..STANDARD
    },
    Story {
        shows: "a tick before the login asks, and its reply is awaited behind it",
        logged_in: false,
        turns: &[
            TICK,
            &[In(b"\x52")],
            &[In(SERVICE), Out(ACCEPT)],
            &[In(PASSWORD), Out(b"\x34")],
            &[In(b"\x52")],
            &[In(b"\x52\0"), Ends(End::Encoding)],
        ],
        ..STANDARD
    },
    Story {
        shows: "the count ends a run before the login too",
        logged_in: false,
        ticks: Some(1),
        turns: &[TICK, TIMEOUT],
        ..STANDARD
    },
    Story {
        shows: "so many ticks are allowed that none is too many",
        ticks: Some(usize::MAX),
        turns: &[TICK, TICK, TICK, TICK],
        ..STANDARD
    },
    Story {
        shows: "what ends a run at any time: too long a silence, before the login",
        logged_in: false,
        turns: &[SILENCE],
        ..STANDARD
    },
    Story {
        shows: "what ends a run at any time: too long a silence, behind a tick",
        turns: &[TICK, SILENCE],
        ..STANDARD
    },
];

#[test]
fn signs_of_life(rt: HostRuntime) {
    for story in &TICKS {
        assert!(rt; story.holds(rt.alloc()), "{}", story.shows);
    }
}
