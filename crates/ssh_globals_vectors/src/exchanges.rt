// Exchanges of keys (RFC 4253 section 7): what is held meanwhile, and what goes out at once.
use crate::disconnects::{BYE, GONE, OPENED};
use ssh_stories::Line::{Asks, Ends, In, Keepalive, Noted, On, Out, Rekey};
use ssh_stories::{ACCEPTED, ALIVE, End, Line, Plan, QUIET, STANDARD, Story, Turn, Wish};
use std::test::*;

const TICK: Turn = &[Rekey, Out(b"\x14")];

const KEXINIT: Turn = &[In(b"\x14")];

const NEWKEYS: Line<'static> = Out(b"\x15");

const DATA: Line<'static> = In(b"\x5e\0\0\0\x02\0\0\0\x01a");

static EXCHANGES: [Story; 7] = [
    Story {
        shows: "before the login a tick begins none, and the peer does at any time",
        logged_in: false,
        turns: &[
            &[Rekey],
            &[In(b"\x1e")],
            &[In(b"\x14"), Out(b"\x14")],
            &[Keepalive],
            &[In(b"\x15"), NEWKEYS, ALIVE],
        ],
        ..STANDARD
    },
    Story {
        shows: "a second tick begins no other, and a third message of the peer's is refused",
        turns: &[TICK, &[Rekey], KEXINIT, &[In(b"\x1e"), Ends(End::Kex)]],
        ..STANDARD
    },
    Story {
        shows: "behind the peer's KEXINIT nothing of a service comes",
        turns: &[TICK, KEXINIT, &[In(b"\x50"), Ends(End::Inconsistent)]],
        ..STANDARD
    },
    Story {
        shows: "but a DISCONNECT ends the run there too",
        turns: &[TICK, KEXINIT, &[In(b"\x01"), Ends(End::Over)]],
        ..STANDARD
    },
    Story {
        shows: "a DISCONNECT goes out at once, behind what was held",
        turns: &[
            TICK,
            &[Keepalive],
            &[Asks(BYE), ACCEPTED, ALIVE, GONE, Ends(End::Over)],
        ],
        ..STANDARD
    },
    Story {
        shows: "data wait in an exchange, and the end of file and the close behind them",
        plan: Plan {
            records: &[Wish::Data(2, b"data"), Wish::Eof(2), Wish::Close(2)],
            ..QUIET
        },
        turns: &[
            OPENED,
            TICK,
            &[DATA, Noted(2)],
            KEXINIT,
            &[
                In(b"\x15"),
                NEWKEYS,
                On(2, b"\x5e\0\0\0\x07\0\0\0\x04data"),
                On(2, b"\x60\0\0\0\x07"),
                On(2, b"\x61\0\0\0\x07"),
            ],
        ],
        asked: Some(b"data\n"),
        ..STANDARD
    },
    Story {
        shows: "a DISCONNECT of a callback in an exchange ends it, and data that wait are not sent",
        plan: Plan {
            records: &[Wish::Data(2, b"data"), BYE],
            ..QUIET
        },
        turns: &[
            OPENED,
            TICK,
            &[Keepalive],
            &[DATA, Noted(2), ALIVE, GONE, Ends(End::Over)],
        ],
        asked: Some(b"data\n"),
        ..STANDARD
    },
];

#[test]
fn exchanges_of_keys(rt: HostRuntime) {
    for story in &EXCHANGES {
        assert!(rt; story.holds(rt.alloc()), "{}", story.shows);
    }
}
