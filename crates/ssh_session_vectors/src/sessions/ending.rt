// How channels end, and what comes for none.
use ssh_stories::Line::{Asks, Ends, In, On, Out};
use ssh_stories::{
    ACCEPT, CHANNELS, CONFIRMED, End, OPEN, OPEN_SMALL, Plan, QUIET, SERVICE, SMALL_CONFIRMED,
    STANDARD, Story, Told, Wish,
};
use std::test::*;

static ENDINGS: [Story; 8] = [
    Story {
        shows: "an end of file and a close of one callback wait behind its data",
        plan: Plan {
            opening: &[Wish::Data(2, b"hello"), Wish::Eof(2), Wish::Close(2)],
            ..QUIET
        },
        turns: &[
            &[
                OPEN_SMALL,
                SMALL_CONFIRMED,
                On(2, b"\x5e\0\0\0\x2c\0\0\0\x03hel"),
            ],
            &[
                In(b"\x5d\0\0\0\x02\0\0\0\x02"),
                On(2, b"\x5e\0\0\0\x2c\0\0\0\x02lo"),
                On(2, b"\x60\0\0\0\x2c"),
                On(2, b"\x61\0\0\0\x2c"),
            ],
            &[In(b"\x61\0\0\0\x02")],
        ],
        told: Some(&[Told::Open(2), Told::Granted(2, 0)]),
        ..CHANNELS
    },
    Story {
        shows: "data behind an end of file of the same callback are refused, and it is told so",
        plan: Plan {
            opening: &[Wish::Eof(2), Wish::Data(2, b"hello")],
            ..QUIET
        },
        turns: &[&[OPEN, CONFIRMED, On(2, b"\x60\0\0\0\x07")]],
        told: Some(&[Told::Open(2), Told::Refused(2)]),
        ..CHANNELS
    },
    Story {
        shows: "the peer's CLOSE is answered at once and drops what waits; a second does nothing",
        turns: &[
            &[OPEN_SMALL, SMALL_CONFIRMED],
            &[
                Asks(Wish::Data(2, b"hello")),
                On(2, b"\x5e\0\0\0\x2c\0\0\0\x03hel"),
            ],
            &[In(b"\x61\0\0\0\x02"), On(2, b"\x61\0\0\0\x2c")],
            &[In(b"\x61\0\0\0\x02")],
            &[In(b"\x5d\0\0\0\x02\0\0\0\x02")],
            &[Asks(Wish::Data(2, b"hello"))],
        ],
        told: Some(&[Told::Open(2), Told::Close(2)]),
        ..CHANNELS
    },
    Story {
        shows: "the peer's end of file is told, and nothing is sent for it",
        turns: &[
            &[OPEN, CONFIRMED],
            &[In(b"\x60\0\0\0\x02")],
            &[
                Asks(Wish::Data(2, b"a")),
                On(2, b"\x5e\0\0\0\x07\0\0\0\x01a"),
            ],
            &[Asks(Wish::Eof(2)), On(2, b"\x60\0\0\0\x07")],
            &[Asks(Wish::Data(2, b"b"))],
            &[Asks(Wish::Close(2)), On(2, b"\x61\0\0\0\x07")],
        ],
        told: Some(&[Told::Open(2), Told::Eof(2)]),
        ..CHANNELS
    },
    Story {
        shows: "on no channel nothing behind the number of data or of a request is read",
        turns: &[
            &[In(b"\x5e\0\0\0\x09\0")],
            &[In(b"\x5f\0\0\0\x09\x07")],
            &[In(b"\x62\0\0\0\x09\0\0\0\x01x\x01\xff")],
            &[In(b"\x60\0\0\0\x09")],
            &[In(b"\x61\0\0\0\x09")],
            &[In(b"\x5d\0\0\0\x09\0\0\0\x05")],
        ],
        ..CHANNELS
    },
    Story {
        shows: "a grant without its amount does not fit, on no channel too",
        turns: &[&[In(b"\x5d\0\0\0\x09"), Ends(End::Encoding)]],
        ..CHANNELS
    },
    Story {
        shows: "a session that is spent: behind a DISCONNECT of the peer's nothing is served",
        logged_in: false,
        turns: &[
            &[In(SERVICE), Out(ACCEPT)],
            &[In(b"\x01"), Ends(End::Over)],
            &[In(SERVICE), Ends(End::Inconsistent)],
        ],
        calls: Some(1),
        ..STANDARD
    },
    Story {
        shows: "a session that is spent: behind a confirmation that nobody asked for nothing is served",
        turns: &[
            &[
                In(b"\x5b\0\0\0\x09\0\0\0\0\0\0\0\0\0\0\0\x01"),
                Ends(End::Inconsistent),
            ],
            &[In(b"\x50\0\0\0\x01x\x01"), Ends(End::Inconsistent)],
        ],
        told: Some(&[]),
        ..CHANNELS
    },
];

#[test]
fn ends_of_channels(rt: HostRuntime) {
    for story in &ENDINGS {
        assert!(rt; story.holds(rt.alloc()), "{}", story.shows);
    }
}
