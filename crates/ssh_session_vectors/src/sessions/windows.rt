// What each side grants the other, and the data within it.
use ssh_stories::Line::{Asks, Flood, In, On};
use ssh_stories::{
    CHANNELS, CONFIRMED, Line, OPEN, OPEN_SMALL, Plan, QUIET, SMALL_CONFIRMED, Story, Told, Wish,
};
use std::test::*;

// The open is confirmed with a window of eight bytes.
const CONFIRMED_8: Line<'static> = On(2, b"\x5b\0\0\0\x07\0\0\0\x02\0\0\0\x08\0\0\x80\0");

// A second channel, which the peer calls 8, with as large a window.
const OPEN_NEXT: Line<'static> = In(b"\x5a\0\0\0\x07session\0\0\0\x08\0\x10\0\0\0\0\x80\0");

const NEXT_CONFIRMED_8: Line<'static> = On(3, b"\x5b\0\0\0\x08\0\0\0\x03\0\0\0\x08\0\0\x80\0");

const FIVE_MORE: Line<'static> = On(2, b"\x5d\0\0\0\x07\0\0\0\x05");

const ABCDE: Line<'static> = In(b"\x5e\0\0\0\x02\0\0\0\x05abcde");

static WINDOWS: [Story; 6] = [
    Story {
        shows: "the room is filled up once less than half of it is left; larger data are dropped",
        window: Some(8),
        turns: &[
            &[OPEN, CONFIRMED_8],
            &[In(b"\x5e\0\0\0\x02\0\0\0\x04abcd")],
            &[In(b"\x5e\0\0\0\x02\0\0\0\x01e"), FIVE_MORE],
            &[In(b"\x5e\0\0\0\x02\0\0\0\x09123456789")],
        ],
        told: Some(&[
            Told::Open(2),
            Told::Data(2, 4, Some(b'a')),
            Told::Filled(2, 8),
            Told::Data(2, 1, Some(b'e')),
        ]),
        ..CHANNELS
    },
    Story {
        shows: "a room of 1048576 of the usual 2097152 is left as it is, and 1048575 is filled up",
        window: Some(2_097_152),
        turns: &[
            &[OPEN, CONFIRMED],
            &[Flood(2, 1_048_576, b'a')],
            &[Flood(2, 1, b'b'), On(2, b"\x5d\0\0\0\x07\0\x10\0\x01")],
        ],
        told: Some(&[
            Told::Open(2),
            Told::Data(2, 1_048_576, Some(b'a')),
            Told::Filled(2, 2_097_152),
            Told::Data(2, 1, Some(b'b')),
        ]),
        ..CHANNELS
    },
    Story {
        shows: "the answer of adjust_window is what this channel is filled up to from then on",
        window: Some(8),
        plan: Plan {
            aims: Some(16),
            ..QUIET
        },
        turns: &[
            &[OPEN, CONFIRMED_8],
            &[OPEN_NEXT, NEXT_CONFIRMED_8],
            &[ABCDE, FIVE_MORE],
            // 8 are left, and 1 byte leaves 7 of 16; on the other channel it leaves 7 of 8.
            &[
                In(b"\x5e\0\0\0\x02\0\0\0\x01f"),
                On(2, b"\x5d\0\0\0\x07\0\0\0\x09"),
            ],
            &[In(b"\x5e\0\0\0\x03\0\0\0\x01g")],
        ],
        told: Some(&[
            Told::Open(2),
            Told::Open(3),
            Told::Filled(2, 8),
            Told::Data(2, 5, Some(b'a')),
            Told::Filled(2, 16),
            Told::Data(2, 1, Some(b'f')),
            Told::Data(3, 1, Some(b'g')),
        ]),
        ..CHANNELS
    },
    Story {
        shows: "the answer 0 of adjust_window leaves windows as they are",
        window: Some(8),
        plan: Plan {
            aims: Some(0),
            ..QUIET
        },
        turns: &[
            &[OPEN, CONFIRMED_8],
            &[ABCDE, FIVE_MORE],
            &[In(b"\x5e\0\0\0\x02\0\0\0\x05fghij"), FIVE_MORE],
        ],
        told: Some(&[
            Told::Open(2),
            Told::Filled(2, 8),
            Told::Data(2, 5, Some(b'a')),
            Told::Filled(2, 8),
            Told::Data(2, 5, Some(b'f')),
        ]),
        ..CHANNELS
    },
    Story {
        shows: "a credit stays at its end",
        turns: &[
            &[
                In(b"\x5a\0\0\0\x07session\0\0\0\x07\xff\xff\xff\xff\0\0\x80\0"),
                CONFIRMED,
            ],
            &[In(b"\x5d\0\0\0\x02\0\0\0\x01")],
        ],
        told: Some(&[Told::Open(2), Told::Granted(2, 4_294_967_295)]),
        ..CHANNELS
    },
    Story {
        shows: "data and extended data share one window and keep their order",
        turns: &[
            &[OPEN_SMALL, SMALL_CONFIRMED],
            &[
                Asks(Wish::Data(2, b"ab")),
                On(2, b"\x5e\0\0\0\x2c\0\0\0\x02ab"),
            ],
            &[
                Asks(Wish::ExtendedData(2, 1, b"cd")),
                On(2, b"\x5f\0\0\0\x2c\0\0\0\x01\0\0\0\x01c"),
            ],
            &[Asks(Wish::Data(2, b"e"))],
            &[
                In(b"\x5d\0\0\0\x02\0\0\0\x04"),
                On(2, b"\x5f\0\0\0\x2c\0\0\0\x01\0\0\0\x01d"),
                On(2, b"\x5e\0\0\0\x2c\0\0\0\x01e"),
            ],
        ],
        told: Some(&[Told::Open(2), Told::Granted(2, 2)]),
        ..CHANNELS
    },
];

#[test]
fn rooms_and_credits(rt: HostRuntime) {
    for story in &WINDOWS {
        assert!(rt; story.holds(rt.alloc()), "{}", story.shows);
    }
}
