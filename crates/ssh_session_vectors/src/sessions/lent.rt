// What a session lends to its callbacks.
use ssh_stories::Line::{Asks, In, On};
use ssh_stories::{CHANNELS, Lent, OPEN_SMALL, Plan, QUIET, Story, Told, Wish};
use std::test::*;

// Of no channel, while commands and answers are taken.
const NO_CHANNEL: Lent = Lent {
    window: 0,
    packet: 0,
    writable: 0,
    data_wait: false,
    can_send: false,
    commands: true,
    replies: true,
};

// Of a channel with a room of 8, on which nothing waits.
const CHANNEL: Lent = Lent {
    window: 8,
    packet: 32_768,
    writable: 8,
    can_send: true,
    ..NO_CHANNEL
};

const WAITING: Lent = Lent {
    data_wait: true,
    commands: false,
    ..CHANNEL
};

const ENDED: Lent = Lent {
    window: 5,
    writable: 5,
    can_send: false,
    ..CHANNEL
};

static CALLBACKS: Story = Story {
    shows: "a callback reads the channels and what is taken from outside as they are at its call",
    window: Some(8),
    plan: Plan {
        reads: true,
        ..QUIET
    },
    turns: &[
        &[
            OPEN_SMALL,
            On(2, b"\x5b\0\0\0\x2c\0\0\0\x02\0\0\0\x08\0\0\x80\0"),
        ],
        &[
            Asks(Wish::Data(2, b"hello")),
            On(2, b"\x5e\0\0\0\x2c\0\0\0\x03hel"),
        ],
        &[In(b"\x60\0\0\0\x02")],
        &[
            In(b"\x5d\0\0\0\x02\0\0\0\x02"),
            On(2, b"\x5e\0\0\0\x2c\0\0\0\x02lo"),
        ],
        &[Asks(Wish::Eof(2)), On(2, b"\x60\0\0\0\x2c")],
        &[In(b"\x5e\0\0\0\x02\0\0\0\x03abc")],
        &[In(b"\x61\0\0\0\x02"), On(2, b"\x61\0\0\0\x2c")],
    ],
    told: Some(&[
        Told::Open(2),
        Told::Reads(2, NO_CHANNEL),
        Told::Eof(2),
        Told::Reads(2, WAITING),
        Told::Granted(2, 0),
        Told::Reads(2, CHANNEL),
        Told::Data(2, 3, Some(b'a')),
        Told::Reads(2, ENDED),
        Told::Close(2),
        Told::Reads(2, NO_CHANNEL),
    ]),
    ..CHANNELS
};

#[test]
fn what_callbacks_are_lent(rt: HostRuntime) {
    assert!(rt; CALLBACKS.holds(rt.alloc()), "{}", CALLBACKS.shows);
}
