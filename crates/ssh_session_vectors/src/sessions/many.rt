// Several channels in one session.
use ssh_stories::Line::{Asks, Confirms, Ends, Flood, In, On};
use ssh_stories::{
    BEHIND_LOGIN, CHANNELS, CONFIRMED, End, Line, OPEN, OPEN_SMALL, Plan, QUIET, Run,
    SMALL_CONFIRMED, Story, Told, Wish, are_true,
};
use std::alloc::{AllocError, Global};
use std::test::*;

const ECHO: Plan = Plan {
    echoes: true,
    ..QUIET
};

static SIDE_BY_SIDE: [Story; 2] = [
    Story {
        shows: "two opens of one peer number are two channels",
        turns: &[
            &[OPEN, CONFIRMED],
            &[OPEN, On(3, b"\x5b\0\0\0\x07\0\0\0\x03\0\x20\0\0\0\0\x80\0")],
            &[
                Asks(Wish::Data(2, b"a")),
                On(2, b"\x5e\0\0\0\x07\0\0\0\x01a"),
            ],
            &[
                Asks(Wish::Data(3, b"b")),
                On(3, b"\x5e\0\0\0\x07\0\0\0\x01b"),
            ],
        ],
        told: Some(&[Told::Open(2), Told::Open(3)]),
        ..CHANNELS
    },
    Story {
        shows: "each channel has its own credit, its own room and its own end",
        window: Some(8),
        plan: ECHO,
        turns: &[
            &[
                In(b"\x5a\0\0\0\x07session\0\0\0\x2c\0\0\0\x01\0\0\x80\0"),
                On(2, b"\x5b\0\0\0\x2c\0\0\0\x02\0\0\0\x08\0\0\x80\0"),
            ],
            &[
                In(b"\x5a\0\0\0\x07session\0\0\0\x2d\0\0\0\x09\0\0\x80\0"),
                On(3, b"\x5b\0\0\0\x2d\0\0\0\x03\0\0\0\x08\0\0\x80\0"),
            ],
            &[
                In(b"\x5e\0\0\0\x02\0\0\0\x02ab"),
                On(2, b"\x5e\0\0\0\x2c\0\0\0\x01a"),
            ],
            &[
                In(b"\x5f\0\0\0\x03\0\0\0\x01\0\0\0\x02cd"),
                On(3, b"\x5f\0\0\0\x2d\0\0\0\x01\0\0\0\x02cd"),
            ],
            &[In(b"\x61\0\0\0\x03"), On(3, b"\x61\0\0\0\x2d")],
            &[
                In(b"\x5d\0\0\0\x02\0\0\0\x01"),
                On(2, b"\x5e\0\0\0\x2c\0\0\0\x01b"),
            ],
        ],
        told: Some(&[
            Told::Open(2),
            Told::Open(3),
            Told::Data(2, 2, Some(b'a')),
            Told::Extended(3, 1, 2, Some(b'c')),
            Told::Close(3),
            Told::Granted(2, 0),
        ]),
        ..CHANNELS
    },
];

#[test]
fn channels_side_by_side(rt: HostRuntime) {
    for story in &SIDE_BY_SIDE {
        assert!(rt; story.holds(rt.alloc()), "{}", story.shows);
    }
}

// The peer opens a channel with a window of 2, which gets this number.
fn opens(lines: &mut Vec<Line<'static>>, channel: u32) -> Result<(), AllocError> {
    lines.extend_from_slice(&[
        In(b"\x5a\0\0\0\x07session\0\0\0\x07\0\0\0\x02\0\0\x80\0"),
        Confirms(channel),
    ])
}

// Bytes that come on the channel come back on it, in order and within its window.
fn echoes(lines: &mut Vec<Line<'static>>, channel: u32) -> Result<(), AllocError> {
    lines.extend_from_slice(&[
        Flood(channel, 1, b'a'),
        On(channel, b"\x5e\0\0\0\x07\0\0\0\x01a"),
        Flood(channel, 1, b'b'),
        On(channel, b"\x5e\0\0\0\x07\0\0\0\x01b"),
        Flood(channel, 1, b'c'),
    ])
}

// A hundred channels are opened, which all have one number of the peer's, and bytes come back on
// each of them.
fn push_hundred(lines: &mut Vec<Line<'static>>) -> Result<(), AllocError> {
    for channel in 2..102u32 {
        opens(lines, channel)?;
    }
    for channel in 2..102u32 {
        echoes(lines, channel)?;
    }
    Ok(())
}

fn hundred_echo(alloc: Global) -> bool {
    let mut lines: Vec<Line<'static>> = Vec::new(alloc);
    let are_pushed = push_hundred(&mut lines) == Ok(());
    are_pushed && are_true(alloc, ECHO, lines.as_slice())
}

#[test]
fn a_hundred_echoes(rt: HostRuntime) {
    assert!(rt; hundred_echo(rt.alloc()));
}

// Channel 2 has a window of 3 and channel 3 one of 9. The command on channel 3 is set aside while
// data wait on channel 2.
static WAITING: Run = Run {
    shows: "commands wait while data wait",
    frames_alone: true,
    lines: &[
        OPEN_SMALL,
        SMALL_CONFIRMED,
        In(b"\x5a\0\0\0\x07session\0\0\0\x2d\0\0\0\x09\0\0\x80\0"),
        On(3, b"\x5b\0\0\0\x2d\0\0\0\x03\0\x20\0\0\0\0\x80\0"),
        Asks(Wish::Data(2, b"hello")),
        On(2, b"\x5e\0\0\0\x2c\0\0\0\x03hel"),
        Asks(Wish::Data(3, b"next")),
        In(b"\x5d\0\0\0\x02\0\0\0\x02"),
        On(2, b"\x5e\0\0\0\x2c\0\0\0\x02lo"),
        On(3, b"\x5e\0\0\0\x2d\0\0\0\x04next"),
        Ends(End::Over),
    ],
    ..BEHIND_LOGIN
};

#[test]
fn commands_wait_while_data_wait(rt: HostRuntime) {
    assert!(rt; WAITING.holds(rt.alloc()), "{}", WAITING.shows);
}
