// What callbacks of requests ask for (RFC 4254 section 6).
use ssh_stories::Line::{Asks, In, On};
use ssh_stories::{CHANNELS, CONFIRMED, Line, OPEN, Plan, QUIET, Story, Told, Wish};
use std::test::*;

const GENEROUS: Plan = Plan {
    grants: true,
    ..QUIET
};

// The peer asks for the agent, and wants a reply.
const ASKS_AGENT: Line<'static> = In(b"\x62\0\0\0\x02\0\0\0\x1aauth-agent-req@openssh.com\x01");

const KILLED: Line<'static> = On(
    2,
    b"\x62\0\0\0\x07\0\0\0\x0bexit-signal\0\0\0\0\x04KILL\x01\
    \0\0\0\x0dout of memory\0\0\0\x02en",
);

// The peer asks for a program, and wants a reply.
const ASKS_PROGRAM: Line<'static> = In(b"\x62\0\0\0\x02\0\0\0\x04exec\x01\0\0\0\x03cat");

// It asks for a shell, about which this handler says nothing.
const ASKS_SHELL: Line<'static> = In(b"\x62\0\0\0\x02\0\0\0\x05shell\x01");

// A second channel, which the peer calls 8.
const OPEN_NEXT: Line<'static> = In(b"\x5a\0\0\0\x07session\0\0\0\x08\0\x10\0\0\0\0\x80\0");

const NEXT_CONFIRMED: Line<'static> = On(3, b"\x5b\0\0\0\x08\0\0\0\x03\0\x20\0\0\0\0\x80\0");

// A handler that grants a program on the first channel, whichever channel it is asked for on.
const SUCCEEDING: Plan = Plan {
    records: &[Wish::ChannelSuccess(2)],
    ..QUIET
};

// A request for the agent, on which the handler has opened a channel and is told of nothing more.
const AGENT: Story = Story {
    plan: GENEROUS,
    told: Some(&[Told::Open(2)]),
    ..CHANNELS
};

static REQUESTS: [Story; 6] = [
    Story {
        shows: "flow control, and the signal that ended a program; nothing goes out behind a close",
        plan: Plan {
            records: &[
                Wish::ChannelSuccess(2),
                Wish::FlowControl(2, true),
                Wish::Signalled(2, true, "out of memory", "en"),
                Wish::Eof(2),
                Wish::FlowControl(2, false),
                Wish::Close(2),
                Wish::Status(2, 9),
            ],
            ..QUIET
        },
        turns: &[
            &[OPEN, CONFIRMED],
            &[
                ASKS_PROGRAM,
                On(2, b"\x63\0\0\0\x07"),
                On(2, b"\x62\0\0\0\x07\0\0\0\x08xon-xoff\0\x01"),
                KILLED,
                On(2, b"\x60\0\0\0\x07"),
                On(2, b"\x62\0\0\0\x07\0\0\0\x08xon-xoff\0\0"),
                On(2, b"\x61\0\0\0\x07"),
            ],
        ],
        told: Some(&[Told::Open(2), Told::Refused(6)]),
        ..CHANNELS
    },
    Story {
        shows: "the agent is granted by the answer of its callback",
        turns: &[&[OPEN, CONFIRMED], &[ASKS_AGENT, On(2, b"\x63\0\0\0\x07")]],
        ..AGENT
    },
    Story {
        shows: "a reply that the callback records is the only one",
        plan: Plan {
            records: &[Wish::ChannelFailure(2)],
            ..GENEROUS
        },
        turns: &[&[OPEN, CONFIRMED], &[ASKS_AGENT, On(2, b"\x64\0\0\0\x07")]],
        ..AGENT
    },
    Story {
        shows: "on a channel that the callback closes no reply goes out",
        plan: Plan {
            records: &[Wish::Close(2)],
            ..GENEROUS
        },
        turns: &[&[OPEN, CONFIRMED], &[ASKS_AGENT, On(2, b"\x61\0\0\0\x07")]],
        ..AGENT
    },
    Story {
        shows: "a reply that its own callback settles waits for the one before it",
        plan: SUCCEEDING,
        turns: &[
            &[OPEN, CONFIRMED],
            &[ASKS_SHELL],
            &[ASKS_PROGRAM],
            &[
                Asks(Wish::ChannelFailure(2)),
                On(2, b"\x64\0\0\0\x07"),
                On(2, b"\x63\0\0\0\x07"),
            ],
        ],
        told: Some(&[Told::Open(2)]),
        ..CHANNELS
    },
    Story {
        shows: "a callback settles the first reply that is owed on another channel",
        plan: SUCCEEDING,
        turns: &[
            &[OPEN, CONFIRMED],
            &[OPEN_NEXT, NEXT_CONFIRMED],
            &[ASKS_SHELL],
            &[
                In(b"\x62\0\0\0\x03\0\0\0\x04exec\x01\0\0\0\x03cat"),
                On(2, b"\x63\0\0\0\x07"),
            ],
        ],
        told: Some(&[Told::Open(2), Told::Open(3)]),
        ..CHANNELS
    },
];

#[test]
fn what_callbacks_of_requests_ask_for(rt: HostRuntime) {
    for story in &REQUESTS {
        assert!(rt; story.holds(rt.alloc()), "{}", story.shows);
    }
}
