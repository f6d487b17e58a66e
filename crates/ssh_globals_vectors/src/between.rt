// Commands between two inputs: what they come to, and what the next input tells first.
use crate::disconnects::{BYE, GONE, OPENED, SIXTEEN, TWENTY};
use ssh_link::{CommandOutcome, Refusal};
use ssh_stories::Line::{
    Accepts, Applies, Calls, Ends, Flushes, Forwarded, In, Inactivity, Keepalive, Noted, On, Opens,
    Out, Pong,
};
use ssh_stories::{ALIVE, End, Line, STANDARD, Story, Wish};
use std::test::*;

// The peer opens a connection to a socket, which the handler leaves to others.
const OPEN_SOCKET: Line<'static> = In(
    b"\x5a\0\0\0\x1edirect-streamlocal@openssh.com\
    \0\0\0\x07\0\0\0\x10\0\0\x80\0\0\0\0\x02/s\0\0\0\0\0\0\0\0",
);

const CONFIRMED: Line<'static> = On(2, b"\x5b\0\0\0\x07\0\0\0\x02\0\x20\0\0\0\0\x80\0");

const HUNG_UP: Line<'static> = On(
    2,
    b"\x62\0\0\0\x07\0\0\0\x0bexit-signal\0\0\0\0\x03HUP\0\0\0\0\0\0\0\0\0",
);

const OK: CommandOutcome = CommandOutcome::Accepted;

const UNKNOWN: CommandOutcome = CommandOutcome::Refused(Refusal::UnknownChannel);

const GONE_BEFORE: CommandOutcome = CommandOutcome::Refused(Refusal::Disconnected);

const NOT_WAITING: CommandOutcome = CommandOutcome::Refused(Refusal::UnknownOpen);

static BETWEEN: [Story; 9] = [
    Story {
        shows: "an open is answered, and the next input tells of it first",
        turns: &[
            &[OPEN_SOCKET, Accepts(2, OK), Accepts(2, NOT_WAITING)],
            &[Keepalive, Noted(2), CONFIRMED, ALIVE],
            &[Keepalive, ALIVE],
        ],
        ..STANDARD
    },
    Story {
        shows: "data and an EOF go out with the next input",
        turns: &[
            OPENED,
            &[Calls(Wish::Data(2, b"ab"), OK), Applies(Wish::Eof(2), OK)],
            &[
                Keepalive,
                On(2, b"\x5e\0\0\0\x07\0\0\0\x02ab"),
                On(2, b"\x60\0\0\0\x07"),
                ALIVE,
            ],
        ],
        ..STANDARD
    },
    Story {
        shows: "a refused one does nothing",
        turns: &[
            &[
                Calls(Wish::Data(9, b"ab"), UNKNOWN),
                Calls(Wish::Close(9), UNKNOWN),
                Applies(Wish::Status(9, 1), UNKNOWN),
            ],
            &[Keepalive, ALIVE],
        ],
        ..STANDARD
    },
    Story {
        shows: "behind a disconnect the next input is not looked at, whatever it is",
        turns: &[
            OPENED,
            &[
                Calls(Wish::Data(2, TWENTY), OK),
                Calls(BYE, OK),
                Calls(Wish::Keepalive, GONE_BEFORE),
                Flushes(2, 0),
            ],
            &[
                In(b"\x5d\0\0\0\x02\0\0\0\x10"),
                SIXTEEN,
                GONE,
                Ends(End::Over),
            ],
            &[Keepalive, Ends(End::Inconsistent)],
        ],
        ..STANDARD
    },
    Story {
        shows: "nor is one that would fail",
        turns: &[&[Applies(BYE, OK)], &[Inactivity, GONE, Ends(End::Over)]],
        ..STANDARD
    },
    Story {
        shows: "a notice is told although the connection was ended behind it",
        turns: &[
            &[OPEN_SOCKET, Accepts(2, OK), Calls(BYE, OK)],
            &[In(b"\x5a"), Noted(2), CONFIRMED, GONE, Ends(End::Over)],
        ],
        ..STANDARD
    },
    Story {
        shows: "messages on a channel",
        turns: &[
            OPENED,
            &[
                Calls(Wish::ExtendedData(2, 1, b"e"), OK),
                Calls(Wish::ChannelSuccess(2), OK),
                Calls(Wish::ChannelFailure(2), OK),
                Calls(Wish::FlowControl(2, true), OK),
                Calls(Wish::Status(2, 3), OK),
                Calls(Wish::Signalled(2, false, "", ""), OK),
                Calls(Wish::Eof(2), OK),
            ],
            &[
                Keepalive,
                On(2, b"\x5f\0\0\0\x07\0\0\0\x01\0\0\0\x01e"),
                On(2, b"\x62\0\0\0\x07\0\0\0\x08xon-xoff\0\x01"),
                On(2, b"\x62\0\0\0\x07\0\0\0\x0bexit-status\0\0\0\0\x03"),
                HUNG_UP,
                On(2, b"\x60\0\0\0\x07"),
                ALIVE,
            ],
        ],
        ..STANDARD
    },
    Story {
        shows: "opens of this side, each under the next number",
        turns: &[&[
            Opens(Wish::OpenSession, 2),
            Opens(Wish::OpenAgent, 3),
            Opens(Wish::OpenDirectTcpip("h", 80, "o", 1024), 4),
            Opens(Wish::OpenForwardedTcpip("h", 80, "o", 1024), 5),
            Opens(Wish::OpenDirectStreamlocal("/s"), 6),
            Opens(Wish::OpenForwardedStreamlocal("/s"), 7),
            Opens(Wish::OpenX11("o", 6000), 8),
        ]],
        ..STANDARD
    },
    Story {
        shows: "messages of no channel",
        turns: &[
            &[
                Calls(Wish::Ping(5), OK),
                Calls(Wish::Forward("", 22, Some(6)), OK),
                Calls(Wish::Cancel("", 22, None), OK),
                Calls(Wish::Debug(true, "hi", ""), OK),
                Calls(Wish::Success, OK),
                Calls(Wish::Failure, OK),
            ],
            &[
                In(b"\x51"),
                Pong(5),
                ALIVE,
                Out(b"\x50\0\0\0\x0dtcpip-forward\x01\0\0\0\0\0\0\0\x16"),
                Out(b"\x50\0\0\0\x14cancel-tcpip-forward\0\0\0\0\0\0\0\0\x16"),
                Out(b"\x04\x01\0\0\0\x02hi\0\0\0\0"),
            ],
            &[In(b"\x52"), Forwarded(6, None)],
        ],
        ..STANDARD
    },
];

#[test]
fn commands_between_inputs(rt: HostRuntime) {
    for story in &BETWEEN {
        assert!(rt; story.holds(rt.alloc()), "{}", story.shows);
    }
}
