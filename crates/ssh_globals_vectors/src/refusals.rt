// Commands that are refused, and the run goes on: before a user is let in, what a client alone may
// say, and whatever is recorded behind the end of the connection.
use ssh_link::{CommandOutcome, Refusal};
use ssh_stories::Line::{Asks, Done, Ends, In, Noted, Out, Pong};
use ssh_stories::{
    ACCEPT, ACCEPTED, ALIVE, Around, CONFIRMED, End, Line, Message, NOTHING, OPEN, PASSWORD, Plan,
    QUIET, SERVICE, STANDARD, Story, Turn, Wish,
};
use ssh_wire::Disconnect;
use std::alloc::Global;
use std::test::*;

const NOT_IN: Line<'static> = Done(CommandOutcome::Refused(Refusal::NotAuthenticated));

static BEFORE_LOGIN: Story = Story {
    shows: "nobody forwards before a user is let in, and all else of no channel is done",
    logged_in: false,
    turns: &[
        &[Asks(Wish::Forward("a", 0, Some(5))), NOT_IN],
        &[Asks(Wish::Cancel("a", 0, None)), NOT_IN],
        &[In(SERVICE), Out(ACCEPT)],
        &[Asks(Wish::Forward("a", 0, None)), NOT_IN],
        &[Asks(Wish::Cancel("a", 0, Some(6))), NOT_IN],
        &[Asks(Wish::OpenSession), NOT_IN],
        &[Asks(Wish::Success), ACCEPTED],
        &[Asks(Wish::Failure), ACCEPTED],
        &[
            Asks(Wish::Debug(true, "hi", "en")),
            ACCEPTED,
            Out(b"\x04\x01\0\0\0\x02hi\0\0\0\x02en"),
        ],
        &[Asks(Wish::Keepalive), ACCEPTED, ALIVE],
        &[Asks(Wish::Ping(7)), ACCEPTED, ALIVE],
        // Replies are not read before the login, and those that are refused wait for none.
        &[In(b"\x51")],
        &[In(PASSWORD), Out(b"\x34")],
        &[In(b"\x51")],
        &[In(b"\x51"), Pong(7)],
        &[
            Asks(Wish::Forward("a", 0, Some(5))),
            ACCEPTED,
            Out(b"\x50\0\0\0\x0dtcpip-forward\x01\0\0\0\x01a\0\0\0\0"),
        ],
    ],
    ..STANDARD
};

#[test]
fn nobody_forwards_before_a_user_is_let_in(rt: HostRuntime) {
    assert!(rt; BEFORE_LOGIN.holds(rt.alloc()), "{}", BEFORE_LOGIN.shows);
}

// A user is let in.
const LOGIN: Turn = &[In(SERVICE), Out(ACCEPT), In(PASSWORD), Out(b"\x34")];

// A message is refused so by the command that it means, and as one of a client.
macro_rules! refused {
    ($message:ident, $why:ident) => {
        &[
            Asks(Wish::Means(9, Message::$message)),
            Done(CommandOutcome::Refused(Refusal::$why)),
            Asks(Wish::OfClient(9, Message::$message)),
            Done(CommandOutcome::Refused(Refusal::ClientOnly)),
        ]
    };
}

// Each message, and why the command that it means is refused where there is no channel: one that
// only a client sends is refused for that.
static MESSAGES: [(&str, Turn); 21] = [
    ("Open", refused!(Open, ClientOnly)),
    ("OpenFailure", refused!(OpenFailure, ClientOnly)),
    ("Data", refused!(Data, UnknownChannel)),
    ("ExtendedData", refused!(ExtendedData, UnknownChannel)),
    ("Eof", refused!(Eof, UnknownChannel)),
    ("Close", refused!(Close, UnknownChannel)),
    ("Success", refused!(Success, UnknownChannel)),
    ("Failure", refused!(Failure, UnknownChannel)),
    ("WindowAdjusted", refused!(WindowAdjusted, ClientOnly)),
    ("RequestPty", refused!(RequestPty, ClientOnly)),
    ("RequestShell", refused!(RequestShell, ClientOnly)),
    ("Exec", refused!(Exec, ClientOnly)),
    ("Signal", refused!(Signal, ClientOnly)),
    ("RequestSubsystem", refused!(RequestSubsystem, ClientOnly)),
    ("RequestX11", refused!(RequestX11, ClientOnly)),
    ("SetEnv", refused!(SetEnv, ClientOnly)),
    ("WindowChange", refused!(WindowChange, ClientOnly)),
    ("AgentForward", refused!(AgentForward, ClientOnly)),
    ("XonXoff", refused!(XonXoff, UnknownChannel)),
    ("ExitStatus", refused!(ExitStatus, UnknownChannel)),
    ("ExitSignal", refused!(ExitSignal, UnknownChannel)),
];

// Whether that is so before a login and behind it, and nothing goes out.
fn is_refused(alloc: Global, refused: Turn) -> bool {
    let around = Around {
        logged_in: false,
        first: refused,
        then: LOGIN,
        last: refused,
        ..NOTHING
    };
    around.holds(alloc, None)
}

#[test]
fn what_a_client_alone_may_say(rt: HostRuntime) {
    for (message, refused) in &MESSAGES {
        assert!(rt; is_refused(rt.alloc(), *refused), "{message}");
    }
}

const OVER: Plan = Plan {
    grants: true,
    port: Some(22),
    records: &[
        Wish::Disconnect(Disconnect::ByApplication, "bye", ""),
        Wish::Data(2, b"hello"),
        Wish::Data(9, b"hello"),
        Wish::Eof(2),
        Wish::Close(2),
        Wish::ChannelSuccess(2),
        Wish::Status(2, 0),
        Wish::OpenSession,
        Wish::Forward("a", 0, Some(5)),
        Wish::Cancel("a", 0, None),
        Wish::Keepalive,
        Wish::Ping(7),
        Wish::Success,
        Wish::Failure,
        Wish::Debug(true, "hi", "en"),
        Wish::Disconnect(Disconnect::ProtocolError, "again", "en"),
    ],
    ..QUIET
};

const DISCONNECTED: CommandOutcome = CommandOutcome::Refused(Refusal::Disconnected);

static BEHIND_THE_END: Story = Story {
    shows: "whatever a callback records behind the end of the connection is refused",
    plan: OVER,
    turns: &[
        &[OPEN, Noted(2), CONFIRMED],
        &[
            In(b"\x50\0\0\0\x0dtcpip-forward\x01\0\0\0\x01a\0\0\0\0"),
            Out(b"\x01\0\0\0\x0b\0\0\0\x03bye\0\0\0\0"),
            Ends(End::Over),
        ],
        &[In(b"\x51"), Ends(End::Inconsistent)],
    ],
    asked: Some(b"tcpip_forward a \0\0\0\0\n"),
    done: Some(&[
        (1, DISCONNECTED),
        (2, DISCONNECTED),
        (3, DISCONNECTED),
        (4, DISCONNECTED),
        (5, DISCONNECTED),
        (6, DISCONNECTED),
        (7, DISCONNECTED),
        (8, DISCONNECTED),
        (9, DISCONNECTED),
        (10, DISCONNECTED),
        (11, DISCONNECTED),
        (12, DISCONNECTED),
        (13, DISCONNECTED),
        (14, DISCONNECTED),
        (15, DISCONNECTED),
    ]),
    ..STANDARD
};

#[test]
fn what_is_recorded_behind_the_end(rt: HostRuntime) {
    assert!(rt;
        BEHIND_THE_END.holds(rt.alloc()),
        "{}",
        BEHIND_THE_END.shows
    );
}
