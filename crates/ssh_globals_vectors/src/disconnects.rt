// The end of a connection by this side (RFC 4253 section 11.1): what goes out before it, and that
// nothing does behind it.
use ssh_link::{CommandOutcome, Refusal};
use ssh_stories::Line::{Asks, Ends, In, Keepalive, Noted, On, Out};
use ssh_stories::{
    ACCEPTED, ALIVE, Around, BEHIND_LOGIN, CONFIRMED, End, Line, NOTHING, Plan, QUIET, Run,
    STANDARD, Story, Turn, Wish,
};
use ssh_wire::Disconnect;
use std::alloc::Global;
use std::test::*;

pub(crate) const BYE: Wish = Wish::Disconnect(Disconnect::ByApplication, "bye", "en");

pub(crate) const GONE: Line<'static> = Out(b"\x01\0\0\0\x0b\0\0\0\x03bye\0\0\0\x02en");

// The peer opens a session under its number 7, with credit for 16 bytes.
const OPEN: Line<'static> = In(b"\x5a\0\0\0\x07session\0\0\0\x07\0\0\0\x10\0\0\x80\0");

pub(crate) const OPENED: Turn = &[OPEN, Noted(2), CONFIRMED];

// The peer sends a byte, which is told.
const DATA: Line<'static> = In(b"\x5e\0\0\0\x02\0\0\0\x01a");

pub(crate) const TWENTY: &[u8] = b"twenty bytes of data";

// As many of them as the credit is for.
pub(crate) const SIXTEEN: Line<'static> = On(2, b"\x5e\0\0\0\x07\0\0\0\x10twenty bytes of ");

const BEHIND: (usize, CommandOutcome) = (2, CommandOutcome::Refused(Refusal::Disconnected));

static RUNS: [Run; 5] = [
    Run {
        shows: "data before it go out, and nothing behind it",
        plan: Plan {
            records: &[Wish::Data(2, b"first"), BYE, Wish::Data(2, b"last")],
            ..QUIET
        },
        lines: &[
            OPEN,
            Noted(2),
            CONFIRMED,
            DATA,
            Noted(2),
            On(2, b"\x5e\0\0\0\x07\0\0\0\x05first"),
            GONE,
            Ends(End::Over),
            DATA,
        ],
        done: &[BEHIND],
        ..BEHIND_LOGIN
    },
    Run {
        shows: "data that wait for credit do not go out before it",
        plan: Plan {
            records: &[Wish::Data(2, TWENTY), Wish::Eof(2), BYE],
            ..QUIET
        },
        lines: &[
            OPEN,
            Noted(2),
            CONFIRMED,
            DATA,
            Noted(2),
            SIXTEEN,
            GONE,
            Ends(End::Over),
            In(b"\x5d\0\0\0\x02\0\0\0\x10"),
        ],
        ..BEHIND_LOGIN
    },
    Run {
        shows: "from outside it is answered first",
        lines: &[
            Asks(BYE),
            ACCEPTED,
            GONE,
            Ends(End::Over),
            Asks(Wish::Keepalive),
        ],
        ..BEHIND_LOGIN
    },
    Run {
        shows: "the words and their language may be empty, and any reason is given",
        lines: &[
            Asks(Wish::Disconnect(Disconnect::HostNotAllowedToConnect, "", "")),
            ACCEPTED,
            Out(b"\x01\0\0\0\x01\0\0\0\0\0\0\0\0"),
            Ends(End::Over),
        ],
        ..BEHIND_LOGIN
    },
    Run {
        shows: "behind a tick and a request of the peer",
        lines: &[
            Keepalive,
            ALIVE,
            In(b"\x50\0\0\0\x01x\x01"),
            Out(b"\x52"),
            Asks(BYE),
            ACCEPTED,
            GONE,
            Ends(End::Over),
            Keepalive,
        ],
        ..BEHIND_LOGIN
    },
];

#[test]
fn runs_that_this_side_ends(rt: HostRuntime) {
    for run in &RUNS {
        assert!(rt; run.holds(rt.alloc()), "{}", run.shows);
    }
}

// It ends the connection where it is asked something.
const LEAVING: Plan = Plan {
    grants: true,
    records: &[BYE],
    ..QUIET
};

const LEFT: Turn = &[GONE, Ends(End::Over)];

// Requests behind which no reply goes out, what the link is told, and what the handler is asked.
static UNANSWERED: [(&[u8], Turn, &[u8]); 5] = [
    (
        b"\x62\0\0\0\x02\0\0\0\x1aauth-agent-req@openssh.com\x01",
        &[Noted(2), GONE, Ends(End::Over)],
        b"agent_request\n",
    ),
    (
        b"\x50\0\0\0\x0dtcpip-forward\x01\0\0\0\x01a\0\0\0\0",
        LEFT,
        b"tcpip_forward a \0\0\0\0\n",
    ),
    (
        b"\x50\0\0\0\x14cancel-tcpip-forward\x01\0\0\0\x01a\0\0\0\x16",
        LEFT,
        b"cancel_tcpip_forward a \0\0\0\x16\n",
    ),
    (
        b"\x50\0\0\0\x1fstreamlocal-forward@openssh.com\x01\0\0\0\x01a",
        LEFT,
        b"streamlocal_forward a\n",
    ),
    (
        b"\x50\0\0\0\x26cancel-streamlocal-forward@openssh.com\x01\0\0\0\x01a",
        LEFT,
        b"cancel_streamlocal_forward a\n",
    ),
];

// The session is spent: the next payload is an error.
const SPENT: Turn = &[In(b"\x02"), Ends(End::Inconsistent)];

// Whether behind an open the request leads to this and to the end.
fn are_left(alloc: Global, request: &[u8], told: Turn, asked: &'static [u8]) -> bool {
    let around = Around {
        plan: LEAVING,
        first: OPENED,
        then: told,
        last: SPENT,
        asked,
        ..NOTHING
    };
    around.holds(alloc, Some(In(request)))
}

#[test]
fn requests_whose_callbacks_end_the_connection(rt: HostRuntime) {
    for (request, told, asked) in &UNANSWERED {
        let are_left = are_left(rt.alloc(), *request, *told, *asked);
        assert!(rt; are_left, "{}", asked.escape_ascii());
    }
}

static ANSWERED: Story = Story {
    shows: "a reply that is recorded before the end goes out before it",
    plan: Plan {
        records: &[Wish::Success, BYE, Wish::Failure],
        ..LEAVING
    },
    turns: &[&[
        In(b"\x50\0\0\0\x0dtcpip-forward\x01\0\0\0\x01a\0\0\0\0"),
        Out(b"\x51"),
        GONE,
        Ends(End::Over),
    ]],
    asked: Some(b"tcpip_forward a \0\0\0\0\n"),
    done: Some(&[BEHIND]),
    ..STANDARD
};

#[test]
fn a_reply_before_the_end(rt: HostRuntime) {
    assert!(rt; ANSWERED.holds(rt.alloc()), "{}", ANSWERED.shows);
}
