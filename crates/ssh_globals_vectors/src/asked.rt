// Global requests of the peer: how they are read, asked about and answered (RFC 4254 sections 4 and
// 7.1, OpenSSH PROTOCOL section 2.4).
use ssh_stories::Line::{Ends, Forwarded, In, Out, Parts};
use ssh_stories::{
    ACCEPT, ALIVE, Around, End, NOTHING, Plan, QUIET, SERVICE, STANDARD, Story, Turn, Wish,
};
use std::alloc::Global;
use std::test::*;

// Requests that have a callback: the name with its length, what stands behind the flag, and how it
// is asked about.
static KNOWN: [(&[u8], &[u8], &[u8]); 6] = [
    (
        b"\0\0\0\x0dtcpip-forward",
        b"\0\0\0\x09localhost\0\0\0\x16",
        b"tcpip_forward localhost \0\0\0\x16\n",
    ),
    (
        b"\0\0\0\x0dtcpip-forward",
        b"\0\0\0\0\0\0\0\0",
        b"tcpip_forward  \0\0\0\0\n",
    ),
    (
        b"\0\0\0\x14cancel-tcpip-forward",
        b"\0\0\0\x070.0.0.0\0\0\x1f\x90",
        b"cancel_tcpip_forward 0.0.0.0 \0\0\x1f\x90\n",
    ),
    (
        b"\0\0\0\x14cancel-tcpip-forward",
        b"\0\0\0\0\xff\xff\xff\xff",
        b"cancel_tcpip_forward  \xff\xff\xff\xff\n",
    ),
    (
        b"\0\0\0\x1fstreamlocal-forward@openssh.com",
        b"\0\0\0\x0a/run/agent",
        b"streamlocal_forward /run/agent\n",
    ),
    (
        b"\0\0\0\x26cancel-streamlocal-forward@openssh.com",
        b"\0\0\0\x0a/run/agent",
        b"cancel_streamlocal_forward /run/agent\n",
    ),
];

const GRANTED: Turn = &[Out(b"\x51")];

const REFUSED: Turn = &[Out(b"\x52")];

// It does not fit its layout.
const MISFIT: Turn = &[Ends(End::Encoding)];

const GENEROUS: Plan = Plan {
    grants: true,
    ..QUIET
};

// A request behind a login: the name with its length, the flag, and what stands behind it.
type Request = (&'static [u8], &'static [u8], &'static [u8]);

fn length((name, _, rest): Request) -> usize {
    name.len().saturating_add(rest.len()).saturating_add(2)
}

// Whether this comes of so many bytes of a request and a byte behind it, and the handler, which has
// this plan, is asked this.
fn comes_of_bytes(
    alloc: Global,
    plan: Plan,
    (name, flag, rest): Request,
    count: usize,
    (told, asked): (Turn, &'static [u8]),
) -> bool {
    let around = Around {
        plan,
        then: told,
        asked,
        ..NOTHING
    };
    let parts: [&'static [u8]; 5] = [b"\x50", name, flag, rest, b"\0"];
    around.holds(alloc, Some(Parts(&parts, count)))
}

// Whether this comes of the request.
fn comes_of(alloc: Global, plan: Plan, request: Request, told: (Turn, &'static [u8])) -> bool {
    comes_of_bytes(alloc, plan, request, length(request), told)
}

// The flags of a request that wants a reply, and of one that wants none.
const WANTS: &[u8] = b"\x01";

const ANY: &[u8] = b"\xff";

const WANTS_NONE: &[u8] = b"\0";

// A flag, whether the callback grants it, what it records, and what goes out.
static REPLIES: [(&[u8], bool, &[Wish], Turn); 11] = [
    (WANTS, true, &[], GRANTED),
    (WANTS, false, &[], REFUSED),
    (ANY, true, &[], GRANTED),
    (ANY, false, &[], REFUSED),
    (WANTS_NONE, true, &[], &[]),
    (WANTS_NONE, false, &[], &[]),
    // A reply that the callback records is the only one, and the first of two is.
    (WANTS, false, &[Wish::Success], GRANTED),
    (WANTS, true, &[Wish::Failure], REFUSED),
    (
        WANTS,
        true,
        &[Wish::Failure, Wish::Success, Wish::Failure],
        REFUSED,
    ),
    // None is recorded where none is wanted.
    (WANTS_NONE, true, &[Wish::Success, Wish::Failure], &[]),
    // What it records goes out before the reply.
    (WANTS, true, &[Wish::Keepalive], &[ALIVE, Out(b"\x51")]),
];

// Whether the request leads to each reply, and the handler is asked this.
fn are_answered(
    alloc: Global,
    name: &'static [u8],
    rest: &'static [u8],
    asked: &'static [u8],
) -> bool {
    for (flag, grants, records, told) in &REPLIES {
        let plan = Plan {
            grants: *grants,
            records: *records,
            ..QUIET
        };
        if !comes_of(alloc, plan, (name, *flag, rest), (*told, asked)) {
            return false;
        }
    }
    true
}

#[test]
fn requests_are_asked_about_and_answered(rt: HostRuntime) {
    for (name, rest, asked) in &KNOWN {
        let are_answered = are_answered(rt.alloc(), *name, *rest, *asked);
        assert!(rt; are_answered, "{}", asked.escape_ascii());
    }
}

// Whether it fits no more without its last bytes, however many, or with a byte behind it; and
// nobody is asked then.
fn fits_alone(alloc: Global, request: Request) -> bool {
    let whole = length(request);
    for count in 1..whole.saturating_add(2) {
        let is_misfit = comes_of_bytes(alloc, GENEROUS, request, count, (MISFIT, b""));
        if is_misfit == (count == whole) {
            return false;
        }
    }
    true
}

#[test]
fn requests_that_do_not_fit_their_layout(rt: HostRuntime) {
    let alloc = rt.alloc();
    for (name, rest, asked) in &KNOWN {
        let fits = fits_alone(alloc, (*name, WANTS, *rest))
            && fits_alone(alloc, (*name, WANTS_NONE, *rest));
        assert!(rt; fits, "{}", asked.escape_ascii());
    }
}

// Names and what stands behind the flag, where a text is none.
static NO_TEXTS: [(&[u8], &[u8]); 5] = [
    (b"\0\0\0\x01\xff", b""),
    (b"\0\0\0\x0dtcpip-forward", b"\0\0\0\x01\xff\0\0\0\x16"),
    (
        b"\0\0\0\x14cancel-tcpip-forward",
        b"\0\0\0\x02a\xff\0\0\0\x16",
    ),
    (
        b"\0\0\0\x1fstreamlocal-forward@openssh.com",
        b"\0\0\0\x01\xff",
    ),
    (
        b"\0\0\0\x26cancel-streamlocal-forward@openssh.com",
        b"\0\0\0\x01\xff",
    ),
];

#[test]
fn requests_whose_texts_are_none(rt: HostRuntime) {
    for (name, rest) in &NO_TEXTS {
        let is_misfit = comes_of(rt.alloc(), GENEROUS, (*name, WANTS, *rest), (MISFIT, b""));
        assert!(rt; is_misfit, "{}", rest.escape_ascii());
    }
}

// What stands behind the flag of a request to forward, how it is asked about, whether it is
// granted, the port that is bound, and the reply.
static PORTS: [(&[u8], &[u8], bool, Option<u32>, Turn); 10] = [
    (
        NO_PORT,
        NO_PORT_ASKED,
        true,
        Some(4022),
        &[Out(b"\x51\0\0\x0f\xb6")],
    ),
    (
        NO_PORT,
        NO_PORT_ASKED,
        true,
        Some(u32::MAX),
        &[Out(b"\x51\xff\xff\xff\xff")],
    ),
    (NO_PORT, NO_PORT_ASKED, true, Some(0), GRANTED),
    (NO_PORT, NO_PORT_ASKED, true, None, GRANTED),
    (PORT_22, PORT_22_ASKED, true, Some(4022), GRANTED),
    (PORT_22, PORT_22_ASKED, true, Some(22), GRANTED),
    (PORT_22, PORT_22_ASKED, true, Some(0), GRANTED),
    (
        b"\0\0\0\0\xff\xff\xff\xff",
        b"tcpip_forward  \xff\xff\xff\xff\n",
        true,
        Some(1),
        GRANTED,
    ),
    (NO_PORT, NO_PORT_ASKED, false, Some(4022), REFUSED),
    (PORT_22, PORT_22_ASKED, false, Some(4022), REFUSED),
];

// Every address, and a port that this side is to choose.
const NO_PORT: &[u8] = b"\0\0\0\0\0\0\0\0";

const NO_PORT_ASKED: &[u8] = b"tcpip_forward  \0\0\0\0\n";

const PORT_22: &[u8] = b"\0\0\0\0\0\0\0\x16";

const PORT_22_ASKED: &[u8] = b"tcpip_forward  \0\0\0\x16\n";

const FORWARD: &[u8] = b"\0\0\0\x0dtcpip-forward";

// Whether the reply to a request is this, and none where none is wanted; and the handler is asked
// this.
fn is_replied(
    alloc: Global,
    plan: Plan,
    (name, rest): (&'static [u8], &'static [u8]),
    reply: Turn,
    asked: &'static [u8],
) -> bool {
    comes_of(alloc, plan, (name, WANTS, rest), (reply, asked))
        && comes_of(alloc, plan, (name, WANTS_NONE, rest), (&[], asked))
}

#[test]
fn the_port_is_told_where_this_side_chose_it(rt: HostRuntime) {
    for (place, (rest, asked, grants, port, reply)) in PORTS.iter().enumerate() {
        let plan = Plan {
            grants: *grants,
            port: *port,
            ..QUIET
        };
        let request = (FORWARD, *rest);
        assert!(rt;
            is_replied(rt.alloc(), plan, request, *reply, *asked),
            "{place}"
        );
    }
}

// Names that no callback is for, and what stands behind the flag.
static UNKNOWN: [(&[u8], &[u8]); 7] = [
    (b"\0\0\0\x01x", b""),
    (b"\0\0\0\0", b"\xff"),
    (b"\0\0\0\x15keepalive@openssh.com", b""),
    (b"\0\0\0\x17hostkeys-00@openssh.com", b"\xff\xff\xff\xff"),
    (b"\0\0\0\x0dTcpip-forward", b"\0\0\0\0\0\0\0\x16"),
    (b"\0\0\0\x0etcpip-forward ", b"\0\0\0\0\0\0\0\x16"),
    (b"\0\0\0\x13streamlocal-forward", b"\0\0\0\x01a"),
];

// Nobody is asked about it, and it is refused where the peer wants a reply.
#[test]
fn requests_that_are_not_known(rt: HostRuntime) {
    for (name, rest) in &UNKNOWN {
        let is_refused = is_replied(rt.alloc(), GENEROUS, (*name, *rest), REFUSED, b"");
        assert!(rt; is_refused, "{}", name.escape_ascii());
    }
}

static AROUND: [Story; 3] = [
    Story {
        shows: "before a user is let in requests and replies are not read",
        logged_in: false,
        plan: GENEROUS,
        turns: &[
            &[In(b"\x50")],
            &[In(b"\x50\0\0\0\x01x\x01")],
            &[In(b"\x51\0")],
            &[In(b"\x52\0")],
            &[In(SERVICE), Out(ACCEPT)],
            &[In(b"\x50\0\0\0\x0dtcpip-forward\x01\0\0\0\0\0\0\0\0")],
            &[In(b"\x52\0")],
        ],
        ..STANDARD
    },
    Story {
        shows: "one request after another, and each has its reply",
        plan: Plan {
            port: Some(4022),
            ..GENEROUS
        },
        turns: &[
            &[
                In(b"\x50\0\0\0\x0dtcpip-forward\x01\0\0\0\x01a\0\0\0\0"),
                Out(b"\x51\0\0\x0f\xb6"),
            ],
            &[In(b"\x50\0\0\0\x1cno-more-sessions@openssh.com\0")],
            &[In(b"\x50\0\0\0\x01x\x01"), Out(b"\x52")],
            &[
                In(b"\x50\0\0\0\x14cancel-tcpip-forward\x01\0\0\0\x01a\0\0\0\0"),
                Out(b"\x51"),
            ],
        ],
        asked: Some(b"tcpip_forward a \0\0\0\0\ncancel_tcpip_forward a \0\0\0\0\n"),
        ..STANDARD
    },
    Story {
        shows: "a forward of this side that is asked for by a callback has its reply",
        plan: Plan {
            records: &[Wish::Forward("b", 22, Some(9))],
            ..GENEROUS
        },
        turns: &[
            &[
                In(b"\x50\0\0\0\x0dtcpip-forward\0\0\0\0\x01a\0\0\0\x16"),
                Out(b"\x50\0\0\0\x0dtcpip-forward\x01\0\0\0\x01b\0\0\0\x16"),
            ],
            &[In(b"\x51"), Forwarded(9, Some(0))],
        ],
        asked: Some(b"tcpip_forward a \0\0\0\x16\n"),
        ..STANDARD
    },
];

#[test]
fn requests_in_their_time(rt: HostRuntime) {
    for story in &AROUND {
        assert!(rt; story.holds(rt.alloc()), "{}", story.shows);
    }
}
