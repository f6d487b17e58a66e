// Messages of no channel that this side sends, and the peer's replies to them (RFC 4254 sections 4
// and 7.1, RFC 4253 section 11.3).
use ssh_stories::Line::{Asks, Cancelled, Ends, Forwarded, In, Keepalive, Out, Pong};
use ssh_stories::{ACCEPTED, ALIVE, Around, End, Line, NOTHING, STANDARD, Story, Turn, Wish};
use std::alloc::Global;
use std::test::*;

// Commands from outside, and what the link is told of each, in a session of its own.
static SAID: [(Wish, Turn); 12] = [
    (
        Wish::Forward("0.0.0.0", 8080, None),
        &[
            ACCEPTED,
            Out(b"\x50\0\0\0\x0dtcpip-forward\0\0\0\0\x070.0.0.0\0\0\x1f\x90"),
        ],
    ),
    (
        Wish::Forward("0.0.0.0", 8080, Some(5)),
        &[
            ACCEPTED,
            Out(b"\x50\0\0\0\x0dtcpip-forward\x01\0\0\0\x070.0.0.0\0\0\x1f\x90"),
        ],
    ),
    (
        Wish::Forward("", 0, Some(0)),
        &[
            ACCEPTED,
            Out(b"\x50\0\0\0\x0dtcpip-forward\x01\0\0\0\0\0\0\0\0"),
        ],
    ),
    (
        Wish::Cancel("localhost", 22, None),
        &[
            ACCEPTED,
            Out(b"\x50\0\0\0\x14cancel-tcpip-forward\0\0\0\0\x09localhost\0\0\0\x16"),
        ],
    ),
    (
        Wish::Cancel("localhost", u32::MAX, Some(u64::MAX)),
        &[
            ACCEPTED,
            Out(b"\x50\0\0\0\x14cancel-tcpip-forward\x01\0\0\0\x09localhost\xff\xff\xff\xff"),
        ],
    ),
    (Wish::Keepalive, &[ACCEPTED, ALIVE]),
    (Wish::Ping(3), &[ACCEPTED, ALIVE]),
    (
        Wish::Debug(true, "hi", "en"),
        &[ACCEPTED, Out(b"\x04\x01\0\0\0\x02hi\0\0\0\x02en")],
    ),
    (
        Wish::Debug(false, "", ""),
        &[ACCEPTED, Out(b"\x04\0\0\0\0\0\0\0\0\0")],
    ),
    // A text of three bytes.
    (
        Wish::Debug(false, "\u{20ac}", "de"),
        &[ACCEPTED, Out(b"\x04\0\0\0\0\x03\xe2\x82\xac\0\0\0\x02de")],
    ),
    // No reply goes out where the peer wants none.
    (Wish::Success, &[ACCEPTED]),
    (Wish::Failure, &[ACCEPTED]),
];

// Whether that is told of the line behind these, and the handler is asked nothing.
fn is_told(alloc: Global, first: Turn, line: Line<'_>, then: Turn) -> bool {
    let around = Around {
        first,
        then,
        ..NOTHING
    };
    around.holds(alloc, Some(line))
}

#[test]
fn what_goes_out_for_commands(rt: HostRuntime) {
    for (place, (wish, told)) in SAID.iter().enumerate() {
        assert!(rt; is_told(rt.alloc(), &[], Asks(*wish), *told), "{place}");
    }
}

// Requests of this side that wait for their replies, one of each kind.
const KEEPALIVE_ASKED: Turn = &[Asks(Wish::Keepalive), ACCEPTED, ALIVE];

const FORWARD_ASKED: Turn = &[
    Asks(Wish::Forward("a", 0, Some(5))),
    ACCEPTED,
    Out(b"\x50\0\0\0\x0dtcpip-forward\x01\0\0\0\x01a\0\0\0\0"),
];

const CANCEL_ASKED: Turn = &[
    Asks(Wish::Cancel("a", 0, Some(6))),
    ACCEPTED,
    Out(b"\x50\0\0\0\x14cancel-tcpip-forward\x01\0\0\0\x01a\0\0\0\0"),
];

const PING_ASKED: Turn = &[Asks(Wish::Ping(7)), ACCEPTED, ALIVE];

const TICK: Turn = &[Keepalive, ALIVE];

// Both replies without anything behind their numbers, which are told to nobody.
const SUCCESS: Turn = &[In(b"\x51")];

const FAILURE: Turn = &[In(b"\x52")];

static REPLIED: [Story; 6] = [
    Story {
        shows: "successes come in the order of the requests; behind the last they do nothing",
        turns: &[
            KEEPALIVE_ASKED,
            FORWARD_ASKED,
            CANCEL_ASKED,
            PING_ASKED,
            SUCCESS,
            &[In(b"\x51\0\0\x0f\xb6"), Forwarded(5, Some(4022))],
            &[In(b"\x51"), Cancelled(6, true)],
            &[In(b"\x51"), Pong(7)],
            SUCCESS,
            &[In(b"\x51\0\0\x0f\xb6")],
            &[In(b"\x51\0")],
            FAILURE,
            &[In(b"\x52\0"), Ends(End::Encoding)],
        ],
        ..STANDARD
    },
    Story {
        shows: "failures come in the same order",
        turns: &[
            PING_ASKED,
            CANCEL_ASKED,
            FORWARD_ASKED,
            KEEPALIVE_ASKED,
            &[In(b"\x52"), Pong(7)],
            &[In(b"\x52"), Cancelled(6, false)],
            &[In(b"\x52"), Forwarded(5, None)],
            FAILURE,
            FAILURE,
            &[In(b"\x51\xff")],
        ],
        ..STANDARD
    },
    Story {
        shows: "a tick asks too, and its reply is told to nobody",
        turns: &[
            TICK,
            FORWARD_ASKED,
            SUCCESS,
            &[In(b"\x51\0\0\x0f\xb6"), Forwarded(5, Some(4022))],
            SUCCESS,
        ],
        ..STANDARD
    },
    Story {
        shows: "a forward without a slot waits for nothing",
        turns: &[
            &[
                Asks(Wish::Forward("a", 0, None)),
                ACCEPTED,
                Out(b"\x50\0\0\0\x0dtcpip-forward\0\0\0\0\x01a\0\0\0\0"),
            ],
            &[
                Asks(Wish::Cancel("a", 0, None)),
                ACCEPTED,
                Out(b"\x50\0\0\0\x14cancel-tcpip-forward\0\0\0\0\x01a\0\0\0\0"),
            ],
            PING_ASKED,
            &[In(b"\x51"), Pong(7)],
            &[In(b"\x51\0\0\0\x01")],
        ],
        ..STANDARD
    },
    Story {
        shows: "requests of the peer and messages of others between do not matter",
        turns: &[
            FORWARD_ASKED,
            &[In(b"\x50\0\0\0\x01x\x01"), Out(b"\x52")],
            &[Asks(Wish::Success), ACCEPTED],
            &[In(b"\x02")],
            &[In(b"")],
            &[In(b"\x52"), Forwarded(5, None)],
        ],
        ..STANDARD
    },
    Story {
        shows: "one slot may have two requests, and each is told",
        turns: &[
            PING_ASKED,
            PING_ASKED,
            &[In(b"\x52"), Pong(7)],
            &[In(b"\x51"), Pong(7)],
            SUCCESS,
        ],
        ..STANDARD
    },
];

#[test]
fn replies_to_requests_of_this_side(rt: HostRuntime) {
    for story in &REPLIED {
        assert!(rt; story.holds(rt.alloc()), "{}", story.shows);
    }
}

const MISFIT: Turn = &[Ends(End::Encoding)];

// The request that waits, the reply, and what comes of it.
static RESTS: [(Turn, &[u8], Turn); 16] = [
    (FORWARD_ASKED, b"\x51", &[Forwarded(5, Some(0))]),
    (FORWARD_ASKED, b"\x51\0", &[Forwarded(5, None)]),
    (FORWARD_ASKED, b"\x51\0\x0f\xb6", &[Forwarded(5, None)]),
    (
        FORWARD_ASKED,
        b"\x51\0\0\x0f\xb6",
        &[Forwarded(5, Some(4022))],
    ),
    (FORWARD_ASKED, b"\x51\0\0\0\0", &[Forwarded(5, Some(0))]),
    (
        FORWARD_ASKED,
        b"\x51\xff\xff\xff\xff",
        &[Forwarded(5, Some(u32::MAX))],
    ),
    (FORWARD_ASKED, b"\x51\0\0\x0f\xb6\0", &[Forwarded(5, None)]),
    (FORWARD_ASKED, b"\x52", &[Forwarded(5, None)]),
    // The other replies have nothing behind their number.
    (FORWARD_ASKED, b"\x52\0", MISFIT),
    (KEEPALIVE_ASKED, b"\x51\0", MISFIT),
    (KEEPALIVE_ASKED, b"\x52\0", MISFIT),
    (CANCEL_ASKED, b"\x51\0", MISFIT),
    (CANCEL_ASKED, b"\x52\0", MISFIT),
    (PING_ASKED, b"\x51\0\0\x0f\xb6", MISFIT),
    (PING_ASKED, b"\x52\0", MISFIT),
    (TICK, b"\x51\0", MISFIT),
];

#[test]
fn what_stands_behind_the_number_of_a_reply(rt: HostRuntime) {
    for (place, (asked, reply, comes)) in RESTS.iter().enumerate() {
        let is_told = is_told(rt.alloc(), *asked, In(*reply), *comes);
        assert!(rt; is_told, "{place}");
    }
}
