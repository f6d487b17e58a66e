// Replies to requests of the peer.
use super::{Answer, Call, Row, holds};
use std::test::*;

static REPLIED: [Row; 6] = [
    Row {
        shows: "replies go out in the order of the requests, and not of their answers",
        calls: &[
            (Call::Insert(2, 7, 8, 1024), Answer::Is(true)),
            (Call::Request(2), Answer::Place(Some(0))),
            (Call::Request(2), Answer::Place(Some(1))),
            (Call::Request(2), Answer::Place(Some(2))),
            (Call::Settle(2, Some(2), true), Answer::Is(true)),
            (Call::Settle(2, Some(1), false), Answer::Is(true)),
            (Call::StageSuccess, Answer::Done),
            (Call::Settle(2, Some(0), true), Answer::Is(true)),
        ],
        sink: &[],
        staged: &[
            (None, b"\x51"),
            (Some(2), b"\x63\0\0\0\x07"),
            (Some(2), b"\x64\0\0\0\x07"),
            (Some(2), b"\x63\0\0\0\x07"),
        ],
    },
    Row {
        shows: "without a place the first that is owed is settled, and holds back those behind it",
        calls: &[
            (Call::Insert(2, 7, 8, 1024), Answer::Is(true)),
            (Call::Request(2), Answer::Place(Some(0))),
            (Call::Request(2), Answer::Place(Some(1))),
            (Call::Request(2), Answer::Place(Some(2))),
            (Call::Request(2), Answer::Place(Some(3))),
            (Call::Settle(2, Some(2), false), Answer::Is(true)),
            (Call::Settle(2, None, true), Answer::Is(true)),
            (Call::StageSuccess, Answer::Done),
            (Call::Settle(2, None, true), Answer::Is(true)),
        ],
        sink: &[],
        staged: &[
            (Some(2), b"\x63\0\0\0\x07"),
            (None, b"\x51"),
            (Some(2), b"\x63\0\0\0\x07"),
            (Some(2), b"\x64\0\0\0\x07"),
        ],
    },
    Row {
        shows: "a reply is settled once, sent or not, and none before it is wanted",
        calls: &[
            (Call::Insert(2, 7, 8, 1024), Answer::Is(true)),
            (Call::Settle(2, None, true), Answer::Is(false)),
            (Call::Request(2), Answer::Place(Some(0))),
            (Call::Request(2), Answer::Place(Some(1))),
            (Call::Settle(2, Some(2), true), Answer::Is(false)),
            (Call::Settle(2, Some(1), true), Answer::Is(true)),
            (Call::Settle(2, Some(1), false), Answer::Is(false)),
            (Call::Settle(2, None, false), Answer::Is(true)),
            (Call::Settle(2, Some(0), false), Answer::Is(false)),
            (Call::Settle(2, None, false), Answer::Is(false)),
        ],
        sink: &[],
        staged: &[(Some(2), b"\x64\0\0\0\x07"), (Some(2), b"\x63\0\0\0\x07")],
    },
    Row {
        shows: "each channel has replies of its own",
        calls: &[
            (Call::Insert(2, 7, 8, 1024), Answer::Is(true)),
            (Call::Insert(3, 9, 8, 1024), Answer::Is(true)),
            (Call::Request(2), Answer::Place(Some(0))),
            (Call::Request(3), Answer::Place(Some(0))),
            (Call::Settle(3, None, false), Answer::Is(true)),
            (Call::Settle(3, None, true), Answer::Is(false)),
            (Call::Settle(2, Some(0), true), Answer::Is(true)),
        ],
        sink: &[],
        staged: &[(Some(3), b"\x64\0\0\0\x09"), (Some(2), b"\x63\0\0\0\x07")],
    },
    Row {
        shows: "none is wanted where no channel is, or one that waits for its confirmation",
        calls: &[
            (Call::Open, Answer::Number(2)),
            (Call::Request(2), Answer::Place(None)),
            (Call::Settle(2, None, true), Answer::Is(false)),
            (Call::Request(3), Answer::Place(None)),
            (Call::Settle(3, None, true), Answer::Is(false)),
            (Call::Confirm(2, 1024), Answer::Is(true)),
            (Call::Request(2), Answer::Place(Some(0))),
        ],
        sink: &[],
        staged: &[],
    },
    Row {
        shows: "those that are owed are gone with their channel",
        calls: &[
            (Call::Insert(2, 7, 8, 1024), Answer::Is(true)),
            (Call::Request(2), Answer::Place(Some(0))),
            (Call::PeerClose(2), Answer::Is(true)),
            (Call::Insert(2, 8, 8, 1024), Answer::Is(true)),
            (Call::Settle(2, Some(0), true), Answer::Is(false)),
            (Call::Request(2), Answer::Place(Some(0))),
            (Call::Settle(2, Some(0), true), Answer::Is(true)),
        ],
        sink: &[],
        staged: &[(Some(2), b"\x61\0\0\0\x07"), (Some(2), b"\x63\0\0\0\x08")],
    },
];

#[test]
fn replies_go_out_in_the_order_of_the_requests(rt: HostRuntime) {
    for row in &REPLIED {
        assert!(rt; holds(rt.alloc(), *row) == Ok(true), "{}", row.shows);
    }
}
