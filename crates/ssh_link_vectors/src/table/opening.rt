// Numbers, opens and confirmations.
use super::{Answer, Call, Row, Way, holds};
use ssh_channels::{Adjusted, TableError};
use std::test::*;

static DRAWN: [Row; 1] = [Row {
    shows: "no number is drawn again while it is pending or live",
    calls: &[
        (Call::Draw, Answer::Number(2)),
        (Call::Draw, Answer::Number(3)),
        (Call::DropPending(2), Answer::Is(true)),
        (Call::DropPending(2), Answer::Is(false)),
        (Call::Insert(5, 7, 1024, 1024), Answer::Is(true)),
        (Call::Draw, Answer::Number(4)),
        (Call::Draw, Answer::Number(6)),
        (
            Call::Insert(4, 7, 1024, 0),
            Answer::Refused(TableError::Inconsistent),
        ),
        (Call::Insert(4, 7, 1024, 1024), Answer::Is(true)),
        (Call::DropPending(4), Answer::Is(false)),
        (Call::Insert(4, 7, 1024, 1024), Answer::Is(false)),
    ],
    sink: &[],
    staged: &[],
}];

#[test]
fn a_number_is_drawn_once(rt: HostRuntime) {
    for row in &DRAWN {
        assert!(rt; holds(rt.alloc(), *row) == Ok(true), "{}", row.shows);
    }
}

static OPENED: [Row; 4] = [
    Row {
        shows: "a channel comes with its frame, and a live number takes neither",
        calls: &[
            (Call::Draw, Answer::Number(2)),
            (Call::InsertWith(2, 7, 1024, 1024), Answer::Is(true)),
            (Call::InsertWith(2, 7, 1024, 1024), Answer::Is(false)),
            (
                Call::Accept(9, 3, 0),
                Answer::Refused(TableError::Inconsistent),
            ),
            (Call::Accept(9, 3, 1024), Answer::Number(3)),
            (Call::Data(3, Way::Staged, b"hello"), Answer::Is(true)),
            (Call::Look(3), Answer::Line(8, 0, true, false, false)),
        ],
        sink: &[],
        staged: &[
            (Some(2), b"\x5b"),
            (Some(3), b"\x5b"),
            (Some(3), b"\x5e\0\0\0\x09\0\0\0\x03hel"),
        ],
    },
    Row {
        shows: "a packet size of 0 is refused, so neither staged nor direct data go out",
        calls: &[
            (
                Call::Insert(2, 44, 1024, 0),
                Answer::Refused(TableError::Inconsistent),
            ),
            (Call::Data(2, Way::Staged, b"a"), Answer::Is(false)),
            (Call::Data(2, Way::ToSink, b"a"), Answer::Is(false)),
        ],
        sink: &[],
        staged: &[],
    },
    Row {
        shows: "a channel that is opened sends nothing until it is confirmed, which it is once",
        calls: &[
            (Call::Open, Answer::Number(2)),
            (Call::Data(2, Way::Staged, b"a"), Answer::Is(false)),
            (
                Call::Confirm(2, 0),
                Answer::Refused(TableError::Inconsistent),
            ),
            (Call::CanSend(2), Answer::Is(false)),
            (Call::Confirm(2, 1024), Answer::Is(true)),
            (Call::Confirm(2, 1024), Answer::Is(false)),
            (Call::Data(2, Way::Staged, b"hello"), Answer::Is(true)),
            (Call::Look(2), Answer::Line(8, 0, true, false, false)),
        ],
        sink: &[],
        staged: &[(Some(2), b"\x5e\0\0\0\x2c\0\0\0\x03hel")],
    },
    Row {
        shows: "a refused open is gone, and on no channel is anything done",
        calls: &[
            (Call::Open, Answer::Number(2)),
            (Call::PeerClose(2), Answer::Is(false)),
            (Call::Byte(2, 99), Answer::Is(false)),
            (Call::Adjust(2, b""), Answer::Room(Adjusted::Dropped)),
            (Call::FailOpen(2), Answer::Is(true)),
            (Call::FailOpen(2), Answer::Is(false)),
            (Call::Aim(2, 8), Answer::Is(false)),
            (Call::Grant(2, 1), Answer::Credit(None)),
            (Call::FlushPending(2), Answer::Framed(0)),
            (Call::Look(2), Answer::NoLine),
        ],
        sink: &[],
        staged: &[],
    },
];

#[test]
fn an_open_is_confirmed_once_or_refused(rt: HostRuntime) {
    for row in &OPENED {
        assert!(rt; holds(rt.alloc(), *row) == Ok(true), "{}", row.shows);
    }
}
