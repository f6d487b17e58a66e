// What each side grants the other.
use super::{Answer, Call, Row, Way, holds};
use ssh_channels::Adjusted;
use std::test::*;

static RAISED: [Row; 3] = [
    Row {
        shows: "the room is raised once less than half of it is left, and larger data are dropped",
        calls: &[
            (Call::Insert(2, 7, 1024, 1024), Answer::Is(true)),
            (Call::Adjust(2, b"abcd"), Answer::Room(Adjusted::Kept)),
            (Call::Look(2), Answer::Line(4, 1024, false, false, false)),
            (Call::Adjust(2, b"e"), Answer::Room(Adjusted::Granted(5))),
            (
                Call::Adjust(2, b"123456789"),
                Answer::Room(Adjusted::Dropped),
            ),
            (Call::Look(2), Answer::Line(8, 1024, false, false, false)),
        ],
        sink: &[],
        staged: &[(Some(2), b"\x5d\0\0\0\x07\0\0\0\x05")],
    },
    Row {
        shows: "each channel is filled up to a target of its own, which is its first room",
        calls: &[
            (Call::Insert(2, 7, 1024, 1024), Answer::Is(true)),
            (Call::Insert(3, 9, 1024, 1024), Answer::Is(true)),
            (Call::Target(2), Answer::Target(8)),
            (Call::Aim(2, 16), Answer::Is(true)),
            (Call::Adjust(2, b"a"), Answer::Room(Adjusted::Granted(9))),
            (Call::Adjust(3, b"a"), Answer::Room(Adjusted::Kept)),
            (Call::Target(2), Answer::Target(16)),
            (Call::Target(3), Answer::Target(8)),
            (Call::Aim(4, 16), Answer::Is(false)),
            (Call::Target(4), Answer::Target(0)),
            (Call::Open, Answer::Number(4)),
            (Call::Target(4), Answer::Target(8)),
        ],
        sink: &[],
        staged: &[(Some(2), b"\x5d\0\0\0\x07\0\0\0\x09")],
    },
    Row {
        shows: "the credit stays at its end, and a grant lets out first what waits",
        calls: &[
            (Call::Insert(2, 7, 4294967295, 1024), Answer::Is(true)),
            (Call::Grant(2, 1), Answer::Credit(Some(4294967295))),
            (Call::Data(2, Way::InExchange, b"hello"), Answer::Is(true)),
            (
                Call::GrantInExchange(2, 5),
                Answer::Credit(Some(4294967295)),
            ),
        ],
        sink: &[],
        staged: &[(Some(2), b"\x5e\0\0\0\x07\0\0\0\x05hello")],
    },
];

#[test]
fn the_room_and_the_credit_are_raised(rt: HostRuntime) {
    for row in &RAISED {
        assert!(rt; holds(rt.alloc(), *row) == Ok(true), "{}", row.shows);
    }
}
