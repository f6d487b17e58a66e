// What goes out, and what waits.
use super::{Answer, Call, Row, Way, holds, is_sent, line};
use bytes::Bytes;
use ssh_channels::{ChannelParams, Encrypted, FrameSink};
use ssh_link::Frame;
use ssh_wire::{ChannelId, WireError};
use std::alloc::Global;
use std::test::*;

static WAITING: [Row; 4] = [
    Row {
        shows: "the rest of the data, EOF and CLOSE wait for a grant",
        calls: &[
            (Call::Insert(2, 44, 3, 1024), Answer::Is(true)),
            (Call::Data(2, Way::Staged, b"hello"), Answer::Is(true)),
            (Call::Eof(2), Answer::Is(true)),
            (Call::Close(2), Answer::Is(true)),
            (Call::Look(2), Answer::Line(8, 0, true, true, true)),
            (Call::Grant(2, 2), Answer::Credit(Some(0))),
            (Call::Look(2), Answer::NoLine),
        ],
        sink: &[],
        staged: &[
            (Some(2), b"\x5e\0\0\0\x2c\0\0\0\x03hel"),
            (Some(2), b"\x5e\0\0\0\x2c\0\0\0\x02lo"),
            (Some(2), b"\x60\0\0\0\x2c"),
            (Some(2), b"\x61\0\0\0\x2c"),
        ],
    },
    Row {
        shows: "a credit of 3 lets 3 bytes out, and EOF and CLOSE stay behind the rest",
        calls: &[
            (Call::Insert(2, 44, 3, 1024), Answer::Is(true)),
            (Call::Data(2, Way::InExchange, b"hello"), Answer::Is(true)),
            (Call::Eof(2), Answer::Is(true)),
            (Call::Close(2), Answer::Is(true)),
            (Call::FlushPending(2), Answer::Framed(3)),
            (Call::Look(2), Answer::Line(8, 0, true, true, true)),
        ],
        sink: &[],
        staged: &[(Some(2), b"\x5e\0\0\0\x2c\0\0\0\x03hel")],
    },
    Row {
        shows: "pieces of the packet size, and extended data in the same queue",
        calls: &[
            (Call::Insert(2, 7, 7, 4), Answer::Is(true)),
            (Call::Data(2, Way::Staged, b"abcdefghij"), Answer::Is(true)),
            (Call::Extended(2, 1, Way::Staged, b"kl"), Answer::Is(true)),
            (Call::Grant(2, 9), Answer::Credit(Some(4))),
        ],
        sink: &[],
        staged: &[
            (Some(2), b"\x5e\0\0\0\x07\0\0\0\x04abcd"),
            (Some(2), b"\x5e\0\0\0\x07\0\0\0\x03efg"),
            (Some(2), b"\x5e\0\0\0\x07\0\0\0\x03hij"),
            (Some(2), b"\x5f\0\0\0\x07\0\0\0\x01\0\0\0\x02kl"),
        ],
    },
    Row {
        shows: "the same pieces with a writer",
        calls: &[
            (Call::Insert(2, 7, 7, 4), Answer::Is(true)),
            (Call::Data(2, Way::ToSink, b"abcdefghij"), Answer::Is(true)),
            (Call::Extended(2, 1, Way::ToSink, b"kl"), Answer::Is(true)),
            (Call::Grant(2, 9), Answer::Credit(Some(4))),
        ],
        sink: &[
            (Some(2), b"\x5e\0\0\0\x07\0\0\0\x04abcd"),
            (Some(2), b"\x5e\0\0\0\x07\0\0\0\x03efg"),
        ],
        staged: &[
            (Some(2), b"\x5e\0\0\0\x07\0\0\0\x03hij"),
            (Some(2), b"\x5f\0\0\0\x07\0\0\0\x01\0\0\0\x02kl"),
        ],
    },
];

#[test]
fn what_the_credit_does_not_cover_waits(rt: HostRuntime) {
    for row in &WAITING {
        assert!(rt; holds(rt.alloc(), *row) == Ok(true), "{}", row.shows);
    }
}

static FLUSHED: [Row; 4] = [
    Row {
        shows: "what waited goes out once, and EOF behind it",
        calls: &[
            (Call::Insert(2, 44, 1024, 1024), Answer::Is(true)),
            (Call::Data(2, Way::InExchange, b"hello"), Answer::Is(true)),
            (Call::Eof(2), Answer::Is(true)),
            (Call::FlushPending(2), Answer::Framed(5)),
            (Call::FlushPending(2), Answer::Framed(0)),
        ],
        sink: &[],
        staged: &[
            (Some(2), b"\x5e\0\0\0\x2c\0\0\0\x05hello"),
            (Some(2), b"\x60\0\0\0\x2c"),
        ],
    },
    Row {
        shows: "with CLOSE behind EOF the channel is gone, and nothing waits any more",
        calls: &[
            (Call::Insert(2, 44, 1024, 1024), Answer::Is(true)),
            (Call::Data(2, Way::InExchange, b"hello"), Answer::Is(true)),
            (Call::Eof(2), Answer::Is(true)),
            (Call::Close(2), Answer::Is(true)),
            (Call::AnyWaits, Answer::Is(true)),
            (Call::FlushPending(2), Answer::Framed(5)),
            (Call::Look(2), Answer::NoLine),
            (Call::AnyWaits, Answer::Is(false)),
        ],
        sink: &[],
        staged: &[
            (Some(2), b"\x5e\0\0\0\x2c\0\0\0\x05hello"),
            (Some(2), b"\x60\0\0\0\x2c"),
            (Some(2), b"\x61\0\0\0\x2c"),
        ],
    },
    Row {
        shows: "all channels are flushed in ascending order",
        calls: &[
            (Call::Insert(4, 9, 1024, 1024), Answer::Is(true)),
            (Call::Insert(3, 7, 1024, 1024), Answer::Is(true)),
            (Call::Data(4, Way::InExchange, b"hello"), Answer::Is(true)),
            (Call::Close(4), Answer::Is(true)),
            (Call::Data(3, Way::InExchange, b"hello"), Answer::Is(true)),
            (Call::Eof(3), Answer::Is(true)),
            (Call::FlushAll, Answer::Done),
            (Call::Look(4), Answer::NoLine),
        ],
        sink: &[],
        staged: &[
            (Some(3), b"\x5e\0\0\0\x07\0\0\0\x05hello"),
            (Some(3), b"\x60\0\0\0\x07"),
            (Some(4), b"\x5e\0\0\0\x09\0\0\0\x05hello"),
            (Some(4), b"\x61\0\0\0\x09"),
        ],
    },
    Row {
        shows: "and so they are with a writer",
        calls: &[
            (Call::Insert(4, 9, 1024, 1024), Answer::Is(true)),
            (Call::Insert(3, 7, 1024, 1024), Answer::Is(true)),
            (Call::Data(4, Way::InExchange, b"hello"), Answer::Is(true)),
            (Call::Data(3, Way::InExchange, b"hello"), Answer::Is(true)),
            (Call::FlushPendingToSink(3), Answer::Framed(5)),
            (Call::FlushAllToSink, Answer::Done),
        ],
        sink: &[
            (Some(3), b"\x5e\0\0\0\x07\0\0\0\x05hello"),
            (Some(4), b"\x5e\0\0\0\x09\0\0\0\x05hello"),
        ],
        staged: &[],
    },
];

#[test]
fn a_flush_sends_what_waits_and_then_its_end(rt: HostRuntime) {
    for row in &FLUSHED {
        assert!(rt; holds(rt.alloc(), *row) == Ok(true), "{}", row.shows);
    }
}

static STAGED: [Row; 3] = [
    Row {
        shows: "direct data do not overtake a staged frame",
        calls: &[
            (Call::Insert(2, 7, 1024, 1024), Answer::Is(true)),
            (Call::StageSuccess, Answer::Done),
            (Call::Data(2, Way::ToSink, b"a"), Answer::Is(true)),
        ],
        sink: &[],
        staged: &[(None, b"\x51"), (Some(2), b"\x5e\0\0\0\x07\0\0\0\x01a")],
    },
    Row {
        shows: "nothing is handed on in an exchange",
        calls: &[
            (Call::StageSuccess, Answer::Done),
            (Call::FlushInExchange, Answer::Done),
        ],
        sink: &[],
        staged: &[(None, b"\x51")],
    },
    Row {
        shows: "and all is after it",
        calls: &[
            (Call::StageSuccess, Answer::Done),
            (Call::StageSuccess, Answer::Done),
            (Call::FlushInExchange, Answer::Done),
            (Call::Flush, Answer::Done),
        ],
        sink: &[(None, b"\x51"), (None, b"\x51")],
        staged: &[],
    },
];

#[test]
fn staged_frames_go_first_and_after_an_exchange(rt: HostRuntime) {
    for row in &STAGED {
        assert!(rt; holds(rt.alloc(), *row) == Ok(true), "{}", row.shows);
    }
}

static ENDED: [Row; 2] = [
    Row {
        shows: "nothing is sent behind EOF, and one CLOSE",
        calls: &[
            (Call::Insert(2, 7, 1024, 1024), Answer::Is(true)),
            (Call::CanSend(2), Answer::Is(true)),
            (Call::Eof(2), Answer::Is(true)),
            (Call::CanSend(2), Answer::Is(false)),
            (Call::Data(2, Way::Staged, b"a"), Answer::Is(false)),
            (Call::Eof(2), Answer::Is(false)),
            (Call::Close(2), Answer::Is(true)),
            (Call::Close(2), Answer::Is(false)),
        ],
        sink: &[],
        staged: &[(Some(2), b"\x60\0\0\0\x07"), (Some(2), b"\x61\0\0\0\x07")],
    },
    Row {
        shows: "the peer's CLOSE drops what waits",
        calls: &[
            (Call::Insert(2, 7, 0, 1024), Answer::Is(true)),
            (Call::FailOpen(2), Answer::Is(false)),
            (Call::Byte(2, 99), Answer::Is(true)),
            (Call::Data(2, Way::Staged, b"a"), Answer::Is(true)),
            (Call::Data(2, Way::Staged, b""), Answer::Is(true)),
            (Call::Look(2), Answer::Line(8, 0, true, false, false)),
            (Call::PeerClose(2), Answer::Is(true)),
            (Call::AnyWaits, Answer::Is(false)),
        ],
        sink: &[],
        staged: &[(Some(2), b"\x63\0\0\0\x07"), (Some(2), b"\x61\0\0\0\x07")],
    },
];

#[test]
fn nothing_follows_an_end(rt: HostRuntime) {
    for row in &ENDED {
        assert!(rt; holds(rt.alloc(), *row) == Ok(true), "{}", row.shows);
    }
}

fn bytes_of_256_kib(alloc: Global) -> Result<Bytes, WireError> {
    Ok(Bytes::from_vec(vec![in alloc; 97; 262144]?)?)
}

#[test]
fn data_of_256_kib_go_out_in_eight_packets(rt: HostRuntime) -> Result<(), Fail> {
    let alloc = rt.alloc();
    let bytes = bytes_of_256_kib(alloc)?;
    let mut table = Encrypted::new(alloc);
    let params = ChannelParams::new(alloc, 7, ChannelId(2), 262144, 0, 32768, 32768);
    assert!(rt; table.insert(params) == Ok(true));
    assert!(rt; table.data(ChannelId(2), bytes, false) == Ok(true));
    let mut staged = FrameSink::new(alloc);
    assert!(rt; table.flush(&mut staged, false) == Ok(()));
    let frames = staged.into_vec();
    assert!(rt; frames.len() == 8);
    for frame in frames.iter() {
        assert!(rt; frame.body().len() == 32768);
    }
    assert!(rt; line(&table, ChannelId(2)) == Answer::Line(0, 0, false, false, false));
    Ok(())
}

#[test]
fn a_sink_hands_on_its_frames_in_order(rt: HostRuntime) {
    let mut sink = FrameSink::new(rt.alloc());
    assert!(rt; sink.push(Frame::short(&[81], None, None)).is_ok());
    assert!(rt; sink.push(Frame::short(&[82], None, None)).is_ok());
    let first = sink.pop_front();
    assert!(rt; first.is_some_and(|frame| is_sent(&frame, &(None, b"\x51"))));
    let frames = sink.into_vec();
    assert!(rt; frames.len() == 1 && is_sent(&frames[0], &(None, b"\x52")));
}
