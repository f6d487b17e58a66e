// The table by example: what goes out for lists of calls, in the bytes of the standard's messages.
mod opening;
mod replies;
mod sending;
mod windows;

use bytes::Bytes;
use ssh_channels::{Adjusted, ChannelParams, Encrypted, FrameSink, TableError};
use ssh_link::Frame;
use ssh_wire::{ChannelId, ChannelOpenConfirmation, WireError};
use std::alloc::Global;

// Which way data go.
#[derive(Clone, Copy)]
enum Way {
    Staged,
    InExchange,
    ToSink,
}

// A call on a table, with the channel first where it is on one.
#[derive(Clone, Copy)]
enum Call {
    // Channel, the peer's number, its window, its packet size; the room is 8.
    Insert(u32, u32, u32, u32),
    // The same, with its confirmation, of which the number stands.
    InsertWith(u32, u32, u32, u32),
    // The peer's number, its window, its packet size; the same.
    Accept(u32, u32, u32),
    Data(u32, Way, &'static [u8]),
    // With the data type code.
    Extended(u32, u32, Way, &'static [u8]),
    Byte(u32, u8),
    Eof(u32),
    Close(u32),
    PeerClose(u32),
    Grant(u32, u32),
    GrantInExchange(u32, u32),
    // As many bytes came in, and the target is the channel's.
    Adjust(u32, &'static [u8]),
    // Channel and target.
    Aim(u32, u32),
    Target(u32),
    FlushPending(u32),
    FlushPendingToSink(u32),
    FlushAll,
    FlushAllToSink,
    Flush,
    FlushInExchange,
    // REQUEST_SUCCESS, which is for no channel.
    StageSuccess,
    Draw,
    Open,
    DropPending(u32),
    // Channel and packet size; the peer's number is 44 and its window 3.
    Confirm(u32, u32),
    FailOpen(u32),
    Request(u32),
    // Channel, place and success.
    Settle(u32, Option<u64>, bool),
    Look(u32),
    AnyWaits,
    CanSend(u32),
}

// What a call answers.
#[derive(Clone, Copy, PartialEq, Eq)]
enum Answer {
    Done,
    Is(bool),
    Framed(usize),
    Credit(Option<u32>),
    Room(Adjusted),
    Number(u32),
    Target(u32),
    Place(Option<u64>),
    // The room, the credit, and whether data wait, and an EOF, and a CLOSE.
    Line(usize, u32, bool, bool, bool),
    NoLine,
    Refused(TableError),
}

fn is(answered: Result<bool, TableError>) -> Answer {
    match answered {
        Ok(answer) => Answer::Is(answer),
        Err(why) => Answer::Refused(why),
    }
}

fn framed(answered: Result<usize, TableError>) -> Answer {
    match answered {
        Ok(count) => Answer::Framed(count),
        Err(why) => Answer::Refused(why),
    }
}

fn done(answered: Result<(), TableError>) -> Answer {
    match answered {
        Ok(()) => Answer::Done,
        Err(why) => Answer::Refused(why),
    }
}

fn number(answered: Result<ChannelId, TableError>) -> Answer {
    match answered {
        Ok(channel) => Answer::Number(channel.0),
        Err(why) => Answer::Refused(why),
    }
}

fn credit(answered: Result<Option<u32>, TableError>) -> Answer {
    match answered {
        Ok(credit) => Answer::Credit(credit),
        Err(why) => Answer::Refused(why),
    }
}

fn room(answered: Result<Adjusted, TableError>) -> Answer {
    match answered {
        Ok(adjusted) => Answer::Room(adjusted),
        Err(why) => Answer::Refused(why),
    }
}

fn place(answered: Result<Option<u64>, TableError>) -> Answer {
    match answered {
        Ok(place) => Answer::Place(place),
        Err(why) => Answer::Refused(why),
    }
}

fn adjusted(table: &mut Encrypted, channel: ChannelId, bytes: &[u8]) -> Answer {
    let target = table.target(channel);
    room(table.adjust_window_size(channel, bytes, target))
}

fn line(table: &Encrypted, channel: ChannelId) -> Answer {
    match table.params(channel) {
        Some(line) => Answer::Line(
            table.sender_window_size(channel),
            line.recipient_window_size,
            table.has_pending_data(channel),
            line.pending_eof,
            line.pending_close,
        ),
        None => Answer::NoLine,
    }
}

fn confirmation(channel: u32, packet: u32) -> ChannelOpenConfirmation {
    ChannelOpenConfirmation {
        recipient_channel: channel,
        sender_channel: 44,
        initial_window_size: 3,
        maximum_packet_size: packet,
    }
}

// A confirmation of which the number stands alone.
fn confirmed(channel: u32) -> Frame {
    Frame::short(&[91], None, Some(ChannelId(channel)))
}

fn accepted(table: &mut Encrypted, peer: u32, window: u32, packet: u32) -> Answer {
    let own = table.next_channel_id().map_or(0, |channel| channel.0);
    number(table.accept(peer, window, 8, packet, 1024, confirmed(own)))
}

// One call of data.
fn sent(
    table: &mut Encrypted,
    sink: &mut FrameSink,
    channel: ChannelId,
    way: Way,
    bytes: Bytes,
) -> Answer {
    is(match way {
        Way::Staged => table.data(channel, bytes, false),
        Way::InExchange => table.data(channel, bytes, true),
        Way::ToSink => table.data_with_writer(sink, channel, bytes, false),
    })
}

// One call of extended data.
fn extended(
    table: &mut Encrypted,
    sink: &mut FrameSink,
    channel: ChannelId,
    ext: u32,
    way: Way,
    bytes: Bytes,
) -> Answer {
    is(match way {
        Way::Staged => table.extended_data(channel, ext, bytes, false),
        Way::InExchange => table.extended_data(channel, ext, bytes, true),
        Way::ToSink => table.extended_data_with_writer(sink, channel, ext, bytes, false),
    })
}

fn made(
    alloc: Global,
    table: &mut Encrypted,
    sink: &mut FrameSink,
    call: Call,
) -> Result<Answer, WireError> {
    Ok(match call {
        Call::Insert(own, peer, window, packet) => {
            let own = ChannelId(own);
            let params = ChannelParams::new(alloc, peer, own, window, 8, packet, 32768);
            is(table.insert(params))
        }
        Call::InsertWith(own, peer, window, packet) => {
            let own = ChannelId(own);
            let params = ChannelParams::new(alloc, peer, own, window, 8, packet, 32768);
            is(table.insert_with(params, confirmed(own.0)))
        }
        Call::Data(n, way, bytes) => {
            let bytes = Bytes::copy_from_slice(alloc, bytes)?;
            sent(table, sink, ChannelId(n), way, bytes)
        }
        Call::Extended(n, ext, way, bytes) => {
            let bytes = Bytes::copy_from_slice(alloc, bytes)?;
            extended(table, sink, ChannelId(n), ext, way, bytes)
        }
        other => made_without_bytes(table, sink, other),
    })
}

fn made_without_bytes(table: &mut Encrypted, sink: &mut FrameSink, call: Call) -> Answer {
    match call {
        Call::Byte(n, msg) => is(table.byte(ChannelId(n), msg)),
        Call::Eof(n) => is(table.eof(ChannelId(n))),
        Call::Close(n) => is(table.close(ChannelId(n))),
        Call::PeerClose(n) => is(table.peer_close(ChannelId(n))),
        Call::Grant(n, amount) => credit(table.grant(ChannelId(n), amount, false)),
        Call::GrantInExchange(n, amount) => credit(table.grant(ChannelId(n), amount, true)),
        Call::Adjust(n, bytes) => adjusted(table, ChannelId(n), bytes),
        Call::Aim(n, target) => Answer::Is(table.set_target(ChannelId(n), target)),
        Call::Target(n) => Answer::Target(table.target(ChannelId(n))),
        Call::FlushPending(n) => framed(table.flush_pending(ChannelId(n))),
        Call::FlushPendingToSink(n) => {
            framed(table.flush_pending_with_writer(sink, ChannelId(n), false))
        }
        Call::FlushAll => done(table.flush_all_pending()),
        Call::FlushAllToSink => done(table.flush_all_pending_with_writer(sink, false)),
        Call::Flush => done(table.flush(sink, false)),
        Call::FlushInExchange => done(table.flush(sink, true)),
        Call::StageSuccess => done(table.stage(Frame::short(&[81], None, None))),
        Call::Accept(peer, window, packet) => accepted(table, peer, window, packet),
        Call::Draw => number(table.new_channel_id()),
        Call::Open => number(table.new_channel(8, 32768)),
        Call::DropPending(n) => Answer::Is(table.drop_pending(ChannelId(n))),
        Call::Confirm(n, packet) => is(table.confirm(&confirmation(n, packet))),
        Call::FailOpen(n) => Answer::Is(table.fail_open(ChannelId(n))),
        Call::Request(n) => place(table.request(ChannelId(n))),
        Call::Settle(n, at, success) => is(table.settle(ChannelId(n), at, success)),
        Call::Look(n) => line(table, ChannelId(n)),
        Call::AnyWaits => Answer::Is(table.has_any_pending_data()),
        Call::CanSend(n) => Answer::Is(table.can_send(ChannelId(n))),
        _ => Answer::Done,
    }
}

// The channel of a frame, and its payload.
type Sent = (Option<u32>, &'static [u8]);

fn is_sent(frame: &Frame, sent: &Sent) -> bool {
    let (channel, payload) = sent;
    let (head, body) = frame.parts();
    let goes_out = (frame.hold_until(), frame.channel()) == (None, channel.map(ChannelId));
    goes_out && payload.strip_prefix(head) == Some(body)
}

// Whether these are the frames.
fn are_sent(frames: &[Frame], wanted: &[Sent]) -> bool {
    let mut are_sent = frames.len() == wanted.len();
    for (frame, sent) in frames.iter().zip(wanted) {
        are_sent = is_sent(frame, sent) && are_sent;
    }
    are_sent
}

// Calls with their answers on a new table, and the frames that are then in the sink, and staged.
#[derive(Clone, Copy)]
struct Row {
    shows: &'static str,
    calls: &'static [(Call, Answer)],
    sink: &'static [Sent],
    staged: &'static [Sent],
}

fn are_answered(
    alloc: Global,
    table: &mut Encrypted,
    sink: &mut FrameSink,
    calls: &[(Call, Answer)],
) -> Result<bool, WireError> {
    for (call, answer) in calls {
        if made(alloc, table, sink, *call)? != *answer {
            return Ok(false);
        }
    }
    Ok(true)
}

// Whether the row's calls answer so, and put out these frames. What is staged in the end is what a
// flush outside an exchange hands on.
fn holds(alloc: Global, row: Row) -> Result<bool, WireError> {
    let mut table = Encrypted::new(alloc);
    let mut sink = FrameSink::new(alloc);
    let are_answered = are_answered(alloc, &mut table, &mut sink, row.calls);
    let mut staged = FrameSink::new(alloc);
    let is_flushed = table.flush(&mut staged, false) == Ok(());
    drop(table);
    let put = sink.into_vec();
    let are_put = are_sent(put.as_slice(), row.sink);
    drop(put);
    let left = staged.into_vec();
    let are_staged = are_sent(left.as_slice(), row.staged);
    drop(left);
    Ok(are_answered? && is_flushed && are_put && are_staged)
}
