// Readers and writers that do not wait, by example.
ghost use Rattle.std.specs.Arc.{arc_value};
ghost use Rattle.ssh_hub.specs.Words.{IsSeatOf};

use crate::scene::{A, bytes, channel, hub};
use ssh_handles::{ChannelReadHalf, Poll, Why};
use ssh_hub::{HandleError, HubLock, Seat};
use ssh_link::ChannelMsg;
use std::alloc::Global;
use std::sync::{Arc, Wait};
use std::test::*;

// What a poll answers.
#[derive(Clone, Copy, PartialEq)]
pub enum Told {
    Bytes(usize),
    Window,
    Full,
    Nothing,
    EmptyWrite,
    Ended(u64),
    Else,
}

pub fn told_by(poll: &Poll<Result<usize, HandleError>>) -> Told {
    match poll {
        Poll::Ready(Ok(count)) => Told::Bytes(*count),
        Poll::Ready(Err(HandleError::EmptyWrite)) => Told::EmptyWrite,
        Poll::Ready(Err(HandleError::Ended { at })) => Told::Ended(*at),
        Poll::Ready(Err(_)) => Told::Else,
        Poll::Pending(Why::WindowEmpty) => Told::Window,
        Poll::Pending(Why::InboxFull) => Told::Full,
        Poll::Pending(Why::NothingThere) => Told::Nothing,
    }
}

fn deliver<R: Wait>(rt: &R, lock: &HubLock, seat: &mut Seat, msg: ChannelMsg)
    requires { IsSeatOf lock.now seat.old }
    ensures { IsSeatOf lock.now seat.new }
{
    let delivered = lock.deliver(rt, seat, A, msg);
    drop(delivered);
}

// What a reader answers five times, with a buffer of one byte.
fn five_reads<R: Wait>(rt: &R, half: &mut ChannelReadHalf) -> [Told; 5] {
    let mut reader = half.make_reader();
    let mut buf = [0u8; 1];
    let first = told_by(&reader.poll_read(rt, &mut buf));
    let second = told_by(&reader.poll_read(rt, &mut buf));
    let third = told_by(&reader.poll_read(rt, &mut buf));
    let fourth = told_by(&reader.poll_read(rt, &mut buf));
    let none = told_by(&reader.poll_read(rt, &mut buf[..0]));
    [first, second, third, fourth, none]
}

fn read_data<R: Wait>(rt: &R, lock: &Arc<HubLock>, seat: &mut Seat) -> Result<bool, HandleError>
    requires { IsSeatOf (arc_value lock.now) seat.old }
{
    let mut channel = channel(rt, lock, seat, A, 10, 4)?;
    deliver(rt, lock, seat, ChannelMsg::Data { bytes: bytes(b"") });
    deliver(
        rt,
        lock,
        seat,
        ChannelMsg::Data {
            bytes: bytes(b"ab"),
        },
    );
    deliver(rt, lock, seat, ChannelMsg::Eof);
    let zero = Told::Bytes(0);
    let one = Told::Bytes(1);
    Ok(five_reads(rt, &mut channel.read) == [one, one, zero, zero, zero])
}

fn read_nothing<R: Wait>(rt: &R, lock: &Arc<HubLock>, seat: &mut Seat) -> Result<bool, HandleError>
    requires { IsSeatOf (arc_value lock.now) seat.old }
{
    let mut channel = channel(rt, lock, seat, A, 10, 4)?;
    let zero = Told::Bytes(0);
    let nothing = Told::Nothing;
    Ok(five_reads(rt, &mut channel.read) == [nothing, nothing, nothing, nothing, zero])
}

fn write_polls<R: Wait>(
    rt: &R,
    alloc: Global,
    lock: &Arc<HubLock>,
    seat: &mut Seat,
) -> Result<bool, HandleError>
    requires { IsSeatOf (arc_value lock.now) seat.old }
{
    let mut channel = channel(rt, lock, seat, A, 5, 4)?;
    let mut writer = channel.write.make_writer(rt)?;
    let empty = told_by(&writer.poll_write(rt, alloc, b""));
    let first = told_by(&writer.poll_write(rt, alloc, b"abcdefghi"));
    let second = told_by(&writer.poll_write(rt, alloc, b"efghi"));
    let third = told_by(&writer.poll_write(rt, alloc, b"fghi"));
    writer.finish(rt);
    Ok(
        [empty, first, second, third]
            == [
                Told::EmptyWrite,
                Told::Bytes(4),
                Told::Bytes(1),
                Told::Window,
            ],
    )
}

// After the end the messages that wait are given out first.
fn wait_after_end<R: Wait>(
    rt: &R,
    lock: &Arc<HubLock>,
    seat: &mut Seat,
) -> Result<bool, HandleError>
    requires { IsSeatOf (arc_value lock.now) seat.old }
{
    let mut channel = channel(rt, lock, seat, A, 10, 4)?;
    deliver(rt, lock, seat, ChannelMsg::Eof);
    lock.end(rt, seat);
    let first = channel.read.wait(rt);
    let second = channel.read.wait(rt);
    let is_so = matches!(&first, Some(ChannelMsg::Eof)) && second.is_none();
    drop(first);
    drop(second);
    Ok(is_so)
}

#[derive(Clone, Copy)]
enum Case {
    ReadData,
    ReadNothing,
    WritePolls,
    WaitAfterEnd,
}

fn with_hub<R: Wait>(rt: &R, alloc: Global, case: Case) -> Result<bool, HandleError> {
    let (lock, mut seat) = hub(alloc, 3)?;
    match case {
        Case::ReadData => read_data(rt, &lock, &mut seat),
        Case::ReadNothing => read_nothing(rt, &lock, &mut seat),
        Case::WritePolls => write_polls(rt, alloc, &lock, &mut seat),
        Case::WaitAfterEnd => wait_after_end(rt, &lock, &mut seat),
    }
}

#[test]
fn a_reader_passes_over_empty_data_and_stays_at_the_end(rt: HostRuntime) {
    assert!(rt; with_hub(&rt, rt.alloc(), Case::ReadData) == Ok(true));
}

#[test]
fn a_reader_with_nothing_there_is_pending(rt: HostRuntime) {
    assert!(rt; with_hub(&rt, rt.alloc(), Case::ReadNothing) == Ok(true));
}

#[test]
fn a_writer_that_does_not_wait_answers_an_empty_write_and_an_empty_window(rt: HostRuntime) {
    assert!(rt; with_hub(&rt, rt.alloc(), Case::WritePolls) == Ok(true));
}

#[test]
fn messages_that_wait_are_given_out_after_the_end(rt: HostRuntime) {
    assert!(rt; with_hub(&rt, rt.alloc(), Case::WaitAfterEnd) == Ok(true));
}
