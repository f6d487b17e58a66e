// What a source gives, sent by a half that writes, by example.
ghost use Rattle.std.specs.Arc.{arc_value};
ghost use Rattle.ssh_hub.specs.Words.{IsSeatOf};

use crate::scene::{A, bytes, channel, hub, is_quiet, left, takes};
use ssh_hub::{HandleError, HubLock, Seat};
use ssh_link::{Calls, MemorySource};
use std::alloc::Global;
use std::sync::{Arc, Wait};
use std::test::*;

// A source of these bytes, of which the call with this number fails; with 0 none does.
fn source(alloc: Global, text: &'static [u8], fails: u64) -> Result<MemorySource, HandleError> {
    let mut calls = Calls::new(alloc);
    if calls.push(fails).is_err() {
        return Err(HandleError::NoMemory);
    }
    Ok(MemorySource::new(bytes(text), calls))
}

// Ten bytes of a source go out as ten bytes do that are handed in, and are counted.
fn three_messages<R: Wait>(
    rt: &R,
    alloc: Global,
    lock: &Arc<HubLock>,
    seat: &mut Seat,
) -> Result<bool, HandleError>
    requires { IsSeatOf (arc_value lock.now) seat.old }
{
    let mut channel = channel(rt, lock, seat, A, 1024, 4)?;
    let mut source = source(alloc, b"abcdefghij", 0)?;
    let sent = channel.data(rt, alloc, &mut source);
    let again = channel.extended_data(rt, alloc, 1, &mut source);
    let first = takes(rt, lock, seat, A, b"abcd");
    let second = takes(rt, lock, seat, A, b"efgh");
    let third = takes(rt, lock, seat, A, b"ij");
    let quiet = is_quiet(rt, lock, seat);
    Ok(sent == Ok(10) && again == Ok(0) && first && second && third && quiet)
}

static LONG: [u8; 9000] = [7; 9000];

// What is read at a time is a part of a long source; the next part follows.
fn two_pieces<R: Wait>(
    rt: &R,
    alloc: Global,
    lock: &Arc<HubLock>,
    seat: &mut Seat,
) -> Result<bool, HandleError>
    requires { IsSeatOf (arc_value lock.now) seat.old }
{
    let mut channel = channel(rt, lock, seat, A, 10_000, 32768)?;
    let mut source = source(alloc, &LONG, 0)?;
    let sent = channel.write.extended_data(rt, alloc, 1, &mut source);
    Ok(sent == Ok(9000) && left(rt, lock, seat, A) == Some(1000))
}

// A source that fails behind its bytes is told, and what it gave was sent.
fn a_fault<R: Wait>(
    rt: &R,
    alloc: Global,
    lock: &Arc<HubLock>,
    seat: &mut Seat,
) -> Result<bool, HandleError>
    requires { IsSeatOf (arc_value lock.now) seat.old }
{
    let mut channel = channel(rt, lock, seat, A, 1024, 4)?;
    let mut source = source(alloc, b"abc", 2)?;
    let sent = channel.data(rt, alloc, &mut source);
    Ok(sent == Err(HandleError::ReadFault) && takes(rt, lock, seat, A, b"abc"))
}

#[derive(Clone, Copy)]
enum Case {
    ThreeMessages,
    TwoPieces,
    AFault,
}

fn with_hub<R: Wait>(rt: &R, alloc: Global, case: Case) -> Result<bool, HandleError> {
    let (lock, mut seat) = hub(alloc, 3)?;
    match case {
        Case::ThreeMessages => three_messages(rt, alloc, &lock, &mut seat),
        Case::TwoPieces => two_pieces(rt, alloc, &lock, &mut seat),
        Case::AFault => a_fault(rt, alloc, &lock, &mut seat),
    }
}

#[test]
fn a_source_is_sent_to_its_end_and_counted(rt: HostRuntime) {
    assert!(rt; with_hub(&rt, rt.alloc(), Case::ThreeMessages) == Ok(true));
}

#[test]
fn a_long_source_is_sent_in_pieces(rt: HostRuntime) {
    assert!(rt; with_hub(&rt, rt.alloc(), Case::TwoPieces) == Ok(true));
}

#[test]
fn a_source_that_fails_is_told(rt: HostRuntime) {
    assert!(rt; with_hub(&rt, rt.alloc(), Case::AFault) == Ok(true));
}
