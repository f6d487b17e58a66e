// The half that writes, by example.
ghost use Rattle.std.specs.Arc.{arc_value};
ghost use Rattle.ssh_hub.specs.Words.{IsSeatOf};

use crate::scene::{A, bytes, channel, hub, is_quiet, left, takes};
use ssh_hub::{HandleError, HubLock, Seat};
use std::alloc::Global;
use std::sync::{Arc, Wait};
use std::test::*;

// Ten bytes at packet size 4 are three messages.
fn three_messages<R: Wait>(
    rt: &R,
    lock: &Arc<HubLock>,
    seat: &mut Seat,
) -> Result<bool, HandleError>
    requires { IsSeatOf (arc_value lock.now) seat.old }
{
    let mut channel = channel(rt, lock, seat, A, 1024, 4)?;
    channel.write.data_bytes(rt, bytes(b"abcdefghij"))?;
    let first = takes(rt, lock, seat, A, b"abcd");
    let second = takes(rt, lock, seat, A, b"efgh");
    let third = takes(rt, lock, seat, A, b"ij");
    Ok(first && second && third && left(rt, lock, seat, A) == Some(1014))
}

#[test]
fn a_write_half_cuts_bytes_by_the_packet_size(rt: HostRuntime) {
    assert!(rt; with_hub(&rt, rt.alloc(), Case::ThreeMessages) == Ok(true));
}

// At packet size 0 nothing is put, nor is for no byte.
fn no_message<R: Wait>(rt: &R, lock: &Arc<HubLock>, seat: &mut Seat) -> Result<bool, HandleError>
    requires { IsSeatOf (arc_value lock.now) seat.old }
{
    let mut channel = channel(rt, lock, seat, A, 1024, 0)?;
    let refused = channel.write.data_bytes(rt, bytes(b"ab"));
    let empty = channel.write.data_bytes(rt, bytes(b""));
    let size = channel.write.writable_packet_size(rt);
    let is_so = refused == Err(HandleError::Inconsistent) && empty == Ok(()) && size == 0;
    Ok(is_so && is_quiet(rt, lock, seat))
}

#[test]
fn packet_size_0_and_no_bytes_put_nothing(rt: HostRuntime) {
    assert!(rt; with_hub(&rt, rt.alloc(), Case::NoMessage) == Ok(true));
}

// A writer that reserved 4 bytes and met a full list gives 4 back.
fn gives_back<R: Wait>(
    rt: &R,
    alloc: Global,
    lock: &Arc<HubLock>,
    seat: &mut Seat,
) -> Result<bool, HandleError>
    requires { IsSeatOf (arc_value lock.now) seat.old }
{
    let mut channel = channel(rt, lock, seat, A, 10, 4)?;
    channel.write.eof(rt)?;
    channel.write.eof(rt)?;
    channel.write.eof(rt)?;
    let mut writer = channel.write.make_writer(rt)?;
    let polled = crate::polling::told_by(&writer.poll_write(rt, alloc, b"abcdefghi"));
    let reserved = left(rt, lock, seat, A);
    writer.finish(rt);
    Ok(
        polled == crate::polling::Told::Full
            && reserved == Some(6)
            && left(rt, lock, seat, A) == Some(10),
    )
}

#[test]
fn a_writer_that_met_a_full_list_gives_its_bytes_back(rt: HostRuntime) {
    assert!(rt; with_hub(&rt, rt.alloc(), Case::GivesBack) == Ok(true));
}

// The same where the hub has ended: the message is dropped at once.
fn ends_full<R: Wait>(
    rt: &R,
    alloc: Global,
    lock: &Arc<HubLock>,
    seat: &mut Seat,
) -> Result<bool, HandleError>
    requires { IsSeatOf (arc_value lock.now) seat.old }
{
    let mut channel = channel(rt, lock, seat, A, 10, 4)?;
    channel.write.eof(rt)?;
    channel.write.eof(rt)?;
    channel.write.eof(rt)?;
    let mut writer = channel.write.make_writer(rt)?;
    let full = crate::polling::told_by(&writer.poll_write(rt, alloc, b"abcdefghi"));
    lock.end(rt, seat);
    let place = seat.place();
    let ended = crate::polling::told_by(&writer.poll_write(rt, alloc, b"x"));
    let now = left(rt, lock, seat, A);
    writer.finish(rt);
    Ok(
        full == crate::polling::Told::Full
            && Some(ended) == place.map(crate::polling::Told::Ended)
            && now == Some(10),
    )
}

#[test]
fn a_kept_message_that_meets_the_end_is_dropped_and_its_bytes_given_back(rt: HostRuntime) {
    assert!(rt; with_hub(&rt, rt.alloc(), Case::EndsFull) == Ok(true));
}

#[derive(Clone, Copy)]
enum Case {
    ThreeMessages,
    NoMessage,
    GivesBack,
    EndsFull,
}

fn with_hub<R: Wait>(rt: &R, alloc: Global, case: Case) -> Result<bool, HandleError> {
    let (lock, mut seat) = hub(alloc, 3)?;
    match case {
        Case::ThreeMessages => three_messages(rt, &lock, &mut seat),
        Case::NoMessage => no_message(rt, &lock, &mut seat),
        Case::GivesBack => gives_back(rt, alloc, &lock, &mut seat),
        Case::EndsFull => ends_full(rt, alloc, &lock, &mut seat),
    }
}
