// What a seat has room for, and what stays reserved.
ghost use Rattle.ssh_hub.specs.Words.{IsSeatOf};

use super::{CHANNEL, reserve, small_hub};
use ssh_hub::{HandleError, HubLock, Look, Reserve, Seat};
use ssh_wire::ChannelId;
use std::alloc::Global;
use std::sync::Wait;
use std::test::*;

// Whether a seat that has reserved of one channel has room for it and for another: with room for
// one channel, and with room for two.
fn has_room_for(seat: &mut Seat) -> Result<[bool; 4], HandleError> {
    let other = ChannelId(3);
    let one = [seat.has_room(CHANNEL), seat.has_room(other)];
    seat.room(2)?;
    let two = [seat.has_room(CHANNEL), seat.has_room(other)];
    Ok([one[0], one[1], two[0], two[1]])
}

fn on_a_seat_with_room<R: Wait>(rt: &R, alloc: Global) -> Result<[bool; 4], HandleError> {
    let (lock, mut seat) = small_hub(alloc)?;
    lock.ready(rt, &mut seat, CHANNEL, 10, 4)?;
    reserve(rt, &lock, &mut seat, 8);
    has_room_for(&mut seat)
}

#[test]
fn a_seat_with_room_for_one_has_room_for_a_second_channel_once_it_made_it(rt: HostRuntime) {
    assert!(rt; on_a_seat_with_room(&rt, rt.alloc()) == Ok([true, false, true, true]));
}

// What is left of a channel that is made ready again while eight bytes are reserved, and once they
// are given back.
fn ready_again<R: Wait>(
    rt: &R,
    lock: &HubLock,
    seat: &mut Seat,
) -> Result<[Option<Look>; 2], HandleError>
    requires { IsSeatOf lock.now seat.old }
{
    lock.ready(rt, seat, CHANNEL, u32::MAX, 4)?;
    let kept = lock.look(rt, seat, CHANNEL);
    lock.release(rt, seat, CHANNEL, 8);
    let back = lock.look(rt, seat, CHANNEL);
    Ok([kept, back])
}

fn on_a_second_window<R: Wait>(rt: &R, alloc: Global) -> Result<bool, HandleError> {
    let (lock, mut seat) = small_hub(alloc)?;
    lock.ready(rt, &mut seat, CHANNEL, 10, 4)?;
    let got = reserve(rt, &lock, &mut seat, 8);
    let seen = ready_again(rt, &lock, &mut seat)?;
    let packet = 4;
    let left = u32::MAX - 8;
    let all = u32::MAX;
    Ok(
        got == Some(Reserve::Got(8))
            && seen
                == [
                    Some(Look { left, packet }),
                    Some(Look { left: all, packet }),
                ],
    )
}

#[test]
fn a_second_window_keeps_what_is_reserved(rt: HostRuntime) {
    assert!(rt; on_a_second_window(&rt, rt.alloc()) == Ok(true));
}
