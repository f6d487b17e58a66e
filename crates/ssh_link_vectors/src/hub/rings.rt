// A ring that is filled and emptied over and over. After the set-up no call takes memory.
ghost use Rattle.ssh_hub.specs.Words.{IsSeatOf};

use super::{CHANNEL, Came, put, take};
use ssh_hub::{Config2, HandleError, HubLock, Seat};
use ssh_link::Command;
use std::alloc::Global;
use std::sync::Wait;
use std::test::*;

// Puts one command more than the hub holds, and says how many waited.
fn fill<R: Wait>(rt: &R, lock: &HubLock, seat: &mut Seat) -> u64
    requires { IsSeatOf lock.now seat.old }
    ensures { IsSeatOf lock.now seat.new }
{
    let mut waiting: u64 = 0;
    for _ in 0..65 {
        let channel = CHANNEL;
        if put(rt, lock, seat, Command::Eof { channel }, 0) != Came::Full {
            waiting = waiting.saturating_add(1);
        }
    }
    waiting
}

// Takes until nothing waits, and says how many came with the next ticket each, from `first` on.
fn empty<R: Wait>(rt: &R, lock: &HubLock, seat: &mut Seat, first: u64) -> u64
    requires { IsSeatOf lock.now seat.old }
    ensures { IsSeatOf lock.now seat.new }
{
    let mut taken: u64 = 0;
    for _ in 0..65 {
        if take(rt, lock, seat, true) == Came::Command(first.saturating_add(taken)) {
            taken = taken.saturating_add(1);
        }
    }
    taken
}

// Fills the list and empties it, and says how often it held 64 and gave them in their order.
fn turn_over<R: Wait>(rt: &R, lock: &HubLock, seat: &mut Seat, times: u64) -> u64
    requires { IsSeatOf lock.now seat.old }
    ensures { IsSeatOf lock.now seat.new }
{
    let mut good: u64 = 0;
    for round in 0..times {
        let waiting = fill(rt, lock, seat);
        let first = round.saturating_mul(64).saturating_add(1);
        if waiting == 64 && empty(rt, lock, seat, first) == 64 {
            good = good.saturating_add(1);
        }
    }
    good
}

fn on_a_ring<R: Wait>(rt: &R, alloc: Global) -> Result<u64, HandleError> {
    let config = Config2 {
        channel_buffer_size: 1,
        event_buffer_size: 64,
    };
    let (lock, mut seat) = HubLock::new(alloc, &config)?;
    Ok(turn_over(rt, &lock, &mut seat, 10_000))
}

#[test]
fn a_list_of_64_commands_is_filled_and_emptied_ten_thousand_times(rt: HostRuntime) {
    assert!(rt; on_a_ring(&rt, rt.alloc()) == Ok(10_000));
}
