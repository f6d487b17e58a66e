// Halves in threads.
ghost use Rattle.std.specs.Prelude.{IfOk};
ghost use Rattle.std.specs.Arc.{arc_value};
ghost use Rattle.ssh_hub.specs.Words.{IsSeatOf};

use crate::scene::{A, B, bytes, channel, hub};
use bytes::Bytes;
use ssh_handles::{ChannelWriteHalf, Gate};
use ssh_hub::{HandleError, HubLock, Seat, Taken};
use ssh_link::Command;
use ssh_wire::ChannelId;
use std::alloc::Global;
use std::sync::atomic::{AtomicU64, Ordering};
use std::sync::{Arc, Wait};
use std::test::*;
use std::thread::{Threads, join};

/// How often a gate looks before it gives up.
const LOOKS: u64 = 10_000_000_000;

// What two threads tell each other: 1 once the first waits for its window, 2 once the second was
// answered, 3 where one gave up.
#[derive(Drop)]
struct Flag {
    state: AtomicU64,
}

impl Flag {
    fn wait_for(&self, state: u64) -> bool {
        for _ in 0..LOOKS {
            if self.state.load(Ordering::SeqCst) >= state {
                return true;
            }
        }
        false
    }
}

impl Gate for Flag {
    fn pass(&self, place: u32) {
        if place == 1 && self.state.load(Ordering::SeqCst) == 0 {
            self.state.store(1, Ordering::SeqCst);
            if !self.wait_for(2) {
                self.state.store(3, Ordering::SeqCst);
            }
        }
    }
}

// Writes on the channel that has no byte left, through the gate.
fn waits<R: Wait>(rt: &R, flag: &Flag, mut half: ChannelWriteHalf) -> Result<(), HandleError> {
    half.data_bytes_through(rt, flag, bytes(b"ab"))
}

// Writes on the other channel once the first waits, and then gives that one bytes.
fn is_answered<R: Wait>(
    rt: &R,
    flag: &Flag,
    lock: &HubLock,
    mut seat: Seat,
    mut half: ChannelWriteHalf,
) -> Result<bool, HandleError>
    requires { IsSeatOf lock.now seat }
{
    let waits = flag.wait_for(1);
    half.data_bytes(rt, bytes(b"cd"))?;
    lock.grant(rt, &mut seat, A, 10);
    flag.state.store(2, Ordering::SeqCst);
    Ok(waits)
}

// Whether a writer that waits for its window keeps no other waiting.
fn two_writers<R: Threads + Wait + Sync>(rt: &R, alloc: Global) -> Result<bool, HandleError> {
    let (lock, mut seat) = hub(alloc, 8)?;
    let first = channel(rt, &lock, &mut seat, A, 0, 4)?;
    let second = channel(rt, &lock, &mut seat, B, 10, 4)?;
    let flag = Flag {
        state: AtomicU64::new(0),
    };
    let flag_ref = &flag;
    let lock_ref: &HubLock = &lock;
    let (_, half_a) = first.split();
    let (_, half_b) = second.split();
    let (a, b) = join(
        rt,
        || waits(rt, flag_ref, half_a),
        || is_answered(rt, flag_ref, lock_ref, seat, half_b),
    );
    Ok(a == Ok(()) && b == Ok(true) && flag.state.load(Ordering::SeqCst) == 2)
}

#[test]
fn a_writer_that_waits_for_its_window_keeps_no_other_waiting(rt: HostRuntime) {
    assert!(rt; two_writers(&rt, rt.alloc()) == Ok(true));
}

// Ends the hub once a writer waits, and says at which place.
fn ends<R: Wait>(rt: &R, flag: &Flag, lock: &HubLock, mut seat: Seat) -> Option<u64>
    requires { IsSeatOf lock.now seat }
{
    let waits = flag.wait_for(1);
    lock.end(rt, &mut seat);
    flag.state.store(2, Ordering::SeqCst);
    if waits { seat.place() } else { None }
}

// Whether a writer that waits is told where the hub ended.
fn ended_writer<R: Threads + Wait + Sync>(rt: &R, alloc: Global) -> Result<bool, HandleError> {
    let (lock, mut seat) = hub(alloc, 8)?;
    let channel = channel(rt, &lock, &mut seat, A, 0, 4)?;
    let flag = Flag {
        state: AtomicU64::new(0),
    };
    let flag_ref = &flag;
    let lock_ref: &HubLock = &lock;
    let (_, half) = channel.split();
    let (wrote, place) = join(
        rt,
        || waits(rt, flag_ref, half),
        || ends(rt, flag_ref, lock_ref, seat),
    );
    Ok(place.is_some() && wrote.err() == place.map(|at| HandleError::Ended { at }))
}

#[test]
fn a_writer_that_waits_is_told_where_the_hub_ended(rt: HostRuntime) {
    assert!(rt; ended_writer(&rt, rt.alloc()) == Ok(true));
}

/// How many bytes each of two writers writes.
const TOTAL: usize = 1 << 20;

// The byte at this place of what the writer with this seed writes.
fn byte_at(seed: u8, place: usize) -> u8 {
    u8::try_from(place % 251).unwrap_or(0) ^ seed
}

// Writes the `TOTAL` bytes of this seed.
fn fills<R: Wait>(
    rt: &R,
    alloc: Global,
    mut half: ChannelWriteHalf,
    seed: u8,
) -> Result<(), HandleError> {
    let mut block = Vec::new(alloc);
    for place in 0..TOTAL {
        block.push(byte_at(seed, place))?;
    }
    let bytes = Bytes::from_vec(block)?;
    half.data_bytes(rt, bytes)
}

// How many bytes of its own each of two channels got, and whether one got another byte.
#[derive(Clone, Copy, PartialEq)]
struct Sums {
    a: usize,
    b: usize,
    strange: bool,
}

// Whether these are the bytes of the writer with this seed, from this place on.
fn go_on(bytes: &[u8], seed: u8, first: usize) -> bool {
    let mut place = first;
    for byte in bytes {
        if *byte != byte_at(seed, place) {
            return false;
        }
        place = place.saturating_add(1);
    }
    true
}

// Adds what a command brings, and says for which channel.
fn count(sums: &mut Sums, taken: &Option<Taken>) -> Option<(ChannelId, u32)> {
    let Some(Taken::Command(_, Command::Data { channel, bytes })) = taken else {
        return None;
    };
    let length = bytes.len();
    if *channel == A {
        sums.strange |= !go_on(bytes.as_slice(), 7, sums.a);
        sums.a = sums.a.saturating_add(length);
    } else {
        sums.strange |= !go_on(bytes.as_slice(), 9, sums.b);
        sums.b = sums.b.saturating_add(length);
    }
    Some((*channel, u32::try_from(length).unwrap_or(0)))
}

// Takes what two writers put, and gives each channel as many bytes as it took, until it has all.
fn drains<R: Wait>(rt: &R, lock: &HubLock, mut seat: Seat) -> Sums
    requires { IsSeatOf lock.now seat }
{
    let mut sums = Sums {
        a: 0,
        b: 0,
        strange: false,
    };
    for _ in rt.forever() {
        if sums.a >= TOTAL && sums.b >= TOTAL {
            return sums;
        }
        let taken = lock.take(rt, &mut seat, true, true);
        let counted = count(&mut sums, &taken);
        drop(taken);
        if let Some((id, length)) = counted {
            lock.grant(rt, &mut seat, id, length);
        } else if let Some(place) = seat.place() {
            lock.pause(rt, place);
        }
    }
    unreachable!()
}

// Whether two writers and a reader in three threads bring every byte where it belongs.
fn three_threads<R: Threads + Wait + Sync>(rt: &R, alloc: Global) -> Result<bool, HandleError> {
    let (lock, mut seat) = hub(alloc, 8)?;
    let first = channel(rt, &lock, &mut seat, A, 65536, 32768)?;
    let second = channel(rt, &lock, &mut seat, B, 65536, 32768)?;
    let lock_ref: &HubLock = &lock;
    let (_, half_a) = first.split();
    let (_, half_b) = second.split();
    let (wrote, sums) = join(
        rt,
        || {
            join(
                rt,
                || fills(rt, alloc, half_a, 7),
                || fills(rt, alloc, half_b, 9),
            )
        },
        || drains(rt, lock_ref, seat),
    );
    let all = Sums {
        a: TOTAL,
        b: TOTAL,
        strange: false,
    };
    Ok(wrote.0 == Ok(()) && wrote.1 == Ok(()) && sums == all)
}

#[test]
fn two_writers_and_a_reader_bring_every_byte_where_it_belongs(rt: HostRuntime) {
    assert!(rt; three_threads(&rt, rt.alloc()) == Ok(true));
}
