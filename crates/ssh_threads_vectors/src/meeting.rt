// A session and a writer that meet, each in its thread.

use crate::odd_peer::{Odd, OddPeer};
use ssh_handles::Gate;
use ssh_threads::run_threads;
use std::alloc::Global;
use std::sync::Wait;
use std::sync::atomic::{AtomicU64, Ordering};
use std::test::*;
use std::thread::Threads;

/// How often each looks for the other's flag before it gives up.
const LOOKS: u64 = 10_000_000_000;

// The flag of the peer and that of the gate; whether the gate waited in vain.
#[derive(Drop)]
pub struct Flags {
    peer: AtomicU64,
    gate: AtomicU64,
    missed: AtomicU64,
}

// Sets one flag and waits for the other; false where it waited in vain.
fn meets(own: &AtomicU64, other: &AtomicU64) -> bool {
    own.store(1, Ordering::SeqCst);
    for _ in 0..LOOKS {
        if other.load(Ordering::SeqCst) == 1 {
            return true;
        }
    }
    false
}

impl Flags {
    // The peer meets a writer, once.
    pub fn peer_meets(&self) -> bool {
        self.peer.load(Ordering::SeqCst) == 1 || meets(&self.peer, &self.gate)
    }
}

impl Gate for Flags {
    fn pass(&self, _place: u32) {
        if self.gate.load(Ordering::SeqCst) == 0 && !meets(&self.gate, &self.peer) {
            self.missed.store(1, Ordering::SeqCst);
        }
    }
}

// Whether the session's thread, at its peer, and a writer's, at its gate, meet, and the run ends
// well.
fn both_run<R: Threads + Wait + Clone + Drop + Sync>(rt: &R, alloc: Global) -> bool {
    let flags = Flags {
        peer: AtomicU64::new(0),
        gate: AtomicU64::new(0),
        missed: AtomicU64::new(0),
    };
    let mut peer = OddPeer::new(alloc, Odd::Meets(&flags));
    let Ok(run) = run_threads(rt, alloc, 2, &flags, &mut peer) else {
        return false;
    };
    run.into_outcome().is_ok() && flags.missed.load(Ordering::SeqCst) == 0
}

#[test]
fn a_session_and_its_writers_run_at_once(rt: HostRuntime) {
    assert!(rt; both_run(&rt, rt.alloc()));
}
