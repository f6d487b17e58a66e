// Bells on which writers sleep.
ghost use Rattle.std.specs.Prelude.{◌≡◌, IfErr};
ghost use Rattle.ssh_wire.specs.declared.error.WireError.TheVariants.{NoMemory};

use ssh_handles::Gate;
use ssh_wire::{ChannelId, WireError};
use std::alloc::Global;
use std::sync::Wait;
use std::sync::atomic::{AtomicU64, Ordering};

/// This side's number of the first channel.
const FIRST_CHANNEL: u32 = 2;

/// Where a writer passes that found its window empty.
const EMPTY_WINDOW: u32 = 1;

/// A bell for each of some channels. The hub wakes all who wait for any of its events, and what
/// each of them asks then is an event too; who sleeps on a bell wakes for its own channel alone.
#[derive(Drop)]
pub struct Bells {
    // 1 where it was rung, and nobody has heard it yet.
    rung: Vec<AtomicU64>,
}

impl Bells {
    /// Bells for so many channels, whose numbers begin at 2. `NoMemory` is the only error.
    pub fn new(alloc: Global, n: u32) -> Result<Bells, WireError>
        ensures { IfErr result (λ e. e ≡ NoMemory) }
    {
        let mut rung = Vec::new(alloc);
        for _ in 0..n {
            rung.push(AtomicU64::new(0)).or(Err(WireError::NoMemory))?;
        }
        Ok(Bells { rung })
    }

    /// Rings the bell of this channel, where there is one. To be called once the event that its
    /// writer waits for stands in the hub's history: then a writer that asked the hub before that,
    /// and sleeps now or later, wakes.
    pub fn ring(&self, channel: Option<ChannelId>) {
        let Some(channel) = channel else {
            return;
        };
        if let Some(rung) = self.of(channel) {
            sound(rung);
        }
    }

    /// Rings all of them.
    pub fn ring_all(&self) {
        for rung in &self.rung {
            sound(rung);
        }
    }

    // Sleeps until the channel's bell was rung since it was heard last; false, at once, where it has
    // none.
    pub(crate) fn wait<R: Wait>(&self, rt: &R, channel: ChannelId) -> bool {
        let Some(rung) = self.of(channel) else {
            return false;
        };
        for _ in rt.forever() {
            if rung.swap(0, Ordering::SeqCst) != 0 {
                return true;
            }
            rung.park(rt, 0);
        }
        unreachable!()
    }

    fn of(&self, channel: ChannelId) -> Option<&AtomicU64> {
        self.rung
            .get(channel.0.wrapping_sub(FIRST_CHANNEL) as usize)
    }
}

fn sound(rung: &AtomicU64) {
    rung.store(1, Ordering::SeqCst);
    rung.wake_all();
}

// The gate of a writer that sleeps on its bell where the window is empty.
#[derive(Drop)]
pub(crate) struct Sleeping<'a, R, G> {
    pub(crate) rt: &'a R,
    pub(crate) gate: &'a G,
    pub(crate) bells: &'a Bells,
    pub(crate) channel: ChannelId,
}

impl<R: Wait, G: Gate> Gate for Sleeping<'_, R, G> {
    fn pass(&self, place: u32) {
        self.gate.pass(place);
        if place == EMPTY_WINDOW {
            self.bells.wait(self.rt, self.channel);
        }
    }
}
