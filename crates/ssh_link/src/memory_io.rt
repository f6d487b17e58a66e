// A source and a sink in memory.
ghost use Rattle.std.specs.Prelude.{◌≡◌, [], ◌<◌, ◌≤◌, ◌+◌, ◌++◌, ◌↔◌, ◌⊎◌, Some, IfOk, OnOk};
ghost use Rattle.std.specs.Prelude.{OnErr, IsErr, IsTrue, drop, take, length, min};
ghost use Rattle.ssh_link.specs.Told.{Adds, AddsNothing};
ghost use Rattle.ssh_link.specs.Faults.{RoseOrFull};
ghost use Rattle.ssh_link.specs.Io.{Takes, AtEnd};
ghost use Rattle.ssh_link.specs.Memory.{no_calls, called, fails_next, refused, starved, wrote};

use crate::failures::PlannedFailures;
use crate::{Calls, IoFailed, Sink, Source};
use bytes::Bytes;
use std::alloc::Global;
use std::marker::Model;

/// A source in memory. The calls whose numbers it was given fail, the first being number 1; all
/// others read as many bytes as are left and fit. It tells the bytes that are left.
#[derive(Debug, Drop)]
pub struct MemorySource {
    bytes: Bytes,
    next: usize,
    failures: PlannedFailures,
}

impl Model for MemorySource {
    ghost use Rattle.std.specs.Prelude.{drop, length, ◌≤◌};
    ghost use Rattle.ssh_link.specs.Memory.{Readable};

    ghost Value = { Readable };

    ghost view = { λ s. record { left = drop s.next s.bytes; failures = s.failures } };

    ghost invariant = { λ s. s.next ≤ length s.bytes };
}

impl MemorySource {
    /// A source of these bytes, whose calls with these numbers fail.
    pub fn new(bytes: Bytes, fails: Calls) -> MemorySource
        ensures left { result.left ≡ bytes }
        ensures failures { result.failures ≡ no_calls fails }
    {
        MemorySource {
            bytes,
            next: 0,
            failures: PlannedFailures::new(fails),
        }
    }
}

// Copies as many bytes as are left and fit to the front of the buffer.
fn copy_front(left: &[u8], buf: &mut [u8]) -> usize
    ensures count { result ≡ min (length left.now) (length buf.old) }
    ensures front { take result buf.new ≡ take result left.now }
    ensures len { length buf.new ≡ length buf.old }
{
    let count = left.len().min(buf.len());
    buf[..count].copy_from_slice(&left[..count]);
    count
}

impl Source for MemorySource {
    ghost left = { λ s. Some s.left };

    ghost faults = { λ s. s.failures.faults };

    fn read(&mut self, buf: &mut [u8]) -> Result<usize, IoFailed>
        ensures within { IfOk result (λ n. n ≤ length buf.old) }
        ensures len { length buf.new ≡ length buf.old }
        ensures taken { IfOk result (λ n. Takes (Some self.old.left) (Some self.new.left) n
            buf.new) }
        ensures end { IfOk result (λ n. n ≡ 0 → 0 < length buf.old → AtEnd (Some self.old.left)) }
        ensures err { OnErr result (Some self.new.left ≡ Some self.old.left) }
        ensures cause { OnErr result (RoseOrFull self.old.failures.faults
            self.new.failures.faults) }
        ensures quiet { OnOk result (self.new.failures.faults ≡ self.old.failures.faults) }
        ensures later { self.old.failures.faults ≤ self.new.failures.faults }
        ensures count { IfOk result (λ n. n ≡ min (length self.old.left) (length buf.old)) }
        ensures failures { self.new.failures ≡ called self.old.failures }
        ensures planned { IsErr result ↔ IsTrue (fails_next self.old.failures) }
    {
        if self.failures.next_fails() {
            return Err(IoFailed);
        }
        let count = copy_front(&self.bytes.as_slice()[self.next..], buf);
        self.next += count;
        Ok(count)
    }
}

/// A sink in memory. The calls whose numbers it was given fail, the first being number 1; any
/// other takes the whole piece, or fails where there is no memory for it. It tells its bytes.
#[derive(Debug, Drop)]
pub struct MemorySink {
    bytes: Vec<u8>,
    failures: PlannedFailures,
    starved: u64,
}

impl Model for MemorySink {
    ghost use Rattle.ssh_link.specs.Memory.{Written};

    ghost Value = { Written };

    ghost view = { λ s. record {
      held = s.bytes.items;
      failures = s.failures;
      starved = s.starved;
    } };
}

impl MemorySink {
    /// A sink without bytes, whose calls with these numbers fail.
    pub fn new(alloc: Global, fails: Calls) -> MemorySink
        ensures held { result.held ≡ [] }
        ensures failures { result.failures ≡ no_calls fails }
        ensures starved { result.starved ≡ 0 }
    {
        MemorySink {
            bytes: Vec::new(alloc),
            failures: PlannedFailures::new(fails),
            starved: 0,
        }
    }

    /// The bytes that were written, in order.
    pub fn bytes(&self) -> &[u8]
        ensures { result.now ≡ self.now.held }
    {
        self.bytes.as_slice()
    }
}

impl Sink for MemorySink {
    ghost held = { λ s. Some s.held };

    ghost faults = { λ s. s.failures.faults + s.starved };

    fn write(&mut self, piece: &[u8]) -> Result<usize, IoFailed>
        ensures within { IfOk result (λ n. n ≤ length piece.now) }
        ensures some { IfOk result (λ n. 0 < length piece.now → 0 < n) }
        ensures written { IfOk result (λ n. Adds (Some self.old.held) (Some self.new.held)
            (take n piece.now)) }
        ensures err { OnErr result (AddsNothing (Some self.old.held) (Some self.new.held)) }
        ensures cause { OnErr result (RoseOrFull (self.old.failures.faults + self.old.starved)
            (self.new.failures.faults + self.new.starved)) }
        ensures quiet { OnOk result (self.new.failures.faults + self.new.starved
            ≡ self.old.failures.faults + self.old.starved) }
        ensures later { self.old.failures.faults + self.old.starved ≤ self.new.failures.faults
            + self.new.starved }
        ensures count { IfOk result (λ n. n ≡ length piece.now) }
        ensures wrote { OnOk result (self.new ≡ wrote self.old piece.now) }
        ensures starved { OnErr result (IsTrue (fails_next self.old.failures)
            ⊎ (self.new ≡ starved self.old)) }
        ensures planned { IsTrue (fails_next self.old.failures)
            → IsErr result × (self.new ≡ refused self.old) }
    {
        if self.failures.next_fails() {
            return Err(IoFailed);
        }
        if self.bytes.extend_from_slice(piece).is_err() {
            self.starved = self.starved.saturating_add(1);
            return Err(IoFailed);
        }
        Ok(piece.len())
    }
}
