// Where bytes come from, and where they go to.
ghost use Rattle.std.specs.Prelude.{◌≡◌, ◌<◌, ◌≤◌, ℕ, List, Option, length, take, IfOk, OnOk};
ghost use Rattle.std.specs.Prelude.{OnErr};
ghost use Rattle.ssh_link.specs.Told.{Adds, AddsNothing};
ghost use Rattle.ssh_link.specs.Faults.{RoseOrFull};
ghost use Rattle.ssh_link.specs.Io.{Takes, AtEnd};

use thiserror::Error;

/// A read or a write failed: the count of faults of its source or sink rose, or is full.
#[derive(Clone, Copy, Debug, PartialEq, Eq, Error)]
#[error("a read or a write failed")]
pub struct IoFailed;

/// Where bytes come from. A source that tells its bytes goes on telling them.
pub trait Source {
    /// The bytes that are left, where the source tells them.
    ghost left: { Self → Option (List ℕ) };

    /// How often a read has failed.
    ghost faults: { Self → ℕ };

    /// Reads the next bytes into the front of `buf` and says how many they are. 0 for a buffer
    /// that is not empty is the end of input.
    fn read(&mut self, buf: &mut [u8]) -> Result<usize, IoFailed>
        ensures within { IfOk result (λ n. n ≤ length buf.old) }
        ensures len { length buf.new ≡ length buf.old }
        ensures taken { IfOk result (λ n. Takes (left self.old) (left self.new) n buf.new) }
        ensures end { IfOk result (λ n. n ≡ 0 → 0 < length buf.old → AtEnd (left self.old)) }
        ensures err { OnErr result (left self.new ≡ left self.old) }
        ensures cause { OnErr result (RoseOrFull (faults self.old) (faults self.new)) }
        ensures quiet { OnOk result (faults self.new ≡ faults self.old) }
        ensures later { faults self.old ≤ faults self.new };
}

/// Where bytes go to. A sink that tells its bytes goes on telling them.
pub trait Sink {
    /// The bytes that were written, where the sink tells them.
    ghost held: { Self → Option (List ℕ) };

    /// How often a write has failed.
    ghost faults: { Self → ℕ };

    /// Writes the front of `piece` and says how many bytes it is: at least one, where the piece
    /// is not empty.
    fn write(&mut self, piece: &[u8]) -> Result<usize, IoFailed>
        ensures within { IfOk result (λ n. n ≤ length piece.now) }
        ensures some { IfOk result (λ n. 0 < length piece.now → 0 < n) }
        ensures written { IfOk result (λ n. Adds (held self.old) (held self.new)
            (take n piece.now)) }
        ensures err { OnErr result (AddsNothing (held self.old) (held self.new)) }
        ensures cause { OnErr result (RoseOrFull (faults self.old) (faults self.new)) }
        ensures quiet { OnOk result (faults self.new ≡ faults self.old) }
        ensures later { faults self.old ≤ faults self.new };
}
