// Where a gateway connects to.
ghost use Rattle.std.specs.Prelude.{◌≡◌, ◌≢◌, ◌≤◌, ℕ, List, [], Option, None, Ok, IsErrOf, length};
ghost use Rattle.ssh_link.specs.Faults.{Rose};
ghost use Rattle.ssh_link.specs.Told.{Tells};
ghost use Rattle.ssh_gateway.specs.declared.targets.TargetCall.{TargetCall as Call};
ghost use Rattle.ssh_gateway.specs.Asked.{IsFilled};

use bytes::Bytes;
use ssh_wire::{Text, WireError};
use thiserror::Error;

/// Why a call of the targets was not finished.
#[derive(Clone, Copy, Debug, PartialEq, Eq, Error)]
pub enum TargetFault {
    /// The outside failed: the count of faults of the targets rose.
    #[error("a target failed")]
    Failed,
    /// There was no memory.
    #[error("no memory")]
    NoMemory,
}

/// What a target gave when it was read.
#[derive(Debug, Drop, PartialEq, Eq)]
pub enum Arrived {
    /// These bytes, of which there is at least one.
    Bytes(Bytes),
    /// Nothing yet.
    Nothing,
    /// It gives no more.
    End,
}

impl Arrived {
    ghost use Rattle.std.specs.Prelude.{IfOk, IfErr};
    ghost use Rattle.ssh_wire.specs.declared.error.WireError.TheVariants.{NoMemory};

    /// The same, which shares the bytes where it can. `NoMemory` is the only error.
    pub fn copy(&self) -> Result<Arrived, WireError>
        ensures ok { IfOk result (λ same. same ≡ self.now) }
        ensures memory { IfErr result (λ e. e ≡ NoMemory) }
    {
        match self {
            Arrived::Bytes(bytes) => Ok(Arrived::Bytes(bytes.clone()?)),
            Arrived::Nothing => Ok(Arrived::Nothing),
            Arrived::End => Ok(Arrived::End),
        }
    }
}

/// A call of the targets with its answer, as they tell it.
#[derive(Debug, Drop, PartialEq, Eq)]
pub enum TargetCall {
    /// A connection to a host was asked for.
    Connect {
        /// The number of the connection.
        id: u64,
        /// The host.
        host: Text,
        /// Its port.
        port: u32,
        /// Whether it was made.
        answer: Result<bool, TargetFault>,
    },
    /// Bytes were handed to the target.
    Write {
        /// The number of the connection.
        id: u64,
        /// The bytes, in order.
        bytes: Bytes,
        /// Whether all were taken.
        answer: Result<(), TargetFault>,
    },
    /// The target was read.
    Read {
        /// The number of the connection.
        id: u64,
        /// How many bytes were asked for, at most.
        most: usize,
        /// What it gave.
        answer: Result<Arrived, TargetFault>,
    },
    /// The target was told that no more bytes come.
    Finish {
        /// The number of the connection.
        id: u64,
        /// Whether it was told.
        answer: Result<(), TargetFault>,
    },
    /// The connection was closed.
    Close {
        /// The number of the connection.
        id: u64,
        /// Whether it was.
        answer: Result<(), TargetFault>,
    },
}

/// The hosts that a gateway connects to. Targets that tell their calls go on telling them, unless
/// one failed. Each connection has a number that the gateway gives it, from 1 on, and no two have
/// the same.
pub trait Targets {
    /// The calls so far in order, with their answers, where the targets tell them.
    ghost told: { Self → Option (List Call) } = { λ _. None };

    /// How often the outside has failed: it rises where a call fails so, and never falls.
    ghost faults: { Self → ℕ };

    /// Connects to this host and port, and answers whether it could.
    fn connect(&mut self, id: u64, host: &str, port: u32) -> Result<bool, TargetFault>
        ensures told { Tells (told self.old) (told self.new) result
            (TargetCall.Connect id host.now port result) }
        ensures cause { IsErrOf result TargetFault.Failed → Rose (faults self.old)
            (faults self.new) }
        ensures later { faults self.old ≤ faults self.new };

    /// Hands these bytes to the target, all of them.
    fn write(&mut self, id: u64, bytes: &[u8]) -> Result<(), TargetFault>
        ensures told { Tells (told self.old) (told self.new) result
            (TargetCall.Write id bytes.now result) }
        ensures cause { IsErrOf result TargetFault.Failed → Rose (faults self.old)
            (faults self.new) }
        ensures later { faults self.old ≤ faults self.new };

    /// Reads what the target has, at most so many bytes, without waiting for more.
    fn read(&mut self, id: u64, most: usize) -> Result<Arrived, TargetFault>
        ensures told { Tells (told self.old) (told self.new) result
            (TargetCall.Read id most result) }
        ensures filled { IsFilled most result }
        ensures cause { IsErrOf result TargetFault.Failed → Rose (faults self.old)
            (faults self.new) }
        ensures later { faults self.old ≤ faults self.new };

    /// Tells the target that no more bytes come from the peer.
    fn finish(&mut self, id: u64) -> Result<(), TargetFault>
        ensures told { Tells (told self.old) (told self.new) result
            (TargetCall.Finish id result) }
        ensures cause { IsErrOf result TargetFault.Failed → Rose (faults self.old)
            (faults self.new) }
        ensures later { faults self.old ≤ faults self.new };

    /// Closes the connection: nothing more is asked of it.
    fn close(&mut self, id: u64) -> Result<(), TargetFault>
        ensures told { Tells (told self.old) (told self.new) result
            (TargetCall.Close id result) }
        ensures cause { IsErrOf result TargetFault.Failed → Rose (faults self.old)
            (faults self.new) }
        ensures later { faults self.old ≤ faults self.new };
}
