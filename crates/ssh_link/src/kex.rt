// The exchange of keys, as a session sees it.
ghost use Rattle.std.specs.Prelude.{◌≡◌, List, Bool, Option, None, All, IfOk, IfErr};
ghost use Rattle.ssh_wire.specs.declared.error.WireError.TheVariants as wire_error;
ghost use Rattle.ssh_link.specs.declared.kex.KexCall.{KexCall};
ghost use Rattle.ssh_link.specs.declared.kex.KexCall.TheVariants.{Begun, Stepped};
ghost use Rattle.ssh_link.specs.Exchange.{TellsStep, IsKexinit, IsOfTransport};

use bytes::Bytes;
use ssh_wire::{Blobs, WireError};

/// Why a call of an exchange was not finished.
#[derive(Debug, Drop)]
pub enum KexFault<E> {
    /// The exchange cannot go on: the peer did not keep to it.
    Refused(E),
    /// There was no memory.
    NoMemory,
}

/// What a payload of the peer's leads to.
#[derive(Debug, Drop)]
pub struct KexStep {
    /// Payloads for the peer, in order, numbered 1 to 49.
    pub frames: Blobs,
    /// Whether the new keys are in use: the exchange is over (RFC 4253 section 7.3).
    pub done: bool,
}

impl KexStep {
    /// An equal step. `NoMemory` is the only error.
    pub fn copy(&self) -> Result<KexStep, WireError>
        ensures ok { IfOk result (λ step. step ≡ self.now) }
        ensures memory { IfErr result (λ e. e ≡ wire_error.NoMemory) }
    {
        Ok(KexStep {
            frames: self.frames.copy()?,
            done: self.done,
        })
    }
}

/// A finished call of an exchange, as the exchange tells it.
#[derive(Debug, Drop)]
pub enum KexCall<E> {
    /// The exchange was begun.
    Begun {
        /// The first payload for the peer, or why there is none.
        answer: Result<Bytes, E>,
    },
    /// A payload of the peer's was taken.
    Stepped {
        /// The payload, from its number on.
        payload: Bytes,
        /// What it leads to, or why the exchange cannot go on.
        answer: Result<KexStep, E>,
    },
}

/// The exchange of keys of a connection (RFC 4253 section 7). The payloads numbered 20 to 49 are
/// its own: a session hands them to it, and hands on what it gives. One that tells its calls goes
/// on telling them.
pub trait Kex {
    /// Why an exchange cannot go on.
    type Error: Drop;

    /// The finished calls in order, where the exchange tells them: none, where it is not written.
    ghost steps: { Self → Option (List (KexCall Self.Error)) } = { λ _. None };

    /// Whether this side can begin an exchange by itself, which no call changes.
    ghost repeats: { Self → Bool };

    /// Whether this side can begin an exchange by itself, after the first one.
    fn repeatable(&self) -> bool
        ensures { result ≡ repeats self.now };

    /// Begins an exchange: gives this side's KEXINIT (RFC 4253 section 7.1).
    fn begin(&mut self) -> Result<Bytes, KexFault<Self::Error>>
        ensures told { TellsStep (steps self.old) (steps self.new) Begun result }
        ensures kexinit { IfOk result (λ payload. IsKexinit payload) }
        ensures repeats { repeats self.new ≡ repeats self.old };

    /// Takes a payload of the peer's that is numbered 20 to 49.
    fn step(&mut self, payload: &[u8]) -> Result<KexStep, KexFault<Self::Error>>
        ensures told { TellsStep (steps self.old) (steps self.new) (Stepped payload.now) result }
        ensures frames { IfOk result (λ step. All IsOfTransport step.frames) }
        ensures repeats { repeats self.new ≡ repeats self.old };
}
