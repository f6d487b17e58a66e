// An exchange without cryptography.
ghost use Rattle.std.specs.Prelude.{◌≡◌, [], ◌∷◌, ◌++◌, Some, Ok, Err, false, not, All, IfOk, OnOk};
ghost use Rattle.std.specs.Prelude.{OnErr};
ghost use Rattle.ssh_link.specs.declared.plain_kex.PlainKexError.TheVariants.{Unexpected};
ghost use Rattle.ssh_link.specs.declared.kex.KexCall.TheVariants.{Begun, Stepped};
ghost use Rattle.ssh_link.specs.Exchange.{TellsStep, IsKexinit, IsOfTransport, plain_turn};
ghost use Rattle.ssh_link.specs.Exchange.{plain_answer, plain_both, IsOwed};

use crate::lists::pushed;
use crate::{Kex, KexCall, KexFault, KexStep};
use bytes::Bytes;
use ssh_wire::message::{KEXINIT, NEWKEYS};
use ssh_wire::{Blobs, WireError};
use std::alloc::Global;
use std::marker::Model;
use thiserror::Error;

/// Why the plain exchange cannot go on.
#[derive(Clone, Copy, Debug, PartialEq, Eq, Error)]
pub enum PlainKexError {
    /// A payload came that is not its turn: neither a KEXINIT, nor the NEWKEYS after one.
    #[error("a payload that does not belong here")]
    Unexpected,
}

/// An exchange without cryptography, for programs and tests whose transport is secured otherwise or
/// not at all. It begins with a KEXINIT of one byte; the peer's KEXINIT gives no payload; the
/// NEWKEYS after it is answered by another, and ends the exchange. All else is refused. It tells
/// its calls.
#[derive(Debug, Drop)]
pub struct PlainKex {
    alloc: Global,
    repeatable: bool,
    // Whether the peer's KEXINIT came in the exchange that runs.
    both: bool,
    calls: Vec<KexCall<PlainKexError>>,
}

impl Model for PlainKex {
    ghost use Rattle.ssh_link.specs.Exchange.{Plain};

    ghost Value = { Plain };

    ghost view = { λ kex. record {
      repeatable = kex.repeatable;
      both = kex.both;
      calls =
          kex.calls.items;
    } };
}

impl PlainKex {
    /// An exchange of which none has run yet; whether this side can begin one by itself later.
    pub fn new(alloc: Global, repeatable: bool) -> PlainKex
        ensures { result ≡ record { repeatable = repeatable; both = false; calls = [] } }
    {
        PlainKex {
            alloc,
            repeatable,
            both: false,
            calls: Vec::new(alloc),
        }
    }

    /// The finished calls, in order.
    pub fn calls(&self) -> &[KexCall<PlainKexError>]
        ensures { result.now ≡ self.now.calls }
    {
        self.calls.as_slice()
    }

    // Whether this payload ends the exchange, where it is its turn.
    fn turn(&self, payload: &[u8]) -> Option<bool>
        ensures { result ≡ plain_turn self.now.both payload.now }
    {
        let number = *payload.first()?;
        if number == KEXINIT {
            return Some(false);
        }
        if number == NEWKEYS && self.both {
            return Some(true);
        }
        None
    }

    // The payloads of an answer: NEWKEYS at the end, and none before it.
    fn answered(&self, done: bool) -> Result<KexStep, WireError>
        ensures { IfOk result (λ step. Ok step ≡ plain_answer (Some done)) }
    {
        let mut frames = Blobs::new(self.alloc);
        if done {
            frames.push(Bytes::copy_from_slice(self.alloc, &[NEWKEYS])?)?;
        }
        Ok(KexStep { frames, done })
    }

    // Keeps a finished call.
    fn tell(&mut self, call: KexCall<PlainKexError>) -> Result<(), WireError>
        ensures ok { OnOk result (self.new ≡ record self.old
            { calls = self.old.calls ++ call ∷ [] }) }
        ensures err { OnErr result (self.new ≡ self.old) }
    {
        pushed(&mut self.calls, call)
    }

    // A KEXINIT of one byte, which is told.
    fn begun(&mut self) -> Result<Bytes, WireError>
        ensures ok { IfOk result (λ payload. (payload ≡ 20 ∷ [])
            × (self.new ≡ record self.old { calls = self.old.calls ++ Begun (Ok payload) ∷ [] })) }
        ensures err { OnErr result (self.new ≡ self.old) }
    {
        let payload = Bytes::copy_from_slice(self.alloc, &[KEXINIT])?;
        let answer = Ok(payload.clone()?);
        self.tell(KexCall::Begun { answer })?;
        Ok(payload)
    }

    // The answer to a payload that ends the exchange or not, which is told.
    fn stepped(&mut self, payload: &[u8], done: bool) -> Result<KexStep, WireError>
        ensures ok { IfOk result (λ step. (Ok step ≡ plain_answer (Some done))
            × (self.new ≡ record self.old {
              both = not done;
              calls =
                  self.old.calls ++ Stepped payload.now (Ok step) ∷ [];
            })) }
        ensures err { OnErr result (self.new ≡ self.old) }
    {
        let step = self.answered(done)?;
        let call = KexCall::Stepped {
            payload: Bytes::copy_from_slice(self.alloc, payload)?,
            answer: Ok(step.copy()?),
        };
        self.tell(call)?;
        self.both = !done;
        Ok(step)
    }

    // The refusal of a payload that is out of turn, which is told.
    fn refuse(&mut self, payload: &[u8]) -> Result<PlainKexError, WireError>
        ensures ok { IfOk result (λ error. (error ≡ Unexpected)
            × (self.new ≡ record self.old {
              calls =
                  self.old.calls ++ Stepped payload.now (Err error) ∷ [];
            })) }
        ensures err { OnErr result (self.new ≡ self.old) }
    {
        let error = PlainKexError::Unexpected;
        let payload = Bytes::copy_from_slice(self.alloc, payload)?;
        self.tell(KexCall::Stepped {
            payload,
            answer: Err(error),
        })?;
        Ok(error)
    }
}

impl Kex for PlainKex {
    type Error = PlainKexError;

    ghost steps = { λ kex. Some kex.calls };

    ghost repeats = { λ kex. kex.repeatable };

    fn repeatable(&self) -> bool
        ensures { result ≡ self.now.repeatable }
    {
        self.repeatable
    }

    fn begin(&mut self) -> Result<Bytes, KexFault<PlainKexError>>
        ensures told { TellsStep (Some self.old.calls) (Some self.new.calls) Begun result }
        ensures kexinit { IfOk result (λ payload. IsKexinit payload) }
        ensures repeats { self.new.repeatable ≡ self.old.repeatable }
        ensures both { self.new.both ≡ self.old.both }
        ensures one_byte { IsOwed (Ok (20 ∷ [])) result }
    {
        match self.begun() {
            Ok(payload) => Ok(payload),
            Err(_) => Err(KexFault::NoMemory),
        }
    }

    fn step(&mut self, payload: &[u8]) -> Result<KexStep, KexFault<PlainKexError>>
        ensures told { TellsStep (Some self.old.calls) (Some self.new.calls) (Stepped payload.now)
            result }
        ensures frames { IfOk result (λ step. All IsOfTransport step.frames) }
        ensures repeats { self.new.repeatable ≡ self.old.repeatable }
        ensures owed { IsOwed (plain_answer (plain_turn self.old.both payload.now)) result }
        ensures both { OnOk result (self.new.both ≡ plain_both self.old.both
            (plain_turn self.old.both payload.now)) }
        ensures err { OnErr result (self.new.both ≡ self.old.both) }
    {
        let Some(done) = self.turn(payload) else {
            return match self.refuse(payload) {
                Ok(error) => Err(KexFault::Refused(error)),
                Err(_) => Err(KexFault::NoMemory),
            };
        };
        match self.stepped(payload, done) {
            Ok(step) => Ok(step),
            Err(_) => Err(KexFault::NoMemory),
        }
    }
}
