// The exchange of keys of a connection, which the transport makes by itself.
ghost use Rattle.std.specs.Prelude.{◌≡◌, [], ◌∷◌, ◌++◌, Some, Ok, false, All, IfOk, OnOk, OnErr};
ghost use Rattle.ssh_link.specs.declared.kex.KexCall.TheVariants.{Begun, Stepped};
ghost use Rattle.ssh_link.specs.Exchange.{TellsStep, IsKexinit, IsOfTransport};
ghost use Rattle.ssh_embed.specs.Transport.{ends_so};

use bytes::Bytes;
use ssh_link::{Kex, KexCall, KexFault, KexStep};
use ssh_wire::message::KEXINIT;
use ssh_wire::{Blobs, WireError};
use std::alloc::Global;

/// The exchange of keys as the session sees it, where the transport makes it by itself (RFC 4253
/// section 7): it sends its own payloads, so a step gives none, and says with a payload of the
/// peer's whether the new keys are in use behind it. A KEXINIT of one byte that the session begins
/// with stands for the one that the transport is to send.
///
/// It tells the calls since it last forgot them.
#[derive(Drop)]
pub struct TransportKex {
    alloc: Global,
    repeatable: bool,
    // Whether the new keys are in use behind the next payload.
    ends: bool,
    calls: Vec<KexCall<()>>,
}

// Adds the item at the end.
fn pushed<T: Drop>(items: &mut Vec<T>, item: T) -> Result<(), WireError>
    ensures ok { OnOk result (items.new.items ≡ items.old.items ++ item ∷ []) }
    ensures err { OnErr result (items.new.items ≡ items.old.items) }
{
    items.push(item)?;
    Ok(())
}

impl TransportKex {
    /// An exchange of which none has run since the first; whether this side can begin one by
    /// itself.
    pub(crate) fn new(alloc: Global, repeatable: bool) -> TransportKex
        ensures repeatable { result.repeatable ≡ repeatable }
        ensures calls { result.calls.items ≡ [] }
        ensures goes_on { result.ends ≡ false }
    {
        TransportKex {
            alloc,
            repeatable,
            ends: false,
            calls: Vec::new(alloc),
        }
    }

    /// The same exchange before the next input, behind whose payload the new keys are in use, or
    /// not: the calls so far are forgotten.
    pub(crate) fn before_input(&mut self, ends: bool)
        ensures repeatable { self.new.repeatable ≡ self.old.repeatable }
        ensures calls { self.new.calls.items ≡ [] }
        ensures ends { self.new.ends ≡ ends }
    {
        self.ends = ends;
        self.calls.clear();
    }

    // The KEXINIT of one byte, which is told.
    fn begun(&mut self) -> Result<Bytes, WireError>
        ensures ok { IfOk result (λ payload. (payload ≡ 20 ∷ [])
            × (self.new.calls.items ≡ self.old.calls.items ++ Begun (Ok payload) ∷ [])) }
        ensures err { OnErr result (self.new.calls.items ≡ self.old.calls.items) }
        ensures repeatable { self.new.repeatable ≡ self.old.repeatable }
        ensures ends { self.new.ends ≡ self.old.ends }
    {
        let payload = Bytes::copy_from_slice(self.alloc, &[KEXINIT])?;
        let answer = Ok(payload.clone()?);
        pushed(&mut self.calls, KexCall::Begun { answer })?;
        Ok(payload)
    }

    // A step without payloads, which is told.
    fn stepped(&mut self, payload: &[u8]) -> Result<KexStep, WireError>
        ensures ok { IfOk result (λ step. (step ≡ ends_so self.old.ends)
            × (self.new.calls.items ≡ self.old.calls.items ++ Stepped payload.now (Ok step) ∷ [])) }
        ensures err { OnErr result (self.new.calls.items ≡ self.old.calls.items) }
        ensures repeatable { self.new.repeatable ≡ self.old.repeatable }
        ensures ends { self.new.ends ≡ self.old.ends }
    {
        let call = KexCall::Stepped {
            payload: Bytes::copy_from_slice(self.alloc, payload)?,
            answer: Ok(self.step_now()),
        };
        pushed(&mut self.calls, call)?;
        Ok(self.step_now())
    }

    // A step that gives no payload.
    fn step_now(&self) -> KexStep
        ensures { result ≡ ends_so self.now.ends }
    {
        KexStep {
            frames: Blobs::new(self.alloc),
            done: self.ends,
        }
    }
}

impl Kex for TransportKex {
    type Error = ();

    ghost steps = { λ kex. Some kex.calls.items };

    ghost repeats = { λ kex. kex.repeatable };

    fn repeatable(&self) -> bool {
        self.repeatable
    }

    fn begin(&mut self) -> Result<Bytes, KexFault<()>>
        ensures told { TellsStep (Some self.old.calls.items) (Some self.new.calls.items) Begun
            result }
        ensures kexinit { IfOk result (λ payload. IsKexinit payload) }
        ensures repeats { self.new.repeatable ≡ self.old.repeatable }
    {
        match self.begun() {
            Ok(payload) => Ok(payload),
            Err(_) => Err(KexFault::NoMemory),
        }
    }

    fn step(&mut self, payload: &[u8]) -> Result<KexStep, KexFault<()>>
        ensures told { TellsStep (Some self.old.calls.items) (Some self.new.calls.items)
            (Stepped payload.now) result }
        ensures frames { IfOk result (λ step. All IsOfTransport step.frames) }
        ensures repeats { self.new.repeatable ≡ self.old.repeatable }
        ensures owed { IfOk result (λ step. step ≡ ends_so self.old.ends) }
    {
        match self.stepped(payload) {
            Ok(step) => Ok(step),
            Err(_) => Err(KexFault::NoMemory),
        }
    }
}
