// Signatures.
ghost use Rattle.std.specs.Prelude.{◌≡◌, ◌⊎◌, IfOk, IfErr, OnOk, OnErr};
ghost use Rattle.ssh_wire.specs.Reading.{MovesOn};
ghost use Rattle.ssh_wire.specs.declared.error.WireError.TheVariants.{NoMemory as NoWireMemory};
ghost use Rattle.ssh_keys.specs.Keys.{LacksFields};
ghost use Rattle.ssh_keys.specs.Signatures.{signature_fields, SpellsSignature, EndsInSignature};
ghost use Rattle.ssh_keys.specs.Signatures.{LacksSignature};
ghost use Rattle.ssh_keys.specs.declared.error.KeyError.TheVariants.{Blob, NoMemory};

use crate::KeyError;
use bytes::Bytes;
use ssh_wire::{Reader, Text, WireError};
use std::alloc::Global;

/// A signature with the name of its algorithm (RFC 4253 section 6.6).
#[derive(Debug, Drop, PartialEq, Eq)]
pub struct Signature {
    /// The name of the algorithm, which need not be a known one.
    pub name: Text,
    /// The signature's own bytes, as the algorithm lays them out.
    pub blob: Bytes,
}

impl Signature {
    /// Reads a signature; what follows stays unread. `Blob` exactly where its two fields do not
    /// fit, and no other error but `NoMemory`. A refusal leaves the reader as it was.
    pub fn decode(alloc: Global, r: &mut Reader<'_>) -> Result<Signature, KeyError>
        ensures ok { IfOk result (λ signature. SpellsSignature signature r.old.left r.new.left) }
        ensures moves { OnOk result (MovesOn r.old r.new) }
        ensures refused { IfErr result (λ e. (e ≡ NoMemory)
            ⊎ ((e ≡ Blob) × LacksFields signature_fields r.old.left)) }
        ensures err { OnErr result (r.new ≡ r.old) }
    {
        let mut ahead = r.ahead();
        let name = ahead.text()?;
        let blob = ahead.bytes()?;
        let signature = Signature {
            name: Text::new(alloc, name)?,
            blob: Bytes::copy_from_slice(alloc, blob)?,
        };
        *r = ahead;
        Ok(signature)
    }

    /// Reads a string that holds a signature and nothing else, and the end after it.
    pub(crate) fn decode_last(alloc: Global, r: &mut Reader<'_>) -> Result<Signature, KeyError>
        ensures ok { IfOk result (λ signature. EndsInSignature signature r.old.left) }
        ensures refused { IfErr result (λ e. (e ≡ NoMemory)
            ⊎ ((e ≡ Blob) × LacksSignature r.old.left)) }
    {
        let inner = r.bytes()?;
        r.end()?;
        let mut inside = Reader::new(inner);
        let signature = Signature::decode(alloc, &mut inside)?;
        inside.end()?;
        Ok(signature)
    }

    /// An equal signature. `NoMemory` is the only error.
    pub fn copy(&self) -> Result<Signature, WireError>
        ensures ok { IfOk result (λ signature. signature ≡ self.now) }
        ensures memory { IfErr result (λ e. e ≡ NoWireMemory) }
    {
        Ok(Signature {
            name: self.name.copy()?,
            blob: self.blob.clone()?,
        })
    }
}
