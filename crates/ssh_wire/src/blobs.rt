// A list of byte strings.
ghost use Rattle.std.specs.Prelude.{◌≡◌, [], ◌∷◌, ◌++◌, IfOk, IfErr, OnOk, OnErr};
ghost use Rattle.ssh_wire.specs.declared.error.WireError.TheVariants.{NoMemory};

use crate::WireError;
use bytes::Bytes;
use std::alloc::Global;
use std::marker::Model;

/// Byte strings in order, as the payloads that are to be sent. A clause sees the list.
#[derive(Debug, Drop)]
pub struct Blobs {
    blobs: Vec<Bytes>,
}

impl Model for Blobs {
    ghost use Rattle.std.specs.Prelude.{ℕ, List};

    ghost Value = { List (List ℕ) };

    ghost view = { λ list. list.blobs.items };
}

impl Blobs {
    /// No byte string.
    pub fn new(alloc: Global) -> Blobs
        ensures { result ≡ [] }
    {
        Blobs {
            blobs: Vec::new(alloc),
        }
    }

    /// The byte strings in order.
    pub fn as_slice(&self) -> &[Bytes]
        ensures { result.now ≡ self.now }
    {
        self.blobs.as_slice()
    }

    /// Adds a byte string at the end. Where there is no memory, the list is as before.
    pub fn push(&mut self, blob: Bytes) -> Result<(), WireError>
        ensures ok { OnOk result (self.new ≡ self.old ++ blob ∷ []) }
        ensures memory { IfErr result (λ e. e ≡ NoMemory) }
        ensures err { OnErr result (self.new ≡ self.old) }
    {
        self.blobs.push(blob)?;
        Ok(())
    }

    /// An equal list, which shares the bytes where it can.
    pub fn copy(&self) -> Result<Blobs, WireError>
        ensures ok { IfOk result (λ blobs. blobs ≡ self.now) }
        ensures memory { IfErr result (λ e. e ≡ NoMemory) }
    {
        Ok(Blobs {
            blobs: self.blobs.clone()?,
        })
    }
}
