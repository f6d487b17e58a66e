// A verifier that accepts what stands in its list.
ghost use Rattle.std.specs.Prelude.{◌≡◌, ◌↔◌, [], ◌∷◌, ◌++◌, IsTrue, IfErr, OnOk, OnErr};
ghost use Rattle.ssh_keys.specs.Tables.{IsListed};
ghost use Rattle.ssh_keys.specs.declared.error.KeyError.TheVariants.{NoMemory};

use crate::{Algorithm, KeyError, PublicKey, Verifier};
use bytes::Bytes;
use std::alloc::Global;
use std::marker::Model;

/// A signature that is accepted.
#[derive(Debug, Drop)]
pub struct AcceptedSignature {
    /// The key that signed.
    pub key: PublicKey,
    /// The algorithm by which it signed.
    pub algorithm: Algorithm,
    /// What was signed.
    pub message: Bytes,
    /// The signature, without its length and name.
    pub signature: Bytes,
}

impl AcceptedSignature {
    /// Whether it is this one.
    fn is(&self, key: &PublicKey, algorithm: Algorithm, message: &[u8], signature: &[u8]) -> bool
        ensures { IsTrue result ↔ (self.now ≡ record {
          key = key.now;
          algorithm = algorithm;
          message = message.now;
          signature =
              signature.now;
        }) }
    {
        self.key == *key
            && self.algorithm == algorithm
            && self.message.as_slice() == message
            && self.signature.as_slice() == signature
    }
}

/// A verifier that accepts the signatures of its list and no other. A clause sees the list.
#[derive(Debug, Drop)]
pub struct TableVerifier {
    accepted: Vec<AcceptedSignature>,
}

impl Model for TableVerifier {
    ghost use Rattle.std.specs.Prelude.{List};
    ghost use Rattle.ssh_keys.specs.declared.table_verifier.AcceptedSignature.{AcceptedSignature};

    ghost Value = { List AcceptedSignature };

    ghost view = { λ table. table.accepted.items };
}

impl TableVerifier {
    /// A verifier that accepts nothing.
    pub fn new(alloc: Global) -> TableVerifier
        ensures { result ≡ [] }
    {
        TableVerifier {
            accepted: Vec::new(alloc),
        }
    }

    /// Accepts this signature too. `NoMemory` is the only error, and leaves the list as it was.
    pub fn add(
        &mut self,
        key: PublicKey,
        algorithm: Algorithm,
        message: Bytes,
        signature: Bytes,
    ) -> Result<(), KeyError>
        ensures ok { OnOk result (self.new ≡ self.old
            ++ (record {
              key = key;
              algorithm = algorithm;
              message = message;
              signature =
                  signature;
            }) ∷ []) }
        ensures memory { IfErr result (λ e. e ≡ NoMemory) }
        ensures err { OnErr result (self.new ≡ self.old) }
    {
        self.accepted.push(AcceptedSignature {
            key,
            algorithm,
            message,
            signature,
        })?;
        Ok(())
    }
}

impl Verifier for TableVerifier {
    ghost accepts = { IsListed };

    fn verify(
        &self,
        key: &PublicKey,
        algorithm: Algorithm,
        message: &[u8],
        signature: &[u8],
    ) -> bool {
        for accepted in &self.accepted {
            if accepted.is(key, algorithm, message, signature) {
                return true;
            }
        }
        false
    }
}
