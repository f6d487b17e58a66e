// A key that is offered, plain or in a certificate.
ghost use Rattle.std.specs.Prelude.{◌≡◌, ◌⊎◌, None, Result, IsErrOf, IfOk, IfErr, MatchOption};
ghost use Rattle.ssh_keys.specs.Offers.{hash_of, IsOffer, FailsOffer, DecodesOffer, offered_key};
ghost use Rattle.ssh_keys.specs.Offers.{IsPlain};
ghost use Rattle.ssh_keys.specs.declared.error.KeyError.{KeyError};
ghost use Rattle.ssh_keys.specs.declared.error.KeyError.TheVariants.{NoMemory};
ghost use Rattle.ssh_keys.specs.declared.key_or_certificate.PublicKeyOrCertificate.{
  PublicKeyOrCertificate,
};
ghost use Rattle.ssh_keys.specs.declared.key_or_certificate.PublicKeyOrCertificate.TheVariants as
    offer;

use crate::{Algorithm, Certificate, HashAlg, KeyError, PublicKey};
use std::alloc::Global;

/// A key that is offered, plain or in a certificate.
#[derive(Debug, Drop, PartialEq, Eq)]
pub enum PublicKeyOrCertificate {
    /// A key, with the hash that the name of the algorithm names.
    PublicKey {
        /// The key.
        key: PublicKey,
        /// The hash that it signs with, where the name says one.
        hash_alg: Option<HashAlg>,
    },
    /// A certificate of OpenSSH (PROTOCOL.certkeys).
    Certificate(Certificate),
}

impl Algorithm {
    /// The hash that the algorithm's name names.
    pub(crate) fn hash_alg(self) -> Option<HashAlg>
        ensures { result ≡ hash_of self }
    {
        match self {
            Algorithm::Rsa { hash } => hash,
            Algorithm::Ed25519 | Algorithm::Ecdsa { .. } => None,
        }
    }
}

impl PublicKeyOrCertificate {
    /// Reads a blob by the name of an algorithm: of keys, or of certificates. The name is not
    /// compared with the blob's type. `Unknown` exactly where the name is not known, or else as
    /// for the blob of a key, or of a certificate. No other error but theirs.
    pub fn decode(
        alloc: Global,
        pubkey_algo: &str,
        blob: &[u8],
    ) -> Result<PublicKeyOrCertificate, KeyError>
        ensures ok { IfOk result (λ offered. IsOffer offered pubkey_algo.now blob.now) }
        ensures refused { IfErr result (λ e. (e ≡ NoMemory)
            ⊎ FailsOffer pubkey_algo.now blob.now e) }
        ensures exactly { (answer : Result PublicKeyOrCertificate KeyError)
            → DecodesOffer pubkey_algo.now blob.now answer
            → (result ≡ answer) ⊎ IsErrOf result KeyError.NoMemory }
    {
        PublicKeyOrCertificate::read(alloc, pubkey_algo, blob)
    }

    /// Reads a blob by the name of an algorithm.
    fn read(
        alloc: Global,
        pubkey_algo: &str,
        blob: &[u8],
    ) -> Result<PublicKeyOrCertificate, KeyError>
        ensures ok { IfOk result (λ offered. IsOffer offered pubkey_algo.now blob.now) }
        ensures refused { IfErr result (λ e. (e ≡ NoMemory)
            ⊎ FailsOffer pubkey_algo.now blob.now e) }
    {
        if let Some(algorithm) = Algorithm::new(pubkey_algo) {
            return Ok(PublicKeyOrCertificate::PublicKey {
                key: PublicKey::decode(alloc, blob)?,
                hash_alg: algorithm.hash_alg(),
            });
        }
        match Algorithm::new_certificate(pubkey_algo) {
            Some(_) => Ok(PublicKeyOrCertificate::Certificate(Certificate::decode(alloc, blob)?)),
            None => Err(KeyError::Unknown),
        }
    }

    /// The key, or the certificate's own.
    pub fn public_key(&self) -> &PublicKey
        ensures { result.now ≡ offered_key self.now }
    {
        match self {
            PublicKeyOrCertificate::PublicKey { key, .. } => key,
            PublicKeyOrCertificate::Certificate(certificate) => &certificate.public_key,
        }
    }

    /// The certificate, where it is one.
    pub fn certificate(&self) -> Option<&Certificate>
        ensures { MatchOption result (IsPlain self.now)
            (λ certificate. self.now ≡ offer.Certificate certificate.now) }
    {
        match self {
            PublicKeyOrCertificate::PublicKey { .. } => None,
            PublicKeyOrCertificate::Certificate(certificate) => Some(certificate),
        }
    }
}

/// A plain key, without a hash.
impl From<PublicKey> for PublicKeyOrCertificate {
    ghost from_gives = { λ key offered. offered ≡ offer.PublicKey key None };

    fn from(key: PublicKey) -> PublicKeyOrCertificate {
        PublicKeyOrCertificate::PublicKey {
            key,
            hash_alg: None,
        }
    }
}

impl From<Certificate> for PublicKeyOrCertificate {
    ghost from_gives = { λ certificate offered. offered ≡ offer.Certificate certificate };

    fn from(certificate: Certificate) -> PublicKeyOrCertificate {
        PublicKeyOrCertificate::Certificate(certificate)
    }
}
