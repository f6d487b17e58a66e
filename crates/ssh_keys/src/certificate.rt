// Certificates and their blobs.
ghost use Rattle.std.specs.Prelude.{◌≡◌, ◌⊎◌, ◌↔◌, Result, IsErrOf, IfOk, IfErr, OnOk, IsTrue};
ghost use Rattle.ssh_wire.specs.Reading.{MovesOn};
ghost use Rattle.ssh_wire.specs.declared.error.WireError.TheVariants.{NoMemory as NoWireMemory};
ghost use Rattle.ssh_keys.specs.Keys.{type_of, IsKey};
ghost use Rattle.ssh_keys.specs.Certificates.{certified, SpellsCertified, LacksCertified};
ghost use Rattle.ssh_keys.specs.Certificates.{IsCertificate, HasCertificateType, FailsSignatureKey};
ghost use Rattle.ssh_keys.specs.Certificates.{FailsCertificate, DecodesCertificate};
ghost use Rattle.ssh_keys.specs.declared.certificate.Certificate.{Certificate};
ghost use Rattle.ssh_keys.specs.declared.error.KeyError.{KeyError};
ghost use Rattle.ssh_keys.specs.declared.error.KeyError.TheVariants.{Blob, NoMemory};

use crate::key_type::KeyType;
use crate::terms::{Identity, Options, Validity};
use crate::{CertType, KeyError, PublicKey, Signature};
use bytes::Bytes;
use ssh_wire::{Reader, Text, WireError};
use std::alloc::Global;

/// A key with what another key signed of it (OpenSSH PROTOCOL.certkeys). The signature is of
/// `signed`, to which decoding alone ties the other fields.
#[derive(Debug, Drop, PartialEq, Eq)]
pub struct Certificate {
    /// Bytes that the signer chose, so that nobody could foresee what is signed.
    pub nonce: Bytes,
    /// The key that is certified.
    pub public_key: PublicKey,
    /// The number that the signer gave to the certificate.
    pub serial: u64,
    /// Whom the certificate is for.
    pub cert_type: CertType,
    /// The name by which the signer knows the holder.
    pub key_id: Text,
    /// The names of the users or hosts that it is for, as they stand in the blob.
    pub valid_principals: Bytes,
    /// The second since 1970 from which on it holds; 0 sets no limit.
    pub valid_after: u64,
    /// The second since 1970 up to which it holds; 2^64 - 1 sets no limit.
    pub valid_before: u64,
    /// What it demands, as it stands in the blob.
    pub critical_options: Bytes,
    /// What it allows, as it stands in the blob.
    pub extensions: Bytes,
    /// Bytes without a meaning yet.
    pub reserved: Bytes,
    /// The key of the signer.
    pub signature_key: PublicKey,
    /// The signature of the signed part.
    pub signature: Signature,
    /// The signed part: the blob up to and including the signature key.
    pub signed: Bytes,
}

/// What a certificate certifies: the part between its type and its signature key.
#[derive(Debug, Drop)]
pub(crate) struct Certified {
    pub nonce: Bytes,
    pub public_key: PublicKey,
    pub identity: Identity,
    pub validity: Validity,
    pub options: Options,
}

impl Certified {
    /// Reads what is certified of a key of this type.
    pub fn read(alloc: Global, typ: KeyType, r: &mut Reader<'_>) -> Result<Certified, KeyError>
        ensures ok { IfOk result (λ part. (type_of part.public_key ≡ typ)
            × SpellsCertified part r.old.left r.new.left) }
        ensures moves { OnOk result (MovesOn r.old r.new) }
        ensures refused { IfErr result (λ e. (e ≡ NoMemory)
            ⊎ ((e ≡ Blob) × LacksCertified typ r.old.left)) }
    {
        let nonce = r.bytes()?;
        let public_key = PublicKey::read_fields(alloc, typ, r)?;
        let identity = Identity::read(alloc, r)?;
        let validity = Validity::read(r)?;
        let options = Options::read(alloc, r)?;
        Ok(Certified {
            nonce: Bytes::copy_from_slice(alloc, nonce)?,
            public_key,
            identity,
            validity,
            options,
        })
    }

    /// The certificate of this that was signed so.
    fn signed_by(self, signature_key: PublicKey, signature: Signature, signed: Bytes) -> Certificate
        ensures certified { certified result ≡ self }
        ensures signature_key { result.signature_key ≡ signature_key }
        ensures signature { result.signature ≡ signature }
        ensures signed { result.signed ≡ signed }
    {
        let Certified {
            nonce,
            public_key,
            identity,
            validity,
            options,
        } = self;
        let Identity {
            serial,
            cert_type,
            key_id,
            valid_principals,
        } = identity;
        let Options {
            critical_options,
            extensions,
            reserved,
        } = options;
        Certificate {
            nonce,
            public_key,
            serial,
            cert_type,
            key_id,
            valid_principals,
            valid_after: validity.valid_after,
            valid_before: validity.valid_before,
            critical_options,
            extensions,
            reserved,
            signature_key,
            signature,
            signed,
        }
    }
}

/// Whether a blob begins with the name of a type of certificates.
fn is_typed_as_certificate(blob: &[u8]) -> bool
    ensures { IsTrue result ↔ HasCertificateType blob.now }
{
    let mut r = Reader::new(blob);
    KeyType::read_of_certificate(&mut r).is_ok()
}

/// Reads the blob of a signature key, which is no certificate.
fn decode_signature_key(alloc: Global, blob: &[u8]) -> Result<PublicKey, KeyError>
    ensures ok { IfOk result (λ public. IsKey public blob.now) }
    ensures refused { IfErr result (λ e. (e ≡ NoMemory) ⊎ FailsSignatureKey blob.now e) }
{
    if is_typed_as_certificate(blob) {
        return Err(KeyError::CertificateValidation);
    }
    PublicKey::decode(alloc, blob)
}

impl Certificate {
    /// Reads the blob of a certificate. `Unknown` exactly where the name of its type, or of its
    /// signature key's type, is not known; `CertificateValidation` exactly where its signature
    /// key is a certificate; and `Blob` exactly where something else does not fit, or bytes
    /// follow: each where it comes first in the order of the blob. No other error but `NoMemory`.
    pub fn decode(alloc: Global, blob: &[u8]) -> Result<Certificate, KeyError>
        ensures ok { IfOk result (λ certificate. IsCertificate certificate blob.now) }
        ensures refused { IfErr result (λ e. (e ≡ NoMemory) ⊎ FailsCertificate blob.now e) }
        ensures exactly { (answer : Result Certificate KeyError)
            → DecodesCertificate blob.now answer → (result ≡ answer)
            ⊎ IsErrOf result KeyError.NoMemory }
    {
        Certificate::read(alloc, blob)
    }

    /// Reads the blob of a certificate.
    fn read(alloc: Global, blob: &[u8]) -> Result<Certificate, KeyError>
        ensures ok { IfOk result (λ certificate. IsCertificate certificate blob.now) }
        ensures refused { IfErr result (λ e. (e ≡ NoMemory) ⊎ FailsCertificate blob.now e) }
    {
        let mut r = Reader::new(blob);
        let typ = KeyType::read_of_certificate(&mut r)?;
        let part = Certified::read(alloc, typ, &mut r)?;
        let key = r.bytes()?;
        let signature_key = decode_signature_key(alloc, key)?;
        let signed = Bytes::copy_from_slice(alloc, &blob[..r.position()])?;
        let signature = Signature::decode_last(alloc, &mut r)?;
        Ok(part.signed_by(signature_key, signature, signed))
    }

    /// An equal certificate. `NoMemory` is the only error.
    pub fn copy(&self) -> Result<Certificate, WireError>
        ensures ok { IfOk result (λ certificate. certificate ≡ self.now) }
        ensures memory { IfErr result (λ e. e ≡ NoWireMemory) }
    {
        Ok(Certificate {
            nonce: self.nonce.clone()?,
            public_key: self.public_key.copy()?,
            serial: self.serial,
            cert_type: self.cert_type,
            key_id: self.key_id.copy()?,
            valid_principals: self.valid_principals.clone()?,
            valid_after: self.valid_after,
            valid_before: self.valid_before,
            critical_options: self.critical_options.clone()?,
            extensions: self.extensions.clone()?,
            reserved: self.reserved.clone()?,
            signature_key: self.signature_key.copy()?,
            signature: self.signature.copy()?,
            signed: self.signed.clone()?,
        })
    }
}
