// Public keys and their blobs.
ghost use Rattle.std.specs.Prelude.{◌≡◌, ◌⊎◌, ◌↔◌, ◌++◌, ℕ, List, Result, Ok, IfOk, IfErr, OnOk};
ghost use Rattle.std.specs.Prelude.{IsErrOf, IsTrue};
ghost use Rattle.ssh_wire.specs.Reading.{MovesOn};
ghost use Rattle.ssh_wire.specs.declared.error.WireError.TheVariants.{NoMemory as NoWireMemory};
ghost use Rattle.ssh_keys.specs.Keys.{type_of, SpellsKey, IsKey, LacksKey, FailsKey, DecodesKey};
ghost use Rattle.ssh_keys.specs.Keys.{HasLongField, key_blob};
ghost use Rattle.ssh_keys.specs.declared.error.KeyError.{KeyError};
ghost use Rattle.ssh_keys.specs.declared.error.KeyError.TheVariants.{Blob, NoMemory};
ghost use Rattle.ssh_keys.specs.declared.public_key.PublicKey.{PublicKey};
ghost use Rattle.ssh_keys.specs.declared.key_type.KeyType.TheVariants as type;

use crate::key_type::KeyType;
use crate::{Algorithm, EcdsaCurve, KeyError};
use bytes::Bytes;
use ssh_wire::{Reader, WireError, put_bytes, put_text};
use std::alloc::Global;

/// A public key. Its strings are kept as they stand in the blob, whatever they hold.
#[derive(Debug, Drop, PartialEq, Eq)]
pub enum PublicKey {
    /// RFC 8709 section 4.
    Ed25519 {
        /// The key.
        key: Bytes,
    },
    /// RFC 5656 section 3.1.
    Ecdsa {
        /// The curve.
        curve: EcdsaCurve,
        /// The point of the curve, as an octet string.
        point: Bytes,
    },
    /// RFC 4253 section 6.6.
    Rsa {
        /// The public exponent.
        e: Bytes,
        /// The modulus.
        n: Bytes,
    },
}

impl PublicKey {
    /// Reads the blob of a key. `Unknown` exactly where the name of its type is none of the
    /// five, and `Blob` exactly where there is no such name, its fields do not fit, its curve is
    /// not that of its type, or bytes follow. No other error but `NoMemory`.
    pub fn decode(alloc: Global, blob: &[u8]) -> Result<PublicKey, KeyError>
        ensures ok { IfOk result (λ public. IsKey public blob.now) }
        ensures refused { IfErr result (λ e. (e ≡ NoMemory) ⊎ FailsKey blob.now e) }
        ensures exactly { (answer : Result PublicKey KeyError) → DecodesKey blob.now answer
            → (result ≡ answer) ⊎ IsErrOf result KeyError.NoMemory }
    {
        PublicKey::read(alloc, blob)
    }

    /// Reads the blob of a key.
    fn read(alloc: Global, blob: &[u8]) -> Result<PublicKey, KeyError>
        ensures ok { IfOk result (λ public. IsKey public blob.now) }
        ensures refused { IfErr result (λ e. (e ≡ NoMemory) ⊎ FailsKey blob.now e) }
    {
        let mut r = Reader::new(blob);
        let typ = KeyType::read_of_key(&mut r)?;
        let key = PublicKey::read_fields(alloc, typ, &mut r)?;
        r.end()?;
        Ok(key)
    }

    /// Reads the fields of a key after its type; what follows stays unread.
    pub(crate) fn read_fields(
        alloc: Global,
        typ: KeyType,
        r: &mut Reader<'_>,
    ) -> Result<PublicKey, KeyError>
        ensures ok { IfOk result (λ public. (type_of public ≡ typ)
            × SpellsKey public r.old.left r.new.left) }
        ensures moves { OnOk result (MovesOn r.old r.new) }
        ensures refused { IfErr result (λ e. (e ≡ NoMemory)
            ⊎ ((e ≡ Blob) × LacksKey typ r.old.left)) }
    {
        match typ {
            KeyType::Ed25519 => read_ed25519(alloc, r),
            KeyType::Ecdsa { curve } => read_ecdsa(alloc, curve, r),
            KeyType::Rsa => read_rsa(alloc, r),
        }
    }

    /// The blob of the key, which is the only one that says it. `Blob` exactly where a field is
    /// longer than 2^32 - 1 bytes, and no other error but `NoMemory`.
    pub fn blob(&self, alloc: Global) -> Result<Bytes, KeyError>
        ensures ok { IfOk result (λ blob. IsKey self.now blob) }
        ensures only { IfOk result (λ blob. (other : List ℕ) → IsKey self.now other
            → other ≡ blob) }
        ensures decodes { IfOk result (λ blob. (answer : Result PublicKey KeyError)
            → DecodesKey blob answer → answer ≡ Ok self.now) }
        ensures long { IsErrOf result KeyError.Blob ↔ HasLongField self.now }
        ensures errors { IfErr result (λ e. (e ≡ Blob) ⊎ (e ≡ NoMemory)) }
    {
        if self.has_long_field() {
            return Err(KeyError::Blob);
        }
        let blob = self.write(alloc)?;
        Ok(blob)
    }

    /// Whether a field is longer than 2^32 - 1 bytes.
    fn has_long_field(&self) -> bool
        ensures { IsTrue result ↔ HasLongField self.now }
    {
        match self {
            PublicKey::Ed25519 { key } => u32::try_from(key.len()).is_err(),
            PublicKey::Ecdsa { point, .. } => u32::try_from(point.len()).is_err(),
            PublicKey::Rsa { e, n } => {
                u32::try_from(e.len()).is_err() || u32::try_from(n.len()).is_err()
            }
        }
    }

    /// Writes the fields of a key whose fields are short enough.
    fn write(&self, alloc: Global) -> Result<Bytes, WireError>
        requires { HasLongField self.now → ⊥ }
        ensures ok { IfOk result (λ blob. blob ≡ key_blob self.now) }
        ensures memory { IfErr result (λ e. e ≡ NoWireMemory) }
    {
        let mut out = Vec::new(alloc);
        match self {
            PublicKey::Ed25519 { key } => {
                put_text(&mut out, "ssh-ed25519")?;
                put_bytes(&mut out, key.as_slice())?;
            }
            PublicKey::Ecdsa { curve, point } => {
                put_text(&mut out, Algorithm::Ecdsa { curve: *curve }.as_str())?;
                put_text(&mut out, curve.as_str())?;
                put_bytes(&mut out, point.as_slice())?;
            }
            PublicKey::Rsa { e, n } => {
                put_text(&mut out, "ssh-rsa")?;
                put_bytes(&mut out, e.as_slice())?;
                put_bytes(&mut out, n.as_slice())?;
            }
        }
        Ok(Bytes::from_vec(out)?)
    }

    /// An equal key. `NoMemory` is the only error.
    pub fn copy(&self) -> Result<PublicKey, WireError>
        ensures ok { IfOk result (λ public. public ≡ self.now) }
        ensures memory { IfErr result (λ e. e ≡ NoWireMemory) }
    {
        match self {
            PublicKey::Ed25519 { key } => Ok(PublicKey::Ed25519 { key: key.clone()? }),
            PublicKey::Ecdsa { curve, point } => Ok(PublicKey::Ecdsa {
                curve: *curve,
                point: point.clone()?,
            }),
            PublicKey::Rsa { e, n } => Ok(PublicKey::Rsa {
                e: e.clone()?,
                n: n.clone()?,
            }),
        }
    }
}

/// Reads the key (RFC 8709 section 4).
fn read_ed25519(alloc: Global, r: &mut Reader<'_>) -> Result<PublicKey, KeyError>
    ensures ok { IfOk result (λ public. (type_of public ≡ type.Ed25519)
        × SpellsKey public r.old.left r.new.left) }
    ensures moves { OnOk result (MovesOn r.old r.new) }
    ensures refused { IfErr result (λ e. (e ≡ NoMemory)
        ⊎ ((e ≡ Blob) × LacksKey type.Ed25519 r.old.left)) }
{
    let key = r.bytes()?;
    Ok(PublicKey::Ed25519 {
        key: Bytes::copy_from_slice(alloc, key)?,
    })
}

/// Reads the curve's identifier, which is that of the type, and the point (RFC 5656 section 3.1).
fn read_ecdsa(alloc: Global, curve: EcdsaCurve, r: &mut Reader<'_>) -> Result<PublicKey, KeyError>
    ensures ok { IfOk result (λ public. (type_of public ≡ type.Ecdsa curve)
        × SpellsKey public r.old.left r.new.left) }
    ensures moves { OnOk result (MovesOn r.old r.new) }
    ensures refused { IfErr result (λ e. (e ≡ NoMemory)
        ⊎ ((e ≡ Blob) × LacksKey (type.Ecdsa curve) r.old.left)) }
{
    let name = r.text()?;
    if name != curve.as_str() {
        return Err(KeyError::Blob);
    }
    let point = r.bytes()?;
    Ok(PublicKey::Ecdsa {
        curve,
        point: Bytes::copy_from_slice(alloc, point)?,
    })
}

/// Reads the exponent and the modulus (RFC 4253 section 6.6).
fn read_rsa(alloc: Global, r: &mut Reader<'_>) -> Result<PublicKey, KeyError>
    ensures ok { IfOk result (λ public. (type_of public ≡ type.Rsa)
        × SpellsKey public r.old.left r.new.left) }
    ensures moves { OnOk result (MovesOn r.old r.new) }
    ensures refused { IfErr result (λ e. (e ≡ NoMemory)
        ⊎ ((e ≡ Blob) × LacksKey type.Rsa r.old.left)) }
{
    let e = r.bytes()?;
    let n = r.bytes()?;
    Ok(PublicKey::Rsa {
        e: Bytes::copy_from_slice(alloc, e)?,
        n: Bytes::copy_from_slice(alloc, n)?,
    })
}
