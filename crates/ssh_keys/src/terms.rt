// What a certificate says of its key: whom it is for, when it holds, and its options.
ghost use Rattle.std.specs.Prelude.{◌≡◌, ◌⊎◌, MatchOption, ℕ, IfOk, IfErr, OnOk};
ghost use Rattle.ssh_wire.specs.Reading.{MovesOn};
ghost use Rattle.ssh_keys.specs.Keys.{LacksFields};
ghost use Rattle.ssh_keys.specs.Certificates.{cert_type_number, SpellsIdentity, LacksIdentity};
ghost use Rattle.ssh_keys.specs.Certificates.{validity_fields, SpellsValidity, option_fields};
ghost use Rattle.ssh_keys.specs.Certificates.{SpellsOptions};
ghost use Rattle.ssh_keys.specs.declared.error.KeyError.TheVariants.{Blob, NoMemory};
ghost use Rattle.ssh_keys.specs.declared.terms.CertType.{CertType};

use crate::KeyError;
use bytes::Bytes;
use ssh_wire::{Reader, Text};
use std::alloc::Global;

/// Whom a certificate is for (OpenSSH PROTOCOL.certkeys).
#[derive(Clone, Copy, Debug, PartialEq, Eq)]
pub enum CertType {
    /// A user who logs in.
    User,
    /// A host that is connected to.
    Host,
}

impl CertType {
    /// The type of this number. There is none outside 1 and 2.
    fn from_u32(number: u32) -> Option<CertType>
        ensures { MatchOption result ((typ : CertType) → cert_type_number typ ≡ number → ⊥)
            (λ typ. cert_type_number typ ≡ number) }
    {
        match number {
            1 => Some(CertType::User),
            2 => Some(CertType::Host),
            _ => None,
        }
    }
}

/// Whom a certificate is for, and its number.
#[derive(Debug, Drop)]
pub(crate) struct Identity {
    pub serial: u64,
    pub cert_type: CertType,
    pub key_id: Text,
    pub valid_principals: Bytes,
}

/// The seconds since 1970 from which on, and up to which, a certificate holds.
#[derive(Clone, Copy, Debug)]
pub(crate) struct Validity {
    pub valid_after: u64,
    pub valid_before: u64,
}

/// What a certificate demands and allows.
#[derive(Debug, Drop)]
pub(crate) struct Options {
    pub critical_options: Bytes,
    pub extensions: Bytes,
    pub reserved: Bytes,
}

impl Identity {
    /// Reads the serial number, the type, the key id and the valid principals.
    pub fn read(alloc: Global, r: &mut Reader<'_>) -> Result<Identity, KeyError>
        ensures ok { IfOk result (λ identity. SpellsIdentity identity r.old.left r.new.left) }
        ensures moves { OnOk result (MovesOn r.old r.new) }
        ensures refused { IfErr result (λ e. (e ≡ NoMemory)
            ⊎ ((e ≡ Blob) × LacksIdentity r.old.left)) }
    {
        let serial = r.u64()?;
        let number = r.u32()?;
        let Some(cert_type) = CertType::from_u32(number) else {
            return Err(KeyError::Blob);
        };
        let key_id = r.text()?;
        let valid_principals = r.bytes()?;
        Ok(Identity {
            serial,
            cert_type,
            key_id: Text::new(alloc, key_id)?,
            valid_principals: Bytes::copy_from_slice(alloc, valid_principals)?,
        })
    }
}

impl Validity {
    /// Reads the two moments.
    pub fn read(r: &mut Reader<'_>) -> Result<Validity, KeyError>
        ensures ok { IfOk result (λ validity. SpellsValidity validity r.old.left r.new.left) }
        ensures moves { OnOk result (MovesOn r.old r.new) }
        ensures refused { IfErr result (λ e. (e ≡ NoMemory)
            ⊎ ((e ≡ Blob) × LacksFields validity_fields r.old.left)) }
    {
        let valid_after = r.u64()?;
        let valid_before = r.u64()?;
        Ok(Validity {
            valid_after,
            valid_before,
        })
    }
}

impl Options {
    /// Reads the critical options, the extensions and the reserved string.
    pub fn read(alloc: Global, r: &mut Reader<'_>) -> Result<Options, KeyError>
        ensures ok { IfOk result (λ options. SpellsOptions options r.old.left r.new.left) }
        ensures moves { OnOk result (MovesOn r.old r.new) }
        ensures refused { IfErr result (λ e. (e ≡ NoMemory)
            ⊎ ((e ≡ Blob) × LacksFields option_fields r.old.left)) }
    {
        let critical_options = r.bytes()?;
        let extensions = r.bytes()?;
        let reserved = r.bytes()?;
        Ok(Options {
            critical_options: Bytes::copy_from_slice(alloc, critical_options)?,
            extensions: Bytes::copy_from_slice(alloc, extensions)?,
            reserved: Bytes::copy_from_slice(alloc, reserved)?,
        })
    }
}
