// The types of the blobs of keys.
ghost use Rattle.std.specs.Prelude.{◌≡◌, MatchOption, IfOk, IfErr, OnOk};
ghost use Rattle.ssh_wire.specs.Reading.{MovesOn};
ghost use Rattle.ssh_keys.specs.Algorithms.{NamesNone};
ghost use Rattle.ssh_keys.specs.Keys.{type_name, certificate_type_name, SpellsName, FailsType};

use crate::{EcdsaCurve, KeyError};
use ssh_wire::Reader;

/// The type of a key, which its blob and its certificates begin with.
#[derive(Clone, Copy, Debug)]
pub(crate) enum KeyType {
    Ed25519,
    Ecdsa { curve: EcdsaCurve },
    Rsa,
}

impl KeyType {
    /// The type of the keys whose blobs begin with this name.
    pub(crate) fn of_key(name: &str) -> Option<KeyType>
        ensures { MatchOption result (NamesNone type_name name.now)
            (λ typ. type_name typ ≡ name.now) }
    {
        match name {
            "ssh-ed25519" => Some(KeyType::Ed25519),
            "ecdsa-sha2-nistp256" => Some(KeyType::Ecdsa {
                curve: EcdsaCurve::NistP256,
            }),
            "ecdsa-sha2-nistp384" => Some(KeyType::Ecdsa {
                curve: EcdsaCurve::NistP384,
            }),
            "ecdsa-sha2-nistp521" => Some(KeyType::Ecdsa {
                curve: EcdsaCurve::NistP521,
            }),
            "ssh-rsa" => Some(KeyType::Rsa),
            _ => None,
        }
    }

    /// The type of the keys whose certificates begin with this name.
    pub(crate) fn of_certificate(name: &str) -> Option<KeyType>
        ensures { MatchOption result (NamesNone certificate_type_name name.now)
            (λ typ. certificate_type_name typ ≡ name.now) }
    {
        match name {
            "ssh-ed25519-cert-v01@openssh.com" => Some(KeyType::Ed25519),
            "ecdsa-sha2-nistp256-cert-v01@openssh.com" => Some(KeyType::Ecdsa {
                curve: EcdsaCurve::NistP256,
            }),
            "ecdsa-sha2-nistp384-cert-v01@openssh.com" => Some(KeyType::Ecdsa {
                curve: EcdsaCurve::NistP384,
            }),
            "ecdsa-sha2-nistp521-cert-v01@openssh.com" => Some(KeyType::Ecdsa {
                curve: EcdsaCurve::NistP521,
            }),
            "ssh-rsa-cert-v01@openssh.com" => Some(KeyType::Rsa),
            _ => None,
        }
    }

    /// Reads the type of a key.
    pub(crate) fn read_of_key(r: &mut Reader<'_>) -> Result<KeyType, KeyError>
        ensures ok { IfOk result (λ typ. SpellsName (type_name typ) r.old.left r.new.left) }
        ensures moves { OnOk result (MovesOn r.old r.new) }
        ensures refused { IfErr result (FailsType type_name r.old.left) }
    {
        let name = r.text()?;
        match KeyType::of_key(name) {
            Some(typ) => Ok(typ),
            None => Err(KeyError::Unknown),
        }
    }

    /// Reads the type of a certificate.
    pub(crate) fn read_of_certificate(r: &mut Reader<'_>) -> Result<KeyType, KeyError>
        ensures ok { IfOk result (λ typ. SpellsName (certificate_type_name typ) r.old.left
            r.new.left) }
        ensures moves { OnOk result (MovesOn r.old r.new) }
        ensures refused { IfErr result (FailsType certificate_type_name r.old.left) }
    {
        let name = r.text()?;
        match KeyType::of_certificate(name) {
            Some(typ) => Ok(typ),
            None => Err(KeyError::Unknown),
        }
    }
}
