// Why a key, a certificate or a signature is refused.
ghost use Rattle.std.specs.Prelude.{◌≡◌};
ghost use Rattle.ssh_keys.specs.Errors.{key_error};
ghost use Rattle.ssh_keys.specs.declared.error.KeyError.TheVariants.{NoMemory};

use ssh_wire::WireError;
use std::alloc::{AllocError, AllocFailed};
use thiserror::Error;

/// Why a key, a certificate or a signature is refused.
#[derive(Clone, Copy, Debug, PartialEq, Eq, Error)]
pub enum KeyError {
    /// The name of an algorithm, or of a blob's type, is not known.
    #[error("the name of the key's algorithm is not known")]
    Unknown,
    /// A certificate is signed by another certificate, its signature's name is not known, or the
    /// signature is refused.
    #[error("the certificate is not validly signed")]
    CertificateValidation,
    /// The certificate does not hold yet, or no more.
    #[error("the certificate does not hold at this time")]
    Time,
    /// The bytes do not fit the layout, or a field is longer than 2^32 - 1 bytes.
    #[error("the bytes do not fit the layout of the key")]
    Blob,
    /// There was no memory.
    #[error("no memory")]
    NoMemory,
}

/// A field that does not fit makes a blob that does not fit.
impl From<WireError> for KeyError {
    ghost from_gives = { λ why e. e ≡ key_error why };

    fn from(why: WireError) -> KeyError {
        match why {
            WireError::NoMemory => KeyError::NoMemory,
            WireError::Short
            | WireError::NotUtf8
            | WireError::Trailing { .. }
            | WireError::TooLong => KeyError::Blob,
        }
    }
}

impl From<AllocError> for KeyError {
    ghost from_gives = { λ _ e. e ≡ NoMemory };

    fn from(_: AllocError) -> KeyError {
        KeyError::NoMemory
    }
}

impl<T: Drop> From<AllocFailed<T>> for KeyError {
    ghost from_gives = { λ _ e. e ≡ NoMemory };

    fn from(_: AllocFailed<T>) -> KeyError {
        KeyError::NoMemory
    }
}
