// Why a field or a message cannot be read or written.
ghost use Rattle.std.specs.Prelude.{◌≡◌};
ghost use Rattle.ssh_wire.specs.declared.error.WireError.TheVariants.{NoMemory};
ghost use Rattle.ssh_wire.specs.declared.error.LayoutError.TheVariants.{Wire};

use std::alloc::{AllocError, AllocFailed};
use thiserror::Error;

/// Why a field or a message cannot be read or written.
#[derive(Clone, Copy, Debug, PartialEq, Eq, Error)]
pub enum WireError {
    /// Fewer bytes are left than the field has.
    #[error("the field is longer than what is left")]
    Short,
    /// The bytes of a text are whole and are not UTF-8.
    #[error("the text is not UTF-8")]
    NotUtf8,
    /// Bytes follow the last field.
    #[error("{left} bytes follow the last field")]
    Trailing {
        /// How many bytes follow.
        left: usize,
    },
    /// The field is longer than a length of four bytes can say.
    #[error("the field is longer than 2^32 - 1 bytes")]
    TooLong,
    /// There was no memory.
    #[error("no memory")]
    NoMemory,
}

impl From<AllocError> for WireError {
    ghost from_gives = { λ _ e. e ≡ NoMemory };

    fn from(_: AllocError) -> WireError {
        WireError::NoMemory
    }
}

impl<T: Drop> From<AllocFailed<T>> for WireError {
    ghost from_gives = { λ _ e. e ≡ NoMemory };

    fn from(_: AllocFailed<T>) -> WireError {
        WireError::NoMemory
    }
}

/// Why a message cannot be read.
#[derive(Clone, Copy, Debug, PartialEq, Eq, Error)]
pub enum LayoutError {
    /// A field does not fit, or bytes follow the last one.
    #[error("{0}")]
    Wire(WireError),
    /// The fields are there, and one has a value that it must not have.
    #[error("the message is inconsistent")]
    Inconsistent,
}

impl From<WireError> for LayoutError {
    ghost from_gives = { λ why e. e ≡ Wire why };

    fn from(why: WireError) -> LayoutError {
        LayoutError::Wire(why)
    }
}
