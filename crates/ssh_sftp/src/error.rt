// Why a stream of packets is refused.
ghost use Rattle.std.specs.Prelude.{◌≡◌};
ghost use Rattle.ssh_sftp.specs.declared.error.SftpError.TheVariants.{NoMemory};

use ssh_hub::HandleError;
use ssh_wire::WireError;
use std::alloc::AllocError;
use thiserror::Error;

/// Why a stream of packets is refused, or a channel is not served to its end. After each of the
/// first three, where a piece came to it, the server is not used again: every later call answers
/// `Failed`.
#[derive(Clone, Copy, Debug, PartialEq, Eq, Error)]
pub enum SftpError {
    /// There was no memory. The answers to some of the packets before stand in the output.
    #[error("no memory")]
    NoMemory,
    /// The length of a packet is 0 or above 262144. It comes as soon as its four bytes are there;
    /// the answers to the packets before it stand in the output.
    #[error("a packet of {length} bytes")]
    BadLength {
        /// The length.
        length: u32,
    },
    /// A packet has fewer than four bytes after its type, so no id, or no version where it is INIT.
    /// It comes when the packet is whole; the answers to those before it stand in the output.
    #[error("a packet without an id")]
    NoId,
    /// The stream ended inside a packet.
    #[error("the stream ended {left} bytes into a packet")]
    Cut {
        /// How many bytes of it came, those of its length too.
        left: usize,
    },
    /// A call on the channel came to this error.
    #[error("{0}")]
    Handle(HandleError),
    /// An earlier piece was refused.
    #[error("an earlier piece was refused")]
    Failed,
}

impl From<AllocError> for SftpError {
    ghost from_gives = { λ _ e. e ≡ NoMemory };

    fn from(_: AllocError) -> SftpError {
        SftpError::NoMemory
    }
}

/// The files answer no other error than want of memory.
impl From<WireError> for SftpError {
    ghost from_gives = { λ _ e. e ≡ NoMemory };

    fn from(_: WireError) -> SftpError {
        SftpError::NoMemory
    }
}
