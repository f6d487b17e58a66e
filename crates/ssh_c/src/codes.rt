// How a call went, as a number.
ghost use Rattle.std.specs.Prelude.{◌≡◌};
ghost use Rattle.ssh_c.specs.Codes.{code_of, piece_code};

use ssh_embed::ConnectionError;
use ssh_session::{Flow, RunError};
use ssh_sftp::SftpError;

/// It went well, and the connection goes on.
pub(crate) const CONTINUES: u32 = 0;
/// Nothing is there to be told.
pub(crate) const NOTHING: u32 = 2;
/// There was no memory.
pub(crate) const NO_MEMORY: u32 = 3;
/// The handle holds no connection.
pub(crate) const NO_CONNECTION: u32 = 13;
/// There is no room for what is to be told.
pub(crate) const TOO_SHORT: u32 = 14;
/// An argument is none that the function takes.
pub(crate) const BAD_ARGUMENT: u32 = 15;
/// Commands, or answers to opens, are not taken now.
pub(crate) const NOT_NOW: u32 = 16;
/// Something of the last input was not taken out yet.
pub(crate) const NOT_TAKEN: u32 = 17;

/// How an input went.
pub(crate) fn code_of(went: &Result<Flow, ConnectionError>) -> u32
    ensures { result ≡ code_of went.now }
{
    match went {
        Ok(Flow::Continue) => 0,
        Ok(Flow::Ended) => 1,
        Err(RunError::NoMemory) => 3,
        Err(RunError::Handler(_)) => 3,
        Err(RunError::Encoding(_)) => 4,
        Err(RunError::Inconsistent) => 5,
        Err(RunError::Pending) => 6,
        Err(RunError::Key(_)) => 7,
        Err(RunError::UnsupportedAuthMethod) => 8,
        Err(RunError::ChannelsFull) => 9,
        Err(RunError::KeepaliveTimeout) => 10,
        Err(RunError::InactivityTimeout) => 11,
        Err(RunError::LinkFault) => 12,
        Err(RunError::Kex(_)) => 12,
        Err(RunError::InputLimit) => 12,
    }
}

/// How a piece of a file server's stream went, or the end of it.
pub(crate) fn piece_code(went: &Result<(), SftpError>) -> u32
    ensures { result ≡ piece_code went.now }
{
    match went {
        Ok(()) => 0,
        Err(SftpError::NoMemory) => 3,
        Err(SftpError::BadLength { .. }) => 4,
        Err(SftpError::NoId) => 4,
        Err(SftpError::Cut { .. }) => 4,
        Err(SftpError::Failed) => 5,
        Err(SftpError::Handle(_)) => 12,
    }
}
