//! A file server on a stream of bytes, in whatever pieces they come, and on a channel: version 3 of
//! the SSH file transfer protocol (draft-ietf-secsh-filexfer-02), with the files in memory.
#![tactic(auto)]

mod error;
mod feeding;
mod serve;
mod server;

pub use error::SftpError;
pub use serve::serve_sftp;
pub use server::{SftpServer, fault_is_refused, feed_all};
