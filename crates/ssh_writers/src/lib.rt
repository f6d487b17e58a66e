//! Writers in threads: each waits for its channel, sends its bytes on it and then the end of file.
//!
//! What the crates above rely on: every seat comes back, joined into one, which fits the hub and
//! made no call of its own meanwhile.
#![tactic(auto)]

mod bell;
mod post;
mod team;
mod waiting;
mod writer;

pub use bell::Bells;
pub use post::Post;
pub use team::write_all;
pub use writer::{BYTES_EACH, Writer, Written};
