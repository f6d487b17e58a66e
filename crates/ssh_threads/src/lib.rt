//! A session that several threads share: one serves it over a hub, and each of the others writes on
//! a channel of it.
//!
//! What the crates above rely on: the trace of `run_threads` is one run of a session, whose inputs
//! and frames are those of the peer, and whose commands are puts of the hub's one history.
#![tactic(auto)]

mod choice;
mod granting;
mod peer;
mod pinned;
mod program;
mod served;
mod session;
mod threads;

pub use granting::GrantingPeer;
pub use peer::Peer;
pub use program::run_program;
pub use session::serve_over;
pub use ssh_threads_lines::Outcome;
pub use threads::{ThreadsRun, Trace, run_threads};
