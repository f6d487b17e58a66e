//! The program of this repository as a library: a script says what a session is given, and what
//! it does is written line by line.
//!
//! What stands above it relies on the contract of `run_script`: the status and the bytes written
//! are those that the script owes.
#![tactic(auto)]

mod files;
mod run;
mod task;
mod transfer;

pub use run::{LONGEST, one_transcript, run_script, status_of};
pub use ssh_players::ScriptError;
pub use transfer::write_all;
