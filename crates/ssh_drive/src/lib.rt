//! Two loops that drive a session by its calls, for a program that waits for its sockets itself,
//! with the laws that follow: `drive` serves payloads, gives commands between them, lets out what
//! waits on channels and hands on what was written; `serve_payloads` serves payloads alone, and has
//! more of the laws of a run.
//! A program whose inputs all come by one link takes `run_stream` of `ssh_session`.
#![tactic(auto)]

mod moves;
mod payloads;

pub use moves::{Move, MoveError, drive};
pub use payloads::serve_payloads;
