//! What a server is told by its session, how it is set up, and a handler that records its calls.
//!
//! What the crates above rely on: each callback is told with its arguments and its answer, and
//! only after an answer that is an error may a handler tell its calls no longer.
#![tactic(auto)]

mod commands;
mod config;
mod handler;
mod made;
mod own_calls;
mod questions;
mod receiving;
mod recorded;

pub use commands::Commands;
pub use config::Config;
pub use handler::Handler;
pub use own_calls::calls_join;
pub use questions::{ask, judge};
pub use receiving::{max_packet_size, window_size, writable_packet_size};
pub use recorded::{RecordError, Recorded};
