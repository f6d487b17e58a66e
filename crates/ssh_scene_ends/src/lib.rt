//! A script of two ends of a connection: what its lines say, and what is written of it.
//!
//! What stands above it relies on the contracts of `read_events` and `tell_events`: the events are
//! those that the lines bring, and the text has a line for each delivery of these events.
#![tactic(auto)]

mod events;
mod telling;

pub use events::read_events;
pub use telling::tell_events;
