//! A connection whole, for programs that hold the transport themselves: a session with all that it
//! tells and asks, which takes one input at a time and never calls out.
//!
//! What a payload wants to know is told before it is taken (`Connection::question`) and answered
//! with it; what the session tells its link waits in an outbox until it is taken out, and the
//! callbacks of the last input stand beside it. What is promised of an input is what
//! `Session::step` promises of it.
#![tactic(auto)]

mod connection;
mod outbox;
mod policy;
mod question;
mod transport;

pub use connection::{Connection, ConnectionError, Given};
pub use outbox::Outbox;
pub use policy::{NoMemory, OpenRule, Policy, Rules};
pub use transport::TransportKex;
