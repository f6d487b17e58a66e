//! One side of an SSH connection above the encrypted transport, as a server has it: a session takes
//! opened payloads, commands and ticks, one at a time, calls a handler and hands on payloads to
//! send.
#![tactic(auto)]

mod between;
mod channel_calls;
mod exchange_data;
mod flush;
mod global_calls;
mod open_calls;
mod readers;
mod run;
mod session;
mod sides;

pub use exchange_data::Exchange;
pub use run::run_stream;
pub use session::Session;
pub use ssh_rules::{EncryptedState, Flow, FlushError, RunError};
pub use ssh_serving::CommonSession;
