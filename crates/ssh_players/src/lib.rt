//! Who plays a scene with a session: a handler, an exchange of keys and a link that do what a script
//! says.
//!
//! What stands above it relies on what each of the three keeps: what it told of its calls is what
//! the script answers and gives.
#![tactic(auto)]

mod asked;
mod authentication;
mod callbacks;
mod interactive;
mod queue;
mod script_handler;
mod script_kex;
mod script_link;

pub use script_handler::{ScriptError, ScriptHandler};
pub use script_kex::ScriptKex;
pub use script_link::ScriptLink;
