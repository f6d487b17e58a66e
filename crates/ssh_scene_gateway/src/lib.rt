//! A script of a gateway: what its lines say, the gateway that it plays, and what is written of it.
//!
//! What stands above it relies on the contracts of `read_gateway` and `forward`: the scene is the
//! one that the lines bring, and the text is that of a gateway which serves this scene.
#![tactic(auto)]

mod forwarding;
mod hosts;
mod reading;
mod targets;
mod telling;

pub use forwarding::{Forwarded, forward, one_forwarding};
pub use reading::{GatewayScript, read_gateway};
pub use targets::{ScriptHost, ScriptTargets};
