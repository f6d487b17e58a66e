//! A gateway for one SSH connection: its peer opens channels to hosts (RFC 4254 section 7.2), a
//! policy says which user may reach which host, and targets make the connections.
//!
//! `run_gateway` drives `Session::step` of `ssh_session`. What it promises is `Attended`, in
//! specs/Gateway.antt.
#![tactic(auto)]

mod authentication;
mod callbacks;
mod choosing;
mod deciding;
mod error;
mod hearing;
mod keeper;
mod looking;
mod memory_targets;
mod policy;
mod run;
mod switchboard;
mod targets;

pub use error::GatewayError;
pub use memory_targets::MemoryTargets;
pub use policy::{ListPolicy, Policy};
pub use run::run_gateway;
pub use targets::{Arrived, TargetCall, TargetFault, Targets};
