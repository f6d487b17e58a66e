//! A server's side of one SSH connection above the encrypted transport: serves one payload, one
//! command or one tick, calls a handler and writes the frames that answer.
#![tactic(auto)]

mod authentication;
mod commands;
mod common;
mod connection;
mod endings;
mod globals;
mod key_exchange;
mod opens;
mod outside;
mod own_messages;
mod own_opens;
mod own_requests;
mod payload;
mod peer_open;
mod replies;
mod server;
mod service;
mod ticks;

pub use commands::Done;
pub use common::CommonSession;
pub use outside::{Outside, Transport, send_each, tell_each};
pub use server::Server;
