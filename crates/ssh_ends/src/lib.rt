//! Two ends of a connection above the channels alone (RFC 4254 section 5), without authentication
//! and without exchanges of keys.
//!
//! One end (`End`) opens channels, accepts each channel that the other side opens, and takes and
//! sends data on them, over the contract of the table of channels. Of two ends (`Ends`), each of
//! which takes what the other writes in order, what one delivers on a channel is the first part of
//! what the other accepted on it, and while neither wrote a CLOSE for it nothing is lost: that is
//! the contract of `Ends::event` and of `run_ends`.
#![tactic(auto)]

mod end;
mod ends;
mod error;
mod event;
mod frames;
mod incoming;
mod lists;
mod post;
mod promise;
mod reading;
mod run;

pub use end::{Delivered, End};
pub use ends::Ends;
pub use error::EndError;
pub use event::{EndEvent, Side};
pub use incoming::Incoming;
pub use lists::{Deliveries, EventList};
pub use promise::two_ends;
pub use run::run_ends;
