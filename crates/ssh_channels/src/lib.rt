//! The channels of a connection (RFC 4254): their numbers, what waits to be sent on each, the room
//! that each side gives the other, and the frames that are staged for the peer.
//!
//! What the crates above rely on: each call writes and leaves exactly what its definition says
//! (`specs/Calls.antt`), so what went out on a channel is what was accepted there, as far as the
//! peer granted it; and where there is no memory, a call leaves the table as it was.
#![tactic(auto)]

mod adjusted;
mod chunk;
mod closing;
mod error;
mod frames;
mod laws;
mod ledger;
mod opens;
mod params;
mod paths;
mod replies;
mod requests;
mod sending;
mod table;
mod waiting;
mod with_frames;
mod writers;

pub use adjusted::Adjusted;
pub use chunk::{Chunk, DataKind};
pub use error::TableError;
pub use laws::{next_number_is_free, others_stay, waiting_is_cut};
pub use ledger::{
    close_is_last, framed_is_due, replies_in_order, sent_is_framed, table_keeps_channels,
};
pub use params::ChannelParams;
pub use paths::both_paths_agree;
pub use replies::Reply;
pub use sending::FrameSink;
pub use table::Encrypted;
