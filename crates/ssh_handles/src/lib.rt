//! What the threads of an application hold of a session: handles, the two halves of each channel,
//! and readers, writers and streams over them. All make the calls of one hub.
//!
//! What the crates above rely on: each call's clause says which calls of the hub its seat made, as
//! a small machine that goes on by what the hub answers, and its answer is the state where that
//! ends.
#![tactic(auto)]

mod caller;
mod channel;
mod channel_ref;
mod gate;
mod handle;
mod laws;
mod poll;
mod reader;
mod stream;
mod tags;
mod writer;

pub use channel::{Channel, ChannelReadHalf, ChannelWriteHalf};
pub use channel_ref::ChannelRef;
pub use gate::{Gate, NoGate};
pub use handle::Handle;
pub use laws::bytes_in_order;
pub use poll::{Poll, PutError, Why};
pub use reader::{ChannelRx, HoldsReadHalf};
pub use stream::ChannelStream;
pub use writer::ChannelTx;
