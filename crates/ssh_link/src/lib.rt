//! What a session sees of the outside: inputs come in and frames go out through a `Link`, the
//! bytes of a program through a `Source` and a `Sink`; keys are exchanged by a `Kex`.
//!
//! What the crates above rely on: an outside fails only where its count of faults rose (of a source
//! or a sink: rose, or is full), which does not rise where a call is finished, and whatever tells
//! its calls goes on telling them.
#![tactic(auto)]

mod command;
mod failures;
mod frame;
mod input_queue;
mod io;
mod kex;
mod link;
mod lists;
mod memory_io;
mod memory_link;
mod notice;
mod open_answer;
mod outcome;
mod plain_kex;
mod standard;

pub use command::{Command, CommandList};
pub use frame::{Frame, Input, InputKind};
pub use io::{IoFailed, Sink, Source};
pub use kex::{Kex, KexCall, KexFault, KexStep};
pub use link::{Link, LinkFault, TraceEntry};
pub use lists::{Calls, Inputs};
pub use memory_io::{MemorySink, MemorySource};
pub use memory_link::MemoryLink;
pub use notice::{ChannelMsg, Notice};
pub use open_answer::{ChannelOpenHandle, OpenAnswer};
pub use outcome::{CommandOutcome, Refusal};
pub use plain_kex::{PlainKex, PlainKexError};
pub use standard::{StdSink, StdSource};
