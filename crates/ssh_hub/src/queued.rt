// What waits in a hub, and what is owed for what was taken.
use ssh_link::{Command, OpenAnswer};

/// A command that waits for the session.
#[derive(Drop)]
pub struct QueuedCommand {
    /// The ticket under which it was put.
    pub ticket: u64,
    /// The number of the seat that put it.
    pub seat: u64,
    /// Whether its outcome is kept.
    pub wanted: bool,
    /// The command.
    pub command: Command,
}

/// An answer to an open of the peer (RFC 4254 section 5.1) that waits for the session.
#[derive(Drop)]
pub struct QueuedReply {
    /// The ticket under which it was put.
    pub ticket: u64,
    /// The number of the seat that put it.
    pub seat: u64,
    /// The answer.
    pub answer: OpenAnswer,
}

/// The command or reply that was taken last, while its outcome is not known.
#[derive(Clone, Copy)]
pub struct Due {
    /// The ticket under which it was put.
    pub ticket: u64,
    /// The number of the seat that put it.
    pub seat: u64,
    /// Whether its outcome is kept.
    pub wanted: bool,
    /// The number of the channel that it closes; none where it is no close.
    pub closes: Option<u32>,
}
