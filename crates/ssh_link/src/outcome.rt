// What came of a command.
use ssh_wire::ChannelId;

/// Why a command was refused. Where several hold, the first of them in this order is the answer.
/// A refused command does nothing.
#[derive(Clone, Copy, Debug, PartialEq, Eq)]
pub enum Refusal {
    /// The connection was already ended by a command (RFC 4253 section 11.1).
    Disconnected,
    /// It is a message that only a client sends.
    ClientOnly,
    /// No user was let in yet (RFC 4252 section 6).
    NotAuthenticated,
    /// There is no channel of this number (RFC 4254 section 5).
    UnknownChannel,
    /// No open of the peer under this number waits for its answer (RFC 4254 section 5.1).
    UnknownOpen,
    /// The peer has not confirmed the open of the channel yet (RFC 4254 section 5.1).
    NotConfirmed,
    /// Nothing more goes out on the channel: data or an end of file after an end of file or a
    /// close, or a close after a close (RFC 4254 section 5.3).
    SendingEnded,
    /// The payload would be longer than 2^32 - 1 bytes.
    TooLong,
    /// Every number of a channel is taken.
    NumbersFull,
}

/// What came of a command.
#[derive(Clone, Copy, Debug, PartialEq, Eq)]
pub enum CommandOutcome {
    /// It was done, or waits for the peer's window.
    Accepted,
    /// It opens a channel, which has this number on this side.
    Opened(ChannelId),
    /// It was refused.
    Refused(Refusal),
}
