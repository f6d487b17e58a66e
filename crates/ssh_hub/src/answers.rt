// What the calls of a hub answer, and the sizes that a hub is made with.
ghost use Rattle.std.specs.Prelude.{◌≡◌};
ghost use Rattle.ssh_hub.specs.declared.answers.HandleError.TheVariants.{NoMemory};

use ssh_link::{ChannelMsg, Command, OpenAnswer, Refusal};
use ssh_wire::ChannelOpenFailure;
use std::alloc::{AllocError, AllocFailed};
use thiserror::Error;

/// How much a hub holds at most.
#[derive(Clone, Copy, Debug, PartialEq, Eq)]
pub struct Config2 {
    /// How many messages may wait in the inbox of one channel. Memory for them is taken when the
    /// channel is made.
    pub channel_buffer_size: usize,
    /// How many commands may wait for the session. Memory for them is taken when the hub is made.
    pub event_buffer_size: usize,
}

/// Why a call of a hub, or of a handle over one, cannot be made. The calls of `HubLock` and `Seat`
/// answer `NoMemory` alone. All others are for the handles of sessions and channels that stand on
/// them.
#[derive(Clone, Copy, Debug, PartialEq, Eq, Error)]
pub enum HandleError {
    /// The hub has ended: of each call of a handle that puts something or waits for an answer.
    #[error("the hub has ended")]
    Ended {
        /// The place of the end in the history.
        at: u64,
    },
    /// One message may have no byte of data, and there is data to write (RFC 4254 section 5.1).
    #[error("the packet size is 0")]
    Inconsistent,
    /// The peer did not open the channel, for this reason (RFC 4254 section 5.1): of a call that
    /// opens one.
    #[error("the peer did not open the channel")]
    OpenFailed(ChannelOpenFailure),
    /// The peer denied a global request (RFC 4254 section 4): of a call that asks for a forward, or
    /// takes one back.
    #[error("the peer denied the request")]
    Denied,
    /// There is no byte to write: of a write to a stream that was handed none.
    #[error("nothing to write")]
    EmptyWrite,
    /// There was no memory.
    #[error("no memory")]
    NoMemory,
    /// The session refused the command, or there is no such channel: of a call whose command is
    /// answered, or that sends on a channel.
    #[error("the session refused the command")]
    Refused(Refusal),
    /// The source of the data to send failed (its count of faults rose).
    #[error("a read of the data to send failed")]
    ReadFault,
}

impl From<AllocError> for HandleError {
    ghost from_gives = { λ _ e. e ≡ NoMemory };

    fn from(_: AllocError) -> HandleError {
        HandleError::NoMemory
    }
}

impl<T: Drop> From<AllocFailed<T>> for HandleError {
    ghost from_gives = { λ _ e. e ≡ NoMemory };

    fn from(_: AllocFailed<T>) -> HandleError {
        HandleError::NoMemory
    }
}

/// What `reserve` answers.
#[derive(Clone, Copy, Debug, PartialEq, Eq)]
pub enum Reserve {
    /// So many bytes, at least one, are now the seat's.
    Got(u32),
    /// The channel has no byte left.
    Empty,
    /// The hub has no such channel, or it is closed.
    Gone,
    /// The hub has ended.
    Ended {
        /// The place of the end in the history.
        at: u64,
    },
}

/// What `put` answers.
#[derive(Debug, Drop)]
pub enum Put {
    /// The command waits under this ticket.
    Done(u64),
    /// As many commands wait as the hub holds. The command comes back.
    Full(Command),
    /// The hub has ended.
    Ended {
        /// The place of the end in the history.
        at: u64,
        /// The command, which comes back.
        msg: Command,
    },
}

/// What `put_reply` answers.
#[derive(Debug, Drop)]
pub enum PutReply {
    /// The answer waits under this ticket.
    Done(u64),
    /// As many answers wait as the hub holds. The answer comes back.
    Full(OpenAnswer),
    /// The hub has ended.
    Ended {
        /// The place of the end in the history.
        at: u64,
        /// The answer, which comes back.
        answer: OpenAnswer,
    },
}

/// What `take` takes out of the hub.
#[derive(Debug, Drop)]
pub enum Taken {
    /// The answer to an open of the peer that was put under this ticket.
    Reply(u64, OpenAnswer),
    /// The command that was put under this ticket.
    Command(u64, Command),
}

/// What `deliver` answers.
#[derive(Debug, Drop)]
pub enum Deliver {
    /// The message waits in the inbox.
    Done,
    /// As many messages wait in the inbox as it holds. The message comes back.
    Full(ChannelMsg),
    /// The hub has no such channel, or it is closed. The message comes back.
    Gone(ChannelMsg),
}

/// What `receive` answers.
#[derive(Debug, Drop)]
pub enum Received {
    /// The first message of the inbox.
    Msg(ChannelMsg),
    /// The inbox is empty.
    Nothing,
    /// The inbox is empty, and the channel is closed or not there.
    Closed,
    /// The inbox is empty, and the hub has ended.
    Ended {
        /// The place of the end in the history.
        at: u64,
    },
}

/// What `look` sees of a channel.
#[derive(Clone, Copy, Debug, PartialEq, Eq)]
pub struct Look {
    /// How many bytes may be reserved.
    pub left: u32,
    /// How many bytes of data one message may have.
    pub packet: u32,
}

/// What came of a request of this side that the peer answers.
#[derive(Clone, Copy, Debug, PartialEq, Eq)]
pub enum SlotAnswer {
    /// A forward was granted, on this port, or denied.
    Port(Option<u32>),
    /// Whether a forward was taken back.
    Cancelled(bool),
    /// The peer is there.
    Pong,
}
