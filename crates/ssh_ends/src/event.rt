// The events of two ends.
ghost use Rattle.std.specs.Prelude.{◌≡◌};
ghost use Rattle.ssh_ends.specs.Run.{actor};

use bytes::Bytes;
use ssh_wire::ChannelId;

/// One of two ends.
#[derive(Clone, Copy, Debug, PartialEq, Eq)]
pub enum Side {
    /// The one.
    A,
    /// The other.
    B,
}

/// What happens to two ends. What a side writes in an event is under way to the other behind what it
/// wrote before.
#[derive(Debug, Drop, PartialEq, Eq)]
pub enum EndEvent {
    /// The side opens a channel.
    Open(Side),
    /// The side accepts data on its channel of this number. With a data type code they are extended
    /// data (RFC 4254 section 5.2).
    Data(Side, ChannelId, Option<u32>, Bytes),
    /// The side accepts the end of its data on a channel.
    Eof(Side, ChannelId),
    /// The side accepts that a channel is closed.
    Close(Side, ChannelId),
    /// The side fills its window of a channel up to so many bytes from now on.
    Target(Side, ChannelId, u32),
    /// The other side takes the first message of this side that is under way, and nothing happens
    /// where there is none.
    Move(Side),
}

impl EndEvent {
    /// The side that accepts something, or that takes a message.
    pub fn actor(&self) -> Side
        ensures { result ≡ actor self.now }
    {
        match self {
            EndEvent::Open(side)
            | EndEvent::Data(side, _, _, _)
            | EndEvent::Eof(side, _)
            | EndEvent::Close(side, _)
            | EndEvent::Target(side, _, _) => *side,
            EndEvent::Move(Side::A) => Side::B,
            EndEvent::Move(Side::B) => Side::A,
        }
    }
}
