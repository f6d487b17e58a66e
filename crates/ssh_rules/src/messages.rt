// Messages of the connection protocol, and what each says (RFC 4254).

use ssh_auth::{Happening, Judged};
use ssh_channels::Chunk;
use ssh_link::{ChannelMsg, Notice};
use ssh_wire::{ChannelId, ChannelOpenFailure, Text};

/// A message of the connection protocol that is read, but for opens and their confirmations.
/// CHANNEL_SUCCESS and CHANNEL_FAILURE are not: this side wants no reply on a channel (RFC 4254
/// section 5.4).
#[derive(Clone, Copy, Debug, PartialEq, Eq)]
pub enum ConnectionMessage {
    /// GLOBAL_REQUEST (RFC 4254 section 4).
    GlobalRequest,
    /// REQUEST_SUCCESS (section 4).
    RequestSuccess,
    /// REQUEST_FAILURE (section 4).
    RequestFailure,
    /// CHANNEL_OPEN_FAILURE (section 5.1).
    OpenFailure,
    /// CHANNEL_WINDOW_ADJUST (section 5.2).
    WindowAdjust,
    /// CHANNEL_DATA (section 5.2).
    Data,
    /// CHANNEL_EXTENDED_DATA (section 5.2).
    ExtendedData,
    /// CHANNEL_EOF (section 5.3).
    Eof,
    /// CHANNEL_CLOSE (section 5.3).
    Close,
    /// CHANNEL_REQUEST (section 5.4).
    Request,
}

/// What a message of the connection protocol says.
#[derive(Debug, Drop)]
pub enum Spoken {
    /// Nothing that is served.
    Nothing,
    /// The peer refuses an open of this side's, for this reason.
    Failed(ChannelId, ChannelOpenFailure),
    /// So many bytes more may be sent on the channel.
    Grant(ChannelId, u32),
    /// Data on the channel.
    Data(ChannelId, Chunk),
    /// What the user of the channel and the handler are told.
    Tells(ChannelId, ChannelMsg, Happening),
    /// The end of the channel.
    Close(ChannelId),
    /// A request on the channel, whether it wants a reply, and what the user of the channel and the
    /// handler are told of it.
    Requests(ChannelId, bool, ChannelMsg, Happening),
    /// A request to reach the peer's agent, and whether it wants a reply.
    RequestsAgent(ChannelId, bool),
    /// A request that is not known, and whether it wants a reply.
    RequestsUnknown(ChannelId, bool),
    /// Connections to this address and port are to be forwarded, and whether a reply is wanted.
    RequestsForward(bool, Text, u32),
    /// Another global request, and whether it wants a reply.
    RequestsGlobally(bool, Judged),
    /// A global request that is not known, and whether it wants a reply.
    RequestsGloballyUnknown(bool),
    /// The peer will open no more sessions, and whether it wants a reply (OpenSSH PROTOCOL section
    /// 2.2).
    GivesUpSessions(bool),
    /// The reply to the oldest global request of this side that waits, of which this is told.
    Settles(Option<Notice>),
    /// Its fields fit, but one has a value that it cannot have.
    Inconsistent,
}
