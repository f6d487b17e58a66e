// What a payload of the other side says to an end.
use bytes::Bytes;
use ssh_wire::{ChannelId, ChannelOpenConfirmation};

/// What a payload says to an end (RFC 4254 section 5). A channel is named by the number of the side
/// that takes it.
#[derive(Debug, Drop)]
pub enum Incoming {
    /// CHANNEL_OPEN, of any type.
    Open {
        /// The other side's number of the channel.
        sender: u32,
        /// How many bytes of data it takes, to begin with.
        window: u32,
        /// How many bytes of data it takes in one message.
        packet: u32,
    },
    /// CHANNEL_OPEN_CONFIRMATION.
    Confirmation(ChannelOpenConfirmation),
    /// CHANNEL_WINDOW_ADJUST.
    WindowAdjust {
        /// The channel.
        channel: ChannelId,
        /// How many bytes more may be sent on it.
        amount: u32,
    },
    /// CHANNEL_DATA, or CHANNEL_EXTENDED_DATA of a data type code.
    Data {
        /// The channel.
        channel: ChannelId,
        /// The code; none for CHANNEL_DATA.
        ext: Option<u32>,
        /// The bytes.
        bytes: Bytes,
    },
    /// CHANNEL_EOF.
    Eof(ChannelId),
    /// CHANNEL_CLOSE.
    Close(ChannelId),
}
