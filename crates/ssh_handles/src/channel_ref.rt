// The name of a channel.
ghost use Rattle.std.specs.Prelude.{◌≡◌};

use ssh_wire::ChannelId;
use std::marker::Model;

/// Names a channel, by this side's number. A clause sees the number.
#[derive(Clone, Copy, Debug)]
pub struct ChannelRef {
    channel: ChannelId,
}

impl Model for ChannelRef {
    ghost use Rattle.ssh_wire.specs.declared.channel_id.ChannelId.{ChannelId};

    ghost Value = { ChannelId };

    ghost view = { λ named. named.channel };

    ghost inverse = { λ id. record { channel = id } };
}

impl ChannelRef {
    /// The name of the channel with this number.
    pub fn new(id: ChannelId) -> ChannelRef
        ensures { result ≡ id }
    {
        ChannelRef { channel: id }
    }

    /// The channel's number.
    pub fn id(&self) -> ChannelId
        ensures { result ≡ self.now }
    {
        self.channel
    }
}
