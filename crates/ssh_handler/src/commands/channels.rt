// What a callback reads of the channels.
ghost use Rattle.std.specs.Prelude.{◌≡◌};
ghost use Rattle.ssh_channels.specs.Line as line;
ghost use Rattle.ssh_channels.specs.Table as table_of;
ghost use Rattle.ssh_channels.specs.Calls as calls;
ghost use Rattle.ssh_handler.specs.Receiving as receiving;

use crate::{Commands, receiving};
use ssh_wire::ChannelId;

// The channels as they are at the call: what is recorded has not been done yet.
impl<'a> Commands<'a> {
    /// The most bytes of data that the peer may send on the channel in one message now, and 0 where
    /// there is no such channel (RFC 4254 section 5.2).
    pub fn writable_packet_size(&self, channel: &ChannelId) -> u32
        ensures { result ≡ receiving.takes_at channel.now.0 self.now.table }
    {
        receiving::writable_packet_size(self.table, *channel)
    }

    /// How many bytes of data the peer may still send on the channel, and 0 where there is no such
    /// channel (RFC 4254 section 5.2).
    pub fn window_size(&self, channel: &ChannelId) -> u32
        ensures { result ≡ calls.room_at channel.now.0 self.now.table }
    {
        receiving::window_size(self.table, *channel)
    }

    /// The most bytes of data that this side takes on the channel in one message, and 0 where there
    /// is no such channel (RFC 4254 section 5.1).
    pub fn max_packet_size(&self, channel: &ChannelId) -> u32
        ensures { result ≡ receiving.packet_at channel.now.0 self.now.table }
    {
        receiving::max_packet_size(self.table, *channel)
    }

    /// `window_size`, as a count.
    pub fn sender_window_size(&self, channel: ChannelId) -> usize
        ensures { result ≡ calls.room_at channel.0 self.now.table }
    {
        self.table.sender_window_size(channel)
    }

    /// Whether data wait on the channel to be sent.
    pub fn has_pending_data(&self, channel: ChannelId) -> bool
        ensures { result ≡ table_of.has line.data_waits channel.0 self.now.table }
    {
        self.table.has_pending_data(channel)
    }

    /// Whether data would be accepted on the channel: it is established, and neither an EOF nor a
    /// CLOSE was accepted on it.
    pub fn can_send(&self, channel: ChannelId) -> bool
        ensures { result ≡ table_of.has line.may_send channel.0 self.now.table }
    {
        self.table.can_send(channel)
    }
}
