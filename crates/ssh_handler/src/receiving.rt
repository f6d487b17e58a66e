// What a channel takes of its peer's data, as a session and what it lends read it.
ghost use Rattle.std.specs.Prelude.{◌≡◌};
ghost use Rattle.ssh_channels.specs.Calls as calls;
ghost use Rattle.ssh_handler.specs.Receiving as receiving;

use ssh_channels::Encrypted;
use ssh_wire::ChannelId;

/// For a session: how many bytes of data the peer may still send on the channel, and 0 where there
/// is no such channel (RFC 4254 section 5.2).
pub fn window_size(table: &Encrypted, channel: ChannelId) -> u32
    ensures { result ≡ calls.room_at channel.0 table.now }
{
    match table.params(channel) {
        Some(params) => params.sender_window_size,
        None => 0,
    }
}

/// For a session: the most bytes of data that this side takes on the channel in one message, and 0
/// where there is no such channel (RFC 4254 section 5.1).
pub fn max_packet_size(table: &Encrypted, channel: ChannelId) -> u32
    ensures { result ≡ receiving.packet_at channel.0 table.now }
{
    match table.params(channel) {
        Some(params) => params.sender_maximum_packet_size,
        None => 0,
    }
}

/// For a session: the most bytes of data that the peer may send on the channel in one message now,
/// and 0 where there is no such channel (RFC 4254 section 5.2).
pub fn writable_packet_size(table: &Encrypted, channel: ChannelId) -> u32
    ensures { result ≡ receiving.takes_at channel.0 table.now }
{
    window_size(table, channel).min(max_packet_size(table, channel))
}
