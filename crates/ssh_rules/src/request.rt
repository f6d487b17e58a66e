// A request of the peer on a channel, as the commands of its callback know it.
use ssh_wire::ChannelId;

/// Which request of the peer on a channel a callback tells of (RFC 4254 section 5.4).
#[derive(Clone, Copy, Debug, PartialEq, Eq)]
pub struct ChannelRequest {
    /// This side's number of the channel.
    pub channel: ChannelId,
    /// How many replies were wanted on the channel before the one that it wants; None where it
    /// wants none.
    pub place: Option<u64>,
}
