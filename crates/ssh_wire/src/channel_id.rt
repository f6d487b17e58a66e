// The number of a channel.

/// The number by which one side names a channel (RFC 4254 section 5).
#[derive(Clone, Copy, Debug, PartialEq, Eq, PartialOrd, Ord, Hash)]
pub struct ChannelId(pub u32);
