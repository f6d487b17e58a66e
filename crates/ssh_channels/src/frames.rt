// The frames without data that a table writes. None of them takes memory.
ghost use Rattle.std.specs.Prelude.{◌≡◌};
ghost use Rattle.ssh_channels.specs.Layout as layout;

use ssh_link::Frame;
use ssh_wire::ChannelId;
use ssh_wire::message::{CHANNEL_CLOSE, CHANNEL_EOF, CHANNEL_FAILURE, CHANNEL_SUCCESS};

/// The channel that a frame is for.
#[derive(Clone, Copy)]
pub(crate) struct Recipient {
    /// This side's number of the channel.
    pub(crate) own: ChannelId,
    /// The peer's number of the channel.
    pub(crate) peer: u32,
}

/// A message that says no more than its number and its channel.
pub(crate) fn bare_frame(to: Recipient, message: u8) -> Frame
    ensures { result ≡ layout.bare_frame message to.own.0 to.peer }
{
    let [a, b, c, d] = to.peer.to_be_bytes();
    Frame::short(&[message, a, b, c, d], None, Some(to.own))
}

/// CHANNEL_EOF: no more data follow (RFC 4254 section 5.3).
pub(crate) fn eof_frame(to: Recipient) -> Frame
    ensures { result ≡ layout.eof_frame to.own.0 to.peer }
{
    bare_frame(to, CHANNEL_EOF)
}

/// CHANNEL_CLOSE: nothing more follows (RFC 4254 section 5.3).
pub(crate) fn close_frame(to: Recipient) -> Frame
    ensures { result ≡ layout.close_frame to.own.0 to.peer }
{
    bare_frame(to, CHANNEL_CLOSE)
}

/// CHANNEL_SUCCESS or CHANNEL_FAILURE: what became of a request (RFC 4254 section 5.4).
pub(crate) fn reply_frame(to: Recipient, success: bool) -> Frame
    ensures { result ≡ layout.reply_frame to.own.0 to.peer success }
{
    match success {
        true => bare_frame(to, CHANNEL_SUCCESS),
        false => bare_frame(to, CHANNEL_FAILURE),
    }
}
