// What a session says of itself: what it also lends to a callback.
ghost use Rattle.std.specs.Prelude.{◌≡◌, ◌<◌, ◌^◌, length, not};
ghost use Rattle.std.specs.Option.{option_copied};
ghost use Rattle.ssh_channels.specs.Line as line;
ghost use Rattle.ssh_channels.specs.Table as table_of;
ghost use Rattle.ssh_channels.specs.Calls as calls;
ghost use Rattle.ssh_handler.specs.Receiving as receiving;
ghost use Rattle.ssh_channels.specs.Does.{has};
ghost use Rattle.ssh_channels.specs.Entry.{more_may_come};
ghost use Rattle.ssh_rules.specs.World.{World, in_exchange, packet_on, room_on, writable_on};
ghost use Rattle.ssh_rules.specs.Run.{wants_commands, who};
ghost use Rattle.ssh_session.specs.Serve.{Refines, lends};

use crate::Session;
use ssh_handler::{Config, max_packet_size, window_size, writable_packet_size};
use ssh_rules::{EncryptedState, user_let_in};
use ssh_wire::ChannelId;

/// What a session says of itself, and lends to each callback. Channels go by this side's numbers,
/// sizes are in bytes.
impl Session {
    /// How the server is set up.
    pub fn config(&self) -> &Config
        ensures { result.now ≡ (lends self.now).config }
    {
        &self.server.common.config
    }

    /// The name of the user who was let in, and None before (RFC 4252 section 5).
    pub fn user(&self) -> Option<&str>
        ensures world { (w : World) → Refines self.now w → option_copied result ≡ who w.user }
        ensures lent { option_copied result ≡ (lends self.now).user }
    {
        user_let_in(&self.server.state, self.server.common.auth_user.as_str())
    }

    /// How far authentication has come (RFC 4252). With `session_id` it is what
    /// `ssh_auth::asked_by_request` tells from what a request asks before it is served.
    pub fn state(&self) -> &EncryptedState
        ensures { (w : World) → Refines self.now w → result.now ≡ w.user.state }
    {
        &self.server.state
    }

    /// The session id: the exchange hash of the first exchange of keys (RFC 4253 section 7.2).
    pub fn session_id(&self) -> &[u8]
        ensures world { (w : World) → Refines self.now w → result.now ≡ w.settings.session_id }
        ensures short { length result.now < 2 ^ 32 }
    {
        self.server.session_id.as_slice()
    }

    /// The line by which the peer's software named itself, without its line end (RFC 4253 section
    /// 4.2).
    pub fn remote_sshid(&self) -> &[u8]
        ensures { result.now ≡ (lends self.now).remote_sshid }
    {
        self.server.common.remote_sshid.as_slice()
    }

    /// Whether commands are taken from outside: no exchange of keys runs, and on no channel data
    /// wait.
    pub fn commands_wanted(&self) -> bool
        ensures world { (w : World) → Refines self.now w → result ≡ wants_commands w }
        ensures lent { result ≡ (lends self.now).commands_wanted }
    {
        self.server.commands_wanted()
    }

    /// Whether answers to opens are taken from outside: no exchange of keys runs.
    pub fn replies_wanted(&self) -> bool
        ensures world { (w : World) → Refines self.now w → result ≡ not (in_exchange w) }
        ensures lent { result ≡ (lends self.now).replies_wanted }
    {
        self.server.replies_wanted()
    }

    /// The most bytes of data that the peer may send on the channel in one message now, and 0 where
    /// there is no such channel (RFC 4254 section 5.2).
    pub fn writable_packet_size(&self, channel: &ChannelId) -> u32
        ensures world { (w : World) → Refines self.now w → result ≡ writable_on channel.now.0 w }
        ensures lent { result ≡ receiving.takes_at channel.now.0 (lends self.now).table }
    {
        writable_packet_size(&self.server.table, *channel)
    }

    /// How many bytes of data the peer may still send on the channel, and 0 where there is no such
    /// channel (RFC 4254 section 5.2).
    pub fn window_size(&self, channel: &ChannelId) -> u32
        ensures world { (w : World) → Refines self.now w → result ≡ room_on channel.now.0 w }
        ensures lent { result ≡ calls.room_at channel.now.0 (lends self.now).table }
    {
        window_size(&self.server.table, *channel)
    }

    /// The most bytes of data that this side takes on the channel in one message, and 0 where there
    /// is no such channel (RFC 4254 section 5.1).
    pub fn max_packet_size(&self, channel: &ChannelId) -> u32
        ensures world { (w : World) → Refines self.now w → result ≡ packet_on channel.now.0 w }
        ensures lent { result ≡ receiving.packet_at channel.now.0 (lends self.now).table }
    {
        max_packet_size(&self.server.table, *channel)
    }

    /// `window_size`, as a count.
    pub fn sender_window_size(&self, channel: ChannelId) -> usize
        ensures world { (w : World) → Refines self.now w → result ≡ room_on channel.0 w }
        ensures lent { result ≡ calls.room_at channel.0 (lends self.now).table }
    {
        self.server.table.sender_window_size(channel)
    }

    /// Whether data wait on the channel to be sent.
    pub fn has_pending_data(&self, channel: ChannelId) -> bool
        ensures { result ≡ table_of.has line.data_waits channel.0 (lends self.now).table }
    {
        self.server.table.has_pending_data(channel)
    }

    /// Whether data would be accepted on the channel: it is established, and neither an EOF nor a
    /// CLOSE was accepted on it.
    pub fn can_send(&self, channel: ChannelId) -> bool
        ensures world { (w : World) → Refines self.now w →
            result ≡ has more_may_come channel.0 w.channels.lines }
        ensures lent { result ≡ table_of.has line.may_send channel.0 (lends self.now).table }
    {
        self.server.table.can_send(channel)
    }
}
