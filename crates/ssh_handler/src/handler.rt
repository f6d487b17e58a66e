// The callbacks of a session.
ghost use Rattle.std.specs.Prelude.{◌≡◌, ℕ, List, []};
ghost use Rattle.ssh_link.specs.Told.{Tells, IsUntold};
ghost use Rattle.ssh_auth.specs.declared.call.Call.TheVariants as call;
ghost use Rattle.ssh_handler.specs.declared.config.Config.{Config as ConfigOf};

use crate::Commands;
use ssh_auth::{AuthHandler, Unwritten};
use ssh_link::{ChannelOpenHandle, CommandOutcome};
use ssh_wire::{ChannelId, Pty, Sig};

/// What a server is told by its session once a user is authenticated. What `AuthHandler` says of
/// its callbacks holds of these too. The commands that a callback records are done in their order
/// once it has returned; after an error they are not.
///
/// Channels go by this side's numbers. Where a callback answers a request of the peer (RFC 4254
/// sections 5.4 and 6) it records `channel_success` or `channel_failure`, now or in a later
/// callback; one that answers a bool says itself whether the request is granted.
pub trait Handler: AuthHandler {
    /// The servers, by their config, and the peers, by their identification line, for which the
    /// callbacks that are lent commands may be called: all, where it is not written. What a
    /// callback counts on of what it is lent stands here, and `run_stream` asks for it.
    ghost suits: { ConfigOf → List ℕ → Type 0 } = { λ _ _. Unit {0} };

    /// The user is authenticated, and the success message is staged (RFC 4252 section 5.1).
    fn auth_succeeded(&mut self, session: &mut Commands<'_>) -> Result<(), Self::Error>
        requires fresh { session.old.recorded ≡ [] }
        requires suits { Self.suits session.old.config session.old.remote_sshid }
        ensures { Tells (Self.told self.old) (Self.told self.new) result
            (call.AuthSucceeded result session.new.recorded) }
    {
        self.untold(Unwritten::new())
    }

    /// The peer closed the channel: what had still to be sent on it is dropped, and its number is
    /// unknown from now on (RFC 4254 section 5.3).
    fn channel_close(
        &mut self,
        channel: ChannelId,
        session: &mut Commands<'_>,
    ) -> Result<(), Self::Error>
        requires fresh { session.old.recorded ≡ [] }
        requires suits { Self.suits session.old.config session.old.remote_sshid }
        ensures { Tells (Self.told self.old) (Self.told self.new) result
            (call.ChannelClose channel result session.new.recorded) }
    {
        self.untold(Unwritten::new())
    }

    /// The peer sends no more data on the channel (RFC 4254 section 5.3).
    fn channel_eof(
        &mut self,
        channel: ChannelId,
        session: &mut Commands<'_>,
    ) -> Result<(), Self::Error>
        requires fresh { session.old.recorded ≡ [] }
        requires suits { Self.suits session.old.config session.old.remote_sshid }
        ensures { Tells (Self.told self.old) (Self.told self.new) result
            (call.ChannelEof channel result session.new.recorded) }
    {
        self.untold(Unwritten::new())
    }

    /// The peer opens a session channel, which has this number on this side (RFC 4254 section
    /// 6.1). The open is answered by `session.answer_open(reply.accept())` or a rejection, or later
    /// by whoever kept the number. It is the one callback beside `untold` that has no body of its
    /// own.
    fn channel_open_session(
        &mut self,
        channel: ChannelId,
        reply: ChannelOpenHandle,
        session: &mut Commands<'_>,
    ) -> Result<(), Self::Error>
        requires of { reply ≡ channel }
        requires fresh { session.old.recorded ≡ [] }
        requires suits { Self.suits session.old.config session.old.remote_sshid }
        ensures { Tells (Self.told self.old) (Self.told self.new) result
            (call.ChannelOpenSession channel result session.new.recorded) };

    /// The peer opens a channel for a connection to an X server (RFC 4254 section 6.3.2), which
    /// comes from this address and port. It is answered as a session is, and by `refuse_open` where
    /// it is not written.
    fn channel_open_x11(
        &mut self,
        channel: ChannelId,
        originator_address: &str,
        originator_port: u32,
        reply: ChannelOpenHandle,
        session: &mut Commands<'_>,
    ) -> Result<(), Self::Error>
        requires of { reply ≡ channel }
        requires fresh { session.old.recorded ≡ [] }
        requires suits { Self.suits session.old.config session.old.remote_sshid }
        ensures { Tells (Self.told self.old) (Self.told self.new) result
            (call.ChannelOpenX11 channel originator_address.now originator_port result
            session.new.recorded) }
    {
        self.refuse_open(reply, session)
    }

    /// The peer asks for a connection to this host and port, and opens a channel for it (RFC 4254
    /// section 7.2, direct-tcpip); the connection comes from the originator's address and port. It
    /// is answered as a session is, and by `refuse_open` where it is not written.
    fn channel_open_direct_tcpip(
        &mut self,
        channel: ChannelId,
        host_to_connect: &str,
        port_to_connect: u32,
        originator_address: &str,
        originator_port: u32,
        reply: ChannelOpenHandle,
        session: &mut Commands<'_>,
    ) -> Result<(), Self::Error>
        requires of { reply ≡ channel }
        requires fresh { session.old.recorded ≡ [] }
        requires suits { Self.suits session.old.config session.old.remote_sshid }
        ensures { Tells (Self.told self.old) (Self.told self.new) result
            (call.ChannelOpenDirectTcpip channel host_to_connect.now port_to_connect
            originator_address.now originator_port result session.new.recorded) }
    {
        self.refuse_open(reply, session)
    }

    /// The peer opens a channel for a connection that came to this address and port, which it
    /// listens at for this side (RFC 4254 section 7.2, forwarded-tcpip); the connection comes from
    /// the originator's address and port. It is answered as a session is, and by `refuse_open` where
    /// it is not written.
    fn channel_open_forwarded_tcpip(
        &mut self,
        channel: ChannelId,
        host_to_connect: &str,
        port_to_connect: u32,
        originator_address: &str,
        originator_port: u32,
        reply: ChannelOpenHandle,
        session: &mut Commands<'_>,
    ) -> Result<(), Self::Error>
        requires of { reply ≡ channel }
        requires fresh { session.old.recorded ≡ [] }
        requires suits { Self.suits session.old.config session.old.remote_sshid }
        ensures { Tells (Self.told self.old) (Self.told self.new) result
            (call.ChannelOpenForwardedTcpip channel host_to_connect.now port_to_connect
            originator_address.now originator_port result session.new.recorded) }
    {
        self.refuse_open(reply, session)
    }

    /// The peer asks for a connection to the socket of this path, and opens a channel for it
    /// (OpenSSH PROTOCOL section 2.4, direct-streamlocal). It is answered as a session is, and by
    /// `refuse_open` where it is not written.
    fn channel_open_direct_streamlocal(
        &mut self,
        channel: ChannelId,
        socket_path: &str,
        reply: ChannelOpenHandle,
        session: &mut Commands<'_>,
    ) -> Result<(), Self::Error>
        requires of { reply ≡ channel }
        requires fresh { session.old.recorded ≡ [] }
        requires suits { Self.suits session.old.config session.old.remote_sshid }
        ensures { Tells (Self.told self.old) (Self.told self.new) result
            (call.ChannelOpenDirectStreamlocal channel socket_path.now result
            session.new.recorded) }
    {
        self.refuse_open(reply, session)
    }

    /// Answers an open of the peer whose callback is not written, so that a handler that serves
    /// sessions alone writes `channel_open_session` and no other: by `reject_default`. Where there
    /// is no memory to record that, the open stays unanswered; a handler that would rather end the
    /// run, or refuse for another reason, writes this. As `untold`, which the body here calls, it
    /// is not told: a handler that tells its calls writes each open.
    fn refuse_open(
        &mut self,
        reply: ChannelOpenHandle,
        session: &mut Commands<'_>,
    ) -> Result<(), Self::Error>
        requires fresh { session.old.recorded ≡ [] }
        requires suits { Self.suits session.old.config session.old.remote_sshid }
        ensures { IsUntold (Self.told self.old) (Self.told self.new) result }
    {
        drop(session.answer_open(reply.reject_default()));
        self.untold(Unwritten::new())
    }

    /// The peer confirmed the open of this channel (RFC 4254 section 5.1): one message to it may
    /// have `max_packet_size` bytes of data, and it takes `window_size` bytes at first.
    fn channel_open_confirmation(
        &mut self,
        id: ChannelId,
        max_packet_size: u32,
        window_size: u32,
        session: &mut Commands<'_>,
    ) -> Result<(), Self::Error>
        requires fresh { session.old.recorded ≡ [] }
        requires suits { Self.suits session.old.config session.old.remote_sshid }
        ensures { Tells (Self.told self.old) (Self.told self.new) result
            (call.ChannelOpenConfirmation id max_packet_size window_size result
            session.new.recorded) }
    {
        self.untold(Unwritten::new())
    }

    /// Data came on the channel, maybe none (RFC 4254 section 5.2).
    fn data(
        &mut self,
        channel: ChannelId,
        bytes: &[u8],
        session: &mut Commands<'_>,
    ) -> Result<(), Self::Error>
        requires fresh { session.old.recorded ≡ [] }
        requires suits { Self.suits session.old.config session.old.remote_sshid }
        ensures { Tells (Self.told self.old) (Self.told self.new) result
            (call.Data channel bytes.now result session.new.recorded) }
    {
        self.untold(Unwritten::new())
    }

    /// Data of another type came on the channel (RFC 4254 section 5.2); `code` 1 is standard error.
    fn extended_data(
        &mut self,
        channel: ChannelId,
        code: u32,
        bytes: &[u8],
        session: &mut Commands<'_>,
    ) -> Result<(), Self::Error>
        requires fresh { session.old.recorded ≡ [] }
        requires suits { Self.suits session.old.config session.old.remote_sshid }
        ensures { Tells (Self.told self.old) (Self.told self.new) result
            (call.ExtendedData channel code bytes.now result session.new.recorded) }
    {
        self.untold(Unwritten::new())
    }

    /// The peer lets more data through: `new_size` bytes may still be sent on the channel (RFC
    /// 4254 section 5.2).
    fn window_adjusted(
        &mut self,
        channel: ChannelId,
        new_size: u32,
        session: &mut Commands<'_>,
    ) -> Result<(), Self::Error>
        requires fresh { session.old.recorded ≡ [] }
        requires suits { Self.suits session.old.config session.old.remote_sshid }
        ensures { Tells (Self.told self.old) (Self.told self.new) result
            (call.WindowAdjusted channel new_size result session.new.recorded) }
    {
        self.untold(Unwritten::new())
    }

    /// The window that this side grants on the channel was just filled up to `current` bytes (RFC
    /// 4254 section 5.2). The answer is what the window of this channel is filled up to from now on,
    /// in bytes; 0 leaves it as it is, and so does a callback that is not written.
    fn adjust_window(&mut self, channel: ChannelId, current: u32) -> Result<u32, Self::Error>
        ensures { Tells (Self.told self.old) (Self.told self.new) result
            (call.AdjustWindow channel current result) }
    {
        self.untold(Unwritten::new())?;
        Ok(current)
    }

    /// The peer asks for a terminal of this type, so many characters wide and rows high, and as
    /// many pixels, with these modes in their order (RFC 4254 sections 6.2 and 8).
    fn pty_request(
        &mut self,
        channel: ChannelId,
        term: &str,
        col_width: u32,
        row_height: u32,
        pix_width: u32,
        pix_height: u32,
        modes: &[(Pty, u32)],
        session: &mut Commands<'_>,
    ) -> Result<(), Self::Error>
        requires fresh { session.old.recorded ≡ [] }
        requires suits { Self.suits session.old.config session.old.remote_sshid }
        ensures { Tells (Self.told self.old) (Self.told self.new) result
            (call.PtyRequest channel term.now col_width row_height pix_width pix_height modes.now
            result session.new.recorded) }
    {
        self.untold(Unwritten::new())
    }

    /// The peer asks that X11 is forwarded to it, for one connection alone or for each, and names
    /// the protocol and the cookie by which X11 authenticates, and the screen (RFC 4254 section
    /// 6.3.1).
    fn x11_request(
        &mut self,
        channel: ChannelId,
        single_connection: bool,
        x11_auth_protocol: &str,
        x11_auth_cookie: &str,
        x11_screen_number: u32,
        session: &mut Commands<'_>,
    ) -> Result<(), Self::Error>
        requires fresh { session.old.recorded ≡ [] }
        requires suits { Self.suits session.old.config session.old.remote_sshid }
        ensures { Tells (Self.told self.old) (Self.told self.new) result
            (call.X11Request channel single_connection x11_auth_protocol.now x11_auth_cookie.now
            x11_screen_number result session.new.recorded) }
    {
        self.untold(Unwritten::new())
    }

    /// The peer sets a variable of the environment (RFC 4254 section 6.4).
    fn env_request(
        &mut self,
        channel: ChannelId,
        variable_name: &str,
        variable_value: &str,
        session: &mut Commands<'_>,
    ) -> Result<(), Self::Error>
        requires fresh { session.old.recorded ≡ [] }
        requires suits { Self.suits session.old.config session.old.remote_sshid }
        ensures { Tells (Self.told self.old) (Self.told self.new) result
            (call.EnvRequest channel variable_name.now variable_value.now result
            session.new.recorded) }
    {
        self.untold(Unwritten::new())
    }

    /// The peer asks for the user's shell (RFC 4254 section 6.5).
    fn shell_request(
        &mut self,
        channel: ChannelId,
        session: &mut Commands<'_>,
    ) -> Result<(), Self::Error>
        requires fresh { session.old.recorded ≡ [] }
        requires suits { Self.suits session.old.config session.old.remote_sshid }
        ensures { Tells (Self.told self.old) (Self.told self.new) result
            (call.ShellRequest channel result session.new.recorded) }
    {
        self.untold(Unwritten::new())
    }

    /// The peer asks that this program is run, with its arguments as it wrote them (RFC 4254
    /// section 6.5).
    fn exec_request(
        &mut self,
        channel: ChannelId,
        bytes: &[u8],
        session: &mut Commands<'_>,
    ) -> Result<(), Self::Error>
        requires fresh { session.old.recorded ≡ [] }
        requires suits { Self.suits session.old.config session.old.remote_sshid }
        ensures { Tells (Self.told self.old) (Self.told self.new) result
            (call.ExecRequest channel bytes.now result session.new.recorded) }
    {
        self.untold(Unwritten::new())
    }

    /// The peer asks for the subsystem of this name, as `sftp` (RFC 4254 section 6.5).
    fn subsystem_request(
        &mut self,
        channel: ChannelId,
        name: &str,
        session: &mut Commands<'_>,
    ) -> Result<(), Self::Error>
        requires fresh { session.old.recorded ≡ [] }
        requires suits { Self.suits session.old.config session.old.remote_sshid }
        ensures { Tells (Self.told self.old) (Self.told self.new) result
            (call.SubsystemRequest channel name.now result session.new.recorded) }
    {
        self.untold(Unwritten::new())
    }

    /// The peer's terminal has another size, in characters and rows and in pixels (RFC 4254 section
    /// 6.7). The peer wants no answer.
    fn window_change_request(
        &mut self,
        channel: ChannelId,
        col_width: u32,
        row_height: u32,
        pix_width: u32,
        pix_height: u32,
        session: &mut Commands<'_>,
    ) -> Result<(), Self::Error>
        requires fresh { session.old.recorded ≡ [] }
        requires suits { Self.suits session.old.config session.old.remote_sshid }
        ensures { Tells (Self.told self.old) (Self.told self.new) result
            (call.WindowChangeRequest channel col_width row_height pix_width pix_height result
            session.new.recorded) }
    {
        self.untold(Unwritten::new())
    }

    /// The peer asks that its agent may be reached (OpenSSH's `auth-agent-req@openssh.com`). The
    /// answer says whether it is granted: not, where this is not written.
    fn agent_request(
        &mut self,
        channel: ChannelId,
        session: &mut Commands<'_>,
    ) -> Result<bool, Self::Error>
        requires fresh { session.old.recorded ≡ [] }
        requires suits { Self.suits session.old.config session.old.remote_sshid }
        ensures { Tells (Self.told self.old) (Self.told self.new) result
            (call.AgentRequest channel result session.new.recorded) }
    {
        self.untold(Unwritten::new())?;
        Ok(false)
    }

    /// The peer sends the program on the channel a signal (RFC 4254 section 6.9). It wants no
    /// answer.
    fn signal(
        &mut self,
        channel: ChannelId,
        signal: Sig,
        session: &mut Commands<'_>,
    ) -> Result<(), Self::Error>
        requires fresh { session.old.recorded ≡ [] }
        requires suits { Self.suits session.old.config session.old.remote_sshid }
        ensures { Tells (Self.told self.old) (Self.told self.new) result
            (call.Signal channel signal result session.new.recorded) }
    {
        self.untold(Unwritten::new())
    }

    /// The peer asks that connections to this address are forwarded to it (RFC 4254 section 7.1).
    /// Where it leaves the port to this side, `port` is 0, and the callback sets it to the port
    /// that it listens at. The answer says whether it is granted: not, where this is not written.
    fn tcpip_forward(
        &mut self,
        address: &str,
        port: &mut u32,
        session: &mut Commands<'_>,
    ) -> Result<bool, Self::Error>
        requires fresh { session.old.recorded ≡ [] }
        requires suits { Self.suits session.old.config session.old.remote_sshid }
        ensures { Tells (Self.told self.old) (Self.told self.new) result
            (call.TcpipForward address.now port.old port.new result session.new.recorded) }
    {
        self.untold(Unwritten::new())?;
        Ok(false)
    }

    /// The peer asks that they are forwarded no longer (RFC 4254 section 7.1). The answer says
    /// whether it is granted: not, where this is not written.
    fn cancel_tcpip_forward(
        &mut self,
        address: &str,
        port: u32,
        session: &mut Commands<'_>,
    ) -> Result<bool, Self::Error>
        requires fresh { session.old.recorded ≡ [] }
        requires suits { Self.suits session.old.config session.old.remote_sshid }
        ensures { Tells (Self.told self.old) (Self.told self.new) result
            (call.CancelTcpipForward address.now port result session.new.recorded) }
    {
        self.untold(Unwritten::new())?;
        Ok(false)
    }

    /// The peer asks that connections to the socket of this path are forwarded to it (OpenSSH
    /// PROTOCOL section 2.4). The answer says whether it is granted: not, where this is not
    /// written.
    fn streamlocal_forward(
        &mut self,
        socket_path: &str,
        session: &mut Commands<'_>,
    ) -> Result<bool, Self::Error>
        requires fresh { session.old.recorded ≡ [] }
        requires suits { Self.suits session.old.config session.old.remote_sshid }
        ensures { Tells (Self.told self.old) (Self.told self.new) result
            (call.StreamlocalForward socket_path.now result session.new.recorded) }
    {
        self.untold(Unwritten::new())?;
        Ok(false)
    }

    /// The peer asks that they are forwarded no longer (OpenSSH PROTOCOL section 2.4). The answer
    /// says whether it is granted: not, where this is not written.
    fn cancel_streamlocal_forward(
        &mut self,
        socket_path: &str,
        session: &mut Commands<'_>,
    ) -> Result<bool, Self::Error>
        requires fresh { session.old.recorded ≡ [] }
        requires suits { Self.suits session.old.config session.old.remote_sshid }
        ensures { Tells (Self.told self.old) (Self.told self.new) result
            (call.CancelStreamlocalForward socket_path.now result session.new.recorded) }
    {
        self.untold(Unwritten::new())?;
        Ok(false)
    }

    /// A command that a callback recorded opens a channel, or was refused. `place` is its place
    /// among the commands of that callback, from 0.
    fn command_done(&mut self, place: usize, outcome: CommandOutcome) -> Result<(), Self::Error>
        ensures { Tells (Self.told self.old) (Self.told self.new) result
            (call.CommandDone place outcome result) }
    {
        self.untold(Unwritten::new())
    }
}
