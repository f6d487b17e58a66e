// The callbacks of a session, passed on and told.
ghost use Rattle.std.specs.Prelude.{◌≡◌};
ghost use Rattle.ssh_handler.specs.Loan.{IsLent};
ghost use Rattle.ssh_handler.specs.Recording.{Passes, Records};
ghost use Rattle.ssh_auth.specs.declared.call.Call.TheVariants as call;

use crate::made::{channels, forwards, opens, requests};
use crate::{Commands, Handler, Recorded};
use ssh_link::{ChannelOpenHandle, CommandOutcome};
use ssh_wire::{ChannelId, Pty, Sig};

impl<H: Handler> Handler for Recorded<H>
where
    H::Error: Copy,
{
    ghost suits = { H.suits };

    fn auth_succeeded(&mut self, session: &mut Commands<'_>) -> Result<(), Self::Error>
        requires lent { IsLent H.suits session.old }
        ensures records { Records self.old.told self.new.told result
            (call.AuthSucceeded result session.new.recorded) }
        ensures passes { Passes H.AuthHandler.told self.old.inner self.new.inner result
            (λ answer. call.AuthSucceeded answer session.new.recorded) }
    {
        pass!(
            self.told,
            session,
            self.inner.auth_succeeded(session),
            AuthSucceeded
        )
    }

    fn channel_close(
        &mut self,
        id: ChannelId,
        session: &mut Commands<'_>,
    ) -> Result<(), Self::Error>
        requires lent { IsLent H.suits session.old }
        ensures records { Records self.old.told self.new.told result
            (call.ChannelClose id result session.new.recorded) }
        ensures passes { Passes H.AuthHandler.told self.old.inner self.new.inner result
            (λ answer. call.ChannelClose id answer session.new.recorded) }
    {
        pass!(self.told, session, self.inner.channel_close(id, session), ChannelClose, channel: id)
    }

    fn channel_eof(&mut self, id: ChannelId, session: &mut Commands<'_>) -> Result<(), Self::Error>
        requires lent { IsLent H.suits session.old }
        ensures records { Records self.old.told self.new.told result
            (call.ChannelEof id result session.new.recorded) }
        ensures passes { Passes H.AuthHandler.told self.old.inner self.new.inner result
            (λ answer. call.ChannelEof id answer session.new.recorded) }
    {
        pass!(self.told, session, self.inner.channel_eof(id, session), ChannelEof, channel: id)
    }

    fn channel_open_session(
        &mut self,
        id: ChannelId,
        reply: ChannelOpenHandle,
        session: &mut Commands<'_>,
    ) -> Result<(), Self::Error>
        requires of { reply ≡ id }
        requires lent { IsLent H.suits session.old }
        ensures records { Records self.old.told self.new.told result
            (call.ChannelOpenSession id result session.new.recorded) }
        ensures passes { Passes H.AuthHandler.told self.old.inner self.new.inner result
            (λ answer. call.ChannelOpenSession id answer session.new.recorded) }
    {
        pass!(self.told, session, self.inner.channel_open_session(id, reply, session),
            ChannelOpenSession, channel: id)
    }

    fn channel_open_x11(
        &mut self,
        id: ChannelId,
        from: &str,
        port: u32,
        reply: ChannelOpenHandle,
        session: &mut Commands<'_>,
    ) -> Result<(), Self::Error>
        requires of { reply ≡ id }
        requires lent { IsLent H.suits session.old }
        ensures records { Records self.old.told self.new.told result
            (call.ChannelOpenX11 id from.now port result session.new.recorded) }
        ensures passes { Passes H.AuthHandler.told self.old.inner self.new.inner result
            (λ answer. call.ChannelOpenX11 id from.now port answer session.new.recorded) }
    {
        let answer = self.inner.channel_open_x11(id, from, port, reply, session);
        let call = opens::x11(self.alloc, id, from, port, answer, session);
        self.told.pass(answer, call)
    }

    fn channel_open_direct_tcpip(
        &mut self,
        id: ChannelId,
        host: &str,
        port: u32,
        from: &str,
        from_port: u32,
        reply: ChannelOpenHandle,
        session: &mut Commands<'_>,
    ) -> Result<(), Self::Error>
        requires of { reply ≡ id }
        requires lent { IsLent H.suits session.old }
        ensures records { Records self.old.told self.new.told result
            (call.ChannelOpenDirectTcpip id host.now port from.now from_port result
            session.new.recorded) }
        ensures passes { Passes H.AuthHandler.told self.old.inner self.new.inner result
            (λ answer. call.ChannelOpenDirectTcpip id host.now port from.now from_port answer
            session.new.recorded) }
    {
        let answer = self
            .inner
            .channel_open_direct_tcpip(id, host, port, from, from_port, reply, session);
        let call = opens::direct_tcpip(
            self.alloc, id, host, port, from, from_port, answer, session,
        );
        self.told.pass(answer, call)
    }

    fn channel_open_forwarded_tcpip(
        &mut self,
        id: ChannelId,
        host: &str,
        port: u32,
        from: &str,
        from_port: u32,
        reply: ChannelOpenHandle,
        session: &mut Commands<'_>,
    ) -> Result<(), Self::Error>
        requires of { reply ≡ id }
        requires lent { IsLent H.suits session.old }
        ensures records { Records self.old.told self.new.told result
            (call.ChannelOpenForwardedTcpip id host.now port from.now from_port result
            session.new.recorded) }
        ensures passes { Passes H.AuthHandler.told self.old.inner self.new.inner result
            (λ answer. call.ChannelOpenForwardedTcpip id host.now port from.now from_port answer
            session.new.recorded) }
    {
        let answer = self
            .inner
            .channel_open_forwarded_tcpip(id, host, port, from, from_port, reply, session);
        let call = opens::forwarded_tcpip(
            self.alloc, id, host, port, from, from_port, answer, session,
        );
        self.told.pass(answer, call)
    }

    fn channel_open_direct_streamlocal(
        &mut self,
        id: ChannelId,
        path: &str,
        reply: ChannelOpenHandle,
        session: &mut Commands<'_>,
    ) -> Result<(), Self::Error>
        requires of { reply ≡ id }
        requires lent { IsLent H.suits session.old }
        ensures records { Records self.old.told self.new.told result
            (call.ChannelOpenDirectStreamlocal id path.now result session.new.recorded) }
        ensures passes { Passes H.AuthHandler.told self.old.inner self.new.inner result
            (λ answer. call.ChannelOpenDirectStreamlocal id path.now answer session.new.recorded) }
    {
        let answer = self
            .inner
            .channel_open_direct_streamlocal(id, path, reply, session);
        let call = opens::direct_streamlocal(self.alloc, id, path, answer, session);
        self.told.pass(answer, call)
    }

    fn channel_open_confirmation(
        &mut self,
        id: ChannelId,
        packet: u32,
        window: u32,
        session: &mut Commands<'_>,
    ) -> Result<(), Self::Error>
        requires lent { IsLent H.suits session.old }
        ensures records { Records self.old.told self.new.told result
            (call.ChannelOpenConfirmation id packet window result session.new.recorded) }
        ensures passes { Passes H.AuthHandler.told self.old.inner self.new.inner result
            (λ answer. call.ChannelOpenConfirmation id packet window answer session.new.recorded) }
    {
        pass!(self.told, session, self.inner.channel_open_confirmation(id, packet, window, session),
            ChannelOpenConfirmation, id: id, max_packet_size: packet, window_size: window)
    }

    fn data(
        &mut self,
        id: ChannelId,
        bytes: &[u8],
        session: &mut Commands<'_>,
    ) -> Result<(), Self::Error>
        requires lent { IsLent H.suits session.old }
        ensures records { Records self.old.told self.new.told result
            (call.Data id bytes.now result session.new.recorded) }
        ensures passes { Passes H.AuthHandler.told self.old.inner self.new.inner result
            (λ answer. call.Data id bytes.now answer session.new.recorded) }
    {
        let answer = self.inner.data(id, bytes, session);
        let call = channels::plain_data(self.alloc, id, bytes, answer, session);
        self.told.pass(answer, call)
    }

    fn extended_data(
        &mut self,
        id: ChannelId,
        code: u32,
        bytes: &[u8],
        session: &mut Commands<'_>,
    ) -> Result<(), Self::Error>
        requires lent { IsLent H.suits session.old }
        ensures records { Records self.old.told self.new.told result
            (call.ExtendedData id code bytes.now result session.new.recorded) }
        ensures passes { Passes H.AuthHandler.told self.old.inner self.new.inner result
            (λ answer. call.ExtendedData id code bytes.now answer session.new.recorded) }
    {
        let answer = self.inner.extended_data(id, code, bytes, session);
        let call = channels::extended_data(self.alloc, id, code, bytes, answer, session);
        self.told.pass(answer, call)
    }

    fn window_adjusted(
        &mut self,
        id: ChannelId,
        new_size: u32,
        session: &mut Commands<'_>,
    ) -> Result<(), Self::Error>
        requires lent { IsLent H.suits session.old }
        ensures records { Records self.old.told self.new.told result
            (call.WindowAdjusted id new_size result session.new.recorded) }
        ensures passes { Passes H.AuthHandler.told self.old.inner self.new.inner result
            (λ answer. call.WindowAdjusted id new_size answer session.new.recorded) }
    {
        pass!(self.told, session, self.inner.window_adjusted(id, new_size, session),
            WindowAdjusted, channel: id, new_size: new_size)
    }

    fn adjust_window(&mut self, id: ChannelId, current: u32) -> Result<u32, Self::Error>
        ensures records { Records self.old.told self.new.told result
            (call.AdjustWindow id current result) }
        ensures passes { Passes H.AuthHandler.told self.old.inner self.new.inner result
            (call.AdjustWindow id current) }
    {
        pass!(self.told, self.inner.adjust_window(id, current),
            AdjustWindow, channel: id, current: current)
    }

    fn pty_request(
        &mut self,
        id: ChannelId,
        term: &str,
        columns: u32,
        rows: u32,
        width: u32,
        height: u32,
        modes: &[(Pty, u32)],
        session: &mut Commands<'_>,
    ) -> Result<(), Self::Error>
        requires lent { IsLent H.suits session.old }
        ensures records { Records self.old.told self.new.told result
            (call.PtyRequest id term.now columns rows width height modes.now result
            session.new.recorded) }
        ensures passes { Passes H.AuthHandler.told self.old.inner self.new.inner result
            (λ answer. call.PtyRequest id term.now columns rows width height modes.now answer
            session.new.recorded) }
    {
        let answer = self
            .inner
            .pty_request(id, term, columns, rows, width, height, modes, session);
        let call = requests::pty(
            self.alloc, id, term, columns, rows, width, height, modes, answer, session,
        );
        self.told.pass(answer, call)
    }

    fn x11_request(
        &mut self,
        id: ChannelId,
        single: bool,
        protocol: &str,
        cookie: &str,
        screen: u32,
        session: &mut Commands<'_>,
    ) -> Result<(), Self::Error>
        requires lent { IsLent H.suits session.old }
        ensures records { Records self.old.told self.new.told result
            (call.X11Request id single protocol.now cookie.now screen result session.new.recorded) }
        ensures passes { Passes H.AuthHandler.told self.old.inner self.new.inner result
            (λ answer. call.X11Request id single protocol.now cookie.now screen answer
            session.new.recorded) }
    {
        let answer = self
            .inner
            .x11_request(id, single, protocol, cookie, screen, session);
        let call = requests::x11(
            self.alloc, id, single, protocol, cookie, screen, answer, session,
        );
        self.told.pass(answer, call)
    }

    fn env_request(
        &mut self,
        id: ChannelId,
        name: &str,
        value: &str,
        session: &mut Commands<'_>,
    ) -> Result<(), Self::Error>
        requires lent { IsLent H.suits session.old }
        ensures records { Records self.old.told self.new.told result
            (call.EnvRequest id name.now value.now result session.new.recorded) }
        ensures passes { Passes H.AuthHandler.told self.old.inner self.new.inner result
            (λ answer. call.EnvRequest id name.now value.now answer session.new.recorded) }
    {
        let answer = self.inner.env_request(id, name, value, session);
        let call = requests::env(self.alloc, id, name, value, answer, session);
        self.told.pass(answer, call)
    }

    fn shell_request(
        &mut self,
        id: ChannelId,
        session: &mut Commands<'_>,
    ) -> Result<(), Self::Error>
        requires lent { IsLent H.suits session.old }
        ensures records { Records self.old.told self.new.told result
            (call.ShellRequest id result session.new.recorded) }
        ensures passes { Passes H.AuthHandler.told self.old.inner self.new.inner result
            (λ answer. call.ShellRequest id answer session.new.recorded) }
    {
        pass!(self.told, session, self.inner.shell_request(id, session), ShellRequest, channel: id)
    }

    fn exec_request(
        &mut self,
        id: ChannelId,
        bytes: &[u8],
        session: &mut Commands<'_>,
    ) -> Result<(), Self::Error>
        requires lent { IsLent H.suits session.old }
        ensures records { Records self.old.told self.new.told result
            (call.ExecRequest id bytes.now result session.new.recorded) }
        ensures passes { Passes H.AuthHandler.told self.old.inner self.new.inner result
            (λ answer. call.ExecRequest id bytes.now answer session.new.recorded) }
    {
        let answer = self.inner.exec_request(id, bytes, session);
        let call = requests::exec(self.alloc, id, bytes, answer, session);
        self.told.pass(answer, call)
    }

    fn subsystem_request(
        &mut self,
        id: ChannelId,
        name: &str,
        session: &mut Commands<'_>,
    ) -> Result<(), Self::Error>
        requires lent { IsLent H.suits session.old }
        ensures records { Records self.old.told self.new.told result
            (call.SubsystemRequest id name.now result session.new.recorded) }
        ensures passes { Passes H.AuthHandler.told self.old.inner self.new.inner result
            (λ answer. call.SubsystemRequest id name.now answer session.new.recorded) }
    {
        let answer = self.inner.subsystem_request(id, name, session);
        let call = requests::subsystem(self.alloc, id, name, answer, session);
        self.told.pass(answer, call)
    }

    fn window_change_request(
        &mut self,
        id: ChannelId,
        columns: u32,
        rows: u32,
        width: u32,
        height: u32,
        session: &mut Commands<'_>,
    ) -> Result<(), Self::Error>
        requires lent { IsLent H.suits session.old }
        ensures records { Records self.old.told self.new.told result
            (call.WindowChangeRequest id columns rows width height result session.new.recorded) }
        ensures passes { Passes H.AuthHandler.told self.old.inner self.new.inner result
            (λ answer. call.WindowChangeRequest id columns rows width height answer
            session.new.recorded) }
    {
        pass!(self.told, session,
            self.inner.window_change_request(id, columns, rows, width, height, session),
            WindowChangeRequest, channel: id, col_width: columns, row_height: rows,
            pix_width: width, pix_height: height)
    }

    fn agent_request(
        &mut self,
        id: ChannelId,
        session: &mut Commands<'_>,
    ) -> Result<bool, Self::Error>
        requires lent { IsLent H.suits session.old }
        ensures records { Records self.old.told self.new.told result
            (call.AgentRequest id result session.new.recorded) }
        ensures passes { Passes H.AuthHandler.told self.old.inner self.new.inner result
            (λ answer. call.AgentRequest id answer session.new.recorded) }
    {
        pass!(self.told, session, self.inner.agent_request(id, session), AgentRequest, channel: id)
    }

    fn signal(
        &mut self,
        id: ChannelId,
        signal: Sig,
        session: &mut Commands<'_>,
    ) -> Result<(), Self::Error>
        requires lent { IsLent H.suits session.old }
        ensures records { Records self.old.told self.new.told result
            (call.Signal id signal result session.new.recorded) }
        ensures passes { Passes H.AuthHandler.told self.old.inner self.new.inner result
            (λ answer. call.Signal id signal answer session.new.recorded) }
    {
        let sent = signal.copy();
        let answer = self.inner.signal(id, signal, session);
        let call = requests::signal(id, sent, answer, session);
        self.told.pass(answer, call)
    }

    fn tcpip_forward(
        &mut self,
        address: &str,
        port: &mut u32,
        session: &mut Commands<'_>,
    ) -> Result<bool, Self::Error>
        requires lent { IsLent H.suits session.old }
        ensures records { Records self.old.told self.new.told result
            (call.TcpipForward address.now port.old port.new result session.new.recorded) }
        ensures passes { Passes H.AuthHandler.told self.old.inner self.new.inner result
            (λ answer. call.TcpipForward address.now port.old port.new answer
            session.new.recorded) }
    {
        let before = *port;
        let answer = self.inner.tcpip_forward(address, port, session);
        let call = forwards::tcpip(self.alloc, address, before, *port, answer, session);
        self.told.pass(answer, call)
    }

    fn cancel_tcpip_forward(
        &mut self,
        address: &str,
        port: u32,
        session: &mut Commands<'_>,
    ) -> Result<bool, Self::Error>
        requires lent { IsLent H.suits session.old }
        ensures records { Records self.old.told self.new.told result
            (call.CancelTcpipForward address.now port result session.new.recorded) }
        ensures passes { Passes H.AuthHandler.told self.old.inner self.new.inner result
            (λ answer. call.CancelTcpipForward address.now port answer session.new.recorded) }
    {
        let answer = self.inner.cancel_tcpip_forward(address, port, session);
        let call = forwards::cancel_tcpip(self.alloc, address, port, answer, session);
        self.told.pass(answer, call)
    }

    fn streamlocal_forward(
        &mut self,
        path: &str,
        session: &mut Commands<'_>,
    ) -> Result<bool, Self::Error>
        requires lent { IsLent H.suits session.old }
        ensures records { Records self.old.told self.new.told result
            (call.StreamlocalForward path.now result session.new.recorded) }
        ensures passes { Passes H.AuthHandler.told self.old.inner self.new.inner result
            (λ answer. call.StreamlocalForward path.now answer session.new.recorded) }
    {
        let answer = self.inner.streamlocal_forward(path, session);
        let call = forwards::streamlocal(self.alloc, path, answer, session);
        self.told.pass(answer, call)
    }

    fn cancel_streamlocal_forward(
        &mut self,
        path: &str,
        session: &mut Commands<'_>,
    ) -> Result<bool, Self::Error>
        requires lent { IsLent H.suits session.old }
        ensures records { Records self.old.told self.new.told result
            (call.CancelStreamlocalForward path.now result session.new.recorded) }
        ensures passes { Passes H.AuthHandler.told self.old.inner self.new.inner result
            (λ answer. call.CancelStreamlocalForward path.now answer session.new.recorded) }
    {
        let answer = self.inner.cancel_streamlocal_forward(path, session);
        let call = forwards::cancel_streamlocal(self.alloc, path, answer, session);
        self.told.pass(answer, call)
    }

    fn command_done(&mut self, place: usize, outcome: CommandOutcome) -> Result<(), Self::Error>
        ensures records { Records self.old.told self.new.told result
            (call.CommandDone place outcome result) }
        ensures passes { Passes H.AuthHandler.told self.old.inner self.new.inner result
            (call.CommandDone place outcome) }
    {
        pass!(self.told, self.inner.command_done(place, outcome),
            CommandDone, place: place, outcome: outcome)
    }
}
