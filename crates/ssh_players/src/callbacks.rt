// The callbacks of a script's handler once a user is authenticated.
use crate::asked::{is_granted, is_success, keep, port_of};
use crate::script_handler::{ScriptError, ScriptHandler};
use ssh_auth::{Happening, Judged, Lent, OpenType, Question};
use ssh_handler::{Commands, Handler, RecordError};
use ssh_link::{ChannelOpenHandle, CommandOutcome};
use ssh_questions::made;
use ssh_wire::{ChannelId, Pty, Sig, Text};

/// What a callback answers that answers nothing but an error.
type Heard = Result<(), RecordError<ScriptError>>;

impl Handler for ScriptHandler {
    fn auth_succeeded(&mut self, session: &mut Commands<'_>) -> Heard {
        self.hears(Lent::Succeeded, session)
    }

    fn channel_close(&mut self, channel: ChannelId, session: &mut Commands<'_>) -> Heard {
        self.happens(channel, Happening::Close, session)
    }

    fn channel_eof(&mut self, channel: ChannelId, session: &mut Commands<'_>) -> Heard {
        self.happens(channel, Happening::Eof, session)
    }

    fn channel_open_session(
        &mut self,
        channel: ChannelId,
        reply: ChannelOpenHandle,
        session: &mut Commands<'_>,
    ) -> Heard {
        self.opens(channel, OpenType::Session, reply, session)
    }

    fn channel_open_x11(
        &mut self,
        channel: ChannelId,
        originator_address: &str,
        originator_port: u32,
        reply: ChannelOpenHandle,
        session: &mut Commands<'_>,
    ) -> Heard {
        let Ok(opening) = made::x11_type(self.alloc, originator_address, originator_port) else {
            return self.loses_open(reply);
        };
        self.opens(channel, opening, reply, session)
    }

    fn channel_open_direct_tcpip(
        &mut self,
        channel: ChannelId,
        host_to_connect: &str,
        port_to_connect: u32,
        originator_address: &str,
        originator_port: u32,
        reply: ChannelOpenHandle,
        session: &mut Commands<'_>,
    ) -> Heard {
        let Ok(opening) = made::direct_tcpip(
            self.alloc,
            host_to_connect,
            port_to_connect,
            originator_address,
            originator_port,
        ) else {
            return self.loses_open(reply);
        };
        self.opens(channel, opening, reply, session)
    }

    fn channel_open_forwarded_tcpip(
        &mut self,
        channel: ChannelId,
        host_to_connect: &str,
        port_to_connect: u32,
        originator_address: &str,
        originator_port: u32,
        reply: ChannelOpenHandle,
        session: &mut Commands<'_>,
    ) -> Heard {
        let Ok(opening) = made::forwarded_tcpip(
            self.alloc,
            host_to_connect,
            port_to_connect,
            originator_address,
            originator_port,
        ) else {
            return self.loses_open(reply);
        };
        self.opens(channel, opening, reply, session)
    }

    fn channel_open_direct_streamlocal(
        &mut self,
        channel: ChannelId,
        socket_path: &str,
        reply: ChannelOpenHandle,
        session: &mut Commands<'_>,
    ) -> Heard {
        let Ok(opening) = made::direct_streamlocal(self.alloc, socket_path) else {
            return self.loses_open(reply);
        };
        self.opens(channel, opening, reply, session)
    }

    fn channel_open_confirmation(
        &mut self,
        id: ChannelId,
        max_packet_size: u32,
        window_size: u32,
        session: &mut Commands<'_>,
    ) -> Heard {
        let confirmed = Happening::Confirmed {
            max_packet_size,
            window_size,
        };
        self.happens(id, confirmed, session)
    }

    fn data(&mut self, channel: ChannelId, bytes: &[u8], session: &mut Commands<'_>) -> Heard {
        self.hears_data(channel, bytes, session)
    }

    fn extended_data(
        &mut self,
        channel: ChannelId,
        code: u32,
        bytes: &[u8],
        session: &mut Commands<'_>,
    ) -> Heard {
        let Ok(data) = made::extended_data(self.alloc, code, bytes) else {
            return self.loses();
        };
        self.happens(channel, data, session)
    }

    fn window_adjusted(
        &mut self,
        channel: ChannelId,
        new_size: u32,
        session: &mut Commands<'_>,
    ) -> Heard {
        self.happens(channel, Happening::WindowAdjusted { new_size }, session)
    }

    fn adjust_window(
        &mut self,
        channel: ChannelId,
        current: u32,
    ) -> Result<u32, RecordError<ScriptError>> {
        let question = Question::Adjusts { channel, current };
        keep(&mut self.asked, &mut self.lost, question)?;
        Ok(current)
    }

    fn pty_request(
        &mut self,
        channel: ChannelId,
        term: &str,
        col_width: u32,
        row_height: u32,
        pix_width: u32,
        pix_height: u32,
        modes: &[(Pty, u32)],
        session: &mut Commands<'_>,
    ) -> Heard {
        let Ok(request) = made::pty(
            self.alloc, term, col_width, row_height, pix_width, pix_height, modes,
        ) else {
            return self.loses();
        };
        self.requested(channel, request, session)
    }

    fn x11_request(
        &mut self,
        channel: ChannelId,
        single_connection: bool,
        x11_auth_protocol: &str,
        x11_auth_cookie: &str,
        x11_screen_number: u32,
        session: &mut Commands<'_>,
    ) -> Heard {
        let Ok(request) = made::x11(
            self.alloc,
            single_connection,
            x11_auth_protocol,
            x11_auth_cookie,
            x11_screen_number,
        ) else {
            return self.loses();
        };
        self.requested(channel, request, session)
    }

    fn env_request(
        &mut self,
        channel: ChannelId,
        variable_name: &str,
        variable_value: &str,
        session: &mut Commands<'_>,
    ) -> Heard {
        let Ok(request) = made::env(self.alloc, variable_name, variable_value) else {
            return self.loses();
        };
        self.requested(channel, request, session)
    }

    fn shell_request(&mut self, channel: ChannelId, session: &mut Commands<'_>) -> Heard {
        self.requested(channel, Happening::ShellRequest, session)
    }

    fn exec_request(
        &mut self,
        channel: ChannelId,
        bytes: &[u8],
        session: &mut Commands<'_>,
    ) -> Heard {
        let Ok(request) = made::exec(self.alloc, bytes) else {
            return self.loses();
        };
        self.requested(channel, request, session)
    }

    fn subsystem_request(
        &mut self,
        channel: ChannelId,
        name: &str,
        session: &mut Commands<'_>,
    ) -> Heard {
        let Ok(request) = made::subsystem(self.alloc, name) else {
            return self.loses();
        };
        self.requested(channel, request, session)
    }

    fn window_change_request(
        &mut self,
        channel: ChannelId,
        col_width: u32,
        row_height: u32,
        pix_width: u32,
        pix_height: u32,
        session: &mut Commands<'_>,
    ) -> Heard {
        let request = Happening::WindowChangeRequest {
            col_width,
            row_height,
            pix_width,
            pix_height,
        };
        self.requested(channel, request, session)
    }

    fn agent_request(
        &mut self,
        channel: ChannelId,
        session: &mut Commands<'_>,
    ) -> Result<bool, RecordError<ScriptError>> {
        let granted = is_success(self.answers.standing.requests);
        self.judges(Judged::AgentRequest { channel }, granted, session)
    }

    fn signal(&mut self, channel: ChannelId, signal: Sig, session: &mut Commands<'_>) -> Heard {
        self.requested(channel, Happening::Signal { signal }, session)
    }

    fn tcpip_forward(
        &mut self,
        address: &str,
        port: &mut u32,
        _session: &mut Commands<'_>,
    ) -> Result<bool, RecordError<ScriptError>> {
        let Ok(address) = Text::new(self.alloc, address) else {
            return self.loses();
        };
        let question = Question::Listens {
            address,
            port: *port,
        };
        keep(&mut self.asked, &mut self.lost, question)?;
        let verdict = self.answers.standing.forwards;
        *port = port_of(verdict, *port);
        Ok(is_granted(verdict))
    }

    fn cancel_tcpip_forward(
        &mut self,
        address: &str,
        port: u32,
        session: &mut Commands<'_>,
    ) -> Result<bool, RecordError<ScriptError>> {
        let Ok(judged) = made::cancel_tcpip(self.alloc, address, port) else {
            return self.loses();
        };
        let granted = is_granted(self.answers.standing.forwards);
        self.judges(judged, granted, session)
    }

    fn streamlocal_forward(
        &mut self,
        socket_path: &str,
        session: &mut Commands<'_>,
    ) -> Result<bool, RecordError<ScriptError>> {
        let Ok(judged) = made::streamlocal(self.alloc, socket_path) else {
            return self.loses();
        };
        let granted = is_granted(self.answers.standing.forwards);
        self.judges(judged, granted, session)
    }

    fn cancel_streamlocal_forward(
        &mut self,
        socket_path: &str,
        session: &mut Commands<'_>,
    ) -> Result<bool, RecordError<ScriptError>> {
        let Ok(judged) = made::cancel_streamlocal(self.alloc, socket_path) else {
            return self.loses();
        };
        let granted = is_granted(self.answers.standing.forwards);
        self.judges(judged, granted, session)
    }

    fn command_done(&mut self, place: usize, outcome: CommandOutcome) -> Heard {
        keep(
            &mut self.asked,
            &mut self.lost,
            Question::Done { place, outcome },
        )
    }
}
