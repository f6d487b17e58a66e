// The callbacks of a gateway's handler once a user is authenticated: an open of a channel to a host
// is kept, any other is refused, requests fail, and nothing is granted.
use crate::keeper::{Keeper, Pin};
use ssh_auth::{AuthHandler, Happening, Judged, Lent, OpenType, Question};
use ssh_handler::{Commands, Handler, RecordError};
use ssh_link::{ChannelOpenHandle, CommandOutcome};
use ssh_questions::made;
use ssh_wire::{ChannelId, Pty, Sig, Text};

impl<A: AuthHandler, J: Pin> Handler for Keeper<'_, '_, A, J> {
    fn auth_succeeded(&mut self, session: &mut Commands<'_>) -> Result<(), RecordError<A::Error>> {
        self.notebook.hears(Lent::Succeeded, session)
    }

    fn channel_close(
        &mut self,
        channel: ChannelId,
        session: &mut Commands<'_>,
    ) -> Result<(), RecordError<A::Error>> {
        self.notebook.happens(channel, Happening::Close, session)
    }

    fn channel_eof(
        &mut self,
        channel: ChannelId,
        session: &mut Commands<'_>,
    ) -> Result<(), RecordError<A::Error>> {
        self.notebook.happens(channel, Happening::Eof, session)
    }

    fn channel_open_session(
        &mut self,
        channel: ChannelId,
        reply: ChannelOpenHandle,
        session: &mut Commands<'_>,
    ) -> Result<(), RecordError<A::Error>> {
        self.notebook
            .refuses(channel, OpenType::Session, reply, session)
    }

    fn channel_open_x11(
        &mut self,
        channel: ChannelId,
        originator_address: &str,
        originator_port: u32,
        reply: ChannelOpenHandle,
        session: &mut Commands<'_>,
    ) -> Result<(), RecordError<A::Error>> {
        let alloc = self.notebook.alloc();
        match made::x11_type(alloc, originator_address, originator_port) {
            Ok(opening) => self.notebook.refuses(channel, opening, reply, session),
            Err(_) => {
                let _number = reply.into_channel();
                self.notebook.loses()
            }
        }
    }

    fn channel_open_direct_tcpip(
        &mut self,
        channel: ChannelId,
        host_to_connect: &str,
        port_to_connect: u32,
        originator_address: &str,
        originator_port: u32,
        reply: ChannelOpenHandle,
        session: &mut Commands<'_>,
    ) -> Result<(), RecordError<A::Error>> {
        // It is answered by an input of the gateway's own.
        let _number = reply.into_channel();
        let (host, port) = (host_to_connect, port_to_connect);
        let (from, from_port) = (originator_address, originator_port);
        let alloc = self.notebook.alloc();
        match made::direct_tcpip(alloc, host, port, from, from_port) {
            Ok(opening) => self.notebook.hears(Lent::Opens(channel, opening), session),
            Err(_) => self.notebook.loses(),
        }
    }

    fn channel_open_forwarded_tcpip(
        &mut self,
        channel: ChannelId,
        host_to_connect: &str,
        port_to_connect: u32,
        originator_address: &str,
        originator_port: u32,
        reply: ChannelOpenHandle,
        session: &mut Commands<'_>,
    ) -> Result<(), RecordError<A::Error>> {
        let (host, port) = (host_to_connect, port_to_connect);
        let (from, from_port) = (originator_address, originator_port);
        let alloc = self.notebook.alloc();
        match made::forwarded_tcpip(alloc, host, port, from, from_port) {
            Ok(opening) => self.notebook.refuses(channel, opening, reply, session),
            Err(_) => {
                let _number = reply.into_channel();
                self.notebook.loses()
            }
        }
    }

    fn channel_open_direct_streamlocal(
        &mut self,
        channel: ChannelId,
        socket_path: &str,
        reply: ChannelOpenHandle,
        session: &mut Commands<'_>,
    ) -> Result<(), RecordError<A::Error>> {
        match made::direct_streamlocal(self.notebook.alloc(), socket_path) {
            Ok(opening) => self.notebook.refuses(channel, opening, reply, session),
            Err(_) => {
                let _number = reply.into_channel();
                self.notebook.loses()
            }
        }
    }

    fn channel_open_confirmation(
        &mut self,
        id: ChannelId,
        max_packet_size: u32,
        window_size: u32,
        session: &mut Commands<'_>,
    ) -> Result<(), RecordError<A::Error>> {
        let confirmed = Happening::Confirmed {
            max_packet_size,
            window_size,
        };
        self.notebook.happens(id, confirmed, session)
    }

    fn data(
        &mut self,
        channel: ChannelId,
        bytes: &[u8],
        session: &mut Commands<'_>,
    ) -> Result<(), RecordError<A::Error>> {
        match made::data(self.notebook.alloc(), bytes) {
            Ok(data) => self.notebook.happens(channel, data, session),
            Err(_) => self.notebook.loses(),
        }
    }

    fn extended_data(
        &mut self,
        channel: ChannelId,
        code: u32,
        bytes: &[u8],
        session: &mut Commands<'_>,
    ) -> Result<(), RecordError<A::Error>> {
        match made::extended_data(self.notebook.alloc(), code, bytes) {
            Ok(data) => self.notebook.happens(channel, data, session),
            Err(_) => self.notebook.loses(),
        }
    }

    fn window_adjusted(
        &mut self,
        channel: ChannelId,
        new_size: u32,
        session: &mut Commands<'_>,
    ) -> Result<(), RecordError<A::Error>> {
        self.notebook
            .happens(channel, Happening::WindowAdjusted { new_size }, session)
    }

    fn adjust_window(
        &mut self,
        channel: ChannelId,
        current: u32,
    ) -> Result<u32, RecordError<A::Error>> {
        self.notebook.keep(Question::Adjusts { channel, current })?;
        Ok(current)
    }

    fn pty_request(
        &mut self,
        channel: ChannelId,
        term: &str,
        col_width: u32,
        row_height: u32,
        pix_width: u32,
        pix_height: u32,
        modes: &[(Pty, u32)],
        session: &mut Commands<'_>,
    ) -> Result<(), RecordError<A::Error>> {
        let alloc = self.notebook.alloc();
        match made::pty(
            alloc, term, col_width, row_height, pix_width, pix_height, modes,
        ) {
            Ok(request) => self.notebook.fails(channel, request, session),
            Err(_) => self.notebook.loses(),
        }
    }

    fn x11_request(
        &mut self,
        channel: ChannelId,
        single_connection: bool,
        x11_auth_protocol: &str,
        x11_auth_cookie: &str,
        x11_screen_number: u32,
        session: &mut Commands<'_>,
    ) -> Result<(), RecordError<A::Error>> {
        let alloc = self.notebook.alloc();
        match made::x11(
            alloc,
            single_connection,
            x11_auth_protocol,
            x11_auth_cookie,
            x11_screen_number,
        ) {
            Ok(request) => self.notebook.fails(channel, request, session),
            Err(_) => self.notebook.loses(),
        }
    }

    fn env_request(
        &mut self,
        channel: ChannelId,
        variable_name: &str,
        variable_value: &str,
        session: &mut Commands<'_>,
    ) -> Result<(), RecordError<A::Error>> {
        match made::env(self.notebook.alloc(), variable_name, variable_value) {
            Ok(request) => self.notebook.fails(channel, request, session),
            Err(_) => self.notebook.loses(),
        }
    }

    fn shell_request(
        &mut self,
        channel: ChannelId,
        session: &mut Commands<'_>,
    ) -> Result<(), RecordError<A::Error>> {
        self.notebook
            .fails(channel, Happening::ShellRequest, session)
    }

    fn exec_request(
        &mut self,
        channel: ChannelId,
        bytes: &[u8],
        session: &mut Commands<'_>,
    ) -> Result<(), RecordError<A::Error>> {
        match made::exec(self.notebook.alloc(), bytes) {
            Ok(request) => self.notebook.fails(channel, request, session),
            Err(_) => self.notebook.loses(),
        }
    }

    fn subsystem_request(
        &mut self,
        channel: ChannelId,
        name: &str,
        session: &mut Commands<'_>,
    ) -> Result<(), RecordError<A::Error>> {
        match made::subsystem(self.notebook.alloc(), name) {
            Ok(request) => self.notebook.fails(channel, request, session),
            Err(_) => self.notebook.loses(),
        }
    }

    fn window_change_request(
        &mut self,
        channel: ChannelId,
        col_width: u32,
        row_height: u32,
        pix_width: u32,
        pix_height: u32,
        session: &mut Commands<'_>,
    ) -> Result<(), RecordError<A::Error>> {
        let request = Happening::WindowChangeRequest {
            col_width,
            row_height,
            pix_width,
            pix_height,
        };
        self.notebook.fails(channel, request, session)
    }

    fn agent_request(
        &mut self,
        channel: ChannelId,
        session: &mut Commands<'_>,
    ) -> Result<bool, RecordError<A::Error>> {
        self.notebook
            .denies(Judged::AgentRequest { channel }, session)
    }

    fn signal(
        &mut self,
        channel: ChannelId,
        signal: Sig,
        session: &mut Commands<'_>,
    ) -> Result<(), RecordError<A::Error>> {
        self.notebook
            .fails(channel, Happening::Signal { signal }, session)
    }

    fn tcpip_forward(
        &mut self,
        address: &str,
        port: &mut u32,
        _session: &mut Commands<'_>,
    ) -> Result<bool, RecordError<A::Error>> {
        let Ok(address) = Text::new(self.notebook.alloc(), address) else {
            return self.notebook.loses();
        };
        let port = *port;
        self.notebook.keep(Question::Listens { address, port })?;
        Ok(false)
    }

    fn cancel_tcpip_forward(
        &mut self,
        address: &str,
        port: u32,
        session: &mut Commands<'_>,
    ) -> Result<bool, RecordError<A::Error>> {
        match made::cancel_tcpip(self.notebook.alloc(), address, port) {
            Ok(judged) => self.notebook.denies(judged, session),
            Err(_) => self.notebook.loses(),
        }
    }

    fn streamlocal_forward(
        &mut self,
        socket_path: &str,
        session: &mut Commands<'_>,
    ) -> Result<bool, RecordError<A::Error>> {
        match made::streamlocal(self.notebook.alloc(), socket_path) {
            Ok(judged) => self.notebook.denies(judged, session),
            Err(_) => self.notebook.loses(),
        }
    }

    fn cancel_streamlocal_forward(
        &mut self,
        socket_path: &str,
        session: &mut Commands<'_>,
    ) -> Result<bool, RecordError<A::Error>> {
        match made::cancel_streamlocal(self.notebook.alloc(), socket_path) {
            Ok(judged) => self.notebook.denies(judged, session),
            Err(_) => self.notebook.loses(),
        }
    }

    fn command_done(
        &mut self,
        place: usize,
        outcome: CommandOutcome,
    ) -> Result<(), RecordError<A::Error>> {
        self.notebook.keep(Question::Done { place, outcome })
    }
}
