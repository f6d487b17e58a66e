// A handler that fails.
use crate::events::texts;
use ssh_auth::{
    Auth, AuthHandler, Prompts, PublicKeyOffer, Response, Unwritten, VerifiedPublicKey,
};
use ssh_handler::{Commands, Handler};
use ssh_keys::Certificate;
use ssh_link::{ChannelOpenHandle, CommandOutcome};
use ssh_wire::{ChannelId, Pty, Sig, Text, WireError};
use std::alloc::Global;

/// The callback that failed. It counts the window of the config that it was lent, or what it was
/// told in its place, and 0 where it was told no number.
#[derive(Clone, Copy, Drop, PartialEq, Eq)]
pub(crate) struct Failed(pub(crate) &'static str, pub(crate) u32);

/// It lets anna in by method none, and everybody by the code 1234. Each other callback fails.
#[derive(Drop)]
pub(crate) struct Failing {
    pub(crate) alloc: Global,
}

// Of a callback that is lent commands.
fn fails<T>(callback: &'static str, session: &Commands<'_>) -> Result<T, Failed> {
    Err(Failed(callback, session.config().window_size))
}

fn code(alloc: Global) -> Result<Prompts, WireError> {
    let text = Text::new(alloc, "Code: ")?;
    let mut prompts = Prompts::new(alloc);
    prompts.push(text, false)?;
    Ok(prompts)
}

/// Asks for a code, which is not shown.
pub(crate) fn prompt(alloc: Global) -> Result<Auth, WireError> {
    let prompts = code(alloc)?;
    let (name, instructions) = texts(alloc, "", "")?;
    Ok(Auth::Partial {
        name,
        instructions,
        prompts,
    })
}

impl AuthHandler for Failing {
    type Error = Failed;

    fn untold(&mut self, _by: Unwritten) -> Result<(), Failed> {
        Err(Failed("untold", 0))
    }

    fn authentication_banner(&mut self) -> Result<Option<Text>, Failed> {
        Err(Failed("authentication_banner", 0))
    }

    fn auth_none(&mut self, user: &str) -> Result<Auth, Failed> {
        if user == "anna" {
            Ok(Auth::Accept)
        } else {
            Ok(Auth::reject())
        }
    }

    fn auth_password(&mut self, _user: &str, _password: &str) -> Result<Auth, Failed> {
        Err(Failed("auth_password", 0))
    }

    fn auth_publickey_offered(
        &mut self,
        _user: &str,
        _offer: PublicKeyOffer<'_>,
    ) -> Result<Auth, Failed> {
        Err(Failed("auth_publickey_offered", 0))
    }

    fn auth_publickey(&mut self, _user: &str, _key: VerifiedPublicKey<'_>) -> Result<Auth, Failed> {
        Err(Failed("auth_publickey", 0))
    }

    fn auth_openssh_certificate(
        &mut self,
        _user: &str,
        _certificate: &Certificate,
    ) -> Result<Auth, Failed> {
        Err(Failed("auth_openssh_certificate", 0))
    }

    fn auth_keyboard_interactive(
        &mut self,
        _user: &str,
        _submethods: &str,
        response: Option<Response<'_>>,
    ) -> Result<Auth, Failed> {
        let Some(mut response) = response else {
            return prompt(self.alloc).or(Err(Failed("prompt", 0)));
        };
        match (response.next(), response.next()) {
            (Some(b"1234"), None) => Ok(Auth::Accept),
            _ => Ok(Auth::reject()),
        }
    }
}

impl Handler for Failing {
    fn auth_succeeded(&mut self, session: &mut Commands<'_>) -> Result<(), Failed> {
        fails("auth_succeeded", session)
    }

    fn channel_close(
        &mut self,
        _channel: ChannelId,
        session: &mut Commands<'_>,
    ) -> Result<(), Failed> {
        fails("channel_close", session)
    }

    fn channel_eof(
        &mut self,
        _channel: ChannelId,
        session: &mut Commands<'_>,
    ) -> Result<(), Failed> {
        fails("channel_eof", session)
    }

    fn channel_open_session(
        &mut self,
        _channel: ChannelId,
        reply: ChannelOpenHandle,
        session: &mut Commands<'_>,
    ) -> Result<(), Failed> {
        let _number = reply.into_channel();
        fails("channel_open_session", session)
    }

    fn channel_open_x11(
        &mut self,
        _channel: ChannelId,
        _originator_address: &str,
        _originator_port: u32,
        reply: ChannelOpenHandle,
        session: &mut Commands<'_>,
    ) -> Result<(), Failed> {
        let _number = reply.into_channel();
        fails("channel_open_x11", session)
    }

    fn channel_open_direct_tcpip(
        &mut self,
        _channel: ChannelId,
        _host_to_connect: &str,
        _port_to_connect: u32,
        _originator_address: &str,
        _originator_port: u32,
        reply: ChannelOpenHandle,
        session: &mut Commands<'_>,
    ) -> Result<(), Failed> {
        let _number = reply.into_channel();
        fails("channel_open_direct_tcpip", session)
    }

    fn channel_open_forwarded_tcpip(
        &mut self,
        _channel: ChannelId,
        _host_to_connect: &str,
        _port_to_connect: u32,
        _originator_address: &str,
        _originator_port: u32,
        reply: ChannelOpenHandle,
        session: &mut Commands<'_>,
    ) -> Result<(), Failed> {
        let _number = reply.into_channel();
        fails("channel_open_forwarded_tcpip", session)
    }

    fn channel_open_direct_streamlocal(
        &mut self,
        _channel: ChannelId,
        _socket_path: &str,
        reply: ChannelOpenHandle,
        session: &mut Commands<'_>,
    ) -> Result<(), Failed> {
        let _number = reply.into_channel();
        fails("channel_open_direct_streamlocal", session)
    }

    fn channel_open_confirmation(
        &mut self,
        _id: ChannelId,
        _max_packet_size: u32,
        _window_size: u32,
        session: &mut Commands<'_>,
    ) -> Result<(), Failed> {
        fails("channel_open_confirmation", session)
    }

    fn data(
        &mut self,
        _channel: ChannelId,
        _bytes: &[u8],
        session: &mut Commands<'_>,
    ) -> Result<(), Failed> {
        fails("data", session)
    }

    fn extended_data(
        &mut self,
        _channel: ChannelId,
        _code: u32,
        _bytes: &[u8],
        session: &mut Commands<'_>,
    ) -> Result<(), Failed> {
        fails("extended_data", session)
    }

    fn window_adjusted(
        &mut self,
        _channel: ChannelId,
        _new_size: u32,
        session: &mut Commands<'_>,
    ) -> Result<(), Failed> {
        fails("window_adjusted", session)
    }

    fn pty_request(
        &mut self,
        _channel: ChannelId,
        _term: &str,
        _col_width: u32,
        _row_height: u32,
        _pix_width: u32,
        _pix_height: u32,
        _modes: &[(Pty, u32)],
        session: &mut Commands<'_>,
    ) -> Result<(), Failed> {
        fails("pty_request", session)
    }

    fn x11_request(
        &mut self,
        _channel: ChannelId,
        _single_connection: bool,
        _x11_auth_protocol: &str,
        _x11_auth_cookie: &str,
        _x11_screen_number: u32,
        session: &mut Commands<'_>,
    ) -> Result<(), Failed> {
        fails("x11_request", session)
    }

    fn env_request(
        &mut self,
        _channel: ChannelId,
        _variable_name: &str,
        _variable_value: &str,
        session: &mut Commands<'_>,
    ) -> Result<(), Failed> {
        fails("env_request", session)
    }

    fn shell_request(
        &mut self,
        _channel: ChannelId,
        session: &mut Commands<'_>,
    ) -> Result<(), Failed> {
        fails("shell_request", session)
    }

    fn exec_request(
        &mut self,
        _channel: ChannelId,
        _bytes: &[u8],
        session: &mut Commands<'_>,
    ) -> Result<(), Failed> {
        fails("exec_request", session)
    }

    fn subsystem_request(
        &mut self,
        _channel: ChannelId,
        _name: &str,
        session: &mut Commands<'_>,
    ) -> Result<(), Failed> {
        fails("subsystem_request", session)
    }

    fn window_change_request(
        &mut self,
        _channel: ChannelId,
        _col_width: u32,
        _row_height: u32,
        _pix_width: u32,
        _pix_height: u32,
        session: &mut Commands<'_>,
    ) -> Result<(), Failed> {
        fails("window_change_request", session)
    }

    fn signal(
        &mut self,
        _channel: ChannelId,
        _signal: Sig,
        session: &mut Commands<'_>,
    ) -> Result<(), Failed> {
        fails("signal", session)
    }

    fn agent_request(
        &mut self,
        _channel: ChannelId,
        session: &mut Commands<'_>,
    ) -> Result<bool, Failed> {
        fails("agent_request", session)
    }

    fn tcpip_forward(
        &mut self,
        _address: &str,
        port: &mut u32,
        session: &mut Commands<'_>,
    ) -> Result<bool, Failed> {
        *port = 2022;
        fails("tcpip_forward", session)
    }

    fn cancel_tcpip_forward(
        &mut self,
        _address: &str,
        _port: u32,
        session: &mut Commands<'_>,
    ) -> Result<bool, Failed> {
        fails("cancel_tcpip_forward", session)
    }

    fn streamlocal_forward(
        &mut self,
        _socket_path: &str,
        session: &mut Commands<'_>,
    ) -> Result<bool, Failed> {
        fails("streamlocal_forward", session)
    }

    fn cancel_streamlocal_forward(
        &mut self,
        _socket_path: &str,
        session: &mut Commands<'_>,
    ) -> Result<bool, Failed> {
        fails("cancel_streamlocal_forward", session)
    }

    fn adjust_window(&mut self, _channel: ChannelId, current: u32) -> Result<u32, Failed> {
        Err(Failed("adjust_window", current))
    }

    fn command_done(&mut self, place: usize, _outcome: CommandOutcome) -> Result<(), Failed> {
        Err(Failed("command_done", u32::try_from(place).unwrap_or(0)))
    }
}
