// What a session tells the users of its channels.
ghost use Rattle.std.specs.Prelude.{◌≡◌, IfOk, IfErr};
ghost use Rattle.ssh_wire.specs.declared.error.WireError.TheVariants.{NoMemory};

use bytes::Bytes;
use ssh_wire::{ChannelId, ChannelOpenFailure, Modes, Sig, Text, WireError};

/// What happened on a channel, as its user is told: data, its end, and the requests with their
/// fields (RFC 4254 sections 5 and 6). Of a request `want_reply` is true wherever the peer wants a
/// reply. Whether one goes out is decided by the peer's flag, so an answer may be given either way.
#[derive(Debug, Drop, PartialEq, Eq)]
pub enum ChannelMsg {
    /// The peer confirmed an open of this side (RFC 4254 section 5.1).
    Open {
        /// The channel.
        id: ChannelId,
        /// The peer's maximum packet size: how many bytes of data one message may have.
        max_packet_size: u32,
        /// How many bytes of data the peer takes at first.
        window_size: u32,
    },
    /// The peer refused an open of this side (RFC 4254 section 5.1).
    OpenFailure(ChannelOpenFailure),
    /// Data (RFC 4254 section 5.2).
    Data {
        /// The bytes, in order.
        bytes: Bytes,
    },
    /// Data of another type (RFC 4254 section 5.2).
    ExtendedData {
        /// The bytes, in order.
        bytes: Bytes,
        /// The data type code; 1 is standard error.
        ext: u32,
    },
    /// The peer sends no more data (RFC 4254 section 5.3).
    Eof,
    /// The peer closed the channel (RFC 4254 section 5.3).
    Close,
    /// For a client, as what a server sends: a request is answered by success (RFC 4254 section
    /// 5.4).
    Success,
    /// For a client, as what a server sends: a request is answered by failure (RFC 4254 section
    /// 5.4).
    Failure,
    /// The peer let more data through (RFC 4254 section 5.2).
    WindowAdjusted {
        /// How many bytes may still be sent.
        new_size: u32,
    },
    /// A terminal is asked for (RFC 4254 section 6.2).
    RequestPty {
        /// Whether the user is to answer: where the peer wants a reply, it is true.
        want_reply: bool,
        /// The terminal's type, as `vt100`.
        term: Text,
        /// Its width in characters.
        col_width: u32,
        /// Its height in rows.
        row_height: u32,
        /// Its width in pixels.
        pix_width: u32,
        /// Its height in pixels.
        pix_height: u32,
        /// Its modes.
        terminal_modes: Modes,
    },
    /// The user's shell is asked for (RFC 4254 section 6.5).
    RequestShell {
        /// Whether the user is to answer: where the peer wants a reply, it is true.
        want_reply: bool,
    },
    /// A program is to be run (RFC 4254 section 6.5).
    Exec {
        /// Whether the user is to answer: where the peer wants a reply, it is true.
        want_reply: bool,
        /// The program and its arguments.
        command: Bytes,
    },
    /// A signal for the program (RFC 4254 section 6.9).
    Signal {
        /// The signal.
        signal: Sig,
    },
    /// A subsystem is asked for (RFC 4254 section 6.5).
    RequestSubsystem {
        /// Whether the user is to answer: where the peer wants a reply, it is true.
        want_reply: bool,
        /// Its name.
        name: Text,
    },
    /// X11 is to be forwarded (RFC 4254 section 6.3.1).
    RequestX11 {
        /// Whether the user is to answer: where the peer wants a reply, it is true.
        want_reply: bool,
        /// Whether for one connection alone.
        single_connection: bool,
        /// How X11 authenticates.
        x11_authentication_protocol: Text,
        /// What it authenticates with.
        x11_authentication_cookie: Text,
        /// The screen.
        x11_screen_number: u32,
    },
    /// A variable of the environment (RFC 4254 section 6.4).
    SetEnv {
        /// Whether the user is to answer: where the peer wants a reply, it is true.
        want_reply: bool,
        /// Its name.
        variable_name: Text,
        /// Its value.
        variable_value: Text,
    },
    /// The terminal has another size (RFC 4254 section 6.7).
    WindowChange {
        /// Its width in characters.
        col_width: u32,
        /// Its height in rows.
        row_height: u32,
        /// Its width in pixels.
        pix_width: u32,
        /// Its height in pixels.
        pix_height: u32,
    },
    /// The peer asks that its agent may be reached from here (OpenSSH's
    /// `auth-agent-req@openssh.com`).
    AgentForward {
        /// Whether the user is to answer: where the peer wants a reply, it is true.
        want_reply: bool,
    },
    /// For a client, as what a server sends: whether the client may do the flow control itself (RFC
    /// 4254 section 6.8).
    XonXoff {
        /// Whether it may.
        client_can_do: bool,
    },
    /// For a client, as what a server sends: how the program ended (RFC 4254 section 6.10).
    ExitStatus {
        /// Its exit status.
        exit_status: u32,
    },
    /// For a client, as what a server sends: which signal ended the program (RFC 4254 section 6.10).
    ExitSignal {
        /// The signal.
        signal_name: Sig,
        /// Whether its memory was written out.
        core_dumped: bool,
        /// What happened, for people.
        error_message: Text,
        /// The language tag of that text.
        lang_tag: Text,
    },
}

impl ChannelMsg {
    /// An equal message. `NoMemory` is the only error.
    pub fn copy(&self) -> Result<ChannelMsg, WireError>
        ensures ok { IfOk result (λ msg. msg ≡ self.now) }
        ensures memory { IfErr result (λ e. e ≡ NoMemory) }
    {
        match self {
            ChannelMsg::Open {
                id,
                max_packet_size,
                window_size,
            } => Ok(ChannelMsg::Open {
                id: *id,
                max_packet_size: *max_packet_size,
                window_size: *window_size,
            }),
            ChannelMsg::OpenFailure(reason) => Ok(ChannelMsg::OpenFailure(*reason)),
            ChannelMsg::Data { bytes } => Ok(ChannelMsg::Data {
                bytes: bytes.clone()?,
            }),
            ChannelMsg::ExtendedData { bytes, ext } => Ok(ChannelMsg::ExtendedData {
                bytes: bytes.clone()?,
                ext: *ext,
            }),
            ChannelMsg::Eof => Ok(ChannelMsg::Eof),
            ChannelMsg::Close => Ok(ChannelMsg::Close),
            ChannelMsg::Success => Ok(ChannelMsg::Success),
            ChannelMsg::Failure => Ok(ChannelMsg::Failure),
            ChannelMsg::WindowAdjusted { new_size } => Ok(ChannelMsg::WindowAdjusted {
                new_size: *new_size,
            }),
            ChannelMsg::RequestPty {
                want_reply,
                term,
                col_width,
                row_height,
                pix_width,
                pix_height,
                terminal_modes,
            } => Ok(ChannelMsg::RequestPty {
                want_reply: *want_reply,
                term: term.copy()?,
                col_width: *col_width,
                row_height: *row_height,
                pix_width: *pix_width,
                pix_height: *pix_height,
                terminal_modes: terminal_modes.copy()?,
            }),
            ChannelMsg::RequestShell { want_reply } => Ok(ChannelMsg::RequestShell {
                want_reply: *want_reply,
            }),
            ChannelMsg::Exec {
                want_reply,
                command,
            } => Ok(ChannelMsg::Exec {
                want_reply: *want_reply,
                command: command.clone()?,
            }),
            ChannelMsg::Signal { signal } => Ok(ChannelMsg::Signal {
                signal: signal.copy()?,
            }),
            ChannelMsg::RequestSubsystem { want_reply, name } => Ok(ChannelMsg::RequestSubsystem {
                want_reply: *want_reply,
                name: name.copy()?,
            }),
            ChannelMsg::RequestX11 {
                want_reply,
                single_connection,
                x11_authentication_protocol,
                x11_authentication_cookie,
                x11_screen_number,
            } => Ok(ChannelMsg::RequestX11 {
                want_reply: *want_reply,
                single_connection: *single_connection,
                x11_authentication_protocol: x11_authentication_protocol.copy()?,
                x11_authentication_cookie: x11_authentication_cookie.copy()?,
                x11_screen_number: *x11_screen_number,
            }),
            ChannelMsg::SetEnv {
                want_reply,
                variable_name,
                variable_value,
            } => Ok(ChannelMsg::SetEnv {
                want_reply: *want_reply,
                variable_name: variable_name.copy()?,
                variable_value: variable_value.copy()?,
            }),
            ChannelMsg::WindowChange {
                col_width,
                row_height,
                pix_width,
                pix_height,
            } => Ok(ChannelMsg::WindowChange {
                col_width: *col_width,
                row_height: *row_height,
                pix_width: *pix_width,
                pix_height: *pix_height,
            }),
            ChannelMsg::AgentForward { want_reply } => Ok(ChannelMsg::AgentForward {
                want_reply: *want_reply,
            }),
            ChannelMsg::XonXoff { client_can_do } => Ok(ChannelMsg::XonXoff {
                client_can_do: *client_can_do,
            }),
            ChannelMsg::ExitStatus { exit_status } => Ok(ChannelMsg::ExitStatus {
                exit_status: *exit_status,
            }),
            ChannelMsg::ExitSignal {
                signal_name,
                core_dumped,
                error_message,
                lang_tag,
            } => Ok(ChannelMsg::ExitSignal {
                signal_name: signal_name.copy()?,
                core_dumped: *core_dumped,
                error_message: error_message.copy()?,
                lang_tag: lang_tag.copy()?,
            }),
        }
    }
}

/// What a session tells the users of its channels. Channels go by this side's numbers; a slot is
/// the number that a command gave for its reply.
#[derive(Debug, Drop, PartialEq, Eq)]
pub enum Notice {
    /// Something happened on the channel.
    Channel(ChannelId, ChannelMsg),
    /// The peer raised the window of the channel (RFC 4254 section 5.2).
    Granted {
        /// The channel.
        channel: ChannelId,
        /// By how many bytes.
        amount: u32,
    },
    /// The channel is open, and may be used (RFC 4254 section 5.1).
    Ready {
        /// The channel.
        channel: ChannelId,
        /// How many bytes of data the peer takes at first.
        window: u32,
        /// The peer's maximum packet size: how many bytes of data one message may have.
        packet: u32,
    },
    /// The peer answered whether it forwards connections to an address (RFC 4254 section 7.1).
    Forwarded {
        /// The slot of the command.
        slot: u64,
        /// The port that it listens at; none where it does not.
        port: Option<u32>,
    },
    /// The peer answered whether it forwards them no longer (RFC 4254 section 7.1).
    Cancelled {
        /// The slot of the command.
        slot: u64,
        /// Whether it does so.
        ok: bool,
    },
    /// The peer answered a request for a sign of life (RFC 4254 section 4,
    /// `keepalive@openssh.com`).
    Pong {
        /// The slot of the command.
        slot: u64,
    },
}

impl Notice {
    /// An equal notice. `NoMemory` is the only error.
    pub fn copy(&self) -> Result<Notice, WireError>
        ensures ok { IfOk result (λ notice. notice ≡ self.now) }
        ensures memory { IfErr result (λ e. e ≡ NoMemory) }
    {
        match self {
            Notice::Channel(channel, msg) => Ok(Notice::Channel(*channel, msg.copy()?)),
            Notice::Granted { channel, amount } => Ok(Notice::Granted {
                channel: *channel,
                amount: *amount,
            }),
            Notice::Ready {
                channel,
                window,
                packet,
            } => Ok(Notice::Ready {
                channel: *channel,
                window: *window,
                packet: *packet,
            }),
            Notice::Forwarded { slot, port } => Ok(Notice::Forwarded {
                slot: *slot,
                port: *port,
            }),
            Notice::Cancelled { slot, ok } => Ok(Notice::Cancelled {
                slot: *slot,
                ok: *ok,
            }),
            Notice::Pong { slot } => Ok(Notice::Pong { slot: *slot }),
        }
    }
}
