// Messages on a channel, by their names.
use crate::wishes::texts;
use bytes::Bytes;
use ssh_link::ChannelMsg;
use ssh_wire::{ChannelId, ChannelOpenFailure, Modes, Sig, Text, WireError};
use std::alloc::Global;

/// A message on a channel.
#[derive(Clone, Copy)]
pub enum Message {
    Open,
    OpenFailure,
    Data,
    ExtendedData,
    Eof,
    Close,
    Success,
    Failure,
    WindowAdjusted,
    RequestPty,
    RequestShell,
    Exec,
    Signal,
    RequestSubsystem,
    RequestX11,
    SetEnv,
    WindowChange,
    AgentForward,
    XonXoff,
    ExitStatus,
    ExitSignal,
}

/// One of this name. `NoMemory` is the only error.
pub(crate) fn channel_message(alloc: Global, message: Message) -> Result<ChannelMsg, WireError> {
    Ok(match message {
        Message::Data => ChannelMsg::Data {
            bytes: Bytes::from_static(b"hello"),
        },
        Message::ExtendedData => ChannelMsg::ExtendedData {
            bytes: Bytes::from_static(b"hello"),
            ext: 1,
        },
        Message::RequestPty => ChannelMsg::RequestPty {
            want_reply: true,
            term: Text::new(alloc, "vt100")?,
            col_width: 80,
            row_height: 24,
            pix_width: 640,
            pix_height: 480,
            terminal_modes: Modes::new(alloc),
        },
        Message::Exec => ChannelMsg::Exec {
            want_reply: true,
            command: Bytes::from_static(b"ls"),
        },
        Message::RequestSubsystem => ChannelMsg::RequestSubsystem {
            want_reply: true,
            name: Text::new(alloc, "sftp")?,
        },
        other => return message_of_texts(alloc, other),
    })
}

// One with two texts.
fn message_of_texts(alloc: Global, message: Message) -> Result<ChannelMsg, WireError> {
    Ok(match message {
        Message::RequestX11 => {
            let (protocol, cookie) = texts(alloc, "MIT-MAGIC-COOKIE-1", "beef")?;
            ChannelMsg::RequestX11 {
                want_reply: true,
                single_connection: true,
                x11_authentication_protocol: protocol,
                x11_authentication_cookie: cookie,
                x11_screen_number: 0,
            }
        }
        Message::SetEnv => {
            let (variable_name, variable_value) = texts(alloc, "LANG", "C")?;
            ChannelMsg::SetEnv {
                want_reply: true,
                variable_name,
                variable_value,
            }
        }
        Message::ExitSignal => {
            let (error_message, lang_tag) = texts(alloc, "out of memory", "en")?;
            ChannelMsg::ExitSignal {
                signal_name: Sig::KILL,
                core_dumped: true,
                error_message,
                lang_tag,
            }
        }
        other => plain_message(other),
    })
}

// One of numbers alone.
fn plain_message(message: Message) -> ChannelMsg {
    match message {
        Message::Open => ChannelMsg::Open {
            id: ChannelId(9),
            max_packet_size: 32_768,
            window_size: 1_048_576,
        },
        Message::OpenFailure => ChannelMsg::OpenFailure(ChannelOpenFailure::ConnectFailed),
        Message::Eof => ChannelMsg::Eof,
        Message::Close => ChannelMsg::Close,
        Message::Success => ChannelMsg::Success,
        Message::Failure => ChannelMsg::Failure,
        Message::WindowAdjusted => ChannelMsg::WindowAdjusted { new_size: 5 },
        Message::RequestShell => ChannelMsg::RequestShell { want_reply: true },
        Message::Signal => ChannelMsg::Signal { signal: Sig::TERM },
        Message::WindowChange => ChannelMsg::WindowChange {
            col_width: 132,
            row_height: 43,
            pix_width: 1056,
            pix_height: 688,
        },
        Message::AgentForward => ChannelMsg::AgentForward { want_reply: true },
        Message::XonXoff => ChannelMsg::XonXoff {
            client_can_do: true,
        },
        _ => ChannelMsg::ExitStatus { exit_status: 9 },
    }
}
