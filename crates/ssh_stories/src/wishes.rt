// What is asked of a session, by plain values, and the commands that it means.
use crate::messages::{Message, channel_message};
use bytes::Bytes;
use ssh_link::Command;
use ssh_wire::{ChannelId, Disconnect, Sig, Text, WireError};
use std::alloc::Global;

/// What is asked of a session. Channels go by this side's numbers.
#[derive(Clone, Copy)]
pub enum Wish {
    Data(u32, &'static [u8]),
    /// With the data type code before the bytes.
    ExtendedData(u32, u32, &'static [u8]),
    Eof(u32),
    Close(u32),
    ChannelSuccess(u32),
    ChannelFailure(u32),
    /// Whether the client may do it.
    FlowControl(u32, bool),
    Status(u32, u32),
    /// A signal ended the program: whether it was SIGKILL with a core, or else SIGHUP without one;
    /// the text for people and its language.
    Signalled(u32, bool, &'static str, &'static str),
    OpenSession,
    OpenAgent,
    /// A host and its port, and the originator's.
    OpenDirectTcpip(&'static str, u32, &'static str, u32),
    OpenForwardedTcpip(&'static str, u32, &'static str, u32),
    OpenDirectStreamlocal(&'static str),
    OpenForwardedStreamlocal(&'static str),
    OpenX11(&'static str, u32),
    /// An address, a port and the slot of the reply.
    Forward(&'static str, u32, Option<u64>),
    Cancel(&'static str, u32, Option<u64>),
    Keepalive,
    /// Under this slot.
    Ping(u64),
    Success,
    Failure,
    /// Whether it is always to be shown, the text and its language.
    Debug(bool, &'static str, &'static str),
    /// Why, the same in words and their language.
    Disconnect(Disconnect, &'static str, &'static str),
    /// The command that a message on a channel means.
    Means(u32, Message),
    /// The command of one that only a client sends, with this message.
    OfClient(u32, Message),
}

/// Two texts, made one after the other before anything holds one of them.
pub(crate) fn texts(alloc: Global, one: &str, other: &str) -> Result<(Text, Text), WireError> {
    let one = Text::new(alloc, one)?;
    let other = Text::new(alloc, other)?;
    Ok((one, other))
}

/// The signal that ended a program.
pub(crate) fn signal(is_killed: bool) -> Sig {
    if is_killed { Sig::KILL } else { Sig::HUP }
}

/// The command. `NoMemory` is the only error.
pub fn command(alloc: Global, wish: Wish) -> Result<Command, WireError> {
    Ok(match wish {
        Wish::Data(channel, bytes) => Command::Data {
            channel: ChannelId(channel),
            bytes: Bytes::copy_from_slice(alloc, bytes)?,
        },
        Wish::ExtendedData(channel, ext, bytes) => Command::ExtendedData {
            channel: ChannelId(channel),
            ext,
            bytes: Bytes::copy_from_slice(alloc, bytes)?,
        },
        Wish::Means(channel, meant) => {
            Command::from((ChannelId(channel), channel_message(alloc, meant)?))
        }
        Wish::OfClient(channel, meant) => Command::ClientOnly {
            channel: ChannelId(channel),
            msg: channel_message(alloc, meant)?,
        },
        other => return command_of_text(alloc, other),
    })
}

// One with a text.
fn command_of_text(alloc: Global, wish: Wish) -> Result<Command, WireError> {
    Ok(match wish {
        Wish::OpenDirectStreamlocal(path) => Command::OpenDirectStreamlocal {
            path: Text::new(alloc, path)?,
        },
        Wish::OpenForwardedStreamlocal(path) => Command::OpenForwardedStreamlocal {
            path: Text::new(alloc, path)?,
        },
        Wish::OpenX11(originator, originator_port) => Command::OpenX11 {
            originator: Text::new(alloc, originator)?,
            originator_port,
        },
        Wish::Forward(address, port, reply) => Command::TcpipForward {
            address: Text::new(alloc, address)?,
            port,
            reply,
        },
        Wish::Cancel(address, port, reply) => Command::CancelTcpipForward {
            address: Text::new(alloc, address)?,
            port,
            reply,
        },
        other => return command_of_texts(alloc, other),
    })
}

// One with two texts.
fn command_of_texts(alloc: Global, wish: Wish) -> Result<Command, WireError> {
    Ok(match wish {
        Wish::Signalled(channel, is_killed, message, language) => {
            let (error_message, language) = texts(alloc, message, language)?;
            Command::ExitSignal {
                channel: ChannelId(channel),
                signal: signal(is_killed),
                core_dumped: is_killed,
                error_message,
                language,
            }
        }
        Wish::OpenDirectTcpip(host, port, originator, originator_port) => {
            let (host, originator) = texts(alloc, host, originator)?;
            Command::OpenDirectTcpip {
                host,
                port,
                originator,
                originator_port,
            }
        }
        Wish::OpenForwardedTcpip(host, port, originator, originator_port) => {
            let (host, originator) = texts(alloc, host, originator)?;
            Command::OpenForwardedTcpip {
                host,
                port,
                originator,
                originator_port,
            }
        }
        Wish::Debug(always_display, message, language) => {
            let (message, language) = texts(alloc, message, language)?;
            Command::Debug {
                always_display,
                message,
                language,
            }
        }
        Wish::Disconnect(reason, description, language) => {
            let (description, language) = texts(alloc, description, language)?;
            Command::Disconnect {
                reason,
                description,
                language,
            }
        }
        other => plain_command(other),
    })
}

// One of numbers alone.
fn plain_command(wish: Wish) -> Command {
    match wish {
        Wish::Eof(channel) => Command::Eof {
            channel: ChannelId(channel),
        },
        Wish::Close(channel) => Command::Close {
            channel: ChannelId(channel),
        },
        Wish::ChannelSuccess(channel) => Command::ChannelSuccess {
            channel: ChannelId(channel),
        },
        Wish::ChannelFailure(channel) => Command::ChannelFailure {
            channel: ChannelId(channel),
        },
        Wish::FlowControl(channel, client_can_do) => Command::XonXoff {
            channel: ChannelId(channel),
            client_can_do,
        },
        Wish::Status(channel, exit_status) => Command::ExitStatus {
            channel: ChannelId(channel),
            exit_status,
        },
        Wish::OpenAgent => Command::OpenAgent,
        Wish::Keepalive => Command::Keepalive,
        Wish::Ping(slot) => Command::Ping { slot },
        Wish::Success => Command::RequestSuccess,
        Wish::Failure => Command::RequestFailure,
        _ => Command::OpenSession,
    }
}
