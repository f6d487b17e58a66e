// What a handler is told and asked, by plain values.
use bytes::Bytes;
use ssh_auth::{Happening, Judged, Lent, OpenType};
use ssh_wire::{ChannelId, Modes, Sig, Text, WireError};
use std::alloc::Global;

/// This side's number of the channel that each is about.
pub(crate) const CHANNEL: ChannelId = ChannelId(2);

/// What a callback is told that answers nothing but an error.
#[derive(Clone, Copy)]
pub(crate) enum Event {
    Succeeded,
    Session,
    X11,
    DirectTcpip,
    ForwardedTcpip,
    DirectStreamlocal,
    Confirmed,
    Data,
    ExtendedData,
    Granted,
    Eof,
    Close,
    Terminal,
    X11Request,
    Variable,
    Shell,
    Program,
    Subsystem,
    TerminalSize,
    Signal,
}

/// What a callback is asked to grant.
#[derive(Clone, Copy)]
pub(crate) enum Asked {
    Agent,
    CancelTcpip,
    Streamlocal,
    CancelStreamlocal,
}

/// Two texts, made one after the other before anything holds one of them.
pub(crate) fn texts(alloc: Global, one: &str, other: &str) -> Result<(Text, Text), WireError> {
    let one = Text::new(alloc, one)?;
    let other = Text::new(alloc, other)?;
    Ok((one, other))
}

fn opened(alloc: Global, event: Event) -> Result<OpenType, WireError> {
    Ok(match event {
        Event::X11 => OpenType::X11 {
            originator_address: Text::new(alloc, "here")?,
            originator_port: 6000,
        },
        Event::DirectTcpip => {
            let (host_to_connect, originator_address) = texts(alloc, "there", "here")?;
            OpenType::DirectTcpip {
                host_to_connect,
                port_to_connect: 80,
                originator_address,
                originator_port: 1024,
            }
        }
        Event::ForwardedTcpip => {
            let (host_to_connect, originator_address) = texts(alloc, "there", "here")?;
            OpenType::ForwardedTcpip {
                host_to_connect,
                port_to_connect: 80,
                originator_address,
                originator_port: 1024,
            }
        }
        Event::DirectStreamlocal => OpenType::DirectStreamlocal {
            socket_path: Text::new(alloc, "/run/there")?,
        },
        _ => OpenType::Session,
    })
}

// A request with texts.
fn requested(alloc: Global, event: Event) -> Result<Happening, WireError> {
    Ok(match event {
        Event::Terminal => Happening::PtyRequest {
            term: Text::new(alloc, "vt100")?,
            col_width: 80,
            row_height: 24,
            pix_width: 0,
            pix_height: 0,
            modes: Modes::new(alloc),
        },
        Event::X11Request => {
            let (x11_auth_protocol, x11_auth_cookie) = texts(alloc, "MIT-MAGIC-COOKIE-1", "00")?;
            Happening::X11Request {
                single_connection: true,
                x11_auth_protocol,
                x11_auth_cookie,
                x11_screen_number: 0,
            }
        }
        Event::Variable => {
            let (variable_name, variable_value) = texts(alloc, "LANG", "C")?;
            Happening::EnvRequest {
                variable_name,
                variable_value,
            }
        }
        Event::Subsystem => Happening::SubsystemRequest {
            name: Text::new(alloc, "sftp")?,
        },
        _ => Happening::ShellRequest,
    })
}

fn happened(alloc: Global, event: Event) -> Result<Happening, WireError> {
    Ok(match event {
        Event::Confirmed => Happening::Confirmed {
            max_packet_size: 32_768,
            window_size: 1_048_576,
        },
        Event::Data => Happening::Data {
            bytes: Bytes::from_static(b"abc"),
        },
        Event::ExtendedData => Happening::ExtendedData {
            code: 1,
            bytes: Bytes::from_static(b"abc"),
        },
        Event::Granted => Happening::WindowAdjusted { new_size: 5 },
        Event::Eof => Happening::Eof,
        Event::Close => Happening::Close,
        Event::Program => Happening::ExecRequest {
            bytes: Bytes::from_static(b"ls"),
        },
        Event::TerminalSize => Happening::WindowChangeRequest {
            col_width: 132,
            row_height: 50,
            pix_width: 0,
            pix_height: 0,
        },
        Event::Signal => Happening::Signal { signal: Sig::HUP },
        other => requested(alloc, other)?,
    })
}

/// What the event tells. `NoMemory` is the only error.
pub(crate) fn lent(alloc: Global, event: Event) -> Result<Lent, WireError> {
    Ok(match event {
        Event::Succeeded => Lent::Succeeded,
        Event::Session
        | Event::X11
        | Event::DirectTcpip
        | Event::ForwardedTcpip
        | Event::DirectStreamlocal => Lent::Opens(CHANNEL, opened(alloc, event)?),
        other => Lent::Happened(CHANNEL, happened(alloc, other)?),
    })
}

/// What is asked. `NoMemory` is the only error.
pub(crate) fn judged(alloc: Global, asked: Asked) -> Result<Judged, WireError> {
    Ok(match asked {
        Asked::Agent => Judged::AgentRequest { channel: CHANNEL },
        Asked::CancelTcpip => Judged::CancelTcpipForward {
            address: Text::new(alloc, "here")?,
            port: 22,
        },
        Asked::Streamlocal => Judged::StreamlocalForward {
            socket_path: Text::new(alloc, "/run/here")?,
        },
        Asked::CancelStreamlocal => Judged::CancelStreamlocalForward {
            socket_path: Text::new(alloc, "/run/here")?,
        },
    })
}
