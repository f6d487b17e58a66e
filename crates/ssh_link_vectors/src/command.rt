// Which messages of a channel are commands, and that a copy of a command or of a reply equals it.
use crate::values::{are_equal, equals, filled};
use bytes::Bytes;
use ssh_link::{ChannelMsg, ChannelOpenHandle, Command, Notice};
use ssh_wire::{ChannelId, ChannelOpenFailure, Disconnect, Modes, Pty, Sig, Text, WireError};
use std::alloc::Global;
use std::test::*;

const CHANNEL: ChannelId = ChannelId(2);

fn bytes(alloc: Global) -> Result<Bytes, WireError> {
    Ok(Bytes::copy_from_slice(alloc, b"hello")?)
}

/// Two texts, made one after the other before anything holds one of them.
pub(crate) fn texts(alloc: Global, one: &str, other: &str) -> Result<(Text, Text), WireError> {
    let one = Text::new(alloc, one)?;
    let other = Text::new(alloc, other)?;
    Ok((one, other))
}

// What a server may send.
#[derive(Clone, Copy)]
enum Sent {
    Data,
    ExtendedData,
    Eof,
    Success,
    ExitSignal,
}

fn sent_msg(alloc: Global, sent: Sent) -> Result<ChannelMsg, WireError> {
    Ok(match sent {
        Sent::Data => ChannelMsg::Data {
            bytes: bytes(alloc)?,
        },
        Sent::ExtendedData => ChannelMsg::ExtendedData {
            bytes: bytes(alloc)?,
            ext: 1,
        },
        Sent::Eof => ChannelMsg::Eof,
        Sent::Success => ChannelMsg::Success,
        Sent::ExitSignal => {
            let (error_message, lang_tag) = texts(alloc, "killed", "en")?;
            ChannelMsg::ExitSignal {
                signal_name: Sig::KILL,
                core_dumped: true,
                error_message,
                lang_tag,
            }
        }
    })
}

fn sent_command(alloc: Global, sent: Sent) -> Result<Command, WireError> {
    let channel = CHANNEL;
    Ok(match sent {
        Sent::Data => Command::Data {
            channel,
            bytes: bytes(alloc)?,
        },
        Sent::ExtendedData => Command::ExtendedData {
            channel,
            ext: 1,
            bytes: bytes(alloc)?,
        },
        Sent::Eof => Command::Eof { channel },
        Sent::Success => Command::ChannelSuccess { channel },
        Sent::ExitSignal => {
            let (error_message, language) = texts(alloc, "killed", "en")?;
            Command::ExitSignal {
                channel,
                signal: Sig::KILL,
                core_dumped: true,
                error_message,
                language,
            }
        }
    })
}

fn is_copied(command: Command) -> Result<bool, WireError> {
    let copy = command.copy();
    equals(command, copy)
}

// Whether the message is its command, and a copy of that is equal.
fn is_command(alloc: Global, sent: Sent) -> Result<bool, WireError> {
    let command = Command::from((CHANNEL, sent_msg(alloc, sent)?));
    let is_this = equals(command, sent_command(alloc, sent))?;
    Ok(is_copied(sent_command(alloc, sent)?)? && is_this)
}

static SENT: [(&str, Sent); 5] = [
    ("data", Sent::Data),
    ("extended data", Sent::ExtendedData),
    ("an end of file", Sent::Eof),
    ("a success", Sent::Success),
    ("an exit by a signal", Sent::ExitSignal),
];

#[test]
fn a_message_that_a_server_may_send_is_its_command(rt: HostRuntime) {
    for (shows, sent) in &SENT {
        assert!(rt; is_command(rt.alloc(), *sent) == Ok(true), "{shows}");
    }
}

// What only a client sends.
#[derive(Clone, Copy)]
enum Asked {
    Open,
    OpenFailure,
    Pty,
    Shell,
    Exec,
    Signal,
}

fn push_modes(modes: &mut Modes) -> Result<(), WireError> {
    modes.push((Pty::ECHO, 1))?;
    modes.push((Pty::TTY_OP_ISPEED, 38_400))
}

fn modes(alloc: Global) -> Result<Modes, WireError> {
    let mut modes = Modes::new(alloc);
    let done = push_modes(&mut modes);
    filled(modes, done)
}

fn pty_msg(alloc: Global) -> Result<ChannelMsg, WireError> {
    let terminal_modes = modes(alloc)?;
    let term = Text::new(alloc, "vt100")?;
    Ok(ChannelMsg::RequestPty {
        want_reply: true,
        term,
        col_width: 80,
        row_height: 24,
        pix_width: 640,
        pix_height: 480,
        terminal_modes,
    })
}

fn asked_msg(alloc: Global, asked: Asked) -> Result<ChannelMsg, WireError> {
    Ok(match asked {
        Asked::Open => ChannelMsg::Open {
            id: ChannelId(9),
            max_packet_size: 32_768,
            window_size: 1_048_576,
        },
        Asked::OpenFailure => ChannelMsg::OpenFailure(ChannelOpenFailure::ConnectFailed),
        Asked::Pty => pty_msg(alloc)?,
        Asked::Shell => ChannelMsg::RequestShell { want_reply: true },
        Asked::Exec => ChannelMsg::Exec {
            want_reply: false,
            command: bytes(alloc)?,
        },
        Asked::Signal => ChannelMsg::Signal {
            signal: Sig::Custom(Text::new(alloc, "INFO")?),
        },
    })
}

fn refused(msg: ChannelMsg) -> Command {
    Command::ClientOnly {
        channel: CHANNEL,
        msg,
    }
}

/// Whether a copy of the notice, which is dropped here, equals it.
pub(crate) fn notice_is_copied(notice: Notice) -> Result<bool, WireError> {
    let copy = notice.copy();
    equals(notice, copy)
}

// Whether the message is refused as a command, and a copy of what tells of it is equal.
fn is_refused(alloc: Global, asked: Asked) -> Result<bool, WireError> {
    let command = Command::from((CHANNEL, asked_msg(alloc, asked)?));
    let is_refused = equals(command, asked_msg(alloc, asked).map(refused))?;
    let notice = Notice::Channel(CHANNEL, asked_msg(alloc, asked)?);
    Ok(notice_is_copied(notice)? && is_refused)
}

static ASKED: [(&str, Asked); 6] = [
    ("an open", Asked::Open),
    ("a refusal of an open", Asked::OpenFailure),
    ("a terminal", Asked::Pty),
    ("a shell", Asked::Shell),
    ("a program", Asked::Exec),
    ("a signal", Asked::Signal),
];

#[test]
fn a_message_of_a_client_is_no_server_command(rt: HostRuntime) {
    for (shows, asked) in &ASKED {
        assert!(rt; is_refused(rt.alloc(), *asked) == Ok(true), "{shows}");
    }
}

// Commands that are no message of a channel.
#[derive(Clone, Copy)]
enum Other {
    OpenTcpip,
    OpenStreamlocal,
    Forward,
    Keepalive,
    Disconnect,
    Answer,
}

fn other_command(alloc: Global, other: Other) -> Result<Command, WireError> {
    Ok(match other {
        Other::OpenTcpip => {
            let (host, originator) = texts(alloc, "far", "here")?;
            Command::OpenDirectTcpip {
                host,
                port: 80,
                originator,
                originator_port: 256,
            }
        }
        Other::OpenStreamlocal => Command::OpenForwardedStreamlocal {
            path: Text::new(alloc, "/run/two")?,
        },
        Other::Forward => Command::TcpipForward {
            address: Text::new(alloc, "")?,
            port: 0,
            reply: Some(5),
        },
        Other::Keepalive => Command::Keepalive,
        Other::Disconnect => {
            let (description, language) = texts(alloc, "over", "en")?;
            Command::Disconnect {
                reason: Disconnect::ByApplication,
                description,
                language,
            }
        }
        Other::Answer => Command::Answer(ChannelOpenHandle::new(CHANNEL).reject_default()),
    })
}

// Whether a copy of the command equals it, and an end of file does not.
fn equals_its_copy(alloc: Global, other: Other) -> Result<bool, WireError> {
    let is_copied = is_copied(other_command(alloc, other)?)?;
    let eof = Command::Eof { channel: CHANNEL };
    Ok(!equals(eof, other_command(alloc, other))? && is_copied)
}

static OTHERS: [(&str, Other); 6] = [
    ("an open of a connection", Other::OpenTcpip),
    ("an open to a path", Other::OpenStreamlocal),
    ("a forward", Other::Forward),
    ("a keepalive", Other::Keepalive),
    ("an end", Other::Disconnect),
    ("an answer to an open", Other::Answer),
];

#[test]
fn a_copy_of_a_command_equals_it_and_no_other(rt: HostRuntime) {
    for (shows, other) in &OTHERS {
        assert!(rt; equals_its_copy(rt.alloc(), *other) == Ok(true), "{shows}");
    }
}

fn forwarded() -> Notice {
    Notice::Forwarded {
        slot: 5,
        port: Some(4022),
    }
}

fn cancelled() -> Notice {
    Notice::Cancelled { slot: 6, ok: true }
}

// Whether a reply equals its copy, and no other reply.
fn reply_is_copied() -> Result<bool, WireError> {
    let is_other = are_equal(forwarded(), cancelled());
    Ok(notice_is_copied(forwarded())? && notice_is_copied(cancelled())? && !is_other)
}

#[test]
fn a_copy_of_a_reply_to_a_command_equals_it(rt: HostRuntime) {
    assert!(rt; reply_is_copied() == Ok(true));
}
