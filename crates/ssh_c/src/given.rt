// What a caller says with an input, and the commands that it gives, by their numbers.
ghost use Rattle.std.specs.Prelude.{◌≡◌, IfErr};
ghost use Rattle.ssh_c.specs.Codes.{IsUndone};
ghost use Rattle.ssh_c.specs.Commanding.{commanded, data_command as data_of, answered, rejected};
ghost use Rattle.ssh_c.specs.Commanding.{tick};

use crate::codes::{BAD_ARGUMENT, NO_MEMORY};
use bytes::Bytes;
use ssh_auth::Auth;
use ssh_embed::Given;
use ssh_link::{Command, InputKind, OpenAnswer};
use ssh_wire::{ChannelId, ChannelOpenFailure, Disconnect, MethodSet, Sig, Text, WireError};
use std::alloc::Global;
use std::str;

/// What a caller says to a question.
#[derive(Clone, Copy)]
pub(crate) enum Verdict {
    /// The user is refused.
    Refused,
    /// The user is let in.
    LetIn,
    /// The signature holds, and the user is let in.
    SignatureHolds,
    /// It was right, and more is needed (RFC 4252 section 5.1).
    MoreNeeded,
}

impl Verdict {
    /// The verdict of this number; none where there is no such verdict.
    pub(crate) fn of(number: u32) -> Option<Verdict> {
        match number {
            0 => Some(Verdict::Refused),
            1 => Some(Verdict::LetIn),
            2 => Some(Verdict::SignatureHolds),
            3 => Some(Verdict::MoreNeeded),
            _ => None,
        }
    }

    /// What the owner of the connection says by it: behind a refusal these methods can continue.
    pub(crate) fn given(self, methods: MethodSet) -> Given {
        let answer = match self {
            Verdict::LetIn | Verdict::SignatureHolds => Auth::Accept,
            Verdict::Refused | Verdict::MoreNeeded => Auth::Reject {
                proceed_with_methods: Some(methods),
                partial_success: matches!(self, Verdict::MoreNeeded),
            },
        };
        Given {
            answer,
            keys_in_use: false,
        }
    }
}

/// The command to send these bytes: as data, or as data of another type where `ext` is not 0.
pub(crate) fn data_command(channel: u32, ext: u32, bytes: Bytes) -> Command
    ensures { result ≡ data_of channel ext bytes }
{
    let channel = ChannelId(channel);
    if ext == 0 {
        Command::Data { channel, bytes }
    } else {
        Command::ExtendedData {
            channel,
            ext,
            bytes,
        }
    }
}

/// The command of this kind; none where there is no such kind.
pub(crate) fn command_of(kind: u32, channel: u32, number: u32) -> Option<Command>
    ensures { result ≡ commanded kind channel number }
{
    let channel = ChannelId(channel);
    match kind {
        1 => Some(Command::Eof { channel }),
        2 => Some(Command::Close { channel }),
        3 => Some(Command::ChannelSuccess { channel }),
        4 => Some(Command::ChannelFailure { channel }),
        5 => Some(Command::ExitStatus {
            channel,
            exit_status: number,
        }),
        6 => Some(Command::XonXoff {
            channel,
            client_can_do: number != 0,
        }),
        7 => Some(Command::Keepalive),
        _ => None,
    }
}

/// The answer to an open of the peer's on this channel: accepted where `reason` is 0, and else
/// refused for it; none where there is no such reason.
pub(crate) fn answer_of(channel: u32, reason: u32) -> Option<OpenAnswer>
    ensures { result ≡ rejected channel reason }
{
    match reason {
        0 => Some(answer(channel, None)),
        1 => Some(answer(
            channel,
            Some(ChannelOpenFailure::AdministrativelyProhibited),
        )),
        2 => Some(answer(channel, Some(ChannelOpenFailure::ConnectFailed))),
        3 => Some(answer(channel, Some(ChannelOpenFailure::UnknownChannelType))),
        4 => Some(answer(channel, Some(ChannelOpenFailure::ResourceShortage))),
        _ => None,
    }
}

// The answer that accepts the open, or refuses it for this reason.
fn answer(channel: u32, rejection: Option<ChannelOpenFailure>) -> OpenAnswer
    ensures { result ≡ answered channel rejection }
{
    OpenAnswer {
        channel: ChannelId(channel),
        rejection,
        texts: None,
    }
}

/// The tick of this kind, or the end of what comes from the peer; none where there is no such kind.
pub(crate) fn tick_of(kind: u32) -> Option<InputKind>
    ensures { result ≡ tick kind }
{
    match kind {
        1 => Some(InputKind::KeepaliveTick),
        2 => Some(InputKind::InactivityTick),
        3 => Some(InputKind::RekeyTick),
        4 => Some(InputKind::End),
        _ => None,
    }
}

/// The command that tells which signal, by its name without SIG, ended the program on the channel.
/// The error is `NO_MEMORY` or `BAD_ARGUMENT`.
pub(crate) fn exit_signal(
    alloc: Global,
    channel: u32,
    core_dumped: bool,
    name: &[u8],
) -> Result<Command, u32>
    ensures { IfErr result IsUndone }
{
    let Ok(name) = str::from_utf8(name) else {
        return Err(BAD_ARGUMENT);
    };
    let Ok(signal) = Sig::from_name(alloc, name) else {
        return Err(NO_MEMORY);
    };
    let empty = both(Text::new(alloc, ""), Text::new(alloc, ""));
    match both(Ok(signal), empty) {
        Ok((signal, (error_message, language))) => Ok(Command::ExitSignal {
            channel: ChannelId(channel),
            signal,
            core_dumped,
            error_message,
            language,
        }),
        Err(_) => Err(NO_MEMORY),
    }
}

/// The command that ends the connection for the reason of this number, in these words. The error is
/// `NO_MEMORY` or `BAD_ARGUMENT`.
pub(crate) fn disconnect(alloc: Global, reason: u32, description: &[u8]) -> Result<Command, u32>
    ensures { IfErr result IsUndone }
{
    let Some(reason) = disconnect_of(reason) else {
        return Err(BAD_ARGUMENT);
    };
    let Ok(description) = str::from_utf8(description) else {
        return Err(BAD_ARGUMENT);
    };
    match both(Text::new(alloc, description), Text::new(alloc, "")) {
        Ok((description, language)) => Ok(Command::Disconnect {
            reason,
            description,
            language,
        }),
        Err(_) => Err(NO_MEMORY),
    }
}

// Both, or the error of the first that is one.
fn both<A: Drop, B: Drop>(
    first: Result<A, WireError>,
    second: Result<B, WireError>,
) -> Result<(A, B), WireError> {
    match (first, second) {
        (Ok(one), Ok(other)) => Ok((one, other)),
        (Err(e), _) => Err(e),
        (_, Err(e)) => Err(e),
    }
}

// The reason of this number to end a connection (RFC 4253 section 11.1); none where a server has no
// use for it.
fn disconnect_of(number: u32) -> Option<Disconnect> {
    match number {
        1 => Some(Disconnect::HostNotAllowedToConnect),
        2 => Some(Disconnect::ProtocolError),
        7 => Some(Disconnect::ServiceNotAvailable),
        10 => Some(Disconnect::ConnectionLost),
        11 => Some(Disconnect::ByApplication),
        12 => Some(Disconnect::TooManyConnections),
        14 => Some(Disconnect::NoMoreAuthMethodsAvailable),
        15 => Some(Disconnect::IllegalUserName),
        _ => None,
    }
}
