// How the lines of a script are written that bring a command, or the answer to an open of the peer.
ghost use Rattle.std.specs.Prelude.{◌≡◌, [], IfOk};
ghost use Rattle.ssh_scene.specs.Grammar.{IsSmallIn, IsChannelIn, Fits, reason_of, data_form};
ghost use Rattle.ssh_scene.specs.Grammar.{ext_form, eof_form, close_form, success_form};
ghost use Rattle.ssh_scene.specs.Grammar.{failure_form, status_form, own_open_form, command_form};
ghost use Rattle.ssh_scene.specs.Grammar.{accept_form, reject_form, forward_form};
ghost use Rattle.ssh_scene.specs.Grammar.{disconnect_of, disconnect_form};

use crate::grammar::{bytes_in, number_in, text_in};
use crate::lines::{InputLine, Line};
use ssh_link::{ChannelOpenHandle, Command};
use ssh_wire::{ChannelId, ChannelOpenFailure, Disconnect, Text};
use std::alloc::{AllocError, Global};

/// The number that the digits write, below 2^32.
pub fn small_in(alloc: Global, digits: &str) -> Result<Option<u32>, AllocError>
    ensures { IfOk result (IsSmallIn digits.now) }
{
    let Some(number) = number_in(alloc, digits)? else {
        return Ok(None);
    };
    match u32::try_from(number) {
        Ok(small) => Ok(Some(small)),
        Err(_) => Ok(None),
    }
}

/// The channel whose number the digits write.
pub fn channel_in(alloc: Global, digits: &str) -> Result<Option<ChannelId>, AllocError>
    ensures { IfOk result (IsChannelIn digits.now) }
{
    Ok(small_in(alloc, digits)?.map(ChannelId))
}

/// The reason to refuse an open that has this code.
fn reason_in(code: u32) -> Option<ChannelOpenFailure>
    ensures { result ≡ reason_of code }
{
    ChannelOpenFailure::from_u32(code)
}

/// The reason to end a connection that has this code.
fn disconnect_in(code: u32) -> Option<Disconnect>
    ensures { result ≡ disconnect_of code }
{
    match code {
        1 => Some(Disconnect::HostNotAllowedToConnect),
        2 => Some(Disconnect::ProtocolError),
        3 => Some(Disconnect::KeyExchangeFailed),
        4 => Some(Disconnect::Reserved),
        5 => Some(Disconnect::MACError),
        6 => Some(Disconnect::CompressionError),
        7 => Some(Disconnect::ServiceNotAvailable),
        8 => Some(Disconnect::ProtocolVersionNotSupported),
        9 => Some(Disconnect::HostKeyNotVerifiable),
        10 => Some(Disconnect::ConnectionLost),
        11 => Some(Disconnect::ByApplication),
        12 => Some(Disconnect::TooManyConnections),
        13 => Some(Disconnect::AuthCancelledByUser),
        14 => Some(Disconnect::NoMoreAuthMethodsAvailable),
        15 => Some(Disconnect::IllegalUserName),
        _ => None,
    }
}

/// The rest of a line `data`: a channel, and bytes.
fn data_line(alloc: Global, rest: &str) -> Result<Option<Line>, AllocError>
    ensures { IfOk result (Fits (data_form rest.now)) }
{
    let Some((number, digits)) = rest.split_once(' ') else {
        return Ok(None);
    };
    let Some(channel) = channel_in(alloc, number)? else {
        return Ok(None);
    };
    let Some(bytes) = bytes_in(alloc, digits)? else {
        return Ok(None);
    };
    let command = Command::Data { channel, bytes };
    Ok(Some(Line::Input(InputLine::Command(command))))
}

/// The rest of a line `ext`: a channel, a data type code, and bytes.
fn ext_line(alloc: Global, rest: &str) -> Result<Option<Line>, AllocError>
    ensures { IfOk result (Fits (ext_form rest.now)) }
{
    let Some((number, rest)) = rest.split_once(' ') else {
        return Ok(None);
    };
    let Some((code, digits)) = rest.split_once(' ') else {
        return Ok(None);
    };
    let Some(channel) = channel_in(alloc, number)? else {
        return Ok(None);
    };
    let Some(ext) = small_in(alloc, code)? else {
        return Ok(None);
    };
    let Some(bytes) = bytes_in(alloc, digits)? else {
        return Ok(None);
    };
    let command = Command::ExtendedData {
        channel,
        ext,
        bytes,
    };
    Ok(Some(Line::Input(InputLine::Command(command))))
}

/// The rest of a line `eof`: a channel.
fn eof_line(alloc: Global, number: &str) -> Result<Option<Line>, AllocError>
    ensures { IfOk result (Fits (eof_form number.now)) }
{
    let Some(channel) = channel_in(alloc, number)? else {
        return Ok(None);
    };
    let command = Command::Eof { channel };
    Ok(Some(Line::Input(InputLine::Command(command))))
}

/// The rest of a line `close`: a channel.
fn close_line(alloc: Global, number: &str) -> Result<Option<Line>, AllocError>
    ensures { IfOk result (Fits (close_form number.now)) }
{
    let Some(channel) = channel_in(alloc, number)? else {
        return Ok(None);
    };
    let command = Command::Close { channel };
    Ok(Some(Line::Input(InputLine::Command(command))))
}

/// The rest of a line `success`: a channel.
fn success_line(alloc: Global, number: &str) -> Result<Option<Line>, AllocError>
    ensures { IfOk result (Fits (success_form number.now)) }
{
    let Some(channel) = channel_in(alloc, number)? else {
        return Ok(None);
    };
    let command = Command::ChannelSuccess { channel };
    Ok(Some(Line::Input(InputLine::Command(command))))
}

/// The rest of a line `failure`: a channel.
fn failure_line(alloc: Global, number: &str) -> Result<Option<Line>, AllocError>
    ensures { IfOk result (Fits (failure_form number.now)) }
{
    let Some(channel) = channel_in(alloc, number)? else {
        return Ok(None);
    };
    let command = Command::ChannelFailure { channel };
    Ok(Some(Line::Input(InputLine::Command(command))))
}

/// The rest of a line `status`: a channel, and the exit status of its program.
fn status_line(alloc: Global, rest: &str) -> Result<Option<Line>, AllocError>
    ensures { IfOk result (Fits (status_form rest.now)) }
{
    let Some((number, digits)) = rest.split_once(' ') else {
        return Ok(None);
    };
    let Some(channel) = channel_in(alloc, number)? else {
        return Ok(None);
    };
    let Some(exit_status) = small_in(alloc, digits)? else {
        return Ok(None);
    };
    let command = Command::ExitStatus {
        channel,
        exit_status,
    };
    Ok(Some(Line::Input(InputLine::Command(command))))
}

/// The rest of a line `open`: the type of the channel.
fn own_open_line(word: &str) -> Option<Line>
    ensures { Fits (own_open_form word.now) result }
{
    match word {
        "session" => Some(Line::Input(InputLine::Command(Command::OpenSession))),
        _ => None,
    }
}

/// The rest of a line `forward`: an address, its port, and the slot of the reply.
fn forward_line(alloc: Global, rest: &str) -> Result<Option<Line>, AllocError>
    ensures { IfOk result (Fits (forward_form rest.now)) }
{
    let Some((digits, rest)) = rest.split_once(' ') else {
        return Ok(None);
    };
    let Some((port, slot)) = rest.split_once(' ') else {
        return Ok(None);
    };
    let Some(port) = small_in(alloc, port)? else {
        return Ok(None);
    };
    let Some(address) = text_in(alloc, digits)? else {
        return Ok(None);
    };
    let Some(slot) = number_in(alloc, slot)? else {
        return Ok(None);
    };
    let command = Command::TcpipForward {
        address,
        port,
        reply: Some(slot),
    };
    Ok(Some(Line::Input(InputLine::Command(command))))
}

/// The language tag of a description whose language is not said.
fn no_language(alloc: Global) -> Result<Text, AllocError>
    ensures { IfOk result (λ language. language ≡ []) }
{
    Text::new(alloc, "").or(Err(AllocError))
}

/// The rest of a line `disconnect`: the code of a reason, and the same in words.
fn disconnect_line(alloc: Global, rest: &str) -> Result<Option<Line>, AllocError>
    ensures { IfOk result (Fits (disconnect_form rest.now)) }
{
    let Some((number, digits)) = rest.split_once(' ') else {
        return Ok(None);
    };
    let Some(code) = small_in(alloc, number)? else {
        return Ok(None);
    };
    let Some(reason) = disconnect_in(code) else {
        return Ok(None);
    };
    let Some(description) = text_in(alloc, digits)? else {
        return Ok(None);
    };
    let command = Command::Disconnect {
        reason,
        description,
        language: no_language(alloc)?,
    };
    Ok(Some(Line::Input(InputLine::Command(command))))
}

/// A line of a command, by its name.
pub(crate) fn command_line(
    alloc: Global,
    word: &str,
    rest: &str,
) -> Result<Option<Line>, AllocError>
    ensures { IfOk result (Fits (command_form word.now rest.now)) }
{
    match word {
        "data" => data_line(alloc, rest),
        "ext" => ext_line(alloc, rest),
        "eof" => eof_line(alloc, rest),
        "close" => close_line(alloc, rest),
        "success" => success_line(alloc, rest),
        "failure" => failure_line(alloc, rest),
        "status" => status_line(alloc, rest),
        "open" => Ok(own_open_line(rest)),
        "forward" => forward_line(alloc, rest),
        "disconnect" => disconnect_line(alloc, rest),
        _ => Ok(None),
    }
}

/// The rest of a line `accept`: a channel.
pub(crate) fn accept_line(alloc: Global, number: &str) -> Result<Option<Line>, AllocError>
    ensures { IfOk result (Fits (accept_form number.now)) }
{
    let Some(channel) = channel_in(alloc, number)? else {
        return Ok(None);
    };
    let answer = ChannelOpenHandle::new(channel).accept();
    Ok(Some(Line::Input(InputLine::Reply(answer))))
}

/// The rest of a line `reject`: a channel, and the code of a reason.
pub(crate) fn reject_line(alloc: Global, rest: &str) -> Result<Option<Line>, AllocError>
    ensures { IfOk result (Fits (reject_form rest.now)) }
{
    let Some((number, digits)) = rest.split_once(' ') else {
        return Ok(None);
    };
    let Some(channel) = channel_in(alloc, number)? else {
        return Ok(None);
    };
    let Some(code) = small_in(alloc, digits)? else {
        return Ok(None);
    };
    let Some(reason) = reason_in(code) else {
        return Ok(None);
    };
    let answer = ChannelOpenHandle::new(channel).reject(reason);
    Ok(Some(Line::Input(InputLine::Reply(answer))))
}
