// How a callback or a notice is printed: its name, and its arguments.
ghost use Rattle.std.specs.Prelude.{◌≡◌, ◌++◌, codes, map, flat_map, IfOk, OnOk};
ghost use Rattle.std.specs.String.{string_bytes};
ghost use Rattle.ssh_keys.specs.Keys.{key_blob};
ghost use Rattle.ssh_transcript.specs.Words.{hex_word, flag_text, mode_text, later_mode, modes_text};
ghost use Rattle.ssh_transcript.specs.Words.{response_text, outcome_text, word_text, word_of};
ghost use Rattle.ssh_transcript.specs.Words.{named_by, named_text};

use crate::print::{print_field, print_hex};
use crate::print_notice::print_outcome;
use bytes::Bytes;
use ssh_keys::PublicKey;
use ssh_link::CommandOutcome;
use ssh_wire::{Blobs, ChannelOpenFailure, Modes, Pty, Sig, Text};
use std::alloc::{AllocError, Global};

/// An argument of a callback, or a field of a notice, as it is printed.
#[derive(Clone, Copy)]
pub(crate) enum Argument<'a> {
    /// In decimal.
    Number(u64),
    /// Its code.
    Reason(ChannelOpenFailure),
    /// In hex, and `-` for none.
    Bytes(&'a Bytes),
    /// In hex, and `-` for an empty one.
    Text(&'a Text),
    /// Its blob in hex.
    Key(&'a PublicKey),
    /// Its name in hex.
    Signal(&'a Sig),
    /// 1 or 0.
    Flag(bool),
    /// As it is.
    Name(&'a str),
    /// Each its code and its value, joined by commas, and `-` for none.
    Modes(&'a Modes),
    /// Each in hex, and `none` where nothing was prompted for yet.
    Responses(&'a Option<Blobs>),
    /// As in the trace.
    Came(CommandOutcome),
}

/// What is printed of a callback or a notice.
#[derive(Drop)]
pub(crate) struct Said<'a> {
    /// Its name.
    pub(crate) name: &'static str,
    /// Its arguments, in order.
    pub(crate) arguments: Vec<Argument<'a>>,
}

/// This name, with these arguments.
pub(crate) fn says<'a>(
    alloc: Global,
    name: &'static str,
    arguments: &[Argument<'a>],
) -> Result<Said<'a>, AllocError>
    ensures { IfOk result (λ said. named_by said ≡ (name.now, map word_of arguments.now)) }
{
    let mut copies = Vec::new(alloc);
    for argument in arguments {
        copies.push(*argument)?;
    }
    Ok(Said {
        name,
        arguments: copies,
    })
}

/// The blob of a key. One that was read from a payload has no field that is too long for it.
fn blob_of(alloc: Global, key: &PublicKey) -> Result<Bytes, AllocError>
    ensures { IfOk result (λ blob. blob ≡ key_blob key.now) }
{
    let Ok(blob) = key.blob(alloc) else {
        return Err(AllocError);
    };
    Ok(blob)
}

/// Bytes in hex behind a space, and `-` for none.
fn print_word(alloc: Global, out: &mut String, bytes: &[u8]) -> Result<(), AllocError>
    ensures { OnOk result (string_bytes out.new ≡ string_bytes out.old ++ hex_word bytes.now) }
{
    out.push_str(" ")?;
    print_hex(alloc, out, bytes)
}

fn print_key(alloc: Global, out: &mut String, key: &PublicKey) -> Result<(), AllocError>
    ensures { OnOk result (string_bytes out.new ≡ string_bytes out.old
        ++ hex_word (key_blob key.now)) }
{
    let blob = blob_of(alloc, key)?;
    print_word(alloc, out, blob.as_slice())
}

/// A name behind a space.
fn print_name(out: &mut String, name: &str) -> Result<(), AllocError>
    ensures { OnOk result (string_bytes out.new ≡ string_bytes out.old ++ (codes " " ++ name.now)) }
{
    out.push_str(" ")?;
    out.push_str(name)
}

/// A flag behind a space.
pub(crate) fn print_flag(out: &mut String, flag: bool) -> Result<(), AllocError>
    ensures { OnOk result (string_bytes out.new ≡ string_bytes out.old
        ++ (codes " " ++ flag_text flag)) }
{
    if flag {
        out.push_str(" 1")
    } else {
        out.push_str(" 0")
    }
}

/// The code of a mode, and its value.
fn print_mode(alloc: Global, out: &mut String, mode: &(Pty, u32)) -> Result<(), AllocError>
    ensures { OnOk result (string_bytes out.new ≡ string_bytes out.old ++ mode_text mode.now) }
{
    let (code, value) = (mode.0.code(), mode.1);
    print_field(alloc, out, "", u64::from(code))?;
    print_field(alloc, out, ":", u64::from(value))
}

/// Modes behind a first one.
fn print_later_modes(
    alloc: Global,
    out: &mut String,
    modes: &[(Pty, u32)],
) -> Result<(), AllocError>
    ensures { OnOk result (string_bytes out.new ≡ string_bytes out.old ++ flat_map later_mode
        modes.now) }
{
    for mode in modes {
        out.push_str(",")?;
        print_mode(alloc, out, mode)?;
    }
    Ok(())
}

/// Modes behind a space, and `-` for none.
fn print_modes(alloc: Global, out: &mut String, modes: &[(Pty, u32)]) -> Result<(), AllocError>
    ensures { OnOk result (string_bytes out.new ≡ string_bytes out.old
        ++ (codes " " ++ modes_text modes.now)) }
{
    out.push_str(" ")?;
    match modes {
        [] => out.push_str("-"),
        [first, later @ ..] => {
            print_mode(alloc, out, first)?;
            print_later_modes(alloc, out, later)
        }
    }
}

/// Responses, each in hex behind a space.
fn print_responses(alloc: Global, out: &mut String, responses: &[Bytes]) -> Result<(), AllocError>
    ensures { OnOk result (string_bytes out.new ≡ string_bytes out.old
        ++ flat_map hex_word responses.now) }
{
    for text in responses {
        print_word(alloc, out, text.as_slice())?;
    }
    Ok(())
}

/// The responses to prompts, and `none` where nothing was prompted for yet.
fn print_response(
    alloc: Global,
    out: &mut String,
    response: &Option<Blobs>,
) -> Result<(), AllocError>
    ensures { OnOk result (string_bytes out.new ≡ string_bytes out.old
        ++ response_text response.now) }
{
    match response {
        Some(responses) => print_responses(alloc, out, responses.as_slice()),
        None => out.push_str(" none"),
    }
}

/// What came of a command, behind a space.
fn print_came(alloc: Global, out: &mut String, outcome: CommandOutcome) -> Result<(), AllocError>
    ensures { OnOk result (string_bytes out.new ≡ string_bytes out.old
        ++ (codes " " ++ outcome_text outcome)) }
{
    out.push_str(" ")?;
    print_outcome(alloc, out, outcome)
}

/// An argument, each word of it behind a space.
fn print_argument(
    alloc: Global,
    out: &mut String,
    argument: &Argument<'_>,
) -> Result<(), AllocError>
    ensures { OnOk result (string_bytes out.new ≡ string_bytes out.old
        ++ word_text (word_of argument.now)) }
{
    match argument {
        Argument::Number(number) => print_field(alloc, out, " ", *number),
        Argument::Reason(reason) => print_field(alloc, out, " ", reason.code() as u64),
        Argument::Bytes(bytes) => print_word(alloc, out, bytes.as_slice()),
        Argument::Text(text) => print_word(alloc, out, text.as_str().as_bytes()),
        Argument::Key(key) => print_key(alloc, out, key),
        Argument::Signal(signal) => print_word(alloc, out, signal.name().as_bytes()),
        Argument::Flag(flag) => print_flag(out, *flag),
        Argument::Name(name) => print_name(out, name),
        Argument::Modes(modes) => print_modes(alloc, out, modes.as_slice()),
        Argument::Responses(response) => print_response(alloc, out, response),
        Argument::Came(outcome) => print_came(alloc, out, *outcome),
    }
}

/// Arguments one after another.
pub(crate) fn print_arguments(
    alloc: Global,
    out: &mut String,
    arguments: &[Argument<'_>],
) -> Result<(), AllocError>
    ensures { OnOk result (string_bytes out.new ≡ string_bytes out.old
        ++ flat_map word_text (map word_of arguments.now)) }
{
    match arguments {
        [] => Ok(()),
        [first, rest @ ..] => {
            print_argument(alloc, out, first)?;
            print_arguments(alloc, out, rest)
        }
    }
}

/// A name and arguments.
pub(crate) fn print_said(alloc: Global, out: &mut String, said: &Said<'_>) -> Result<(), AllocError>
    ensures { OnOk result (string_bytes out.new ≡ string_bytes out.old
        ++ named_text (named_by said.now)) }
{
    out.push_str(said.name)?;
    print_arguments(alloc, out, said.arguments.as_slice())
}
