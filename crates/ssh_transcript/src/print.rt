// How a run is printed.
ghost use Rattle.std.specs.Prelude.{◌≡◌, ◌++◌, ◌+◌, codes, OnOk};
ghost use Rattle.std.specs.Fmt.{decimal};
ghost use Rattle.std.specs.String.{string_bytes};
ghost use Rattle.ssh_transcript.specs.Words.{hex_text};
ghost use Rattle.ssh_transcript.specs.Print.{channel_text, hold_text, frame_line, entry_lines};

use crate::print_notice::{print_answer, print_notice};
use ssh_link::{Frame, TraceEntry};
use ssh_wire::ChannelId;
use std::alloc::{AllocError, Global};

/// Bytes in hex, and `-` for none.
pub fn print_hex(alloc: Global, out: &mut String, bytes: &[u8]) -> Result<(), AllocError>
    ensures { OnOk result (string_bytes out.new ≡ string_bytes out.old ++ hex_text bytes.now) }
{
    if bytes.is_empty() {
        return out.push_str("-");
    }
    let text = hex::encode(alloc, bytes)?;
    out.push_str(text.as_str())
}

/// A number in decimal.
pub fn print_number(alloc: Global, out: &mut String, number: u64) -> Result<(), AllocError>
    ensures { OnOk result (string_bytes out.new ≡ string_bytes out.old ++ decimal number) }
{
    let text = number.to_string(alloc)?;
    out.push_str(text.as_str())
}

/// A word, and the number that follows it.
pub(crate) fn print_field(
    alloc: Global,
    out: &mut String,
    word: &str,
    number: u64,
) -> Result<(), AllocError>
    ensures { OnOk result (string_bytes out.new ≡ string_bytes out.old
        ++ (word.now ++ decimal number)) }
{
    out.push_str(word)?;
    print_number(alloc, out, number)
}

/// The number of a channel.
pub(crate) fn print_id(
    alloc: Global,
    out: &mut String,
    channel: ChannelId,
) -> Result<(), AllocError>
    ensures { OnOk result (string_bytes out.new ≡ string_bytes out.old ++ decimal channel.0) }
{
    print_number(alloc, out, u64::from(channel.0))
}

/// The number of a channel, and `-` for none.
fn print_channel(
    alloc: Global,
    out: &mut String,
    channel: Option<ChannelId>,
) -> Result<(), AllocError>
    ensures { OnOk result (string_bytes out.new ≡ string_bytes out.old ++ channel_text channel) }
{
    match channel {
        Some(ChannelId(number)) => print_number(alloc, out, u64::from(number)),
        None => out.push_str("-"),
    }
}

/// The moment until which a frame is held.
fn print_hold(alloc: Global, out: &mut String, hold_until: Option<u64>) -> Result<(), AllocError>
    ensures { OnOk result (string_bytes out.new ≡ string_bytes out.old ++ hold_text hold_until) }
{
    let Some(moment) = hold_until else {
        return Ok(());
    };
    out.push_str(" hold ")?;
    print_number(alloc, out, moment)
}

/// A payload in hex, one part of the frame after the other, and `-` for an empty one.
fn print_payload(alloc: Global, out: &mut String, frame: &Frame) -> Result<(), AllocError>
    ensures { OnOk result (string_bytes out.new ≡ string_bytes out.old
        ++ hex_text frame.now.payload) }
{
    let (head, body) = frame.parts();
    if body.is_empty() {
        return print_hex(alloc, out, head);
    }
    let text = hex::encode(alloc, head)?;
    out.push_str(text.as_str())?;
    print_hex(alloc, out, body)
}

fn print_frame(alloc: Global, out: &mut String, frame: &Frame) -> Result<(), AllocError>
    ensures { OnOk result (string_bytes out.new ≡ string_bytes out.old ++ frame_line frame.now) }
{
    out.push_str("send ")?;
    print_channel(alloc, out, frame.channel())?;
    out.push_str(" ")?;
    print_payload(alloc, out, frame)?;
    print_hold(alloc, out, frame.hold_until())?;
    out.push_str("\n")
}

fn print_input(alloc: Global, out: &mut String, number: u64) -> Result<(), AllocError>
    ensures { OnOk result (string_bytes out.new ≡ string_bytes out.old ++ codes "input "
        ++ decimal number ++ codes "\n") }
{
    out.push_str("input ")?;
    print_number(alloc, out, number)?;
    out.push_str("\n")
}

/// The trace, a line for each call of the link.
pub fn print_trace(
    alloc: Global,
    out: &mut String,
    entries: &[TraceEntry],
) -> Result<(), AllocError>
    ensures { OnOk result (string_bytes out.new ≡ string_bytes out.old
        ++ entry_lines 0 entries.now) }
{
    let mut taken: u64 = 0;
    for entry in entries {
        match entry {
            TraceEntry::Took { .. } => {
                taken = taken.checked_add(1).ok_or(AllocError)?;
                print_input(alloc, out, taken)?;
            }
            TraceEntry::Sent(frame) => print_frame(alloc, out, frame)?,
            TraceEntry::Noticed(notice) => print_notice(alloc, out, notice)?,
            TraceEntry::Answered(ticket, outcome) => print_answer(alloc, out, *ticket, *outcome)?,
        }
    }
    Ok(())
}
