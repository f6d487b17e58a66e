// A run in numbers, as it is printed.
ghost use Rattle.std.specs.Prelude.{◌≡◌, ◌+◌, ◌++◌, codes, IfOk, IfSome, OnOk};
ghost use Rattle.std.specs.Fmt.{decimal};
ghost use Rattle.std.specs.String.{string_bytes};
ghost use Rattle.ssh_transcript.specs.Summary.{number_of, opened_by, data_in, of_frame};
ghost use Rattle.ssh_transcript.specs.Summary.{channels, frames, bytes, summary};

use crate::print::print_number;
use crate::whole_run::print_last;
use ssh_link::{Frame, TraceEntry};
use ssh_rules::RunError;
use ssh_wire::message::{CHANNEL_DATA, CHANNEL_OPEN_CONFIRMATION};
use std::alloc::{AllocError, Global};

/// How many bytes of CHANNEL_DATA stand before its data (RFC 4254 section 5.2).
const BEFORE_DATA: usize = 9;

/// What went out to the peer, in numbers.
#[derive(Clone, Copy)]
struct Totals {
    /// How many channels were opened.
    channels: u64,
    /// How many frames were sent.
    frames: u64,
    /// How many bytes of data they brought.
    bytes: u64,
}

/// The number of a message; 0 where the payload is empty.
fn number_of(frame: &Frame) -> u8
    ensures { result ≡ number_of frame.now }
{
    let (head, body) = frame.parts();
    match head.first().or(body.first()) {
        Some(number) => *number,
        None => 0,
    }
}

/// How many bytes of data a frame brings.
fn data_in(frame: &Frame) -> u64
    ensures { result ≡ data_in frame.now }
{
    if number_of(frame) != CHANNEL_DATA {
        return 0;
    }
    let (head, body) = frame.parts();
    (head.len() + body.len()).saturating_sub(BEFORE_DATA) as u64
}

/// How many channels a frame opens.
fn opened_by(frame: &Frame) -> u64
    ensures { result ≡ opened_by frame.now }
{
    if number_of(frame) == CHANNEL_OPEN_CONFIRMATION {
        1
    } else {
        0
    }
}

impl Totals {
    /// One more frame was sent; None where a count passes its type.
    fn with(self, frame: &Frame) -> Option<Totals>
        ensures channels { IfSome result (λ totals. totals.channels
            ≡ self.channels + opened_by frame.now) }
        ensures frames { IfSome result (λ totals. totals.frames ≡ self.frames + 1) }
        ensures bytes { IfSome result (λ totals. totals.bytes
            ≡ self.bytes + data_in frame.now) }
    {
        let channels = self.channels.checked_add(opened_by(frame))?;
        let frames = self.frames.checked_add(1)?;
        let bytes = self.bytes.checked_add(data_in(frame))?;
        Some(Totals {
            channels,
            frames,
            bytes,
        })
    }
}

/// What went out by this trace; None where a count passes its type.
fn totals_of(trace: &[TraceEntry]) -> Option<Totals>
    ensures channels { IfSome result (λ totals. totals.channels ≡ channels trace.now) }
    ensures frames { IfSome result (λ totals. totals.frames ≡ frames trace.now) }
    ensures bytes { IfSome result (λ totals. totals.bytes ≡ bytes trace.now) }
{
    let mut totals = Totals {
        channels: 0,
        frames: 0,
        bytes: 0,
    };
    for entry in trace {
        if let TraceEntry::Sent(frame) = entry {
            totals = totals.with(frame)?;
        }
    }
    Some(totals)
}

/// A word, and a number behind it.
fn print_count(alloc: Global, out: &mut String, word: &str, count: u64) -> Result<(), AllocError>
    ensures { OnOk result (string_bytes out.new ≡ string_bytes out.old ++ word.now
        ++ decimal count) }
{
    out.push_str(word)?;
    print_number(alloc, out, count)
}

/// The summary of a run: how many channels were opened, how many frames were sent and how many
/// bytes of data, a line for each, and last how the run ended.
pub fn print_summary<HE, KE>(
    alloc: Global,
    trace: &[TraceEntry],
    run: &Result<(), RunError<HE, KE>>,
) -> Result<String, AllocError>
    ensures { IfOk result (λ text. string_bytes text ≡ summary trace.now run.now) }
{
    let totals = totals_of(trace).ok_or(AllocError)?;
    let mut text = String::new(alloc);
    print_count(alloc, &mut text, "channels ", totals.channels)?;
    print_count(alloc, &mut text, "\nframes ", totals.frames)?;
    print_count(alloc, &mut text, "\nbytes ", totals.bytes)?;
    text.push_str("\n")?;
    print_last(&mut text, run)?;
    Ok(text)
}
