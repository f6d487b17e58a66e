// What is printed of a run in threads.
ghost use Rattle.std.specs.Prelude.{◌≡◌, ◌≤◌, ◌==◌, ◌++◌, codes, cond, Ok, IfOk, IfSome, OnOk};
ghost use Rattle.std.specs.String.{string_bytes};
ghost use Rattle.ssh_channels.specs.Sent.{is_tagged, message_of};
ghost use Rattle.ssh_hub_link.specs.Given.{frames_in};
ghost use Rattle.ssh_threads_lines.specs.Lines.{data_on, total_on, total_line, total_lines, are_whole};
ghost use Rattle.ssh_threads_lines.specs.Lines.{status_of, text_of};

use ssh_handler::RecordError;
use ssh_link::{Frame, PlainKexError, TraceEntry};
use ssh_players::ScriptError;
use ssh_rules::RunError;
use ssh_transcript::{print_number, print_run};
use ssh_wire::ChannelId;
use ssh_wire::message::CHANNEL_DATA;
use ssh_writers::BYTES_EACH;
use std::alloc::{AllocError, Global};

/// This side's number of the first channel.
const FIRST_CHANNEL: u32 = 2;

/// How a session of a script's handler ends.
pub type Outcome = Result<(), RunError<RecordError<ScriptError>, PlainKexError>>;

/// What a program shows of a run.
#[derive(Drop)]
pub struct Report {
    /// Its exit status.
    pub status: u8,
    /// What it prints.
    pub text: String,
}

/// Whether the frame was written for this channel.
fn is_tagged(channel: ChannelId, frame: &Frame) -> bool
    ensures { result ≡ is_tagged channel.0 frame.now.channel }
{
    match frame.channel() {
        Some(tag) => channel.0 == tag.0,
        None => false,
    }
}

/// The number of the frame's message; 0 where the payload is empty.
fn message_of(frame: &Frame) -> u8
    ensures { result ≡ message_of frame.now.payload }
{
    match frame.head().first() {
        Some(number) => *number,
        None => 0,
    }
}

/// How many bytes of data the frame brings on this channel.
fn data_on(channel: ChannelId, frame: &Frame) -> u64
    ensures { result ≡ data_on channel.0 frame.now }
{
    if is_tagged(channel, frame) && message_of(frame) == CHANNEL_DATA {
        frame.body().len() as u64
    } else {
        0
    }
}

/// How many bytes of data were sent on this channel; None where the count passes its type.
fn total_on(channel: ChannelId, trace: &[TraceEntry]) -> Option<u64>
    ensures { IfSome result (λ total. total ≡ total_on channel.0 (frames_in trace.now)) }
{
    let mut total = 0u64;
    for entry in trace {
        if let TraceEntry::Sent(frame) = entry {
            total = total.checked_add(data_on(channel, frame))?;
        }
    }
    Some(total)
}

/// The line of a channel, behind the text.
fn print_total(
    alloc: Global,
    text: &mut String,
    channel: ChannelId,
    total: u64,
) -> Result<(), AllocError>
    ensures { OnOk result (string_bytes text.new
        ≡ string_bytes text.old ++ total_line channel.0 total) }
{
    text.push_str("channel ")?;
    print_number(alloc, text, u64::from(channel.0))?;
    text.push_str(" ")?;
    print_number(alloc, text, total)?;
    text.push_str("\n")
}

/// The line of a channel behind the text, and whether it has all bytes of its writer.
fn print_channel(
    alloc: Global,
    text: &mut String,
    channel: ChannelId,
    trace: &[TraceEntry],
) -> Result<bool, AllocError>
    ensures text { OnOk result (string_bytes text.new ≡ string_bytes text.old
        ++ total_line channel.0 (total_on channel.0 (frames_in trace.now))) }
    ensures whole { IfOk result (λ is_whole. is_whole
        ≡ (total_on channel.0 (frames_in trace.now) == 100000)) }
{
    let total = total_on(channel, trace).ok_or(AllocError)?;
    print_total(alloc, text, channel, total)?;
    Ok(total == BYTES_EACH as u64)
}

/// The lines of so many channels behind the text, and whether each has all bytes of its writer.
fn print_totals(
    alloc: Global,
    text: &mut String,
    n: u32,
    trace: &[TraceEntry],
) -> Result<bool, AllocError>
    requires { n ≤ 8 }
    ensures text { OnOk result (string_bytes text.new
        ≡ string_bytes text.old ++ total_lines n (frames_in trace.now)) }
    ensures whole { IfOk result (λ whole. whole ≡ are_whole n (frames_in trace.now)) }
{
    let mut are_whole = true;
    for k in 0..n {
        let is_whole = print_channel(alloc, text, ChannelId(k + FIRST_CHANNEL), trace)?;
        are_whole = are_whole && is_whole;
    }
    Ok(are_whole)
}

/// The last line of a run that came to its end, and the program's status.
fn print_verdict(text: &mut String, are_whole: bool) -> Result<u8, AllocError>
    ensures status { IfOk result (λ status. status ≡ cond are_whole 0 1) }
    ensures text { OnOk result (string_bytes text.new ≡ string_bytes text.old
        ++ cond are_whole (codes "ok\n") (codes "error Totals\n")) }
{
    if are_whole {
        text.push_str("ok\n")?;
        Ok(0)
    } else {
        text.push_str("error Totals\n")?;
        Ok(1)
    }
}

/// What is printed of a run that came to its end, and the program's status.
fn print_ended(
    alloc: Global,
    text: &mut String,
    n: u32,
    trace: &[TraceEntry],
) -> Result<u8, AllocError>
    requires { n ≤ 8 }
    ensures status { IfOk result (λ status. status ≡ status_of n (frames_in trace.now) (Ok tt)) }
    ensures text { OnOk result (string_bytes text.new ≡ string_bytes text.old
        ++ text_of n (frames_in trace.now) (Ok tt)) }
{
    let are_whole = print_totals(alloc, text, n, trace)?;
    print_verdict(text, are_whole)
}

/// What is printed of a run that came to its end.
fn report_ended(alloc: Global, n: u32, trace: &[TraceEntry]) -> Result<Report, AllocError>
    requires { n ≤ 8 }
    ensures status { IfOk result (λ report. report.status
        ≡ status_of n (frames_in trace.now) (Ok tt)) }
    ensures text { IfOk result (λ report. string_bytes report.text
        ≡ text_of n (frames_in trace.now) (Ok tt)) }
{
    let mut text = String::new(alloc);
    let status = print_ended(alloc, &mut text, n, trace)?;
    Ok(Report { status, text })
}

/// What is printed of a run of so many channels with this trace and this end: where it came to its
/// end well, a line for each channel, with how many bytes of data were sent there; else the error.
/// Want of memory is the only error of this call.
pub fn report_run(
    alloc: Global,
    n: u32,
    trace: &[TraceEntry],
    outcome: &Outcome,
) -> Result<Report, AllocError>
    requires { n ≤ 8 }
    ensures status { IfOk result (λ report. report.status
        ≡ status_of n (frames_in trace.now) outcome.now) }
    ensures text { IfOk result (λ report. string_bytes report.text
        ≡ text_of n (frames_in trace.now) outcome.now) }
{
    match outcome {
        Ok(()) => report_ended(alloc, n, trace),
        Err(_) => Ok(Report {
            status: 1,
            text: print_run(alloc, &[], &[], outcome)?,
        }),
    }
}
