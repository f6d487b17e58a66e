// What a caller is told of one thing that happened.
ghost use Rattle.std.specs.Prelude.{◌≡◌, ◌≤◌, ◌++◌, true, length};
ghost use Rattle.ssh_c.specs.Telling.{IsAtStart, Carries};

use crate::codes::{CONTINUES, NO_MEMORY, TOO_SHORT};
use crate::notices::{notice_entry, notice_fields, notice_slice};
use ssh_link::{CommandOutcome, Frame, Notice, Refusal, TraceEntry};
use std::alloc::Global;

/// One thing that happened, without its bytes: see `gidzork_entry` in include/gidzork.h for what
/// the numbers are, by `kind`.
#[repr(C)]
#[derive(Clone, Copy)]
pub struct Entry {
    pub(crate) kind: u32,
    pub(crate) channel: u32,
    pub(crate) number: u64,
    pub(crate) second: u32,
    pub(crate) length: usize,
}

impl Entry {
    /// An entry without bytes.
    pub(crate) fn new(kind: u32, channel: u32, number: u64, second: u32) -> Entry
        ensures { result.length ≡ 0 }
    {
        Entry {
            kind,
            channel,
            number,
            second,
            length: 0,
        }
    }
}

/// Copies these one after another to the start of `out`, where they have room there.
pub(crate) fn copy_both(head: &[u8], body: &[u8], out: &mut [u8]) -> bool
    requires { length head.now ≤ 13 }
    ensures copied { result ≡ true → IsAtStart (head.now ++ body.now) out.new }
{
    if head.len() > out.len() || body.len() > out.len() - head.len() {
        return false;
    }
    let (first, rest) = out.split_at_mut(head.len());
    first.copy_from_slice(head);
    rest[..body.len()].copy_from_slice(body);
    true
}

/// Tells a frame: its payload is copied to the start of `out`, where it has room there.
pub(crate) fn tell_frame(frame: &Frame, out: &mut [u8], entry: &mut Entry) -> bool
    ensures told { result ≡ true → IsAtStart frame.now.payload out.new
        × (entry.new.length ≡ length frame.now.payload) }
{
    let (head, body) = frame.parts();
    *entry = Entry {
        kind: 1,
        channel: 0,
        number: frame.hold_until().unwrap_or(0),
        second: 0,
        length: head.len() + body.len(),
    };
    copy_both(head, body, out)
}

// The number of a refusal.
fn refusal_number(refusal: Refusal) -> u32 {
    match refusal {
        Refusal::Disconnected => 1,
        Refusal::ClientOnly => 2,
        Refusal::NotAuthenticated => 3,
        Refusal::UnknownChannel => 4,
        Refusal::UnknownOpen => 5,
        Refusal::NotConfirmed => 6,
        Refusal::SendingEnded => 7,
        Refusal::TooLong => 8,
        Refusal::NumbersFull => 9,
    }
}

// What came of a command.
fn outcome_entry(ticket: u64, outcome: &CommandOutcome) -> Entry {
    match outcome {
        CommandOutcome::Accepted => Entry::new(30, 0, ticket, 0),
        CommandOutcome::Opened(channel) => Entry::new(31, channel.0, ticket, 0),
        CommandOutcome::Refused(refusal) => Entry::new(32, 0, ticket, refusal_number(*refusal)),
    }
}

/// Tells an entry of the outbox: what it carries is copied to the start of `out`, where it has room
/// there. The answer is `CONTINUES`, `TOO_SHORT` or `NO_MEMORY`.
pub(crate) fn tell(alloc: Global, told: &TraceEntry, out: &mut [u8], entry: &mut Entry) -> u32
    ensures { result ≡ 0 → Carries told.now out.new entry.new.length }
{
    match told {
        TraceEntry::Sent(frame) => code_of_room(tell_frame(frame, out, entry)),
        TraceEntry::Noticed(notice) => tell_notice(alloc, notice, out, entry),
        TraceEntry::Answered(ticket, outcome) => {
            *entry = outcome_entry(*ticket, outcome);
            CONTINUES
        }
        TraceEntry::Took { .. } => {
            *entry = Entry::new(0, 0, 0, 0);
            CONTINUES
        }
    }
}

/// Whether there was room, as a number.
pub(crate) fn code_of_room(room: bool) -> u32
    ensures { result ≡ 0 → room ≡ true }
{
    if room { CONTINUES } else { TOO_SHORT }
}

// Tells a notice.
fn tell_notice(alloc: Global, notice: &Notice, out: &mut [u8], entry: &mut Entry) -> u32 {
    *entry = notice_entry(notice);
    match notice_fields(alloc, notice) {
        Ok(fields) => {
            let slice = notice_slice(notice);
            code_of_room(tell_bytes(fields.as_slice(), slice, out, entry))
        }
        Err(_) => NO_MEMORY,
    }
}

/// Copies the fields, or where there are none the slice, to the start of `out`, where they have
/// room there; the entry tells their length.
pub(crate) fn tell_bytes(fields: &[u8], slice: &[u8], out: &mut [u8], entry: &mut Entry) -> bool {
    let bytes = if fields.is_empty() { slice } else { fields };
    entry.length = bytes.len();
    copy_both(&[], bytes, out)
}
