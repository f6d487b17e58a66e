//! Worked examples as scripts: a script, or what follows the login of alice, and what the program
//! writes for it (docs/SCRIPT.md). It is for the crates of tests, which go over tables of these.
#![tactic(auto)]

mod interactive;

use bytes::Bytes;
pub use interactive::INTERACTIVE;
use ssh_link::{Calls, MemorySink, MemorySource};
use ssh_script::run_script;
use ssh_wire::WireError;
use std::alloc::Global;

/// Alice is let in by method none.
pub const SETTINGS: &[u8] = b"answer none accept\n";

/// The service request and the request of alice.
pub const LOGIN: &[u8] = b"\
    recv 050000000c7373682d7573657261757468\n\
    recv 3200000005616c6963650000000e7373682d636f6e6e656374696f6e000000046e6f6e65\n";

/// The callbacks of the login.
pub const LOGIN_CALLS: &[u8] =
    b"call authentication_banner\ncall auth_none 616c696365\ncall auth_succeeded\n";

/// The trace of the login.
pub const LOGIN_TRACE: &[u8] =
    b"input 1\nsend - 060000000c7373682d7573657261757468\ninput 2\nsend - 34\n";

/// A script, and what comes of it.
#[derive(Clone, Copy)]
pub struct Case {
    /// What it shows.
    pub shows: &'static str,
    /// The script.
    pub script: &'static [u8],
    /// The exit status of its run.
    pub status: u8,
    /// The bytes that the run writes.
    pub written: &'static [u8],
}

impl Case {
    /// Whether this comes of the script; without memory it does not.
    pub fn holds(self, alloc: Global) -> bool {
        let outcome = Outcome {
            status: self.status,
            written: self.written,
        };
        comes_to(alloc, &["run"], self.script, (&[], &[]), outcome)
    }
}

/// What follows the login of alice, and what comes of it.
#[derive(Clone, Copy)]
pub struct Row {
    /// What it shows.
    pub shows: &'static str,
    /// The settings.
    pub settings: &'static [u8],
    /// The input lines behind the login.
    pub inputs: &'static [u8],
    /// The exit status of the run.
    pub status: u8,
    /// The callbacks behind those of the login.
    pub calls: &'static [u8],
    /// The trace behind that of the login.
    pub trace: &'static [u8],
}

impl Row {
    /// Whether this comes of the script; without memory it does not.
    pub fn holds(self, alloc: Global) -> bool {
        let script = [self.settings, SETTINGS, LOGIN, self.inputs];
        let written = [LOGIN_CALLS, self.calls, LOGIN_TRACE, self.trace];
        writes(alloc, &script, &NO_BYTES, self.status, &written)
    }
}

/// Bytes that a script has in hex: so many of these pieces, one after another.
#[derive(Clone, Copy)]
pub struct Hex<'a> {
    /// The pieces.
    pub pieces: &'a [&'a [u8]],
    /// How many bytes of them.
    pub count: usize,
}

const NO_BYTES: Hex<'static> = Hex {
    pieces: &[],
    count: 0,
};

fn add(whole: &mut Vec<u8>, pieces: &[&[u8]]) -> Result<(), WireError> {
    for piece in pieces {
        whole.extend_from_slice(*piece)?;
    }
    Ok(())
}

fn add_digits(whole: &mut Vec<u8>, alloc: Global, bytes: &[u8]) -> Result<(), WireError> {
    let digits = hex::encode(alloc, bytes)?;
    Ok(whole.extend_from_slice(digits.as_bytes())?)
}

fn add_hex(whole: &mut Vec<u8>, alloc: Global, hex: &Hex<'_>) -> Result<(), WireError> {
    let mut bytes = Vec::new(alloc);
    let added = add(&mut bytes, hex.pieces);
    bytes.truncate(hex.count);
    added.and(add_digits(whole, alloc, bytes.as_slice()))
}

fn calls(alloc: Global, numbers: &[u64]) -> Result<Calls, WireError> {
    let mut calls = Calls::new(alloc);
    for number in numbers {
        calls.push(*number)?;
    }
    Ok(calls)
}

fn source(alloc: Global, script: &[u8], failing: &[u64]) -> Result<MemorySource, WireError> {
    let script = Bytes::copy_from_slice(alloc, script)?;
    Ok(MemorySource::new(script, calls(alloc, failing)?))
}

fn sink(alloc: Global, failing: &[u64]) -> Result<MemorySink, WireError> {
    Ok(MemorySink::new(alloc, calls(alloc, failing)?))
}

/// What comes of a run.
#[derive(Clone, Copy)]
pub struct Outcome<'a> {
    /// The exit status.
    pub status: u8,
    /// The bytes that it writes.
    pub written: &'a [u8],
}

/// Whether this comes of a run of the program with these words and a script, whose reads and writes
/// of these numbers fail; without memory it does not.
pub fn comes_to(
    alloc: Global,
    words: &[&str],
    script: &[u8],
    (failing_reads, failing_writes): (&[u64], &[u64]),
    outcome: Outcome<'_>,
) -> bool {
    match (
        source(alloc, script, failing_reads),
        sink(alloc, failing_writes),
    ) {
        (Ok(mut source), Ok(mut sink)) => {
            let status = run_script(alloc, words, &mut source, &mut sink);
            status == outcome.status && sink.bytes() == outcome.written
        }
        _ => false,
    }
}

/// Whether a run with the script of these pieces, and this in hex behind them, ends by this status
/// and has written these pieces; without memory it does not.
pub fn writes(
    alloc: Global,
    script: &[&[u8]],
    hex: &Hex<'_>,
    status: u8,
    written: &[&[u8]],
) -> bool {
    let mut input = Vec::new(alloc);
    let is_input = add(&mut input, script).and(add_hex(&mut input, alloc, hex)) == Ok(());
    let mut output = Vec::new(alloc);
    let is_output = add(&mut output, written) == Ok(());
    let outcome = Outcome {
        status,
        written: output.as_slice(),
    };
    is_input && is_output && comes_to(alloc, &["run"], input.as_slice(), (&[], &[]), outcome)
}
