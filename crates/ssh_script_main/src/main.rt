//! The program: it runs the script that stands on standard input, and writes what comes of it to
//! standard output. Its exit status is the answer of `run_program`. Where a line of a session's
//! script is bad, it says on standard error which and why.
#![tactic(auto)]

mod keeping;

use crate::keeping::Keeping;
use ssh_link::{Sink, Source, StdSink, StdSource};
use ssh_scene::{BadLine, bad_line};
use ssh_script::LONGEST;
use ssh_threads::{GrantingPeer, run_program};
use std::alloc::{AllocError, Global};
use std::env;
use std::process::ExitCode;
use std::sync::Wait;
use std::thread::Threads;

/// The status where there was no memory for the words.
const NO_MEMORY: u8 = 5;

/// Does what the words after the program's name ask for.
fn run<R: Threads + Wait + Clone + Drop + Sync, S: Source, W: Sink>(
    rt: &R,
    alloc: Global,
    words: &[String],
    source: &mut S,
    sink: &mut W,
) -> Result<u8, AllocError> {
    let mut texts = Vec::new(alloc);
    for word in words.iter().skip(1) {
        texts.push(word.as_str())?;
    }
    let mut peer = GrantingPeer::new(alloc);
    Ok(run_program(rt, alloc, texts.as_slice(), source, sink, &mut peer))
}

/// Whether the words ask for the run of a session.
fn ask_for_run(words: &[String]) -> bool {
    match words {
        [_, word] => word.as_str() == "run",
        _ => false,
    }
}

/// The first bad line of the session's script that was read, where it is not too long; None where
/// no line is bad, and where there was no memory to find it.
fn bad_line_of<S>(alloc: Global, words: &[String], source: &Keeping<S>) -> Option<BadLine> {
    if !ask_for_run(words) {
        return None;
    }
    let script = source.kept()?;
    if script.len() > LONGEST {
        return None;
    }
    bad_line(alloc, script).ok()?
}

/// Command lines that are not given, or are no text in UTF-8, count as no words.
fn main(rt: HostRuntime) -> ExitCode {
    let mut words = Vec::new(rt.alloc());
    if let Ok(args) = env::args(&rt) {
        for word in args {
            if words.push(word).is_err() {
                return ExitCode::from(NO_MEMORY);
            }
        }
    }
    let mut source = Keeping::new(rt.alloc(), StdSource::new(rt.stdin()));
    let mut sink = StdSink::new(rt.stdout());
    let Ok(status) = run(&rt, rt.alloc(), words.as_slice(), &mut source, &mut sink) else {
        return ExitCode::from(NO_MEMORY);
    };
    if let Some(bad) = bad_line_of(rt.alloc(), words.as_slice(), &source) {
        // The status says it too, so a standard error that fails changes nothing.
        let _said = eprintln!(rt; "line {}: {}", bad.number, bad.fault);
    }
    ExitCode::from(status)
}
