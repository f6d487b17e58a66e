// An outside that fails at one of its calls: of a link, of a source, of a sink.
ghost use Rattle.std.specs.Prelude.{None};

use bytes::Bytes;
use ssh_link::{Calls, Input, Inputs, IoFailed, MemoryLink, MemorySource, Sink};
use ssh_players::{ScriptHandler, ScriptKex};
use ssh_scene::{Script, read_script};
use ssh_script::run_script;
use ssh_scripted::{Case, Outcome, comes_to};
use ssh_session::run_stream;
use ssh_transcript::print_run;
use ssh_wire::WireError;
use std::alloc::Global;

// The inputs, for a link in memory.
fn copied(alloc: Global, inputs: &[Input]) -> Result<Inputs, WireError> {
    let mut copies = Inputs::new(alloc);
    for input in inputs {
        copies.push(input.copy()?)?;
    }
    Ok(copies)
}

// The call that fails; none for 0.
fn failing(alloc: Global, call: u64) -> Result<Calls, WireError> {
    let mut calls = Calls::new(alloc);
    if call > 0 {
        calls.push(call)?;
    }
    Ok(calls)
}

// How a run went: the callbacks and the calls of the link, each as the program writes them, with
// the run's end behind.
#[derive(Drop)]
struct Written {
    calls: String,
    trace: String,
    faults: u64,
    made: u64,
}

// A run of a script over a link in memory whose call of this number fails; none without memory.
fn run_over(alloc: Global, script: Script, link: &mut MemoryLink) -> Option<(String, String)> {
    let mut handler = ScriptHandler::new(alloc, script.answers);
    let mut kex = ScriptKex::new(alloc, true);
    let run = run_stream(
        alloc,
        &script.config,
        script.session_id.as_slice(),
        &[],
        &mut handler,
        &script.verifier,
        &mut kex,
        link,
        script.max_inputs,
    );
    let calls = print_run(alloc, &handler.asked, &[], &run);
    let trace = print_run(alloc, &[], link.trace(), &run);
    Some((calls.ok()?, trace.ok()?))
}

fn link_for(alloc: Global, script: &Script, call: u64) -> Result<MemoryLink, WireError> {
    let inputs = copied(alloc, script.inputs.as_slice())?;
    MemoryLink::ending_at(alloc, inputs, script.moment, failing(alloc, call)?)
}

fn run_failing(alloc: Global, bytes: &[u8], call: u64) -> Option<Written> {
    let script = read_script(alloc, bytes).ok()?.ok()?;
    let mut link = link_for(alloc, &script, call).ok()?;
    let (calls, trace) = run_over(alloc, script, &mut link)?;
    Some(Written {
        calls,
        trace,
        faults: link.faults(),
        made: link.calls(),
    })
}

// Whether the text without this last line is a front of the whole one.
fn is_front(text: &str, last: &[u8], whole: &[u8]) -> bool {
    match text.as_bytes().strip_suffix(last) {
        Some(front) => whole.starts_with(front),
        None => false,
    }
}

// Whether a run whose link fails at this call ends by the fault, and does until then as the whole
// run.
fn ends_by_fault(alloc: Global, script: &[u8], call: u64, whole: &Written) -> bool {
    match run_failing(alloc, script, call) {
        Some(run) => {
            run.faults == 1
                && is_front(
                    run.calls.as_str(),
                    b"error LinkFault\n",
                    whole.calls.as_bytes(),
                )
                && is_front(
                    run.trace.as_str(),
                    b"error LinkFault\n",
                    whole.trace.as_bytes(),
                )
        }
        None => false,
    }
}

// Whether a run of this script ends by the fault of its link, whichever of its calls fails.
pub fn fails_at_each_call(alloc: Global, case: &Case) -> bool {
    let Some(whole) = run_failing(alloc, case.script, 0) else {
        return false;
    };
    let mut ends = whole.faults == 0 && whole.made > 0;
    for call in 1..=whole.made {
        ends = ends && ends_by_fault(alloc, case.script, call, &whole);
    }
    ends
}

// How many bytes the program reads at a time.
const READ: usize = 256;

// Whether a read fault is written, whichever of the reads fails: of the bytes, and of the end.
pub fn reads_fail(alloc: Global, case: &Case) -> bool {
    let fault = Outcome {
        status: 3,
        written: b"read fault\n",
    };
    let whole = Outcome {
        status: case.status,
        written: case.written,
    };
    let reads = case.script.len().div_ceil(READ) as u64 + 1;
    let mut fails = comes_to(alloc, &["run"], case.script, (&[reads + 1], &[]), whole);
    for read in 1..=reads {
        fails = fails && comes_to(alloc, &["run"], case.script, (&[read], &[]), fault);
    }
    fails
}

// A sink that takes so many bytes at a time, and fails at one of its calls.
#[derive(Drop)]
struct SlowSink {
    bytes: Vec<u8>,
    fails_at: u64,
    calls: u64,
    faults: u64,
}

// The most that it takes at a time.
const PIECE: usize = 64;

impl Sink for SlowSink {
    ghost held = { λ _. None };

    ghost faults = { λ s. s.faults };

    fn write(&mut self, piece: &[u8]) -> Result<usize, IoFailed> {
        self.calls = self.calls.saturating_add(1);
        let count = piece.len().min(PIECE);
        if self.calls == self.fails_at || self.bytes.extend_from_slice(&piece[..count]).is_err() {
            self.faults = self.faults.saturating_add(1);
            return Err(IoFailed);
        }
        Ok(count)
    }
}

// Whether a run whose sink fails at this call ends so, with the pieces before it written.
fn ends_at_write(alloc: Global, case: &Case, call: u64) -> bool {
    let Ok(script) = Bytes::copy_from_slice(alloc, case.script) else {
        return false;
    };
    let mut source = MemorySource::new(script, Calls::new(alloc));
    let mut sink = SlowSink {
        bytes: Vec::new(alloc),
        fails_at: call,
        calls: 0,
        faults: 0,
    };
    let status = run_script(alloc, &["run"], &mut source, &mut sink);
    status == 4 && sink.calls == call && case.written.starts_with(sink.bytes.as_slice())
}

// Whether a run of this script ends by status 4, with a front of its output, whichever write fails.
pub fn writes_fail(alloc: Global, case: &Case) -> bool {
    let mut ends = true;
    for call in 1..=case.written.len().div_ceil(PIECE) as u64 {
        ends = ends && ends_at_write(alloc, case, call);
    }
    ends
}
