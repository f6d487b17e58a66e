// Runs over links in memory.
use crate::answering::{Answering, Plan, QUIET};
use crate::sides::{End, LOGIN, payload, run_over};
use crate::stories::{Line, Place, Turn, comes, is_input};
use ssh_link::{Calls, CommandOutcome, Input, InputKind, Inputs, MemoryLink};
use ssh_wire::WireError;
use std::alloc::Global;

/// A run: what comes in it, what its link is told, and how it ends, behind which inputs are not
/// taken. And what the handler was told of its commands, how many callbacks were called, and the
/// name of the peer's software that it was lent; none where that is not looked at.
#[derive(Clone, Copy)]
pub struct Run {
    pub shows: &'static str,
    /// Whether the login comes first, of which nothing is looked at.
    pub logs_in: bool,
    /// Which call of the link fails.
    pub fails: Option<u64>,
    pub frames_alone: bool,
    pub plan: Plan,
    pub lines: Turn,
    pub done: &'static [(usize, CommandOutcome)],
    pub calls: Option<usize>,
    pub software: Option<&'static [u8]>,
}

/// Behind a login.
pub const BEHIND_LOGIN: Run = Run {
    shows: "",
    logs_in: true,
    fails: None,
    frames_alone: false,
    plan: QUIET,
    lines: &[],
    done: &[],
    calls: None,
    software: None,
};

fn push(inputs: &mut Inputs, kind: InputKind) -> Result<(), WireError> {
    inputs.push(Input { moment: 0, kind })?;
    Ok(())
}

fn push_login(alloc: Global, inputs: &mut Inputs) -> Result<(), WireError> {
    for bytes in LOGIN {
        push(inputs, payload(alloc, bytes)?)?;
    }
    Ok(())
}

fn push_all(alloc: Global, inputs: &mut Inputs, run: &Run) -> Result<(), WireError> {
    if run.logs_in {
        push_login(alloc, inputs)?;
    }
    for line in run.lines {
        match comes(alloc, *line)? {
            Some(kind) => push(inputs, kind)?,
            None => {}
        }
    }
    Ok(())
}

fn plan_failure(calls: &mut Calls, fails: Option<u64>) -> Result<(), WireError> {
    if let Some(call) = fails {
        calls.push(call)?;
    }
    Ok(())
}

// A link with these inputs.
fn link(alloc: Global, run: &Run) -> Result<MemoryLink, WireError> {
    let mut inputs = Inputs::new(alloc);
    let mut calls = Calls::new(alloc);
    let are_pushed = push_all(alloc, &mut inputs, run);
    let is_planned = plan_failure(&mut calls, run.fails);
    are_pushed
        .and(is_planned)
        .and(MemoryLink::new(alloc, inputs, calls))
}

// Whether the link was told all lines up to the end, which is this one, and nothing behind it.
fn is_told(link: &MemoryLink, run: &Run, end: End) -> bool {
    let skipped: usize = if run.logs_in { 4 } else { 0 };
    let mut place = Place::behind(skipped, run.frames_alone);
    for line in run.lines {
        if let Line::Ends(wanted) = line {
            return *wanted == end && place.is_at_the_end(link);
        }
        let is_passed = run.frames_alone && is_input(*line);
        if !is_passed && !place.tells(link, *line) {
            return false;
        }
    }
    false
}

impl Run {
    // Whether the handler was told and called as the run says.
    fn was_heard(&self, handler: &Answering) -> bool {
        let software = handler.software.as_slice();
        handler.done.as_slice() == self.done
            && handler.calls == self.calls.unwrap_or(handler.calls)
            && software == self.software.unwrap_or(software)
    }

    fn goes_so(&self, alloc: Global, link: &mut MemoryLink) -> bool {
        let mut handler = Answering::new(alloc, self.plan);
        let end = run_over(alloc, &mut handler, link);
        let was_heard = self.was_heard(&handler);
        drop(handler);
        let faults: u64 = if self.fails.is_some() { 1 } else { 0 };
        was_heard && is_told(link, self, end) && link.faults() == faults
    }

    /// Whether it goes so; without memory it does not.
    pub fn holds(&self, alloc: Global) -> bool {
        match link(alloc, self) {
            Ok(mut link) => {
                let goes_so = self.goes_so(alloc, &mut link);
                drop(link);
                goes_so
            }
            Err(_) => false,
        }
    }
}
