// What a link tells of its calls. Memory for it is taken only where a trace is kept.
ghost use Rattle.std.specs.Prelude.{◌≡◌, [], ◌∷◌, Some, None, IfOk, IfErr, OnOk, OnErr, IsOk};
ghost use Rattle.ssh_link.specs.declared.link.TraceEntry.TheVariants.{Took, Sent, Noticed};
ghost use Rattle.ssh_link.specs.declared.link.LinkFault.TheVariants.{NoMemory};
ghost use Rattle.ssh_link.specs.Told.{Adds, AddsOne, AddsNothing};
ghost use Rattle.ssh_hub_link.specs.Given.{given, sent};

use crate::journal::{Journal, put};
use ssh_link::{Frame, Input, LinkFault, Notice, TraceEntry};

// An input that came, or none; `NoMemory` where one came that could not be told.
pub type Found = Result<Option<Input>, LinkFault>;

// Tells that this input was taken, and gives it. Where there is no memory to tell it, it is lost.
pub fn taken(
    trace: &mut Journal<TraceEntry>,
    lost: &mut Option<Input>,
    commands: bool,
    replies: bool,
    input: Input,
) -> Found
    requires { lost.old ≡ None }
    ensures ok { OnOk result (AddsOne trace.old trace.new (Took commands replies input)
        × (lost.new ≡ None)) }
    ensures input { IfOk result (λ o. o ≡ Some input) }
    ensures err { OnErr result (trace.new ≡ trace.old) }
    ensures memory { IfErr result (λ e. e ≡ NoMemory) }
    ensures given { Adds (given trace.old lost.old) (given trace.new lost.new) (input ∷ []) }
    ensures sent { AddsNothing (sent trace.old) (sent trace.new) }
{
    match add_taken(trace, commands, replies, &input) {
        Ok(()) => Ok(Some(input)),
        Err(fault) => {
            put(lost, input);
            Err(fault)
        }
    }
}

// Adds that this input was taken.
#[tactic(auto, using(crate::proofs::Telling::nothing_kept))]
fn add_taken(
    trace: &mut Journal<TraceEntry>,
    commands: bool,
    replies: bool,
    input: &Input,
) -> Result<(), LinkFault>
    ensures ok { OnOk result (AddsOne trace.old trace.new (Took commands replies input.now)) }
    ensures err { OnErr result (trace.new ≡ trace.old) }
    ensures memory { IfErr result (λ e. e ≡ NoMemory) }
{
    if !trace.keeps() {
        return Ok(());
    }
    let Ok(input) = input.copy() else {
        return Err(LinkFault::NoMemory);
    };
    trace.add(TraceEntry::Took {
        commands,
        replies,
        input,
    })
}

// Adds that this frame was handed on.
#[tactic(auto, using(crate::proofs::Telling::nothing_kept))]
pub fn add_sent(trace: &mut Journal<TraceEntry>, frame: &Frame) -> Result<(), LinkFault>
    ensures ok { OnOk result (AddsOne trace.old trace.new (Sent frame.now)) }
    ensures err { OnErr result (trace.new ≡ trace.old) }
    ensures memory { IfErr result (λ e. e ≡ NoMemory) }
{
    if !trace.keeps() {
        return Ok(());
    }
    let Ok(frame) = frame.copy() else {
        return Err(LinkFault::NoMemory);
    };
    trace.add(TraceEntry::Sent(frame))
}

// Adds that this notice was given.
#[tactic(auto, using(crate::proofs::Telling::nothing_kept))]
pub fn add_noticed(trace: &mut Journal<TraceEntry>, notice: &Notice) -> Result<(), LinkFault>
    ensures ok { OnOk result (AddsOne trace.old trace.new (Noticed notice.now)) }
    ensures err { OnErr result (trace.new ≡ trace.old) }
    ensures memory { IfErr result (λ e. e ≡ NoMemory) }
{
    if !trace.keeps() {
        return Ok(());
    }
    let Ok(notice) = notice.copy() else {
        return Err(LinkFault::NoMemory);
    };
    trace.add(TraceEntry::Noticed(notice))
}
