// A link that gives the inputs of a script, and tells its calls.
ghost use Rattle.std.specs.Prelude.{◌≡◌, [], IfOk, IfErr};
ghost use Rattle.ssh_wire.specs.declared.error.WireError.TheVariants.{NoMemory};
ghost use Rattle.ssh_link.specs.Supply.{left_until};
ghost use Rattle.ssh_players.specs.Given.{as_given, left_after};

use ssh_link::{Calls, CommandOutcome, Frame, Input, Inputs, Link, LinkFault, MemoryLink, Notice};
use ssh_wire::WireError;
use std::alloc::Global;

/// Gives the inputs of a script as a link in memory does, with the end at the script's last moment.
/// The outside never fails.
#[derive(Drop)]
pub struct ScriptLink {
    /// All inputs of the script, which the link tells before its calls.
    pub inputs: Vec<Input>,
    /// The moment of the end, in milliseconds.
    pub last_moment: u64,
    /// What is left of the inputs, and the finished calls.
    pub memory: MemoryLink,
    ghost given: { as_given (left_until last_moment inputs.items) memory.trace ≡ memory.trace },
    ghost left: { left_after (left_until last_moment inputs.items) memory.trace ≡ memory.supply },
    ghost sound: { memory.failures.fails ≡ [] },
}

// The same inputs.
fn copied(alloc: Global, inputs: &[Input]) -> Result<Inputs, WireError>
    ensures ok { IfOk result (λ copies. copies ≡ inputs.now) }
    ensures memory { IfErr result (λ e. e ≡ NoMemory) }
{
    let mut copies = Inputs::new(alloc);
    for input in inputs {
        copies.push(input.copy()?)?;
    }
    Ok(copies)
}

impl ScriptLink {
    /// A link that was not called yet. `NoMemory` is the only error.
    pub fn new(alloc: Global, inputs: Vec<Input>, last_moment: u64) -> Result<ScriptLink, WireError>
        ensures inputs { IfOk result (λ link. link.inputs ≡ inputs) }
        ensures last_moment { IfOk result (λ link. link.last_moment ≡ last_moment) }
        ensures trace { IfOk result (λ link. link.memory.trace ≡ []) }
        ensures memory { IfErr result (λ e. e ≡ NoMemory) }
    {
        let left = copied(alloc, inputs.as_slice())?;
        Ok(ScriptLink {
            inputs,
            last_moment,
            memory: MemoryLink::ending_at(alloc, left, last_moment, Calls::new(alloc))?,
        })
    }
}

impl Link for ScriptLink {
    ghost use Rattle.std.specs.Prelude.{Some};
    ghost use Rattle.ssh_players.specs.Given.{trace_of};

    // It tells first what it gives, and then its calls.
    ghost trace = { λ link. trace_of link.inputs.items link.last_moment link.memory.trace };

    ghost faults = { λ _. 0 };

    ghost starved = { λ link. Some link.memory.starved };

    fn next(&mut self, commands: bool, replies: bool) -> Result<Input, LinkFault> {
        self.memory.next(commands, replies)
    }

    fn send(&mut self, frame: Frame) -> Result<(), LinkFault> {
        self.memory.send(frame)
    }

    fn notice(&mut self, notice: Notice) -> Result<(), LinkFault> {
        self.memory.notice(notice)
    }

    fn answer(&mut self, ticket: u64, outcome: CommandOutcome) -> Result<(), LinkFault> {
        self.memory.answer(ticket, outcome)
    }
}
