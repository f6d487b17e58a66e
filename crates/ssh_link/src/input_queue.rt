// The inputs that a link in memory has still to give.
ghost use Rattle.std.specs.Prelude.{◌≡◌, ◌⊎◌, [], ◌∷◌, false, true, None, Some, IfOk, IfErr};
ghost use Rattle.std.specs.Prelude.{MatchOption};
ghost use Rattle.std.specs.List.{position, slice_get};
ghost use Rattle.std.specs.VecDeque.{deque_capacity};
ghost use Rattle.ssh_wire.specs.declared.error.WireError.TheVariants.{NoMemory};
ghost use Rattle.ssh_link.specs.Supply.{all_left, left_until, last_moment};
ghost use Rattle.ssh_link.specs.Supply.{input_or_end, next_input, after_next, passed_over};
ghost use Rattle.ssh_link.specs.Waiting.{first_passes, first_waits, first_aside};
ghost use Rattle.ssh_link.specs.Asked.{is_asked};

use crate::{Input, InputKind, Inputs};
use ssh_wire::WireError;
use std::alloc::Global;
use std::collections::VecDeque;
use std::marker::Model;

// Inputs that are given in order. A command or a reply to an open that is not asked for is set
// aside, each kind in a queue of its own, which has room for all of them from the start: so giving
// an input takes no memory, and each input is moved twice at most.
#[derive(Debug, Drop)]
pub(crate) struct InputQueue {
    replies: VecDeque<Input>,
    commands: VecDeque<Input>,
    left: VecDeque<Input>,
    end_moment: u64,
}

impl Model for InputQueue {
    ghost use Rattle.std.specs.Prelude.{length, true, ◌≡◌, ◌+◌, ◌≤◌};
    ghost use Rattle.std.specs.List.{list_all};
    ghost use Rattle.std.specs.VecDeque.{deque_capacity};
    ghost use Rattle.ssh_link.specs.Supply.{Supply, is_command, is_reply};

    ghost Value = { Supply };

    ghost view = { λ queue. record {
      replies = queue.replies.items;
      commands = queue.commands.items;
      left = queue.left.items;
      end_moment = queue.end_moment;
    } };

    ghost invariant = { λ queue.
        (list_all (λ input. is_reply input.kind) queue.replies.items ≡ true)
        × (list_all (λ input. is_command input.kind) queue.commands.items ≡ true)
        × (length queue.replies.items + length queue.left.items ≤ deque_capacity queue.replies)
        × (length queue.commands.items + length queue.left.items ≤ deque_capacity queue.commands) };
}

// The moment of the last input, and 0 where there is none.
fn last_moment(inputs: &[Input]) -> u64
    ensures { result ≡ last_moment inputs.now }
{
    match inputs.last() {
        Some(input) => input.moment,
        None => 0,
    }
}

// The end, at this moment.
fn end_at(moment: u64) -> Input
    ensures { result ≡ input_or_end None moment }
{
    Input {
        moment,
        kind: InputKind::End,
    }
}

// The place of the first input that is asked for.
fn asked_place(inputs: &VecDeque<Input>, commands: bool, replies: bool) -> Option<usize>
    ensures { result ≡ position (λ input. is_asked commands replies input.kind) inputs.now.items }
{
    inputs
        .iter()
        .position(|input| input.kind.is_asked(commands, replies))
}

// Takes the first of these inputs out, where they are asked for.
fn take_asked(inputs: &mut VecDeque<Input>, asked: bool) -> Option<Input>
    ensures taken { MatchOption result
        (((asked ≡ false) ⊎ (inputs.old.items ≡ [])) × (inputs.new.items ≡ inputs.old.items))
        (λ input. (asked ≡ true) × (inputs.old.items ≡ input ∷ inputs.new.items)) }
    ensures room { deque_capacity inputs.new ≡ deque_capacity inputs.old }
{
    if asked { inputs.pop_front() } else { None }
}

// A copy of the first of these inputs, where they are asked for.
fn copy_asked(inputs: &VecDeque<Input>, asked: bool) -> Result<Option<Input>, WireError>
    ensures ok { IfOk result (λ copied. MatchOption copied
        ((asked ≡ false) ⊎ (inputs.now.items ≡ []))
        (λ input. (asked ≡ true) × (slice_get inputs.now.items 0 ≡ Some input))) }
    ensures memory { IfErr result (λ e. e ≡ NoMemory) }
{
    match inputs.front() {
        Some(input) if asked => Ok(Some(input.copy()?)),
        _ => Ok(None),
    }
}

impl InputQueue {
    // All these inputs, and the end at the moment of the last of them. `NoMemory` is the only
    // error.
    pub(crate) fn new(alloc: Global, inputs: Inputs) -> Result<InputQueue, WireError>
        ensures ok { IfOk result (λ queue. queue ≡ all_left inputs) }
        ensures memory { IfErr result (λ e. e ≡ NoMemory) }
    {
        let end_moment = last_moment(inputs.as_slice());
        InputQueue::ending_at(alloc, inputs, end_moment)
    }

    // All these inputs, and the end at this moment. `NoMemory` is the only error.
    pub(crate) fn ending_at(
        alloc: Global,
        inputs: Inputs,
        end_moment: u64,
    ) -> Result<InputQueue, WireError>
        ensures ok { IfOk result (λ queue. queue ≡ left_until end_moment inputs) }
        ensures memory { IfErr result (λ e. e ≡ NoMemory) }
    {
        let left = VecDeque::from(inputs.into_vec());
        let count = left.len();
        Ok(InputQueue {
            replies: VecDeque::with_capacity(alloc, count)?,
            commands: VecDeque::with_capacity(alloc, count)?,
            left,
            end_moment,
        })
    }

    // A copy of the input that comes next. `NoMemory` is the only error.
    pub(crate) fn copy_next(&self, commands: bool, replies: bool) -> Result<Input, WireError>
        ensures ok { IfOk result (λ input. input ≡ next_input commands replies self.now) }
        ensures memory { IfErr result (λ e. e ≡ NoMemory) }
    {
        if let Some(reply) = copy_asked(&self.replies, replies)? {
            return Ok(reply);
        }
        if let Some(command) = copy_asked(&self.commands, commands)? {
            return Ok(command);
        }
        match asked_place(&self.left, commands, replies) {
            Some(place) => self.left[place].copy(),
            None => Ok(end_at(self.end_moment)),
        }
    }

    // Whether the first input that was not reached yet is there and is not asked for.
    fn passes_first(&self, commands: bool, replies: bool) -> bool
        ensures { result ≡ first_passes commands replies self.now.left }
    {
        match self.left.front() {
            Some(input) => !input.kind.is_asked(commands, replies),
            None => false,
        }
    }

    // Sets the first input that was not reached yet aside.
    fn set_first_aside(&mut self)
        requires { first_waits self.old.left ≡ true }
        ensures { self.new ≡ first_aside self.old }
    {
        let Some(input) = self.left.pop_front() else {
            return;
        };
        if input.kind.is_reply() {
            self.replies.push_back_reserved(input);
        } else {
            self.commands.push_back_reserved(input);
        }
    }

    // Sets the inputs that were not reached yet aside, up to the first that is asked for.
    fn pass_over(&mut self, commands: bool, replies: bool)
        ensures { self.new ≡ passed_over (λ input. is_asked commands replies input.kind) self.old }
    {
        while self.passes_first(commands, replies) {
            self.set_first_aside();
        }
    }

    // Gives the input that comes next.
    pub(crate) fn give_next(&mut self, commands: bool, replies: bool) -> Input
        ensures input { result ≡ next_input commands replies self.old }
        ensures after { self.new ≡ after_next commands replies self.old }
    {
        if let Some(reply) = take_asked(&mut self.replies, replies) {
            return reply;
        }
        if let Some(command) = take_asked(&mut self.commands, commands) {
            return command;
        }
        self.pass_over(commands, replies);
        let Some(input) = self.left.pop_front() else {
            return end_at(self.end_moment);
        };
        input
    }
}
