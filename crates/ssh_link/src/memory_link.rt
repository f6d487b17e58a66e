// A link in memory.
ghost use Rattle.std.specs.Prelude.{◌≡◌, ◌≤◌, ◌↔◌, Some, IfOk, IfErr, OnOk, OnErr, IsErrOf, IsTrue};
ghost use Rattle.ssh_wire.specs.declared.error.WireError.TheVariants.{NoMemory};
ghost use Rattle.ssh_link.specs.declared.link.TraceEntry.TheVariants.{Took, Sent, Noticed};
ghost use Rattle.ssh_link.specs.declared.link.TraceEntry.TheVariants.{Answered};
ghost use Rattle.ssh_link.specs.Told.{AddsOne, AddsNothing};
ghost use Rattle.ssh_link.specs.Asked.{IsAsked};
ghost use Rattle.ssh_link.specs.Faults.{Rose, NeverFalls, RoseIfKept, one_more};
ghost use Rattle.ssh_link.specs.Supply.{next_input};
ghost use Rattle.ssh_link.specs.Memory.{unused, unused_until, failed, finished, gave, fails_next};

use crate::failures::PlannedFailures;
use crate::input_queue::InputQueue;
use crate::lists::pushed;
use crate::{Calls, CommandOutcome, Frame, Input, Inputs, Link, LinkFault, Notice, TraceEntry};
use ssh_wire::WireError;
use std::alloc::Global;
use std::marker::Model;

/// A link in memory. It gives its inputs in order, and behind the last of them the end. A command
/// or a reply to an open that is not asked for is set aside, and comes first once it is asked for,
/// replies before commands. The calls whose numbers it was given fail; all kinds of call are
/// counted together, from 1. It tells its finished calls.
#[derive(Debug, Drop)]
pub struct MemoryLink {
    inputs: InputQueue,
    failures: PlannedFailures,
    // How many of the other calls found no memory. A full count stands still.
    starved: u64,
    trace: Vec<TraceEntry>,
}

impl Model for MemoryLink {
    ghost use Rattle.ssh_link.specs.Memory.{Remembered};

    ghost Value = { Remembered };

    ghost view = { λ link. record {
      supply = link.inputs;
      failures = link.failures;
      starved = link.starved;
      trace =
          link.trace.items;
    } };
}

impl MemoryLink {
    /// A link with these inputs, whose calls with these numbers fail. The end comes at the moment
    /// of the last input, or at 0 where there is none. `NoMemory` is the only error.
    pub fn new(alloc: Global, inputs: Inputs, fails: Calls) -> Result<MemoryLink, WireError>
        ensures ok { IfOk result (λ link. link ≡ unused inputs fails) }
        ensures memory { IfErr result (λ e. e ≡ NoMemory) }
    {
        Ok(MemoryLink {
            inputs: InputQueue::new(alloc, inputs)?,
            failures: PlannedFailures::new(fails),
            starved: 0,
            trace: Vec::new(alloc),
        })
    }

    /// A link with these inputs and the end at this moment, in milliseconds since 1970, whose calls
    /// with these numbers fail. `NoMemory` is the only error.
    pub fn ending_at(
        alloc: Global,
        inputs: Inputs,
        end_moment: u64,
        fails: Calls,
    ) -> Result<MemoryLink, WireError>
        ensures ok { IfOk result (λ link. link ≡ unused_until end_moment inputs fails) }
        ensures memory { IfErr result (λ e. e ≡ NoMemory) }
    {
        Ok(MemoryLink {
            inputs: InputQueue::ending_at(alloc, inputs, end_moment)?,
            failures: PlannedFailures::new(fails),
            starved: 0,
            trace: Vec::new(alloc),
        })
    }

    /// The finished calls, in order.
    pub fn trace(&self) -> &[TraceEntry]
        ensures { result.now ≡ self.now.trace }
    {
        self.trace.as_slice()
    }

    /// How many calls were made so far, finished or not, all kinds counted together: the number of
    /// the last one.
    pub fn calls(&self) -> u64
        ensures { result ≡ self.now.failures.calls }
    {
        self.failures.calls()
    }

    /// How many of its calls failed as planned.
    pub fn faults(&self) -> u64
        ensures { result ≡ self.now.failures.faults }
    {
        self.failures.faults()
    }

    // A call that is to be told so, where it does not fail.
    fn finish(&mut self, entry: TraceEntry) -> Result<(), LinkFault>
        ensures finished { OnOk result (self.new ≡ finished self.old entry) }
        ensures failed { IfErr result (λ fault. self.new ≡ failed fault self.old) }
        ensures planned { IsErrOf result LinkFault.Failed ↔ IsTrue (fails_next self.old.failures) }
        ensures later { self.old.starved ≤ self.new.starved }
    {
        if self.failures.next_fails() {
            drop(entry);
            return Err(LinkFault::Failed);
        }
        if pushed(&mut self.trace, entry).is_err() {
            return Err(self.starve());
        }
        Ok(())
    }

    // A call that found no memory.
    fn starve(&mut self) -> LinkFault
        ensures fault { result ≡ LinkFault.NoMemory }
        ensures counted { self.new ≡ record self.old { starved = one_more self.old.starved } }
        ensures later { self.old.starved ≤ self.new.starved }
    {
        self.starved = self.starved.saturating_add(1);
        LinkFault::NoMemory
    }
}

impl Link for MemoryLink {
    ghost trace = { λ link. Some link.trace };

    ghost faults = { λ link. link.failures.faults };

    ghost starved = { λ link. Some link.starved };

    fn next(&mut self, commands: bool, replies: bool) -> Result<Input, LinkFault>
        ensures took { IfOk result (λ input. AddsOne (Some self.old.trace) (Some self.new.trace)
            (Took commands replies input)) }
        ensures asked { IfOk result (λ input. IsAsked commands replies input.kind) }
        ensures err { OnErr result (AddsNothing (Some self.old.trace) (Some self.new.trace)) }
        ensures cause { IsErrOf result LinkFault.Failed
            → Rose self.old.failures.faults self.new.failures.faults }
        ensures quiet { OnOk result (self.new.failures.faults ≡ self.old.failures.faults) }
        ensures memory { IsErrOf result LinkFault.NoMemory
            → RoseIfKept (Some self.old.starved) (Some self.new.starved) }
        ensures later { self.old.failures.faults ≤ self.new.failures.faults }
        ensures counted { NeverFalls (Some self.old.starved) (Some self.new.starved) }
        ensures given { IfOk result (λ input. (input ≡ next_input commands replies self.old.supply)
            × (self.new ≡ gave commands replies self.old)) }
        ensures failed { IfErr result (λ fault. self.new ≡ failed fault self.old) }
        ensures planned { IsErrOf result LinkFault.Failed ↔ IsTrue (fails_next self.old.failures) }
    {
        if self.failures.next_fails() {
            return Err(LinkFault::Failed);
        }
        let Ok(input) = self.inputs.copy_next(commands, replies) else {
            return Err(self.starve());
        };
        let entry = TraceEntry::Took {
            commands,
            replies,
            input,
        };
        if pushed(&mut self.trace, entry).is_err() {
            return Err(self.starve());
        }
        Ok(self.inputs.give_next(commands, replies))
    }

    fn send(&mut self, frame: Frame) -> Result<(), LinkFault>
        ensures sent { OnOk result (AddsOne (Some self.old.trace) (Some self.new.trace)
            (Sent frame)) }
        ensures err { OnErr result (AddsNothing (Some self.old.trace) (Some self.new.trace)) }
        ensures cause { IsErrOf result LinkFault.Failed
            → Rose self.old.failures.faults self.new.failures.faults }
        ensures quiet { OnOk result (self.new.failures.faults ≡ self.old.failures.faults) }
        ensures memory { IsErrOf result LinkFault.NoMemory
            → RoseIfKept (Some self.old.starved) (Some self.new.starved) }
        ensures later { self.old.failures.faults ≤ self.new.failures.faults }
        ensures counted { NeverFalls (Some self.old.starved) (Some self.new.starved) }
        ensures finished { OnOk result (self.new ≡ finished self.old (Sent frame)) }
        ensures failed { IfErr result (λ fault. self.new ≡ failed fault self.old) }
        ensures planned { IsErrOf result LinkFault.Failed ↔ IsTrue (fails_next self.old.failures) }
    {
        self.finish(TraceEntry::Sent(frame))
    }

    fn notice(&mut self, notice: Notice) -> Result<(), LinkFault>
        ensures noticed { OnOk result (AddsOne (Some self.old.trace) (Some self.new.trace)
            (Noticed notice)) }
        ensures err { OnErr result (AddsNothing (Some self.old.trace) (Some self.new.trace)) }
        ensures cause { IsErrOf result LinkFault.Failed
            → Rose self.old.failures.faults self.new.failures.faults }
        ensures quiet { OnOk result (self.new.failures.faults ≡ self.old.failures.faults) }
        ensures memory { IsErrOf result LinkFault.NoMemory
            → RoseIfKept (Some self.old.starved) (Some self.new.starved) }
        ensures later { self.old.failures.faults ≤ self.new.failures.faults }
        ensures counted { NeverFalls (Some self.old.starved) (Some self.new.starved) }
        ensures finished { OnOk result (self.new ≡ finished self.old (Noticed notice)) }
        ensures failed { IfErr result (λ fault. self.new ≡ failed fault self.old) }
        ensures planned { IsErrOf result LinkFault.Failed ↔ IsTrue (fails_next self.old.failures) }
    {
        self.finish(TraceEntry::Noticed(notice))
    }

    fn answer(&mut self, ticket: u64, outcome: CommandOutcome) -> Result<(), LinkFault>
        ensures answered { OnOk result (AddsOne (Some self.old.trace) (Some self.new.trace)
            (Answered ticket outcome)) }
        ensures err { OnErr result (AddsNothing (Some self.old.trace) (Some self.new.trace)) }
        ensures cause { IsErrOf result LinkFault.Failed
            → Rose self.old.failures.faults self.new.failures.faults }
        ensures quiet { OnOk result (self.new.failures.faults ≡ self.old.failures.faults) }
        ensures memory { IsErrOf result LinkFault.NoMemory
            → RoseIfKept (Some self.old.starved) (Some self.new.starved) }
        ensures later { self.old.failures.faults ≤ self.new.failures.faults }
        ensures counted { NeverFalls (Some self.old.starved) (Some self.new.starved) }
        ensures finished { OnOk result (self.new ≡ finished self.old (Answered ticket outcome)) }
        ensures failed { IfErr result (λ fault. self.new ≡ failed fault self.old) }
        ensures planned { IsErrOf result LinkFault.Failed ↔ IsTrue (fails_next self.old.failures) }
    {
        self.finish(TraceEntry::Answered(ticket, outcome))
    }
}
