// A hub's link is a link.
ghost use Rattle.std.specs.Prelude.{◌≡◌, ◌≤◌, None, IfOk, OnOk, OnErr, IsErrOf};
ghost use Rattle.ssh_link.specs.declared.link.TraceEntry.TheVariants.{Took, Sent, Noticed};
ghost use Rattle.ssh_link.specs.declared.link.TraceEntry.TheVariants.{Answered};
ghost use Rattle.ssh_link.specs.declared.link.LinkFault.TheVariants.{Failed};
ghost use Rattle.ssh_link.specs.Told.{AddsOne, AddsNothing};
ghost use Rattle.ssh_link.specs.Asked.{IsAsked};
ghost use Rattle.ssh_link.specs.Faults.{Rose};
ghost use Rattle.ssh_hub.specs.Words.{view_of, HasCalled, HasLearned};
ghost use Rattle.ssh_hub.specs.declared.history.HubCall.TheVariants.{AnswerTicket};
ghost use Rattle.ssh_hub.specs.declared.history.HubReply.TheVariants.{Done};
ghost use Rattle.ssh_hub_link.specs.Linked.{IsSameLink};
ghost use Rattle.ssh_hub_link.specs.Rounds.{Gives};
ghost use Rattle.ssh_hub_link.specs.Notices.{Notices};

use super::HubLink;
use crate::entries::{add_noticed, add_sent};
use crate::feed::Feed;
use crate::notices::tell;
use ssh_link::{CommandOutcome, Frame, Input, Link, LinkFault, Notice, TraceEntry};
use std::sync::Wait;

impl<R: Wait + Clone + Drop, F: Feed> Link for HubLink<R, F> {
    ghost trace = { λ l. l.trace };

    ghost faults = { λ l. F.faults l.feed };

    fn next(&mut self, commands: bool, replies: bool) -> Result<Input, LinkFault>
        ensures took { IfOk result (λ input. AddsOne self.old.trace self.new.trace
            (Took commands replies input)) }
        ensures asked { IfOk result (λ input. IsAsked commands replies input.kind) }
        ensures err { OnErr result (AddsNothing self.old.trace self.new.trace) }
        ensures cause { IsErrOf result Failed
            → Rose (F.faults self.old.feed) (F.faults self.new.feed) }
        ensures later { F.faults self.old.feed ≤ F.faults self.new.feed }
        ensures same { IsSameLink self.old self.new }
        ensures whole { OnOk result (self.new.lost ≡ None) }
        ensures rounds { IfOk result (λ input. Gives F.polls F.waits commands replies
            (view_of self.old.seat) self.old.feed input (view_of self.new.seat) self.new.feed) }
    {
        if self.lost.is_some() {
            return Err(LinkFault::NoMemory);
        }
        let Ok(rt) = self.rt.clone() else {
            return Err(LinkFault::NoMemory);
        };
        for _ in rt.forever() {
            match self.round(commands, replies) {
                Ok(None) => {}
                Ok(Some(input)) => return Ok(input),
                Err(fault) => return Err(fault),
            }
        }
        unreachable!()
    }

    fn send(&mut self, frame: Frame) -> Result<(), LinkFault>
        ensures sent { OnOk result (AddsOne self.old.trace self.new.trace (Sent frame)) }
        ensures err { OnErr result (AddsNothing self.old.trace self.new.trace) }
        ensures cause { IsErrOf result Failed
            → Rose (F.faults self.old.feed) (F.faults self.new.feed) }
        ensures later { F.faults self.old.feed ≤ F.faults self.new.feed }
        ensures same { IsSameLink self.old self.new × (self.new.lost ≡ self.old.lost) }
        ensures seat { self.new.seat ≡ self.old.seat }
    {
        if let Err(fault) = add_sent(&mut self.trace, &frame) {
            drop(frame);
            return Err(fault);
        }
        match self.feed.send(frame) {
            Ok(()) => Ok(()),
            Err(fault) => {
                self.trace.undo();
                Err(fault)
            }
        }
    }

    fn notice(&mut self, notice: Notice) -> Result<(), LinkFault>
        ensures noticed { OnOk result (AddsOne self.old.trace self.new.trace (Noticed notice)) }
        ensures err { OnErr result (AddsNothing self.old.trace self.new.trace) }
        ensures cause { IsErrOf result Failed
            → Rose (F.faults self.old.feed) (F.faults self.new.feed) }
        ensures later { F.faults self.old.feed ≤ F.faults self.new.feed }
        ensures same { IsSameLink self.old self.new × (self.new.lost ≡ self.old.lost) }
        ensures feed { self.new.feed ≡ self.old.feed }
        ensures calls { OnOk result (Notices notice (view_of self.old.seat)
            (view_of self.new.seat)) }
    {
        if let Err(fault) = add_noticed(&mut self.trace, &notice) {
            drop(notice);
            return Err(fault);
        }
        match tell(&self.rt, &self.lock, &mut self.seat, notice) {
            Ok(()) => Ok(()),
            Err(fault) => {
                self.trace.undo();
                Err(fault)
            }
        }
    }

    fn answer(&mut self, ticket: u64, outcome: CommandOutcome) -> Result<(), LinkFault>
        ensures answered { OnOk result (AddsOne self.old.trace self.new.trace
            (Answered ticket outcome)) }
        ensures err { OnErr result (AddsNothing self.old.trace self.new.trace) }
        ensures cause { IsErrOf result Failed
            → Rose (F.faults self.old.feed) (F.faults self.new.feed) }
        ensures later { F.faults self.old.feed ≤ F.faults self.new.feed }
        ensures same { IsSameLink self.old self.new × (self.new.lost ≡ self.old.lost) }
        ensures feed { self.new.feed ≡ self.old.feed }
        ensures calls { OnOk result (HasCalled self.old.seat (AnswerTicket ticket outcome) Done
            self.new.seat) }
    {
        if let Err(fault) = self.trace.add(TraceEntry::Answered(ticket, outcome)) {
            return Err(fault);
        }
        match self.lock.answer(&self.rt, &mut self.seat, ticket, outcome) {
            Ok(()) => Ok(()),
            Err(_) => {
                self.trace.undo();
                Err(LinkFault::NoMemory)
            }
        }
    }
}
