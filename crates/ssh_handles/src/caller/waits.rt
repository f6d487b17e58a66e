// Calls that wait for what comes of a command, or of a request of this side.
ghost use Rattle.std.specs.Prelude.{◌≡◌};
ghost use Rattle.ssh_handles.specs.Callers.{hub_of, seen_by, HasOutcome, IsAnswered};
ghost use Rattle.ssh_handles.specs.Parts.{Opens, OpensAs, ClaimsIn, Claims, Asks, AnswersAs};
ghost use Rattle.ssh_handles.specs.Parts.{AnswersIn, opened_by};

use super::Caller;
use ssh_hub::{HandleError, SlotAnswer};
use ssh_link::{Command, CommandOutcome, Refusal};
use ssh_wire::ChannelId;
use std::sync::Wait;

impl Caller {
    // Waits for an entry behind the newest one of the seat, which follows the one at `tried`. Where
    // an entry of another seat stands between the two, it may be what is waited for.
    fn pause_after<R: Wait>(&self, rt: &R, tried: Option<u64>) {
        if let Some(tried) = tried {
            let next = tried.saturating_add(1);
            if self.seat.place() == Some(next) {
                self.lock.pause(rt, next);
            }
        }
    }

    // Waits for the outcome of the command with this ticket. `Ended` is the only error.
    pub fn outcome<R: Wait>(&mut self, rt: &R, ticket: u64) -> Result<CommandOutcome, HandleError>
        ensures hub { hub_of self.new ≡ hub_of self.old }
        ensures entries { HasOutcome ticket (seen_by self.old) result (seen_by self.new) }
    {
        for _ in rt.forever() {
            if let Some(outcome) = self.lock.outcome(rt, &mut self.seat, ticket) {
                return Ok(outcome);
            }
            let tried = self.seat.place();
            if let Some(at) = self.lock.ended(rt, &mut self.seat) {
                return Err(HandleError::Ended { at });
            }
            self.pause_after(rt, tried);
        }
        unreachable!()
    }

    // Waits for the answer of the slot. `Ended` is the only error.
    pub fn slot_answer<R: Wait>(&mut self, rt: &R, slot: u64) -> Result<SlotAnswer, HandleError>
        ensures hub { hub_of self.new ≡ hub_of self.old }
        ensures entries { IsAnswered slot (seen_by self.old) result (seen_by self.new) }
    {
        for _ in rt.forever() {
            if let Some(answer) = self.lock.slot_outcome(rt, &mut self.seat, slot) {
                return Ok(answer);
            }
            let tried = self.seat.place();
            if let Some(at) = self.lock.ended(rt, &mut self.seat) {
                return Err(HandleError::Ended { at });
            }
            self.pause_after(rt, tried);
        }
        unreachable!()
    }

    // Puts an open, and waits until the peer has confirmed it. The answer is the channel's number.
    pub fn opened<R: Wait>(&mut self, rt: &R, msg: Command) -> Result<ChannelId, HandleError>
        ensures hub { hub_of self.new ≡ hub_of self.old }
        ensures entries { Opens msg (seen_by self.old) result (seen_by self.new) }
    {
        match self.ticket(rt, msg, true) {
            Ok(ticket) => self.opened_as(rt, ticket),
            Err(e) => Err(e),
        }
    }

    // Waits for the outcome of an open, and for the peer's answer.
    fn opened_as<R: Wait>(&mut self, rt: &R, ticket: u64) -> Result<ChannelId, HandleError>
        ensures hub { hub_of self.new ≡ hub_of self.old }
        ensures entries { OpensAs ticket (seen_by self.old) result (seen_by self.new) }
    {
        match self.outcome(rt, ticket) {
            Ok(outcome) => self.claimed_in(rt, outcome),
            Err(e) => Err(e),
        }
    }

    // Claims the channel that an open has opened, and waits for the peer's answer.
    fn claimed_in<R: Wait>(
        &mut self,
        rt: &R,
        outcome: CommandOutcome,
    ) -> Result<ChannelId, HandleError>
        ensures hub { hub_of self.new ≡ hub_of self.old }
        ensures entries { ClaimsIn (opened_by outcome) (seen_by self.old) result
            (seen_by self.new) }
    {
        match opened_id(outcome) {
            Ok(id) => self.claimed(rt, id),
            Err(e) => Err(e),
        }
    }

    // Claims the channel, and waits for the peer's answer to its open.
    fn claimed<R: Wait>(&mut self, rt: &R, id: ChannelId) -> Result<ChannelId, HandleError>
        ensures hub { hub_of self.new ≡ hub_of self.old }
        ensures entries { Claims id (seen_by self.old) result (seen_by self.new) }
    {
        let is_ours = self.lock.claim(rt, &mut self.seat, id);
        if !is_ours {
            return Err(HandleError::Refused(Refusal::UnknownChannel));
        }
        match self.confirmed(rt, id) {
            Ok(()) => Ok(id),
            Err(e) => Err(e),
        }
    }

    // Puts a request that is answered under this slot, and waits for the answer.
    pub fn answered<R: Wait>(
        &mut self,
        rt: &R,
        slot: u64,
        msg: Command,
    ) -> Result<SlotAnswer, HandleError>
        ensures hub { hub_of self.new ≡ hub_of self.old }
        ensures entries { Asks slot msg (seen_by self.old) result (seen_by self.new) }
    {
        match self.ticket(rt, msg, true) {
            Ok(ticket) => self.answered_as(rt, slot, ticket),
            Err(e) => Err(e),
        }
    }

    // Waits for the outcome of a request, and for the peer's answer.
    fn answered_as<R: Wait>(
        &mut self,
        rt: &R,
        slot: u64,
        ticket: u64,
    ) -> Result<SlotAnswer, HandleError>
        ensures hub { hub_of self.new ≡ hub_of self.old }
        ensures entries { AnswersAs slot ticket (seen_by self.old) result (seen_by self.new) }
    {
        match self.outcome(rt, ticket) {
            Ok(outcome) => self.answered_in(rt, slot, outcome),
            Err(e) => Err(e),
        }
    }

    // Waits for the peer's answer to a request with this outcome.
    fn answered_in<R: Wait>(
        &mut self,
        rt: &R,
        slot: u64,
        outcome: CommandOutcome,
    ) -> Result<SlotAnswer, HandleError>
        ensures hub { hub_of self.new ≡ hub_of self.old }
        ensures entries { AnswersIn slot outcome (seen_by self.old) result (seen_by self.new) }
    {
        match outcome {
            CommandOutcome::Refused(why) => Err(HandleError::Refused(why)),
            CommandOutcome::Accepted => self.slot_answer(rt, slot),
            CommandOutcome::Opened(_) => self.slot_answer(rt, slot),
        }
    }
}

// The channel that an open has opened.
fn opened_id(outcome: CommandOutcome) -> Result<ChannelId, HandleError>
    ensures { result ≡ opened_by outcome }
{
    match outcome {
        CommandOutcome::Opened(id) => Ok(id),
        CommandOutcome::Accepted => Err(HandleError::Refused(Refusal::UnknownChannel)),
        CommandOutcome::Refused(why) => Err(HandleError::Refused(why)),
    }
}
