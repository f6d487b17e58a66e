// What came of commands and replies.
ghost use Rattle.std.specs.Prelude.{◌≡◌, IfOk, IfErr, OnErr};
ghost use Rattle.ssh_hub.specs.Words.{IsSeatOf, HasCalled, HasLearned, room_of};
ghost use Rattle.ssh_hub.specs.declared.answers.HandleError.TheVariants.{NoMemory};
ghost use Rattle.ssh_hub.specs.declared.history.HubCall.TheVariants.{AnswerTicket, TakeOutcome};
ghost use Rattle.ssh_hub.specs.declared.history.HubCall.TheVariants.{AskRefusal};
ghost use Rattle.ssh_hub.specs.declared.history.HubReply.TheVariants.{Done, OutcomeIs, RefusalIs};

use super::{HubLock, Seat};
use crate::answers::HandleError;
use ssh_link::{CommandOutcome, Refusal};
use std::marker::Brand;
use std::sync::Wait;

#[tactic(auto, using(crate::proofs::Made::makes_later, crate::proofs::Made::learns_still))]
impl HubLock {
    /// What came of the command or reply with this ticket. It does nothing where that is not what
    /// was taken last, or was answered before. After `NoMemory`, the only error, the hub is
    /// unchanged.
    pub fn answer<R: Wait>(
        &self,
        rt: &R,
        seat: &mut Seat,
        ticket: u64,
        outcome: CommandOutcome,
    ) -> Result<(), HandleError>
        requires { IsSeatOf self.now seat.old }
        ensures seat { IsSeatOf self.now seat.new }
        ensures room { room_of seat.new ≡ room_of seat.old }
        ensures call { IfOk result (λ _. HasCalled seat.old (AnswerTicket ticket outcome) Done
            seat.new) }
        ensures memory { IfErr result (λ e. e ≡ NoMemory) }
        ensures no_call { OnErr result (HasLearned seat.old seat.new) }
    {
        let mut hub = self.enter(rt, &mut seat.inner);
        let Ok(answer) = hub.answer(seat.number, ticket, outcome) else {
            self.give_up(&mut seat.inner, hub);
            return Err(HandleError::NoMemory);
        };
        seat.place = self.finish::<Brand, (u64, CommandOutcome), ()>(
            &mut seat.inner,
            hub,
            &(ticket, outcome),
            &answer,
        );
        Ok(answer)
    }

    /// Gives out the kept outcome of the command with this ticket, once.
    pub fn outcome<R: Wait>(&self, rt: &R, seat: &mut Seat, ticket: u64) -> Option<CommandOutcome>
        requires { IsSeatOf self.now seat.old }
        ensures seat { IsSeatOf self.now seat.new }
        ensures room { room_of seat.new ≡ room_of seat.old }
        ensures call { HasCalled seat.old (TakeOutcome ticket) (OutcomeIs result) seat.new }
    {
        let mut hub = self.enter(rt, &mut seat.inner);
        let answer = hub.outcome(seat.number, ticket);
        seat.place = self.finish::<Brand, u64, Option<CommandOutcome>>(
            &mut seat.inner,
            hub,
            &ticket,
            &answer,
        );
        answer
    }

    /// The newest refusal of this seat: the ticket of the command, and why it was refused.
    pub fn refusal<R: Wait>(&self, rt: &R, seat: &mut Seat) -> Option<(u64, Refusal)>
        requires { IsSeatOf self.now seat.old }
        ensures seat { IsSeatOf self.now seat.new }
        ensures room { room_of seat.new ≡ room_of seat.old }
        ensures call { HasCalled seat.old AskRefusal (RefusalIs result) seat.new }
    {
        let hub = self.enter(rt, &mut seat.inner);
        let answer = hub.refusal(seat.number);
        seat.place = self.finish::<Brand, (), Option<(u64, Refusal)>>(
            &mut seat.inner,
            hub,
            &(),
            &answer,
        );
        answer
    }
}
