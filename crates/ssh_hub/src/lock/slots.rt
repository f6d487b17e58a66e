// What the peer answered to requests of this side, and the end of the hub.
ghost use Rattle.std.specs.Prelude.{◌≡◌, IfOk, IfErr, OnErr};
ghost use Rattle.ssh_hub.specs.Words.{IsSeatOf, HasCalled, HasLearned, room_of};
ghost use Rattle.ssh_hub.specs.declared.answers.HandleError.TheVariants.{NoMemory};
ghost use Rattle.ssh_hub.specs.declared.history.HubCall.TheVariants.{DrawSlot, AnswerSlot};
ghost use Rattle.ssh_hub.specs.declared.history.HubCall.TheVariants.{TakeSlotAnswer};
ghost use Rattle.ssh_hub.specs.declared.history.HubCall.TheVariants.{EndHub, AskEnded, Nudge};
ghost use Rattle.ssh_hub.specs.declared.history.HubReply.TheVariants.{Done, SlotIs, SlotAnswerIs};
ghost use Rattle.ssh_hub.specs.declared.history.HubReply.TheVariants.{EndedAt};

use super::{HubLock, Seat};
use crate::answers::{HandleError, SlotAnswer};
use std::marker::Brand;
use std::sync::Wait;

#[tactic(auto, using(crate::proofs::Made::makes_later, crate::proofs::Made::learns_still))]
impl HubLock {
    /// The next slot, from 1, with room for its answer. After `NoMemory`, the only error, the hub
    /// is unchanged.
    pub fn slot<R: Wait>(&self, rt: &R, seat: &mut Seat) -> Result<u64, HandleError>
        requires { IsSeatOf self.now seat.old }
        ensures seat { IsSeatOf self.now seat.new }
        ensures room { room_of seat.new ≡ room_of seat.old }
        ensures call { IfOk result (λ r. HasCalled seat.old DrawSlot (SlotIs r) seat.new) }
        ensures memory { IfErr result (λ e. e ≡ NoMemory) }
        ensures no_call { OnErr result (HasLearned seat.old seat.new) }
    {
        let mut hub = self.enter(rt, &mut seat.inner);
        let Ok(answer) = hub.slot(seat.number) else {
            self.give_up(&mut seat.inner, hub);
            return Err(HandleError::NoMemory);
        };
        seat.place = self.finish::<Brand, (), u64>(&mut seat.inner, hub, &(), &answer);
        Ok(answer)
    }

    /// Keeps the first answer of a slot that was given out, and else does nothing.
    pub fn slot_answer<R: Wait>(&self, rt: &R, seat: &mut Seat, slot: u64, answer: SlotAnswer)
        requires { IsSeatOf self.now seat.old }
        ensures seat { IsSeatOf self.now seat.new }
        ensures room { room_of seat.new ≡ room_of seat.old }
        ensures call { HasCalled seat.old (AnswerSlot slot answer) Done seat.new }
    {
        let mut hub = self.enter(rt, &mut seat.inner);
        hub.slot_answer(seat.number, slot, answer);
        seat.place = self.finish::<Brand, (u64, SlotAnswer), ()>(
            &mut seat.inner,
            hub,
            &(slot, answer),
            &(),
        );
    }

    /// Gives out the answer of the slot, once.
    pub fn slot_outcome<R: Wait>(&self, rt: &R, seat: &mut Seat, slot: u64) -> Option<SlotAnswer>
        requires { IsSeatOf self.now seat.old }
        ensures seat { IsSeatOf self.now seat.new }
        ensures room { room_of seat.new ≡ room_of seat.old }
        ensures call { HasCalled seat.old (TakeSlotAnswer slot) (SlotAnswerIs result) seat.new }
    {
        let mut hub = self.enter(rt, &mut seat.inner);
        let answer = hub.slot_outcome(seat.number, slot);
        seat.place = self.finish::<Brand, u64, Option<SlotAnswer>>(
            &mut seat.inner,
            hub,
            &slot,
            &answer,
        );
        answer
    }

    /// The hub ends, at the place of this call. A later end changes nothing.
    pub fn end<R: Wait>(&self, rt: &R, seat: &mut Seat)
        requires { IsSeatOf self.now seat.old }
        ensures seat { IsSeatOf self.now seat.new }
        ensures room { room_of seat.new ≡ room_of seat.old }
        ensures call { HasCalled seat.old EndHub Done seat.new }
    {
        let mut hub = self.enter(rt, &mut seat.inner);
        hub.end(seat.number);
        seat.place = self.finish::<Brand, (), ()>(&mut seat.inner, hub, &(), &());
    }

    /// The place at which the hub ended; none where it has not.
    pub fn ended<R: Wait>(&self, rt: &R, seat: &mut Seat) -> Option<u64>
        requires { IsSeatOf self.now seat.old }
        ensures seat { IsSeatOf self.now seat.new }
        ensures room { room_of seat.new ≡ room_of seat.old }
        ensures call { HasCalled seat.old AskEnded (EndedAt result) seat.new }
    {
        let hub = self.enter(rt, &mut seat.inner);
        let answer = hub.ended(seat.number);
        seat.place = self.finish::<Brand, (), Option<u64>>(&mut seat.inner, hub, &(), &answer);
        answer
    }

    /// An event that changes nothing, for those who pause.
    pub fn nudge<R: Wait>(&self, rt: &R, seat: &mut Seat)
        requires { IsSeatOf self.now seat.old }
        ensures seat { IsSeatOf self.now seat.new }
        ensures room { room_of seat.new ≡ room_of seat.old }
        ensures call { HasCalled seat.old Nudge Done seat.new }
    {
        let hub = self.enter(rt, &mut seat.inner);
        hub.nudge(seat.number);
        seat.place = self.finish::<Brand, (), ()>(&mut seat.inner, hub, &(), &());
    }
}
