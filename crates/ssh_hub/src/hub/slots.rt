// The answers of the peer to requests of this side, the end of the hub, and the numbers of seats.
ghost use Rattle.std.specs.Prelude.{◌≡◌, ◌+◌, ◌<◌, ◌^◌, IfOk, OnErr};
ghost use Rattle.ssh_hub.specs.Step.{act};
ghost use Rattle.ssh_hub.specs.declared.history.HubCall.TheVariants.{DrawSlot, AnswerSlot};
ghost use Rattle.ssh_hub.specs.declared.history.HubCall.TheVariants.{TakeSlotAnswer};
ghost use Rattle.ssh_hub.specs.declared.history.HubCall.TheVariants.{EndHub, AskEnded, Nudge};
ghost use Rattle.ssh_hub.specs.declared.history.HubCall.TheVariants.{SplitSeat};
ghost use Rattle.ssh_hub.specs.declared.history.HubReply.TheVariants.{Done, SlotIs, SlotAnswerIs};
ghost use Rattle.ssh_hub.specs.declared.history.HubReply.TheVariants.{EndedAt, SeatIs};

use super::Hub;
use crate::answers::SlotAnswer;
use std::alloc::AllocError;

#[tactic(auto, unfolding(crate::specs::Step::act), using(std::proofs::lemmas::Map::Steps::set_value_same))]
impl Hub {
    /// The next slot, with room for its answer. After an error, for want of memory, the hub is
    /// unchanged.
    pub fn slot(&mut self, by: u64) -> Result<u64, AllocError>
        requires { self.old.slots + 1 < 2 ^ 64 }
        ensures ok { IfOk result (λ slot. act self.old by 0 DrawSlot ≡ (self.new, SlotIs slot)) }
        ensures err { OnErr result (self.new ≡ self.old) }
    {
        let _ = by;
        let slot = self.slots + 1;
        if self.answers.insert(slot, None).is_err() {
            return Err(AllocError);
        }
        self.slots = slot;
        Ok(slot)
    }

    /// Keeps the first answer of a slot that was given out, and else does nothing.
    pub fn slot_answer(&mut self, by: u64, slot: u64, answer: SlotAnswer)
        ensures { act self.old by 0 (AnswerSlot slot answer) ≡ (self.new, Done) }
    {
        let _ = by;
        if let Some(kept) = self.answers.get_mut(&slot) {
            if kept.is_none() {
                *kept = Some(answer);
            }
        }
    }

    /// Gives out the answer of the slot, once.
    pub fn slot_outcome(&mut self, by: u64, slot: u64) -> Option<SlotAnswer>
        ensures { act self.old by 0 (TakeSlotAnswer slot) ≡ (self.new, SlotAnswerIs result) }
    {
        let _ = by;
        let answer = self.answers.get(&slot).copied().flatten();
        if answer.is_some() {
            self.answers.remove(&slot);
        }
        answer
    }

    /// The hub ends, if it has not ended before.
    pub fn end(&mut self, by: u64)
        ensures { act self.old by 0 EndHub ≡ (self.new, Done) }
    {
        let _ = by;
        if self.ended.is_none() {
            self.ended = Some(self.place);
        }
    }

    /// The place at which the hub ended; none where it has not.
    pub fn ended(&self, by: u64) -> Option<u64>
        ensures { act self.now by 0 AskEnded ≡ (self.now, EndedAt result) }
    {
        let _ = by;
        self.ended
    }

    /// A call that changes nothing.
    pub fn nudge(&self, by: u64)
        ensures { act self.now by 0 Nudge ≡ (self.now, Done) }
    {
        let _ = by;
    }

    /// The number of a new seat.
    pub fn split(&mut self, by: u64) -> u64
        requires { self.old.seats + 1 < 2 ^ 64 }
        ensures { act self.old by 0 SplitSeat ≡ (self.new, SeatIs result) }
    {
        let _ = by;
        self.seats += 1;
        self.seats
    }
}
