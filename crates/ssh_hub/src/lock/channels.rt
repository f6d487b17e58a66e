// The calls on one channel.
ghost use Rattle.std.specs.Prelude.{◌≡◌, ◌<◌, true, IfOk, IfErr, OnErr};
ghost use Rattle.ssh_hub.specs.Words.{IsSeatOf, HasCalled, HasLearned, has_room_for, room_of};
ghost use Rattle.ssh_hub.specs.declared.answers.HandleError.TheVariants.{NoMemory};
ghost use Rattle.ssh_hub.specs.declared.history.HubCall.TheVariants.{ReserveBytes, ReleaseBytes};
ghost use Rattle.ssh_hub.specs.declared.history.HubCall.TheVariants.{GrantBytes};
ghost use Rattle.ssh_hub.specs.declared.history.HubCall.TheVariants.{MakeReady, DeliverMsg};
ghost use Rattle.ssh_hub.specs.declared.history.HubCall.TheVariants.{ReceiveMsg};
ghost use Rattle.ssh_hub.specs.declared.history.HubCall.TheVariants.{LookAt, ClaimChannel};
ghost use Rattle.ssh_hub.specs.declared.history.HubReply.TheVariants.{Done, Reserved, Delivered};
ghost use Rattle.ssh_hub.specs.declared.history.HubReply.TheVariants.{HasReceived, Saw, Claimed};

use super::{HubLock, Seat};
use crate::answers::{Deliver, HandleError, Look, Received, Reserve};
use ssh_link::ChannelMsg;
use ssh_wire::ChannelId;
use std::marker::Brand;
use std::snapshot::Snapshot;
use std::sync::Wait;

#[tactic(auto, using(crate::proofs::Made::makes_later, crate::proofs::Made::learns_still))]
impl HubLock {
    /// Takes up to `want` of the bytes that are left of the channel for the seat, which has room for
    /// one more reservation or has one on this channel (`Seat::has_room`).
    pub fn reserve<R: Wait>(
        &self,
        rt: &R,
        seat: &mut Seat,
        channel: ChannelId,
        want: u32,
    ) -> Reserve
        requires seat { IsSeatOf self.now seat.old }
        requires some { 0 < want }
        requires room { has_room_for seat.old channel.0 ≡ true }
        ensures seat { IsSeatOf self.now seat.new }
        ensures room { room_of seat.new ≡ room_of seat.old }
        ensures call { HasCalled seat.old (ReserveBytes channel want) (Reserved result) seat.new }
    {
        let mut hub = self.enter(rt, &mut seat.inner);
        let answer = hub.reserve(seat.number, channel, want);
        seat.reserved.gain(&answer, channel.0);
        seat.place = self.finish::<Brand, (ChannelId, u32), Reserve>(
            &mut seat.inner,
            hub,
            &(channel, want),
            &answer,
        );
        answer
    }

    /// Gives back up to `amount` of the bytes that the seat has reserved of the channel.
    pub fn release<R: Wait>(&self, rt: &R, seat: &mut Seat, channel: ChannelId, amount: u32)
        requires { IsSeatOf self.now seat.old }
        ensures seat { IsSeatOf self.now seat.new }
        ensures room { room_of seat.new ≡ room_of seat.old }
        ensures call { HasCalled seat.old (ReleaseBytes channel amount) Done seat.new }
    {
        let had = seat.reserved.bytes(channel.0);
        let mut hub = self.enter(rt, &mut seat.inner);
        hub.release(seat.number, channel, amount, had);
        seat.reserved.give_back(channel.0, amount);
        seat.place = self.finish::<Brand, (ChannelId, u32), ()>(
            &mut seat.inner,
            hub,
            &(channel, amount),
            &(),
        );
    }

    /// The channel is open: the peer takes `window` bytes, and `packet` bytes of data in one
    /// message (RFC 4254 section 5.1). Where it was made ready before, what is reserved of it, its
    /// inbox and its claim stay, and the reserved bytes count against the new window's 2^32 - 1.
    /// After `NoMemory`, the only error, the hub is unchanged.
    pub fn ready<R: Wait>(
        &self,
        rt: &R,
        seat: &mut Seat,
        channel: ChannelId,
        window: u32,
        packet: u32,
    ) -> Result<(), HandleError>
        requires { IsSeatOf self.now seat.old }
        ensures seat { IsSeatOf self.now seat.new }
        ensures room { room_of seat.new ≡ room_of seat.old }
        ensures call { IfOk result (λ _. HasCalled seat.old (MakeReady channel window packet) Done
            seat.new) }
        ensures memory { IfErr result (λ e. e ≡ NoMemory) }
        ensures no_call { OnErr result (HasLearned seat.old seat.new) }
    {
        let mut hub = self.enter(rt, &mut seat.inner);
        let Ok(answer) = hub.ready(seat.number, channel, window, packet) else {
            self.give_up(&mut seat.inner, hub);
            return Err(HandleError::NoMemory);
        };
        seat.place = self.finish::<Brand, (ChannelId, u32, u32), ()>(
            &mut seat.inner,
            hub,
            &(channel, window, packet),
            &answer,
        );
        Ok(answer)
    }

    /// The peer takes `amount` bytes more (RFC 4254 section 5.2). What is left and what is reserved
    /// stay below 2^32 together, and a channel that is closed or not ready gets nothing.
    pub fn grant<R: Wait>(&self, rt: &R, seat: &mut Seat, channel: ChannelId, amount: u32)
        requires { IsSeatOf self.now seat.old }
        ensures seat { IsSeatOf self.now seat.new }
        ensures room { room_of seat.new ≡ room_of seat.old }
        ensures call { HasCalled seat.old (GrantBytes channel amount) Done seat.new }
    {
        let mut hub = self.enter(rt, &mut seat.inner);
        hub.grant(seat.number, channel, amount);
        seat.place = self.finish::<Brand, (ChannelId, u32), ()>(
            &mut seat.inner,
            hub,
            &(channel, amount),
            &(),
        );
    }

    /// Puts the message into the inbox of the channel; a close, or a refusal of the open, closes
    /// the channel.
    pub fn deliver<R: Wait>(
        &self,
        rt: &R,
        seat: &mut Seat,
        channel: ChannelId,
        msg: ChannelMsg,
    ) -> Deliver
        requires { IsSeatOf self.now seat.old }
        ensures seat { IsSeatOf self.now seat.new }
        ensures room { room_of seat.new ≡ room_of seat.old }
        ensures call { HasCalled seat.old (DeliverMsg channel msg) (Delivered result) seat.new }
    {
        let said = Snapshot::of(&msg);
        let mut hub = self.enter(rt, &mut seat.inner);
        let answer = hub.deliver(seat.number, channel, msg);
        seat.place = self.finish::<Brand, (ChannelId, Snapshot<ChannelMsg>), Deliver>(
            &mut seat.inner,
            hub,
            &(channel, said),
            &answer,
        );
        answer
    }

    /// Takes the first message out of the inbox of the channel.
    pub fn receive<R: Wait>(&self, rt: &R, seat: &mut Seat, channel: ChannelId) -> Received
        requires { IsSeatOf self.now seat.old }
        ensures seat { IsSeatOf self.now seat.new }
        ensures room { room_of seat.new ≡ room_of seat.old }
        ensures call { HasCalled seat.old (ReceiveMsg channel) (HasReceived result) seat.new }
    {
        let mut hub = self.enter(rt, &mut seat.inner);
        let answer = hub.receive(seat.number, channel);
        seat.place = self.finish::<Brand, ChannelId, Received>(
            &mut seat.inner,
            hub,
            &channel,
            &answer,
        );
        answer
    }

    /// What may be sent on the channel; none where the hub has no such channel or it is closed.
    pub fn look<R: Wait>(&self, rt: &R, seat: &mut Seat, channel: ChannelId) -> Option<Look>
        requires { IsSeatOf self.now seat.old }
        ensures seat { IsSeatOf self.now seat.new }
        ensures room { room_of seat.new ≡ room_of seat.old }
        ensures call { HasCalled seat.old (LookAt channel) (Saw result) seat.new }
    {
        let hub = self.enter(rt, &mut seat.inner);
        let answer = hub.look(seat.number, channel);
        seat.place = self.finish::<Brand, ChannelId, Option<Look>>(
            &mut seat.inner,
            hub,
            &channel,
            &answer,
        );
        answer
    }

    /// Whether the hub has the channel, closed or not, and no claim of it was true before.
    pub fn claim<R: Wait>(&self, rt: &R, seat: &mut Seat, channel: ChannelId) -> bool
        requires { IsSeatOf self.now seat.old }
        ensures seat { IsSeatOf self.now seat.new }
        ensures room { room_of seat.new ≡ room_of seat.old }
        ensures call { HasCalled seat.old (ClaimChannel channel) (Claimed result) seat.new }
    {
        let mut hub = self.enter(rt, &mut seat.inner);
        let answer = hub.claim(seat.number, channel);
        seat.place = self.finish::<Brand, ChannelId, bool>(&mut seat.inner, hub, &channel, &answer);
        answer
    }
}
