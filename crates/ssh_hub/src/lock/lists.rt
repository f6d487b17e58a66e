// The commands and replies that wait for the session.
ghost use Rattle.std.specs.Prelude.{◌≡◌};
ghost use Rattle.ssh_hub.specs.Words.{IsSeatOf, HasCalled, room_of};
ghost use Rattle.ssh_hub.specs.declared.history.HubCall.TheVariants.{PutCommand, PutAnswer};
ghost use Rattle.ssh_hub.specs.declared.history.HubCall.TheVariants.{TakeNext};
ghost use Rattle.ssh_hub.specs.declared.history.HubReply.TheVariants.{WasPut, ReplyWasPut, Took};

use super::{HubLock, Seat};
use crate::answers::{Put, PutReply, Taken};
use crate::hub::data_channel;
use ssh_link::{Command, OpenAnswer};
use std::marker::Brand;
use std::snapshot::Snapshot;
use std::sync::Wait;

#[tactic(auto, using(crate::proofs::Made::makes_later, crate::proofs::Made::learns_still))]
impl HubLock {
    /// Puts the command behind those that wait. One with data spends up to `spend` of the bytes
    /// that the seat has reserved of its channel. With `wanted` its outcome is kept.
    pub fn put<R: Wait>(
        &self,
        rt: &R,
        seat: &mut Seat,
        msg: Command,
        spend: u32,
        wanted: bool,
    ) -> Put
        requires { IsSeatOf self.now seat.old }
        ensures seat { IsSeatOf self.now seat.new }
        ensures room { room_of seat.new ≡ room_of seat.old }
        ensures call { HasCalled seat.old (PutCommand msg spend wanted) (WasPut result) seat.new }
    {
        let said = Snapshot::of(&msg);
        let channel = data_channel(&msg);
        let had = seat.reserved.bytes_at(channel);
        let mut hub = self.enter(rt, &mut seat.inner);
        let answer = hub.put(seat.number, msg, spend, wanted, had);
        seat.reserved.spend(&answer, channel, spend);
        seat.place = self.finish::<Brand, (Snapshot<Command>, u32, bool), Put>(
            &mut seat.inner,
            hub,
            &(said, spend, wanted),
            &answer,
        );
        answer
    }

    /// Puts the answer to an open of the peer (RFC 4254 section 5.1) behind those that wait, of
    /// which there are at most 64.
    pub fn put_reply<R: Wait>(&self, rt: &R, seat: &mut Seat, answer: OpenAnswer) -> PutReply
        requires { IsSeatOf self.now seat.old }
        ensures seat { IsSeatOf self.now seat.new }
        ensures room { room_of seat.new ≡ room_of seat.old }
        ensures call { HasCalled seat.old (PutAnswer answer) (ReplyWasPut result) seat.new }
    {
        let said = Snapshot::of(&answer);
        let mut hub = self.enter(rt, &mut seat.inner);
        let reply = hub.put_reply(seat.number, answer);
        seat.place = self.finish::<Brand, Snapshot<OpenAnswer>, PutReply>(
            &mut seat.inner,
            hub,
            &said,
            &reply,
        );
        reply
    }

    /// Takes the first reply where asked for, or else the first command where asked for. What was
    /// taken before it is not answered any more.
    pub fn take<R: Wait>(
        &self,
        rt: &R,
        seat: &mut Seat,
        replies: bool,
        commands: bool,
    ) -> Option<Taken>
        requires { IsSeatOf self.now seat.old }
        ensures seat { IsSeatOf self.now seat.new }
        ensures room { room_of seat.new ≡ room_of seat.old }
        ensures call { HasCalled seat.old (TakeNext replies commands) (Took result) seat.new }
    {
        let mut hub = self.enter(rt, &mut seat.inner);
        let answer = hub.take(seat.number, replies, commands);
        seat.place = self.finish::<Brand, (bool, bool), Option<Taken>>(
            &mut seat.inner,
            hub,
            &(replies, commands),
            &answer,
        );
        answer
    }
}
