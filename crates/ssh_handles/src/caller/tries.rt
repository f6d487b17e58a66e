// Calls that are made again while there is no room, or nothing there.
ghost use Rattle.std.specs.Prelude.{◌≡◌, [], IfErr};
ghost use Rattle.ssh_handles.specs.Said.{open_told};
ghost use Rattle.ssh_handles.specs.Callers.{hub_of, seen_by, IsPut, IsReplyPut, IsReceived};
ghost use Rattle.ssh_handles.specs.Callers.{IsConfirmed, without_command, left_by};
ghost use Rattle.ssh_hub.specs.Views.{own_reservations};
ghost use Rattle.ssh_hub.specs.Words.{room_of};

use super::Caller;
use crate::gate::{Gate, NoGate};
use ssh_hub::{HandleError, Put, PutReply, Received};
use ssh_link::{ChannelMsg, Command, OpenAnswer, Refusal};
use ssh_wire::ChannelId;
use std::sync::Wait;

impl Caller {
    // Waits for an entry behind the newest one of the seat.
    pub fn pause<R: Wait>(&self, rt: &R) {
        if let Some(place) = self.seat.place() {
            self.lock.pause(rt, place);
        }
    }

    // Puts the command with this spend, again while as many wait as the hub holds, and answers its
    // ticket. Where the hub has ended, the command comes back with the place of the end.
    pub fn put<R: Wait, G: Gate>(
        &mut self,
        rt: &R,
        gate: &G,
        msg: Command,
        spend: u32,
        wanted: bool,
    ) -> Result<u64, (Command, u64)>
        ensures hub { hub_of self.new ≡ hub_of self.old }
        ensures entries { IsPut msg spend wanted (seen_by self.old) (without_command result)
            (seen_by self.new) }
        ensures back { IfErr result (λ e. e.0 ≡ msg) }
        ensures room { room_of self.new.seat ≡ room_of self.old.seat }
        ensures reserved { own_reservations (seen_by self.new)
            ≡ left_by msg spend result (own_reservations (seen_by self.old)) }
    {
        let mut msg = msg;
        for _ in rt.forever() {
            gate.pass(0);
            match self.lock.put(rt, &mut self.seat, msg, spend, wanted) {
                Put::Done(ticket) => return Ok(ticket),
                Put::Full(back) => msg = back,
                Put::Ended { at, msg } => return Err((msg, at)),
            }
            self.pause(rt);
        }
        unreachable!()
    }

    // Puts a command that spends nothing. `Ended` is the only error.
    pub fn ticket<R: Wait>(
        &mut self,
        rt: &R,
        msg: Command,
        wanted: bool,
    ) -> Result<u64, HandleError>
        ensures hub { hub_of self.new ≡ hub_of self.old }
        ensures entries { IsPut msg 0 wanted (seen_by self.old) result (seen_by self.new) }
        ensures room { room_of self.new.seat ≡ room_of self.old.seat }
        ensures none { own_reservations (seen_by self.old) ≡ []
            → own_reservations (seen_by self.new) ≡ [] }
    {
        match self.put(rt, &NoGate, msg, 0, wanted) {
            Ok(ticket) => Ok(ticket),
            Err((back, at)) => {
                drop(back);
                Err(HandleError::Ended { at })
            }
        }
    }

    // Puts the answer to an open, again while as many wait as the hub holds. `Ended` is the only
    // error.
    pub fn reply<R: Wait>(&mut self, rt: &R, answer: OpenAnswer) -> Result<u64, HandleError>
        ensures hub { hub_of self.new ≡ hub_of self.old }
        ensures entries { IsReplyPut answer (seen_by self.old) result (seen_by self.new) }
    {
        let mut answer = answer;
        for _ in rt.forever() {
            match self.lock.put_reply(rt, &mut self.seat, answer) {
                PutReply::Done(ticket) => return Ok(ticket),
                PutReply::Full(back) => answer = back,
                PutReply::Ended { at, answer } => {
                    drop(answer);
                    return Err(HandleError::Ended { at });
                }
            }
            self.pause(rt);
        }
        unreachable!()
    }

    // Waits for the next message of the channel; none where there is none and none can come.
    pub fn message<R: Wait>(&mut self, rt: &R, channel: ChannelId) -> Option<ChannelMsg>
        ensures hub { hub_of self.new ≡ hub_of self.old }
        ensures entries { IsReceived channel (seen_by self.old) result (seen_by self.new) }
    {
        for _ in rt.forever() {
            match self.lock.receive(rt, &mut self.seat, channel) {
                Received::Msg(msg) => return Some(msg),
                Received::Closed => return None,
                Received::Ended { .. } => return None,
                Received::Nothing => self.pause(rt),
            }
        }
        unreachable!()
    }

    // Waits until the peer has confirmed the open of the channel, or has failed it.
    pub fn confirmed<R: Wait>(&mut self, rt: &R, channel: ChannelId) -> Result<(), HandleError>
        ensures hub { hub_of self.new ≡ hub_of self.old }
        ensures entries { IsConfirmed channel (seen_by self.old) result (seen_by self.new) }
    {
        for _ in rt.forever() {
            match self.lock.receive(rt, &mut self.seat, channel) {
                Received::Msg(msg) => {
                    if let Some(answer) = answer_in(msg) {
                        return answer;
                    }
                }
                Received::Closed => return Err(HandleError::Refused(Refusal::UnknownChannel)),
                Received::Ended { at } => return Err(HandleError::Ended { at }),
                Received::Nothing => self.pause(rt),
            }
        }
        unreachable!()
    }
}

// What a message says of an open; none where it is no answer to one.
fn read_answer(msg: &ChannelMsg) -> Option<Result<(), HandleError>>
    ensures { result ≡ open_told msg.now }
{
    match msg {
        ChannelMsg::Open { .. } => Some(Ok(())),
        ChannelMsg::OpenFailure(reason) => Some(Err(HandleError::OpenFailed(*reason))),
        _ => None,
    }
}

fn answer_in(msg: ChannelMsg) -> Option<Result<(), HandleError>>
    ensures { result ≡ open_told msg }
{
    let answer = read_answer(&msg);
    drop(msg);
    answer
}
