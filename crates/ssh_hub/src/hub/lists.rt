// The commands and replies that wait for the session.
ghost use Rattle.std.specs.Prelude.{◌≡◌, ◌+◌, ◌<◌, ◌^◌};
ghost use Rattle.ssh_hub.specs.Step.{act};
ghost use Rattle.ssh_hub.specs.Lists.{data_channel, close_channel, spent_on};
ghost use Rattle.ssh_hub.specs.Reserved.{IsCovered};
ghost use Rattle.ssh_hub.specs.declared.history.HubCall.TheVariants.{PutCommand, PutAnswer};
ghost use Rattle.ssh_hub.specs.declared.history.HubCall.TheVariants.{TakeNext};
ghost use Rattle.ssh_hub.specs.declared.history.HubReply.TheVariants.{WasPut, ReplyWasPut, Took};

use super::Hub;
use crate::answers::{Put, PutReply, Taken};
use crate::channel::Channel;
use crate::queued::{Due, QueuedCommand, QueuedReply};
use ssh_link::{Command, OpenAnswer};
use std::collections::BTreeMap;

/// The number of the channel whose reserved bytes the command spends; none where it has no data.
pub fn data_channel(command: &Command) -> Option<u32>
    ensures { result ≡ data_channel command.now }
{
    match command {
        Command::Data { channel, .. } => Some(channel.0),
        Command::ExtendedData { channel, .. } => Some(channel.0),
        _ => None,
    }
}

/// The number of the channel that the command closes; none where it is no close.
fn close_channel(command: &Command) -> Option<u32>
    ensures { result ≡ close_channel command.now }
{
    match command {
        Command::Close { channel } => Some(channel.0),
        _ => None,
    }
}

/// Spends `amount` of the reserved bytes of the channel, if it is one.
fn spend_on(channels: &mut BTreeMap<u32, Channel>, amount: u32, channel: Option<u32>)
    requires { IsCovered channel amount channels.old.entries }
    ensures { channels.new.entries ≡ spent_on channels.old.entries amount channel }
{
    let Some(channel) = channel else {
        return;
    };
    if let Some(found) = channels.get_mut(&channel) {
        found.spend(amount);
    }
}

#[tactic(auto, unfolding(crate::specs::Step::act))]
impl Hub {
    /// Puts the command of the seat `by` behind those that wait. One with data spends up to `spend`
    /// of the `had` bytes that the seat has reserved of its channel. With `wanted` its outcome is
    /// kept.
    pub fn put(&mut self, by: u64, msg: Command, spend: u32, wanted: bool, had: u32) -> Put
        requires tickets { self.old.tickets + 1 < 2 ^ 64 }
        requires had { IsCovered (data_channel msg) had self.old.channels }
        ensures { act self.old by had (PutCommand msg spend wanted) ≡ (self.new, WasPut result) }
    {
        if let Some(at) = self.ended {
            return Put::Ended { at, msg };
        }
        let channel = data_channel(&msg);
        let ticket = self.tickets + 1;
        let queued = QueuedCommand {
            ticket,
            seat: by,
            wanted,
            command: msg,
        };
        match self.commands.try_push_back(queued) {
            Ok(()) => {
                self.tickets = ticket;
                spend_on(&mut self.channels, spend.min(had), channel);
                Put::Done(ticket)
            }
            Err(back) => Put::Full(back.command),
        }
    }

    /// Puts the answer to an open of the peer (RFC 4254 section 5.1) behind those that wait.
    pub fn put_reply(&mut self, by: u64, answer: OpenAnswer) -> PutReply
        requires { self.old.tickets + 1 < 2 ^ 64 }
        ensures { act self.old by 0 (PutAnswer answer) ≡ (self.new, ReplyWasPut result) }
    {
        if let Some(at) = self.ended {
            return PutReply::Ended { at, answer };
        }
        let ticket = self.tickets + 1;
        let queued = QueuedReply {
            ticket,
            seat: by,
            answer,
        };
        match self.replies.try_push_back(queued) {
            Ok(()) => {
                self.tickets = ticket;
                PutReply::Done(ticket)
            }
            Err(back) => PutReply::Full(back.answer),
        }
    }

    /// Takes the first reply where asked for, or else the first command where asked for. It is now
    /// what `answer` may tell the outcome of.
    pub fn take(&mut self, by: u64, replies: bool, commands: bool) -> Option<Taken>
        ensures { act self.old by 0 (TakeNext replies commands) ≡ (self.new, Took result) }
    {
        let _ = by;
        if replies {
            if let Some(reply) = self.replies.pop_front() {
                self.due = Some(Due {
                    ticket: reply.ticket,
                    seat: reply.seat,
                    wanted: false,
                    closes: None,
                });
                return Some(Taken::Reply(reply.ticket, reply.answer));
            }
        }
        if commands {
            if let Some(queued) = self.commands.pop_front() {
                self.due = Some(Due {
                    ticket: queued.ticket,
                    seat: queued.seat,
                    wanted: queued.wanted,
                    closes: close_channel(&queued.command),
                });
                return Some(Taken::Command(queued.ticket, queued.command));
            }
        }
        None
    }
}
