// The calls on one channel.
ghost use Rattle.std.specs.Prelude.{◌≡◌, ◌≤◌, IfOk, OnErr};
ghost use Rattle.ssh_hub.specs.World.{find};
ghost use Rattle.ssh_hub.specs.Reserved.{sum_on, FitsBeside};
ghost use Rattle.ssh_hub.specs.Step.{act};
ghost use Rattle.ssh_hub.specs.declared.history.HubCall.TheVariants.{ReserveBytes, ReleaseBytes};
ghost use Rattle.ssh_hub.specs.declared.history.HubCall.TheVariants.{GrantBytes};
ghost use Rattle.ssh_hub.specs.declared.history.HubCall.TheVariants.{MakeReady, DeliverMsg};
ghost use Rattle.ssh_hub.specs.declared.history.HubCall.TheVariants.{ReceiveMsg};
ghost use Rattle.ssh_hub.specs.declared.history.HubCall.TheVariants.{LookAt, ClaimChannel};
ghost use Rattle.ssh_hub.specs.declared.history.HubReply.TheVariants.{Done, Reserved, Delivered};
ghost use Rattle.ssh_hub.specs.declared.history.HubReply.TheVariants.{HasReceived, Saw, Claimed};

use super::Hub;
use crate::answers::{Deliver, Look, Received, Reserve};
use crate::channel::Channel;
use ssh_link::ChannelMsg;
use ssh_wire::ChannelId;
use std::alloc::AllocError;

#[tactic(auto, unfolding(crate::specs::Step::act), using(std::proofs::lemmas::Map::Steps::set_value_same))]
impl Hub {
    /// Reserves up to `want` of the bytes that are left of the channel, for the seat `by`.
    pub fn reserve(&mut self, by: u64, channel: ChannelId, want: u32) -> Reserve
        ensures answer { act self.old by 0 (ReserveBytes channel want)
            ≡ (self.new, Reserved result) }
        ensures fits { FitsBeside (sum_on (find channel.0 self.old.channels)) result }
    {
        let _ = by;
        if let Some(at) = self.ended {
            return Reserve::Ended { at };
        }
        match self.channels.get_mut(&channel.0) {
            Some(found) => found.reserve(want),
            None => Reserve::Gone,
        }
    }

    /// Gives back up to `amount` of the `had` bytes that the seat `by` has reserved of the channel.
    pub fn release(&mut self, by: u64, channel: ChannelId, amount: u32, had: u32)
        requires { had ≤ sum_on (find channel.0 self.old.channels) }
        ensures { act self.old by had (ReleaseBytes channel amount) ≡ (self.new, Done) }
    {
        let _ = by;
        if let Some(found) = self.channels.get_mut(&channel.0) {
            found.release(amount.min(had));
        }
    }

    /// The channel is open: the peer takes `window` bytes, and `packet` bytes of data in one
    /// message (RFC 4254 section 5.1). A channel that is new takes memory for its inbox. After an
    /// error, for want of memory, the hub is unchanged.
    pub fn ready(
        &mut self,
        by: u64,
        channel: ChannelId,
        window: u32,
        packet: u32,
    ) -> Result<(), AllocError>
        ensures ok { IfOk result (λ _. act self.old by 0 (MakeReady channel window packet)
            ≡ (self.new, Done)) }
        ensures err { OnErr result (self.new ≡ self.old) }
    {
        let _ = by;
        if let Some(found) = self.channels.get_mut(&channel.0) {
            found.make_ready(window, packet);
            return Ok(());
        }
        let mut made = Channel::waiting(self.alloc, self.inbox_size)?;
        made.make_ready(window, packet);
        match self.channels.insert(channel.0, made) {
            Ok(_) => Ok(()),
            Err(_) => Err(AllocError),
        }
    }

    /// The peer takes `amount` bytes more on the channel (RFC 4254 section 5.2).
    pub fn grant(&mut self, by: u64, channel: ChannelId, amount: u32)
        ensures { act self.old by 0 (GrantBytes channel amount) ≡ (self.new, Done) }
    {
        let _ = by;
        if let Some(found) = self.channels.get_mut(&channel.0) {
            found.grant(amount);
        }
    }

    /// Puts the message into the inbox of the channel.
    pub fn deliver(&mut self, by: u64, channel: ChannelId, msg: ChannelMsg) -> Deliver
        ensures { act self.old by 0 (DeliverMsg channel msg) ≡ (self.new, Delivered result) }
    {
        let _ = by;
        match self.channels.get_mut(&channel.0) {
            Some(found) => found.deliver(msg),
            None => Deliver::Gone(msg),
        }
    }

    /// Takes the first message out of the inbox of the channel.
    pub fn receive(&mut self, by: u64, channel: ChannelId) -> Received
        ensures { act self.old by 0 (ReceiveMsg channel) ≡ (self.new, HasReceived result) }
    {
        let _ = by;
        let ended = self.ended;
        match self.channels.get_mut(&channel.0) {
            Some(found) => found.receive(ended),
            None => Received::Closed,
        }
    }

    /// How many bytes may be reserved of the channel, and how many one message may have; none where
    /// the hub has no such channel or it is closed.
    pub fn look(&self, by: u64, channel: ChannelId) -> Option<Look>
        ensures { act self.now by 0 (LookAt channel) ≡ (self.now, Saw result) }
    {
        let _ = by;
        match self.channels.get(&channel.0) {
            Some(found) => found.look(),
            None => None,
        }
    }

    /// Claims the channel: `true` exactly where it is there, and nobody claimed it before.
    pub fn claim(&mut self, by: u64, channel: ChannelId) -> bool
        ensures { act self.old by 0 (ClaimChannel channel) ≡ (self.new, Claimed result) }
    {
        let _ = by;
        match self.channels.get_mut(&channel.0) {
            Some(found) => found.claim(),
            None => false,
        }
    }
}
