// One channel of a hub: what may be sent on it, and what waits for its reader.
ghost use Rattle.std.specs.Prelude.{◌≡◌, ◌≤◌, IfOk, not};
ghost use Rattle.ssh_hub.specs.Channels.{waiting, with_window, reserve_from, releasing, spending};
ghost use Rattle.ssh_hub.specs.Channels.{granting};
ghost use Rattle.ssh_hub.specs.Channels.{deliver_to, receive_from, look_at, claimed, closed};
ghost use Rattle.ssh_hub.specs.Channels.{closes_by};
ghost use Rattle.ssh_hub.specs.Reserved.{FitsBeside};

use crate::answers::{Deliver, Look, Received, Reserve};
use circular_buffer::HeapCircularBuffer;
use ssh_link::ChannelMsg;
use std::alloc::{AllocError, Global};
use std::marker::Model;

/// A channel of a hub: the bytes that may be sent on it, and the messages for its reader, which wait
/// in a ring whose memory is taken with the channel. Which seat has reserved what, the seats know.
#[derive(Drop)]
pub struct Channel {
    left: u32,
    packet: u32,
    reserved: u32,
    inbox: HeapCircularBuffer<ChannelMsg>,
    is_ready: bool,
    is_closed: bool,
    is_claimed: bool,
}

impl Model for Channel {
    ghost use Rattle.std.specs.Prelude.{◌+◌, ◌≤◌};
    ghost use Rattle.ssh_hub.specs.World.{Channel};
    ghost use Rattle.ssh_hub.specs.Channels.{most_bytes};

    ghost Value = { Channel };

    ghost view = { λ c. record {
      left = c.left;
      packet = c.packet;
      reserved = c.reserved;
      inbox = c.inbox.items;
      room = c.inbox.capacity;
      is_ready = c.is_ready;
      is_closed = c.is_closed;
      is_claimed = c.is_claimed;
    } };

    ghost invariant = { λ c. c.left + c.reserved ≤ most_bytes };
}

/// Whether a delivered message closes its channel: a CLOSE, or a refusal of the open.
fn closes(msg: &ChannelMsg) -> bool
    ensures { result ≡ closes_by msg.now }
{
    matches!(msg, ChannelMsg::Close | ChannelMsg::OpenFailure(_))
}

impl Channel {
    /// A channel whose window is not known: nothing can be reserved of it. It takes memory for
    /// `size` messages.
    pub fn waiting(alloc: Global, size: usize) -> Result<Channel, AllocError>
        ensures { IfOk result (λ made. made ≡ waiting size) }
    {
        Ok(Channel {
            left: 0,
            packet: 0,
            reserved: 0,
            inbox: HeapCircularBuffer::with_capacity(alloc, size)?,
            is_ready: false,
            is_closed: false,
            is_claimed: false,
        })
    }

    /// The channel is open: the peer takes `window` bytes, and `packet` bytes of data in one
    /// message (RFC 4254 section 5.1). What is reserved stays, and so do the inbox and the claim.
    pub fn make_ready(&mut self, window: u32, packet: u32)
        ensures { self.new ≡ with_window self.old window packet }
    {
        self.left = window.min(u32::MAX - self.reserved);
        self.packet = packet;
        self.is_ready = true;
        self.is_closed = false;
    }

    /// Reserves up to `want` of the bytes that are left.
    pub fn reserve(&mut self, want: u32) -> Reserve
        ensures answer { reserve_from self.old want self.old.is_closed ≡ (self.new, result) }
        ensures fits { FitsBeside self.old.reserved result }
    {
        if self.is_closed {
            return Reserve::Gone;
        }
        if self.left == 0 {
            return Reserve::Empty;
        }
        let got = want.min(self.left);
        self.left -= got;
        self.reserved += got;
        Reserve::Got(got)
    }

    /// Gives back `amount` of the reserved bytes.
    pub fn release(&mut self, amount: u32)
        requires { amount ≤ self.old.reserved }
        ensures { self.new ≡ releasing self.old amount }
    {
        self.reserved -= amount;
        self.left += amount;
    }

    /// Spends `amount` of the reserved bytes.
    pub fn spend(&mut self, amount: u32)
        requires { amount ≤ self.old.reserved }
        ensures { self.new ≡ spending self.old amount }
    {
        self.reserved -= amount;
    }

    /// The peer takes `amount` bytes more (RFC 4254 section 5.2). What is left and what is reserved
    /// stay below 2^32 together; a channel that is closed or not ready gets nothing.
    pub fn grant(&mut self, amount: u32)
        ensures { self.new ≡ granting self.old amount }
    {
        if self.is_ready && !self.is_closed {
            let room = u32::MAX - (self.left + self.reserved);
            self.left += amount.min(room);
        }
    }

    /// Puts the message into the inbox.
    pub fn deliver(&mut self, msg: ChannelMsg) -> Deliver
        ensures { deliver_to self.old msg self.old.is_closed ≡ (self.new, result) }
    {
        if self.is_closed {
            return Deliver::Gone(msg);
        }
        let closing = closes(&msg);
        match self.inbox.try_push_back(msg) {
            Ok(()) => {
                if closing {
                    self.is_closed = true;
                }
                Deliver::Done
            }
            Err(msg) => Deliver::Full(msg),
        }
    }

    /// Takes the first message out of the inbox. `ended` is the place where the hub ended; none
    /// where it has not.
    pub fn receive(&mut self, ended: Option<u64>) -> Received
        ensures { receive_from self.old ended self.old.inbox ≡ (self.new, result) }
    {
        if let Some(msg) = self.inbox.pop_front() {
            return Received::Msg(msg);
        }
        if self.is_closed {
            return Received::Closed;
        }
        match ended {
            Some(at) => Received::Ended { at },
            None => Received::Nothing,
        }
    }

    /// How many bytes may be reserved, and how many one message may have; none where the channel is
    /// closed.
    pub fn look(&self) -> Option<Look>
        ensures { result ≡ look_at self.now self.now.is_closed }
    {
        if self.is_closed {
            return None;
        }
        Some(Look {
            left: self.left,
            packet: self.packet,
        })
    }

    /// Closes the channel (RFC 4254 section 5.3): nothing more can be reserved of it, and nothing
    /// delivered to it.
    pub fn close(&mut self)
        ensures { self.new ≡ closed self.old }
    {
        self.is_closed = true;
    }

    /// Claims the channel: `true` exactly where nobody claimed it before.
    pub fn claim(&mut self) -> bool
        ensures after { self.new ≡ claimed self.old }
        ensures answer { result ≡ not self.old.is_claimed }
    {
        let free = !self.is_claimed;
        self.is_claimed = true;
        free
    }
}
