// What a seat has reserved, in memory of the seat's own.
ghost use Rattle.std.specs.Prelude.{◌≡◌, ◌+◌, ◌≤◌, [], true, max, IfOk, OnOk, OnErr};
ghost use Rattle.ssh_hub.specs.Channels.{most_bytes};
ghost use Rattle.ssh_hub.specs.Reserved.{bytes_on, bytes_at, is_roomy, with_more, with_less, memory};
ghost use Rattle.ssh_hub.specs.Reserved.{index_of, after_reserve, after_put, FitsBeside};

use crate::answers::{Put, Reserve};
use std::alloc::{AllocError, Global};
use std::marker::Model;

/// Bytes that a seat has reserved of one channel.
#[derive(Clone, Copy, Debug, PartialEq, Eq)]
pub struct Reservation {
    /// The number of the channel.
    pub channel: u32,
    /// How many bytes.
    pub bytes: u32,
}

/// What one seat has reserved, and on how many channels it may at once.
#[derive(Drop)]
pub struct Reservations {
    list: Vec<Reservation>,
    room: usize,
}

impl Model for Reservations {
    ghost use Rattle.std.specs.Prelude.{◌≤◌};
    ghost use Rattle.std.specs.Vec.{vec_capacity};
    ghost use Rattle.ssh_hub.specs.Reserved.{Reservations, memory};

    ghost Value = { Reservations };

    ghost view = { λ r. memory r.list.items r.room };

    ghost invariant = { λ r. r.room ≤ vec_capacity r.list };
}

/// Where the reservation on the channel stands; none where there is none.
fn index_of(list: &[Reservation], channel: u32) -> Option<usize>
    ensures { result ≡ index_of channel list.now }
{
    for at in 0..list.len() {
        if list[at].channel == channel {
            return Some(at);
        }
    }
    None
}

impl Reservations {
    /// Nothing is reserved, with memory for reservations on so many channels.
    pub fn with_room(alloc: Global, room: usize) -> Result<Reservations, AllocError>
        ensures { IfOk result (λ made. made ≡ memory [] room) }
    {
        let list = Vec::with_capacity(alloc, room)?;
        Ok(Reservations { list, room })
    }

    /// Makes memory for reservations on `channels` channels at once. After an error nothing has
    /// changed.
    pub fn make_room(&mut self, channels: usize) -> Result<(), AllocError>
        ensures held { self.new.held ≡ self.old.held }
        ensures ok { OnOk result (self.new.room ≡ max self.old.room channels) }
        ensures err { OnErr result (self.new.room ≡ self.old.room) }
    {
        if channels <= self.room {
            return Ok(());
        }
        self.list.reserve(channels.saturating_sub(self.list.len()))?;
        self.room = channels;
        Ok(())
    }

    /// Whether something is reserved of the channel, or there is memory for one channel more.
    pub fn has_room(&self, channel: u32) -> bool
        ensures { result ≡ is_roomy self.now.room self.now.held channel }
    {
        index_of(&self.list, channel).is_some() || self.list.len() < self.room
    }

    /// How many bytes are reserved of the channel.
    pub fn bytes(&self, channel: u32) -> u32
        ensures { result ≡ bytes_on channel self.now.held }
    {
        match index_of(&self.list, channel) {
            Some(at) => self.list[at].bytes,
            None => 0,
        }
    }

    /// How many bytes are reserved of the channel, if it is one.
    pub fn bytes_at(&self, channel: Option<u32>) -> u32
        ensures { result ≡ bytes_at channel self.now.held }
    {
        match channel {
            Some(channel) => self.bytes(channel),
            None => 0,
        }
    }

    /// What `reserve` gave of the channel is reserved.
    pub fn gain(&mut self, reply: &Reserve, channel: u32)
        requires room { is_roomy self.old.room self.old.held channel ≡ true }
        requires fits { FitsBeside (bytes_on channel self.old.held) reply.now }
        ensures held { self.new.held ≡ after_reserve reply.now channel self.old.held }
        ensures room { self.new.room ≡ self.old.room }
    {
        if let Reserve::Got(got) = *reply {
            self.add(channel, got);
        }
    }

    /// `got` bytes more are reserved of the channel.
    fn add(&mut self, channel: u32, got: u32)
        requires room { is_roomy self.old.room self.old.held channel ≡ true }
        requires fits { bytes_on channel self.old.held + got ≤ most_bytes }
        ensures held { self.new.held ≡ with_more channel got self.old.held }
        ensures room { self.new.room ≡ self.old.room }
    {
        match index_of(&self.list, channel) {
            Some(at) => self.list[at].bytes += got,
            None => {
                let one = Reservation {
                    channel,
                    bytes: got,
                };
                self.list.push(one).unwrap();
            }
        }
    }

    /// `amount` bytes of the channel are given back, or all that are reserved where those are
    /// fewer.
    pub fn give_back(&mut self, channel: u32, amount: u32)
        ensures held { self.new.held ≡ with_less channel amount self.old.held }
        ensures room { self.new.room ≡ self.old.room }
    {
        let Some(at) = index_of(&self.list, channel) else {
            return;
        };
        if amount < self.list[at].bytes {
            self.list[at].bytes -= amount;
        } else {
            self.list.remove(at);
        }
    }

    /// A put that was to spend `amount` bytes of the channel was answered so.
    pub fn spend(&mut self, reply: &Put, channel: Option<u32>, amount: u32)
        ensures held { self.new.held ≡ after_put reply.now channel amount self.old.held }
        ensures room { self.new.room ≡ self.old.room }
    {
        if let (Put::Done(_), Some(channel)) = (reply, channel) {
            self.give_back(channel, amount);
        }
    }
}
