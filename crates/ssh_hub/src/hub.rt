// The hub of one thread. Each method is one call, and has its entry in the history counted apart.
ghost use Rattle.std.specs.Prelude.{◌≡◌, ◌+◌, ◌<◌, ◌^◌, IfOk};
ghost use Rattle.ssh_hub.specs.Step.{opening_hub, act, counted};

use crate::answers::{Config2, SlotAnswer};
use crate::channel::Channel;
use crate::queued::{Due, QueuedCommand, QueuedReply};
use circular_buffer::HeapCircularBuffer;
use ssh_link::{CommandOutcome, Refusal};
use std::alloc::{AllocError, Global};
use std::collections::BTreeMap;
use std::marker::Model;

mod channels;
mod lists;
mod outcomes;
mod slots;

pub use lists::data_channel;

/// How many answers to opens may wait for the session.
const REPLY_SIZE: usize = 64;

/// The state of a hub. A clause sees what the hub of one thread holds, but for what each seat has
/// reserved, which the seats know. Commands and answers wait in rings whose memory is taken with the
/// hub.
#[derive(Drop)]
pub struct Hub {
    alloc: Global,
    inbox_size: usize,
    place: u64,
    seats: u64,
    tickets: u64,
    slots: u64,
    commands: HeapCircularBuffer<QueuedCommand>,
    replies: HeapCircularBuffer<QueuedReply>,
    due: Option<Due>,
    outcomes: BTreeMap<u64, CommandOutcome>,
    refusals: BTreeMap<u64, (u64, Refusal)>,
    answers: BTreeMap<u64, Option<SlotAnswer>>,
    ended: Option<u64>,
    channels: BTreeMap<u32, Channel>,
}

impl Model for Hub {
    ghost use Rattle.std.specs.Prelude.{◌≡◌};
    ghost use Rattle.ssh_hub.specs.World.{Held};
    ghost use Rattle.ssh_hub.specs.Lists.{reply_size};

    ghost Value = { Held };

    ghost view = { λ h. record {
      inbox_size = h.inbox_size;
      command_size = h.commands.capacity;
      place = h.place;
      seats = h.seats;
      tickets = h.tickets;
      slots = h.slots;
      commands = h.commands.items;
      replies = h.replies.items;
      due = h.due;
      outcomes = h.outcomes.entries;
      refusals = h.refusals.entries;
      answers = h.answers.entries;
      ended = h.ended;
      channels = h.channels.entries;
    } };

    ghost invariant = { λ h. h.replies.capacity ≡ reply_size };
}

impl Hub {
    /// The hub as it is made, with its first seat. It takes memory for what may wait in it.
    pub fn new(alloc: Global, config: &Config2) -> Result<Hub, AllocError>
        ensures { IfOk result (λ made. made ≡ opening_hub config.now) }
    {
        let commands = HeapCircularBuffer::with_capacity(alloc, config.event_buffer_size)?;
        let replies = HeapCircularBuffer::with_capacity(alloc, REPLY_SIZE)?;
        Ok(Hub {
            alloc,
            inbox_size: config.channel_buffer_size,
            place: 0,
            seats: 1,
            tickets: 0,
            slots: 0,
            commands,
            replies,
            due: None,
            outcomes: BTreeMap::new(alloc),
            refusals: BTreeMap::new(alloc),
            answers: BTreeMap::new(alloc),
            ended: None,
            channels: BTreeMap::new(alloc),
        })
    }

    /// One more call was made.
    pub fn count_entry(&mut self)
        requires { self.old.place + 1 < 2 ^ 64 }
        ensures { self.new ≡ counted self.old }
    {
        self.place += 1;
    }
}
