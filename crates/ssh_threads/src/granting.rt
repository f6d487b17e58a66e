// A peer that lets a session send on its channels.
ghost use Rattle.std.specs.Prelude.{◌≡◌, [], ◌∷◌, ◌++◌, OnOk, OnErr, IfOk, IfErr};
ghost use Rattle.ssh_link.specs.declared.link.LinkFault.TheVariants.{NoMemory};
ghost use Rattle.ssh_hub_link.specs.Feeds.{IsOfFeed};

use crate::peer::Peer;
use bytes::Bytes;
use ssh_hub_link::Feed;
use ssh_link::{Frame, Input, InputKind, LinkFault};
use ssh_wire::message::{
    CHANNEL_DATA, CHANNEL_EOF, CHANNEL_OPEN, CHANNEL_WINDOW_ADJUST, SERVICE_REQUEST,
    USERAUTH_REQUEST,
};
use ssh_wire::{WireError, put_text, put_u8, put_u32};
use std::alloc::Global;

/// How many bytes the peer takes on a channel at first, and each time when these have come.
const WINDOW: u32 = 32_768;

/// How many bytes of data it takes in one message.
const PACKET_SIZE: u32 = 32_768;

/// This side's number of the first channel.
const FIRST_CHANNEL: u32 = 2;

/// What the peer says next.
#[derive(Clone, Copy)]
enum Step {
    /// It asks for authentication (RFC 4253 section 10).
    Service,
    /// It asks to be let in by the method none (RFC 4252 section 5).
    User,
    /// It opens the session of this number (RFC 4254 section 5.1).
    Open(u32),
    /// It takes more bytes on the channel of this number (RFC 4254 section 5.2).
    Grant(u32),
    /// It is gone.
    Leave,
}

/// A channel, as the peer sees it.
#[derive(Clone, Copy)]
struct Taking {
    /// How many bytes may come before it takes more.
    left: u64,
    /// Whether the end of file came.
    has_ended: bool,
}

/// A peer who lets herself in as alice, opens as many sessions as she is told, and takes 32768 more
/// bytes on a channel whenever all came that she took. She is gone once the end of file came on
/// each. She never fails, and tells what she gave and took.
#[derive(Drop)]
pub struct GrantingPeer {
    alloc: Global,
    /// How many inputs of the beginning were given.
    begun: u32,
    channels: Vec<Taking>,
    given: Vec<Input>,
    taken: Vec<Frame>,
}

/// Writes the message of a step behind what was written; that of `Leave` is none.
fn put_step(payload: &mut Vec<u8>, step: Step) -> Result<(), WireError> {
    match step {
        Step::Service => {
            put_u8(payload, SERVICE_REQUEST)?;
            put_text(payload, "ssh-userauth")
        }
        Step::User => {
            put_u8(payload, USERAUTH_REQUEST)?;
            put_text(payload, "alice")?;
            put_text(payload, "ssh-connection")?;
            put_text(payload, "none")
        }
        Step::Open(peer) => {
            put_u8(payload, CHANNEL_OPEN)?;
            put_text(payload, "session")?;
            put_u32(payload, peer)?;
            put_u32(payload, WINDOW)?;
            put_u32(payload, PACKET_SIZE)
        }
        Step::Grant(channel) => {
            put_u8(payload, CHANNEL_WINDOW_ADJUST)?;
            put_u32(payload, channel)?;
            put_u32(payload, WINDOW)
        }
        Step::Leave => Ok(()),
    }
}

/// The message of a step.
fn payload_of(alloc: Global, step: Step) -> Result<Bytes, WireError> {
    let mut payload = Vec::new(alloc);
    put_step(&mut payload, step)?;
    Ok(Bytes::from_vec(payload)?)
}

impl GrantingPeer {
    /// A peer that gave and took nothing yet.
    pub fn new(alloc: Global) -> GrantingPeer {
        GrantingPeer {
            alloc,
            begun: 0,
            channels: Vec::new(alloc),
            given: Vec::new(alloc),
            taken: Vec::new(alloc),
        }
    }

    /// What it says next; None where it waits for the session.
    fn step(&mut self) -> Option<Step>
        ensures { (self.new.given ≡ self.old.given) × (self.new.taken ≡ self.old.taken) }
    {
        let begun = self.begun;
        self.begun = begun.saturating_add(1);
        let opened = begun.saturating_sub(2);
        if begun == 0 {
            Some(Step::Service)
        } else if begun == 1 {
            Some(Step::User)
        } else if (opened as usize) < self.channels.len() {
            Some(Step::Open(opened))
        } else {
            reaction(&mut self.channels)
        }
    }

    /// Gives the input of this step. `NoMemory` is the only error.
    fn give(&mut self, step: Step) -> Result<Input, LinkFault>
        ensures given { IfOk result (λ input. self.new.given.items
            ≡ self.old.given.items ++ input ∷ []) }
        ensures fed { IfOk result (λ input. IsOfFeed input.kind) }
        ensures err { OnErr result (self.new.given.items ≡ self.old.given.items) }
        ensures taken { self.new.taken ≡ self.old.taken }
        ensures memory { IfErr result (λ e. e ≡ NoMemory) }
    {
        let input = input_of(self.alloc, step).or(Err(LinkFault::NoMemory))?;
        match kept(&mut self.given, &input) {
            Ok(()) => Ok(input),
            Err(fault) => {
                drop(input);
                Err(fault)
            }
        }
    }
}

/// Keeps a copy of what is given. `NoMemory` is the only error.
fn kept(given: &mut Vec<Input>, input: &Input) -> Result<(), LinkFault>
    ensures ok { OnOk result (given.new.items ≡ given.old.items ++ input.now ∷ []) }
    ensures err { OnErr result (given.new.items ≡ given.old.items) }
    ensures memory { IfErr result (λ e. e ≡ NoMemory) }
{
    let copy = input.copy().or(Err(LinkFault::NoMemory))?;
    given.push(copy).or(Err(LinkFault::NoMemory))
}

/// What the peer says to what came on its channels; None where it waits for more.
fn reaction(channels: &mut Vec<Taking>) -> Option<Step> {
    let mut number = FIRST_CHANNEL;
    let mut have_ended = true;
    for channel in channels.iter_mut() {
        if !channel.has_ended {
            have_ended = false;
            if channel.left == 0 {
                channel.left = u64::from(WINDOW);
                return Some(Step::Grant(number));
            }
        }
        number = number.saturating_add(1);
    }
    if have_ended { Some(Step::Leave) } else { None }
}

/// Counts what came on a channel.
fn count(channels: &mut Vec<Taking>, arrival: Option<Arrival>) {
    let Some(arrival) = arrival else {
        return;
    };
    let index = arrival.number.wrapping_sub(FIRST_CHANNEL) as usize;
    if let Some(channel) = channels.get_mut(index) {
        channel.left = channel.left.saturating_sub(arrival.data);
        channel.has_ended |= arrival.is_end;
    }
}

/// What a frame brings to a channel.
#[derive(Clone, Copy)]
struct Arrival {
    /// This side's number of the channel.
    number: u32,
    /// How many bytes of data.
    data: u64,
    /// Whether it is the end of file.
    is_end: bool,
}

/// What this frame brings; None where it is none of a channel.
fn arrival_of(frame: &Frame) -> Option<Arrival> {
    let number = frame.channel()?.0;
    let message = *frame.head().first()?;
    let data = if message == CHANNEL_DATA {
        frame.body().len() as u64
    } else {
        0
    };
    Some(Arrival {
        number,
        data,
        is_end: message == CHANNEL_EOF,
    })
}

/// The input of a step.
fn input_of(alloc: Global, step: Step) -> Result<Input, WireError>
    ensures { IfOk result (λ input. IsOfFeed input.kind) }
{
    let kind = match step {
        Step::Leave => InputKind::End,
        spoken => InputKind::Payload(payload_of(alloc, spoken)?),
    };
    Ok(Input { moment: 0, kind })
}

impl Feed for GrantingPeer {
    ghost use Rattle.std.specs.Prelude.{Some};

    ghost inputs = { λ peer. Some peer.given.items };

    ghost frames = { λ peer. Some peer.taken.items };

    ghost faults = { λ _. 0 };

    ghost identity = { λ _. 0 };

    ghost polls = { λ _ _ _. Unit {0} };

    ghost waits = { λ _ _ _. Unit {0} };

    fn poll(&mut self) -> Result<Option<Input>, LinkFault> {
        let Some(step) = self.step() else {
            return Ok(None);
        };
        match self.give(step) {
            Ok(input) => Ok(Some(input)),
            Err(fault) => Err(fault),
        }
    }

    fn wait(&mut self) -> Result<Input, LinkFault> {
        let step = match self.step() {
            Some(step) => step,
            None => Step::Leave,
        };
        self.give(step)
    }

    fn send(&mut self, frame: Frame) -> Result<(), LinkFault> {
        let arrival = arrival_of(&frame);
        if self.taken.push(frame).is_err() {
            return Err(LinkFault::NoMemory);
        }
        count(&mut self.channels, arrival);
        Ok(())
    }

    fn nudged(&self) -> bool {
        true
    }
}

/// So many channels more. `NoMemory` is the only error.
fn add_channels(channels: &mut Vec<Taking>, n: u32) -> Result<(), LinkFault>
    ensures { IfErr result (λ e. e ≡ NoMemory) }
{
    for _ in 0..n {
        let channel = Taking {
            left: u64::from(WINDOW),
            has_ended: false,
        };
        channels.push(channel).or(Err(LinkFault::NoMemory))?;
    }
    Ok(())
}

impl Peer for GrantingPeer {
    fn channels(&mut self, n: u32) -> Result<(), LinkFault> {
        add_channels(&mut self.channels, n)
    }
}
