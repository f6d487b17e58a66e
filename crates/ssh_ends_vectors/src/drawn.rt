// Ten thousand events of two ends, drawn by a fixed generator.
ghost use Rattle.std.specs.Prelude.{◌<◌};

use bytes::Bytes;
use ssh_ends::{EndError, EndEvent, Ends, Side};
use ssh_wire::ChannelId;
use std::alloc::Global;
use std::test::*;

// The channels have the numbers from 2 on, at both sides.
const CHANNELS: u32 = 8;

// One direction of a channel. Its bytes count up from 0, and begin again behind 255.
#[derive(Drop)]
struct Lane {
    side: Side,
    channel: u32,
    sent: u32,
    came: u32,
    is_in_order: bool,
}

// The next byte.
fn byte_of(place: u32) -> u8 {
    (place % 256) as u8
}

impl Lane {
    // The next bytes, so many.
    fn next(&mut self, alloc: Global, count: u32) -> Result<Bytes, EndError> {
        let mut bytes = Vec::new(alloc);
        for _ in 0..count {
            bytes.push(byte_of(self.sent))?;
            self.sent = self.sent.wrapping_add(1);
        }
        Ok(Bytes::from_vec(bytes)?)
    }

    // These bytes came.
    fn takes(&mut self, bytes: &[u8]) {
        for byte in bytes {
            if *byte != byte_of(self.came) {
                self.is_in_order = false;
            }
            self.came = self.came.wrapping_add(1);
        }
    }

    fn is_whole(&self) -> bool {
        self.is_in_order && self.came == self.sent
    }
}

// A linear congruential generator.
#[derive(Drop)]
struct Generator {
    state: u32,
}

impl Generator {
    // A number below this one.
    fn below(&mut self, end: u32) -> u32
        requires { 0 < end }
        ensures { result < end }
    {
        self.state = self
            .state
            .wrapping_mul(1_664_525)
            .wrapping_add(1_013_904_223);
        (self.state >> 16) % end
    }

    fn side(&mut self) -> Side {
        if self.below(2) == 0 { Side::A } else { Side::B }
    }
}

// Two ends with eight channels, and what goes both ways on them.
#[derive(Drop)]
struct Traffic {
    alloc: Global,
    ends: Ends,
    lanes: Vec<Lane>,
    sent: u64,
}

impl Traffic {
    fn new(alloc: Global) -> Result<Traffic, EndError> {
        let mut traffic = Traffic {
            alloc,
            ends: Ends::new(alloc, 5, 7),
            lanes: Vec::new(alloc),
            sent: 0,
        };
        traffic.open()?;
        Ok(traffic)
    }

    // A opens the channels, and B accepts them.
    fn open(&mut self) -> Result<(), EndError> {
        for channel in 2..CHANNELS + 2 {
            let _ = self.ends.event(EndEvent::Open(Side::A))?;
            self.add(Side::A, channel)?;
            self.add(Side::B, channel)?;
        }
        for _ in 0..CHANNELS {
            self.carry(Side::A)?;
        }
        for _ in 0..CHANNELS {
            self.carry(Side::B)?;
        }
        Ok(())
    }

    fn add(&mut self, side: Side, channel: u32) -> Result<(), EndError> {
        self.lanes.push(Lane {
            side,
            channel,
            sent: 0,
            came: 0,
            is_in_order: true,
        })?;
        Ok(())
    }

    // The other side takes the first message of this one.
    fn carry(&mut self, side: Side) -> Result<(), EndError> {
        match self.ends.event(EndEvent::Move(side))? {
            Some(delivered) => {
                self.arrives(side, delivered.channel, delivered.bytes.as_slice());
                Ok(())
            }
            None => Ok(()),
        }
    }

    // Bytes of this side came at the other.
    fn arrives(&mut self, side: Side, channel: ChannelId, bytes: &[u8]) {
        for lane in &mut self.lanes {
            if lane.side == side && lane.channel == channel.0 {
                lane.takes(bytes);
            }
        }
    }

    // A side accepts so many bytes, of either kind.
    fn send(&mut self, at: usize, ext: Option<u32>, count: u32) -> Result<(), EndError> {
        let Some(lane) = self.lanes.get_mut(at) else {
            return Ok(());
        };
        let bytes = lane.next(self.alloc, count)?;
        let event = EndEvent::Data(lane.side, ChannelId(lane.channel), ext, bytes);
        let _ = self.ends.event(event)?;
        self.sent = self.sent.wrapping_add(u64::from(count));
        Ok(())
    }

    // One event.
    fn draw(&mut self, generator: &mut Generator) -> Result<(), EndError> {
        match generator.below(8) {
            0 => self.send(generator.below(16) as usize, None, generator.below(20)),
            1 => self.send(generator.below(16) as usize, Some(1), generator.below(20)),
            2 => {
                let channel = ChannelId(generator.below(CHANNELS) + 2);
                let target = generator.below(30) + 2;
                let _ = self
                    .ends
                    .event(EndEvent::Target(generator.side(), channel, target))?;
                Ok(())
            }
            _ => self.carry(generator.side()),
        }
    }

    // All that is under way is taken, and what this brings.
    fn settle(&mut self) -> Result<(), EndError> {
        for _ in 0..1_000_000u32 {
            if self.ends.is_quiet() {
                return Ok(());
            }
            self.carry(Side::A)?;
            self.carry(Side::B)?;
        }
        Ok(())
    }

    // All that was accepted was delivered, in order.
    fn is_whole(&self) -> bool {
        self.ends.is_quiet() && self.lanes.iter().all(|lane| lane.is_whole())
    }
}

// All that was accepted in these events was delivered, and it was many bytes.
fn all_arrives(alloc: Global, events: u32) -> Result<bool, EndError> {
    let mut generator = Generator { state: 1 };
    let mut traffic = Traffic::new(alloc)?;
    for _ in 0..events {
        traffic.draw(&mut generator)?;
    }
    traffic.settle()?;
    Ok(traffic.is_whole() && 20_000 < traffic.sent)
}

#[test]
fn all_that_is_accepted_arrives(rt: HostRuntime) {
    assert!(rt; all_arrives(rt.alloc(), 10_000) == Ok(true));
}
