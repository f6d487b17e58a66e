// Fifty opens at once: data flow both ways, one target ends, one peer closes, one open is refused.
ghost use Rattle.std.specs.Prelude.{◌<◌};

use crate::playing::{End, policy, push_bytes, run, start};
use bytes::Bytes;
use ssh_gateway::{Arrived, TargetFault, Targets};
use ssh_link::{Calls, Inputs, MemoryLink, TraceEntry};
use ssh_wire::WireError;
use std::alloc::Global;
use std::test::*;

const OPENS: u8 = 50;

// The open with this number goes to a port that is not allowed, and the peer closes the channel of
// that one. The target of the connection with the third number ends.
const REFUSED: u8 = 3;

const CLOSED: u8 = 10;

const ENDING: u64 = 7;

// Each host gives one byte, the number of its connection, and then nothing. It counts the writes
// that are that number and a mark.
#[derive(Drop)]
struct Hosts {
    alloc: Global,
    gave: [bool; 64],
    written: usize,
    closed: usize,
}

fn place_of(id: u64) -> usize
    ensures { result < 64 }
{
    (id % 64) as usize
}

impl Targets for Hosts {
    ghost use Rattle.std.specs.Prelude.{ℕ};

    ghost faults = { λ hosts. 0 };

    fn connect(&mut self, _id: u64, _host: &str, _port: u32) -> Result<bool, TargetFault> {
        Ok(true)
    }

    fn write(&mut self, id: u64, bytes: &[u8]) -> Result<(), TargetFault> {
        if bytes.len() == 2 && u64::from(bytes[0]) == id && bytes[1] == b'!' {
            self.written = self.written.saturating_add(1);
        }
        Ok(())
    }

    fn read(&mut self, id: u64, most: usize) -> Result<Arrived, TargetFault> {
        if most == 0 {
            return Ok(Arrived::Nothing);
        }
        if self.gave[place_of(id)] {
            return Ok(if id == ENDING {
                Arrived::End
            } else {
                Arrived::Nothing
            });
        }
        self.gave[place_of(id)] = true;
        match Bytes::copy_from_slice(self.alloc, &[(id % 256) as u8]) {
            Ok(bytes) => Ok(Arrived::Bytes(bytes)),
            Err(_) => Err(TargetFault::NoMemory),
        }
    }

    fn finish(&mut self, _id: u64) -> Result<(), TargetFault> {
        Ok(())
    }

    fn close(&mut self, id: u64) -> Result<(), TargetFault> {
        if id == id_of(CLOSED) {
            self.closed = self.closed.saturating_add(1);
        }
        Ok(())
    }
}

// The number of the connection for the open with this number.
fn id_of(open: u8) -> u64 {
    if open < REFUSED {
        u64::from(open)
    } else {
        u64::from(open).saturating_sub(1)
    }
}

fn push_all(alloc: Global, inputs: &mut Inputs) -> Result<(), WireError> {
    for open in 1..=OPENS {
        let port: u8 = if open == REFUSED { 81 } else { 80 };
        let parts: [&[u8]; 5] = [
            b"\x5a\0\0\0\x0cdirect-tcpip\0\0\0",
            &[open],
            b"\0\0\x10\0\0\0\x80\0\0\0\0\x0810.0.0.1\0\0\0",
            &[port],
            b"\0\0\0\0\0\0\0\0",
        ];
        push_bytes(alloc, inputs, &parts)?;
    }
    for open in 1..=OPENS {
        let number = (id_of(open) % 256) as u8;
        let parts: [&[u8]; 4] = [
            b"\x5e\0\0\0",
            &[open.saturating_add(1)],
            b"\0\0\0\x02",
            &[number, b'!'],
        ];
        push_bytes(alloc, inputs, &parts)?;
    }
    let parts: [&[u8]; 2] = [b"\x61\0\0\0", &[CLOSED.saturating_add(1)]];
    push_bytes(alloc, inputs, &parts)
}

// How many frames went out with this message number, and how many data frames carry the number of
// the connection of their channel.
fn count(link: &MemoryLink, number: u8) -> usize {
    let mut found: usize = 0;
    for entry in link.trace() {
        if let TraceEntry::Sent(frame) = entry {
            if frame.head().first() == Some(&number) {
                found = found.saturating_add(1);
            }
        }
    }
    found
}

fn count_right(link: &MemoryLink) -> usize {
    let mut right: usize = 0;
    for entry in link.trace() {
        if let TraceEntry::Sent(frame) = entry {
            let (head, body) = frame.parts();
            if head.first() == Some(&0x5e) && head.len() == 9 && body.len() == 1 {
                if id_of(head[4]) == u64::from(body[0]) {
                    right = right.saturating_add(1);
                }
            }
        }
    }
    right
}

fn goes_so(alloc: Global) -> Result<bool, WireError> {
    let mut inputs = start(alloc)?;
    push_all(alloc, &mut inputs)?;
    let mut link = MemoryLink::new(alloc, inputs, Calls::new(alloc))?;
    let policy = policy(alloc, true)?;
    let mut hosts = Hosts {
        alloc,
        gave: [false; 64],
        written: 0,
        closed: 0,
    };
    let end = run(alloc, &mut link, &policy, &mut hosts, 1000);
    Ok(
        end == End::Over
            && hosts.written == 49
            && hosts.closed == 1
            && count(&link, 0x5b) == 49
            && count(&link, 0x5c) == 1
            && count(&link, 0x5e) == 49
            && count_right(&link) == 49
            && count(&link, 0x60) == 1
            && count(&link, 0x61) == 1,
    )
}

#[test]
fn fifty_opens_at_once(rt: HostRuntime) {
    assert!(rt; goes_so(rt.alloc()) == Ok(true), "fifty opens at once");
}
