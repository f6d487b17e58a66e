// Workloads on a gateway: data that go through it to the peer, or to the targets.
use crate::{KIB_32, PACKET, TARGET, turn};
use bytes::Bytes;
use ssh_auth::{Auth, AuthHandler, Unwritten};
use ssh_gateway::{Arrived, Policy, TargetFault, Targets, run_gateway};
use ssh_handler::Config;
use ssh_keys::TableVerifier;
use ssh_link::{CommandOutcome, Frame, Input, InputKind, Link, LinkFault, Notice, PlainKex};
use ssh_wire::message::{CHANNEL_DATA, CHANNEL_OPEN};
use ssh_wire::{WireError, put_bytes, put_text, put_u8, put_u32};
use std::alloc::Global;

/// The words that name a workload on a gateway.
pub(crate) const FORWARDINGS: &str = "in|out";

/// SERVICE_REQUEST for the service ssh-userauth, and USERAUTH_REQUEST of alice by method none.
const LOGIN: [&[u8]; 2] = [
    b"\x05\0\0\0\x0cssh-userauth",
    b"\x32\0\0\0\x05alice\0\0\0\x0essh-connection\0\0\0\x04none",
];

/// Which way 32 KiB go, again and again, on each connection in turn.
#[derive(Clone, Copy, PartialEq, Eq)]
pub(crate) enum Forwarding {
    /// From the peer to a target.
    In,
    /// From a target to the peer.
    Out,
}

pub(crate) fn forwarding_named(word: &str) -> Option<Forwarding> {
    match word {
        "in" => Some(Forwarding::In),
        "out" => Some(Forwarding::Out),
        _ => None,
    }
}

/// A handler that lets everybody in.
#[derive(Drop)]
struct Welcoming;

impl AuthHandler for Welcoming {
    type Error = ();

    fn untold(&mut self, _by: Unwritten) -> Result<(), ()> {
        Ok(())
    }

    fn auth_none(&mut self, _user: &str) -> Result<Auth, ()> {
        Ok(Auth::Accept)
    }
}

/// A policy that allows everything.
struct Everything;

impl Policy for Everything {
    ghost use Rattle.std.specs.Prelude.{true};

    ghost permits = { λ policy user host port. true };

    fn allows(&self, _user: &str, _host: &str, _port: u32) -> bool {
        true
    }
}

/// A peer that logs in, opens so many channels to a host, sends so many pieces of data on them, each
/// channel in turn, and ends; it counts the bytes of data that come to it.
#[derive(Drop)]
struct Peer {
    alloc: Global,
    piece: Bytes,
    channels: u32,
    pieces: u32,
    /// How many payloads it gave.
    given: u32,
    received: u64,
}

impl Peer {
    fn open(&self, peer: u32) -> Result<Vec<u8>, WireError> {
        let mut payload = Vec::new(self.alloc);
        put_u8(&mut payload, CHANNEL_OPEN)?;
        put_text(&mut payload, "direct-tcpip")?;
        put_u32(&mut payload, peer)?;
        put_u32(&mut payload, u32::MAX)?;
        put_u32(&mut payload, PACKET)?;
        put_text(&mut payload, "10.0.0.1")?;
        put_u32(&mut payload, 80)?;
        put_text(&mut payload, "")?;
        put_u32(&mut payload, 0)?;
        Ok(payload)
    }

    fn data(&self, piece: u32) -> Result<Vec<u8>, WireError> {
        let mut payload = Vec::with_capacity(self.alloc, self.piece.len().saturating_add(9))?;
        put_u8(&mut payload, CHANNEL_DATA)?;
        put_u32(&mut payload, turn(piece, self.channels).0)?;
        put_bytes(&mut payload, self.piece.as_slice())?;
        Ok(payload)
    }

    /// The payload of this number, where there is one.
    fn payload(&self, number: u32) -> Result<Option<Bytes>, WireError> {
        if let Some(login) = LOGIN.get(number as usize) {
            return Ok(Some(Bytes::copy_from_slice(self.alloc, *login)?));
        }
        let open = number.saturating_sub(2);
        if open < self.channels {
            return Ok(Some(Bytes::from_vec(self.open(open)?)?));
        }
        let piece = open.saturating_sub(self.channels);
        if piece < self.pieces {
            return Ok(Some(Bytes::from_vec(self.data(piece)?)?));
        }
        Ok(None)
    }
}

impl Link for Peer {
    ghost faults = { λ _. 0 };

    fn next(&mut self, _commands: bool, _replies: bool) -> Result<Input, LinkFault> {
        let Ok(payload) = self.payload(self.given) else {
            return Err(LinkFault::NoMemory);
        };
        self.given = self.given.saturating_add(1);
        let kind = match payload {
            Some(payload) => InputKind::Payload(payload),
            None => InputKind::End,
        };
        Ok(Input { moment: 0, kind })
    }

    fn send(&mut self, frame: Frame) -> Result<(), LinkFault> {
        let (head, body) = frame.parts();
        if head.first() == Some(&CHANNEL_DATA) {
            self.received = self.received.saturating_add(body.len() as u64);
        }
        Ok(())
    }

    fn notice(&mut self, notice: Notice) -> Result<(), LinkFault> {
        drop(notice);
        Ok(())
    }

    fn answer(&mut self, _ticket: u64, _outcome: CommandOutcome) -> Result<(), LinkFault> {
        Ok(())
    }
}

/// Targets that give so many pieces of data, each connection in turn, and then nothing; they count
/// the bytes that are written.
#[derive(Drop)]
struct Flowing {
    piece: Bytes,
    connections: u64,
    pieces: u32,
    given: u32,
    written: u64,
}

impl Targets for Flowing {
    ghost faults = { λ _. 0 };

    fn connect(&mut self, _id: u64, _host: &str, _port: u32) -> Result<bool, TargetFault> {
        Ok(true)
    }

    fn write(&mut self, _id: u64, bytes: &[u8]) -> Result<(), TargetFault> {
        self.written = self.written.saturating_add(bytes.len() as u64);
        Ok(())
    }

    fn read(&mut self, id: u64, most: usize) -> Result<Arrived, TargetFault> {
        let next = u64::from(self.given) % self.connections.max(1);
        if self.given >= self.pieces || id != next.saturating_add(1) {
            return Ok(Arrived::Nothing);
        }
        if self.piece.is_empty() || self.piece.len() > most {
            return Ok(Arrived::Nothing);
        }
        self.given = self.given.saturating_add(1);
        match self.piece.clone() {
            Ok(bytes) => Ok(Arrived::Bytes(bytes)),
            Err(_) => Err(TargetFault::NoMemory),
        }
    }

    fn finish(&mut self, _id: u64) -> Result<(), TargetFault> {
        Ok(())
    }

    fn close(&mut self, _id: u64) -> Result<(), TargetFault> {
        Ok(())
    }
}

/// How many pieces of 32 KiB went through a gateway with so many connections.
pub(crate) fn forward(
    alloc: Global,
    work: Forwarding,
    connections: u32,
    count: u32,
) -> Result<u64, WireError> {
    let bytes: Vec<u8> = vec![in alloc; 7; KIB_32]?;
    let piece = Bytes::from_vec(bytes)?;
    let (incoming, outgoing) = match work {
        Forwarding::In => (count, 0),
        Forwarding::Out => (0, count),
    };
    let mut peer = Peer {
        alloc,
        piece: piece.clone()?,
        channels: connections,
        pieces: incoming,
        given: 0,
        received: 0,
    };
    let mut targets = Flowing {
        piece,
        connections: u64::from(connections),
        pieces: outgoing,
        given: 0,
        written: 0,
    };
    let mut config = Config::standard();
    config.window_size = TARGET;
    config.maximum_packet_size = PACKET;
    let mut kex = PlainKex::new(alloc, false);
    let ended = run_gateway(
        alloc,
        &config,
        b"",
        b"",
        &mut Welcoming,
        &TableVerifier::new(alloc),
        &mut kex,
        &mut peer,
        &Everything,
        &mut targets,
        u64::MAX,
    );
    if ended.is_err() {
        return Err(WireError::NoMemory);
    }
    Ok((peer.received.saturating_add(targets.written)) / KIB_32 as u64)
}
