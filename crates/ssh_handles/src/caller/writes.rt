// Bytes that are written on a channel.
ghost use Rattle.std.specs.Prelude.{◌≡◌, ◌<◌, [], ◌∷◌, length, IfOk, Option};
ghost use Rattle.ssh_hub.specs.Reserved.{reservation};
ghost use Rattle.ssh_hub.specs.Views.{own_reservations};
ghost use Rattle.ssh_hub.specs.Words.{room_of};
ghost use Rattle.ssh_handles.specs.DataCommands.{data_command};
ghost use Rattle.ssh_handles.specs.Callers.{hub_of, seen_by, PutsOrReleases};
ghost use Rattle.ssh_handles.specs.Writing.{Writes, WritesFrom, asking, packet_seen};
ghost use Rattle.ssh_hub.specs.Words.{Makes};
ghost use Rattle.ssh_hub.specs.declared.answers.Look.{Look};
ghost use Rattle.ssh_hub.specs.declared.history.HubCall.TheVariants.{LookAt};
ghost use Rattle.ssh_hub.specs.declared.history.HubReply.TheVariants.{Saw};

use super::Caller;
use crate::gate::{Gate, NoGate};
use crate::tags::{data_command, wanted};
use bytes::Bytes;
use ssh_hub::{HandleError, Reserve};
use ssh_link::Refusal;
use ssh_wire::ChannelId;
use std::alloc::Global;
use std::sync::Wait;

impl Caller {
    // Writes all these bytes on the channel. Nothing is reserved before, nor afterwards.
    pub fn write<R: Wait, G: Gate>(
        &mut self,
        rt: &R,
        gate: &G,
        channel: ChannelId,
        ext: Option<u32>,
        bytes: Bytes,
    ) -> Result<(), HandleError>
        requires none { own_reservations (seen_by self.old) ≡ [] }
        requires room { 0 < room_of self.old.seat }
        ensures hub { hub_of self.new ≡ hub_of self.old }
        ensures room { room_of self.new.seat ≡ room_of self.old.seat }
        ensures none { own_reservations (seen_by self.new) ≡ [] }
        ensures entries { Writes channel ext bytes (seen_by self.old) result (seen_by self.new) }
    {
        if bytes.is_empty() {
            return Ok(());
        }
        match self.packet_size(rt, channel) {
            Ok(packet) => self.put_all(rt, gate, channel, ext, packet, bytes),
            Err(e) => Err(e),
        }
    }

    // Writes a copy of these bytes, of which there are some. Nothing is reserved before, nor
    // afterwards.
    pub(super) fn write_copy<R: Wait>(
        &mut self,
        rt: &R,
        alloc: Global,
        channel: ChannelId,
        ext: Option<u32>,
        bytes: &[u8],
    ) -> Result<(), HandleError>
        requires none { own_reservations (seen_by self.old) ≡ [] }
        requires room { 0 < room_of self.old.seat }
        requires some { 0 < length bytes.now }
        ensures hub { hub_of self.new ≡ hub_of self.old }
        ensures room { room_of self.new.seat ≡ room_of self.old.seat }
        ensures none { own_reservations (seen_by self.new) ≡ [] }
        ensures entries { Writes channel ext bytes.now (seen_by self.old) result
            (seen_by self.new) }
    {
        match self.packet_size(rt, channel) {
            Ok(packet) => self.put_copy(rt, alloc, channel, ext, packet, bytes),
            Err(e) => Err(e),
        }
    }

    // Reserves and puts a copy of these bytes.
    fn put_copy<R: Wait>(
        &mut self,
        rt: &R,
        alloc: Global,
        channel: ChannelId,
        ext: Option<u32>,
        packet: u32,
        bytes: &[u8],
    ) -> Result<(), HandleError>
        requires none { own_reservations (seen_by self.old) ≡ [] }
        requires room { 0 < room_of self.old.seat }
        requires packet { 0 < packet }
        requires some { 0 < length bytes.now }
        ensures hub { hub_of self.new ≡ hub_of self.old }
        ensures room { room_of self.new.seat ≡ room_of self.old.seat }
        ensures none { own_reservations (seen_by self.new) ≡ [] }
        ensures entries { WritesFrom channel ext (seen_by self.old) (asking packet bytes.now) result
            (seen_by self.new) }
    {
        match Bytes::copy_from_slice(alloc, bytes) {
            Ok(copy) => self.put_all(rt, &NoGate, channel, ext, packet, copy),
            Err(_) => Err(HandleError::NoMemory),
        }
    }

    // Looks how many bytes go into one message at most.
    fn packet_size<R: Wait>(&mut self, rt: &R, channel: ChannelId) -> Result<u32, HandleError>
        ensures hub { hub_of self.new ≡ hub_of self.old }
        ensures room { room_of self.new.seat ≡ room_of self.old.seat }
        ensures reserved { own_reservations (seen_by self.new)
            ≡ own_reservations (seen_by self.old) }
        ensures entries { (look : Option Look)
            × Makes (seen_by self.old) (LookAt channel) (Saw look) (seen_by self.new)
            × (result ≡ packet_seen look) }
        ensures some { IfOk result (λ packet. 0 < packet) }
    {
        match self.lock.look(rt, &mut self.seat, channel) {
            Some(look) => {
                if look.packet == 0 {
                    Err(HandleError::Inconsistent)
                } else {
                    Ok(look.packet)
                }
            }
            None => Err(HandleError::Refused(Refusal::UnknownChannel)),
        }
    }

    // Reserves and puts until no byte is left.
    fn put_all<R: Wait, G: Gate>(
        &mut self,
        rt: &R,
        gate: &G,
        channel: ChannelId,
        ext: Option<u32>,
        packet: u32,
        bytes: Bytes,
    ) -> Result<(), HandleError>
        requires none { own_reservations (seen_by self.old) ≡ [] }
        requires room { 0 < room_of self.old.seat }
        requires packet { 0 < packet }
        requires some { 0 < length bytes }
        ensures hub { hub_of self.new ≡ hub_of self.old }
        ensures room { room_of self.new.seat ≡ room_of self.old.seat }
        ensures none { own_reservations (seen_by self.new) ≡ [] }
        ensures entries { WritesFrom channel ext (seen_by self.old) (asking packet bytes) result
            (seen_by self.new) }
    {
        let mut rest = bytes;
        for _ in rt.forever() {
            let want = wanted(packet, rest.len());
            let Ok(mut piece) = rest.slice(0..want as usize) else {
                return Err(HandleError::NoMemory);
            };
            match self.lock.reserve(rt, &mut self.seat, channel, want) {
                Reserve::Got(count) => {
                    piece.truncate(count as usize);
                    rest.advance(count as usize);
                    if let Err(e) = self.put_piece(rt, gate, channel, ext, piece, count) {
                        return Err(e);
                    }
                    if rest.is_empty() {
                        return Ok(());
                    }
                }
                Reserve::Empty => {
                    gate.pass(1);
                    self.pause(rt);
                }
                Reserve::Gone => return Err(HandleError::Refused(Refusal::UnknownChannel)),
                Reserve::Ended { at } => return Err(HandleError::Ended { at }),
            }
        }
        unreachable!()
    }

    // Puts these bytes, which are reserved. At the end of the hub they are given back.
    fn put_piece<R: Wait, G: Gate>(
        &mut self,
        rt: &R,
        gate: &G,
        channel: ChannelId,
        ext: Option<u32>,
        piece: Bytes,
        count: u32,
    ) -> Result<(), HandleError>
        requires { own_reservations (seen_by self.old) ≡ reservation channel.0 count ∷ [] }
        ensures hub { hub_of self.new ≡ hub_of self.old }
        ensures room { room_of self.new.seat ≡ room_of self.old.seat }
        ensures none { own_reservations (seen_by self.new) ≡ [] }
        ensures entries { PutsOrReleases (data_command channel ext piece) channel count
            (seen_by self.old) result (seen_by self.new) }
    {
        let msg = data_command(channel, ext, piece);
        match self.put(rt, gate, msg, count, false) {
            Ok(_) => Ok(()),
            Err((back, at)) => {
                drop(back);
                self.lock.release(rt, &mut self.seat, channel, count);
                Err(HandleError::Ended { at })
            }
        }
    }
}
