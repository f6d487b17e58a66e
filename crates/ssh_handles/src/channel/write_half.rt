// The half of a channel that writes.
ghost use Rattle.std.specs.Prelude.{◌≡◌, []};
ghost use Rattle.ssh_hub.specs.Views.{own_reservations};
ghost use Rattle.ssh_hub.specs.Words.{room_of};
ghost use Rattle.ssh_handles.specs.Callers.{seen_by};

use crate::caller::Caller;
use crate::gate::{Gate, NoGate};
use crate::writer::ChannelTx;
use bytes::Bytes;
use ssh_hub::{HandleError, Seat};
use ssh_link::{Command, Source};
use ssh_wire::ChannelId;
use std::alloc::Global;
use std::sync::Wait;

/// The half of a channel that writes. What it reserves of the channel's window it spends or gives
/// back in the same call.
#[derive(Drop)]
pub struct ChannelWriteHalf {
    pub(super) caller: Caller,
    pub(super) channel: ChannelId,
    ghost none: { own_reservations (seen_by caller) ≡ [] },
    ghost room: { room_of caller.seat ≡ 1 },
}

impl ChannelWriteHalf {
    ghost use Rattle.std.specs.Prelude.{false, None, Some, Option};
    ghost use Rattle.std.specs.Prelude.{◌≤◌, IfOk, IfErr, OnErr, IsErrOf};
    ghost use Rattle.ssh_link.specs.Faults.{RoseOrFull};
    ghost use Rattle.ssh_hub.specs.Words.{view_of, IsSeatOf, Makes};
    ghost use Rattle.ssh_hub.specs.declared.answers.HandleError.TheVariants.{NoMemory, ReadFault};
    ghost use Rattle.ssh_hub.specs.declared.answers.Look.{Look};
    ghost use Rattle.ssh_hub.specs.declared.history.HubCall.TheVariants.{LookAt};
    ghost use Rattle.ssh_hub.specs.declared.history.HubReply.TheVariants.{Saw};
    ghost use Rattle.ssh_link.specs.declared.command.Command.TheVariants.{Eof, Close, ExitStatus};
    ghost use Rattle.ssh_handles.specs.Callers.{hub_of, IsPut};
    ghost use Rattle.ssh_handles.specs.Handles.{writer_hub, writer_view, writer_id, writable};
    ghost use Rattle.ssh_handles.specs.Parts.{MakesSeat};
    ghost use Rattle.ssh_handles.specs.Writing.{Writes};
    ghost use Rattle.ssh_handles.specs.Sending.{Sends};
    ghost use Rattle.ssh_handles.specs.Writers.{tx_view, IsTxOf};

    pub(crate) fn new(caller: Caller, channel: ChannelId) -> ChannelWriteHalf
        requires none { own_reservations (seen_by caller) ≡ [] }
        requires room { room_of caller.seat ≡ 1 }
        ensures hub { writer_hub result ≡ hub_of caller }
        ensures view { writer_view result ≡ seen_by caller }
        ensures id { writer_id result ≡ channel }
    {
        ChannelWriteHalf { caller, channel }
    }

    pub(crate) fn into_parts(self) -> (Caller, ChannelId)
        ensures hub { hub_of result.0 ≡ writer_hub self }
        ensures view { seen_by result.0 ≡ writer_view self }
        ensures id { result.1 ≡ writer_id self }
        ensures none { own_reservations (seen_by result.0) ≡ [] }
        ensures room { room_of result.0.seat ≡ 1 }
    {
        let ChannelWriteHalf { caller, channel } = self;
        (caller, channel)
    }

    /// This side's number of the channel.
    pub fn id(&self) -> ChannelId
        ensures { result ≡ writer_id self.now }
    {
        self.channel
    }

    /// The seat of the half, which makes no call in this.
    pub fn into_seat(self) -> Seat
        ensures seat { IsSeatOf (writer_hub self) result }
        ensures view { view_of result ≡ writer_view self }
        ensures none { own_reservations (view_of result) ≡ [] }
    {
        let ChannelWriteHalf { caller, channel: _ } = self;
        caller.into_seat()
    }

    /// How many bytes one message may have now: the packet size of the channel or what is left of
    /// its window, whichever is smaller; 0 where the channel is closed.
    pub fn writable_packet_size<R: Wait>(&mut self, rt: &R) -> usize
        ensures hub { writer_hub self.new ≡ writer_hub self.old }
        ensures id { writer_id self.new ≡ writer_id self.old }
        ensures entries { (look : Option Look)
            × Makes (writer_view self.old) (LookAt (writer_id self.old)) (Saw look)
            (writer_view self.new)
            × (result ≡ writable look) }
    {
        let caller = &mut self.caller;
        match caller.lock.look(rt, &mut caller.seat, self.channel) {
            Some(look) => look.left.min(look.packet) as usize,
            None => 0,
        }
    }

    /// Sends all these bytes, in order, in messages that fit the packet size and the window of the
    /// channel (RFC 4254 section 5.2), and waits for the window where it has to. No byte: nothing
    /// is asked. `Refused` where the channel is closed or was never there, `Inconsistent` at packet
    /// size 0, `Ended` where the hub has ended, and `NoMemory`.
    pub fn data_bytes<R: Wait>(&mut self, rt: &R, bytes: Bytes) -> Result<(), HandleError>
        ensures hub { writer_hub self.new ≡ writer_hub self.old }
        ensures id { writer_id self.new ≡ writer_id self.old }
        ensures entries { Writes (writer_id self.old) None bytes (writer_view self.old) result
            (writer_view self.new) }
    {
        self.caller.write(rt, &NoGate, self.channel, None, bytes)
    }

    /// The same for data of another type (RFC 4254 section 5.2); 1 is standard error.
    pub fn extended_data_bytes<R: Wait>(
        &mut self,
        rt: &R,
        ext: u32,
        bytes: Bytes,
    ) -> Result<(), HandleError>
        ensures hub { writer_hub self.new ≡ writer_hub self.old }
        ensures id { writer_id self.new ≡ writer_id self.old }
        ensures entries { Writes (writer_id self.old) (Some ext) bytes (writer_view self.old) result
            (writer_view self.new) }
    {
        self.caller
            .write(rt, &NoGate, self.channel, Some(ext), bytes)
    }

    /// `data_bytes`, which passes this gate.
    pub fn data_bytes_through<R: Wait, G: Gate>(
        &mut self,
        rt: &R,
        gate: &G,
        bytes: Bytes,
    ) -> Result<(), HandleError>
        ensures hub { writer_hub self.new ≡ writer_hub self.old }
        ensures id { writer_id self.new ≡ writer_id self.old }
        ensures entries { Writes (writer_id self.old) None bytes (writer_view self.old) result
            (writer_view self.new) }
    {
        self.caller.write(rt, gate, self.channel, None, bytes)
    }

    /// Sends all bytes of the source, up to its end, as `data_bytes` does, piece by piece. The
    /// answer is how many these were, which stays at 2^64 - 1 once it has come there. Beside the
    /// errors of `data_bytes`, `ReadFault` where the source failed: its count of faults rose.
    pub fn data<R: Wait, S: Source>(
        &mut self,
        rt: &R,
        alloc: Global,
        reader: &mut S,
    ) -> Result<u64, HandleError>
        ensures hub { writer_hub self.new ≡ writer_hub self.old }
        ensures id { writer_id self.new ≡ writer_id self.old }
        ensures entries { Sends (writer_id self.old) None (S.left reader.old) (S.left reader.new)
            (writer_view self.old) result (writer_view self.new) }
        ensures cause { IsErrOf result ReadFault → RoseOrFull (S.faults reader.old)
            (S.faults reader.new) }
        ensures later { S.faults reader.old ≤ S.faults reader.new }
    {
        self.caller.send(rt, alloc, self.channel, None, reader)
    }

    /// The same for data of another type (RFC 4254 section 5.2); 1 is standard error.
    pub fn extended_data<R: Wait, S: Source>(
        &mut self,
        rt: &R,
        alloc: Global,
        ext: u32,
        reader: &mut S,
    ) -> Result<u64, HandleError>
        ensures hub { writer_hub self.new ≡ writer_hub self.old }
        ensures id { writer_id self.new ≡ writer_id self.old }
        ensures entries { Sends (writer_id self.old) (Some ext) (S.left reader.old)
            (S.left reader.new) (writer_view self.old) result (writer_view self.new) }
        ensures cause { IsErrOf result ReadFault → RoseOrFull (S.faults reader.old)
            (S.faults reader.new) }
        ensures later { S.faults reader.old ≤ S.faults reader.new }
    {
        self.caller.send(rt, alloc, self.channel, Some(ext), reader)
    }

    /// Tells the peer that no more data follow (RFC 4254 section 5.3). The answer is the ticket of
    /// the command, and `Ended` the only error; so it is of the calls below that answer a ticket.
    pub fn eof<R: Wait>(&mut self, rt: &R) -> Result<u64, HandleError>
        ensures hub { writer_hub self.new ≡ writer_hub self.old }
        ensures id { writer_id self.new ≡ writer_id self.old }
        ensures entries { IsPut (Eof (writer_id self.old)) 0 false (writer_view self.old) result
            (writer_view self.new) }
    {
        let channel = self.channel;
        self.caller.ticket(rt, Command::Eof { channel }, false)
    }

    /// Closes the channel (RFC 4254 section 5.3).
    pub fn close<R: Wait>(&mut self, rt: &R) -> Result<u64, HandleError>
        ensures hub { writer_hub self.new ≡ writer_hub self.old }
        ensures id { writer_id self.new ≡ writer_id self.old }
        ensures entries { IsPut (Close (writer_id self.old)) 0 false (writer_view self.old) result
            (writer_view self.new) }
    {
        let channel = self.channel;
        self.caller.ticket(rt, Command::Close { channel }, false)
    }

    /// Tells how the program on the channel ended (RFC 4254 section 6.10).
    pub fn exit_status<R: Wait>(&mut self, rt: &R, exit_status: u32) -> Result<u64, HandleError>
        ensures hub { writer_hub self.new ≡ writer_hub self.old }
        ensures id { writer_id self.new ≡ writer_id self.old }
        ensures entries { IsPut (ExitStatus (writer_id self.old) exit_status) 0 false (writer_view self.old) result
            (writer_view self.new) }
    {
        let msg = Command::ExitStatus {
            channel: self.channel,
            exit_status,
        };
        self.caller.ticket(rt, msg, false)
    }

    /// A writer that does not wait, with a seat of its own. `NoMemory` is the only error.
    pub fn make_writer<R: Wait>(&mut self, rt: &R) -> Result<ChannelTx, HandleError>
        ensures hub { writer_hub self.new ≡ writer_hub self.old }
        ensures id { writer_id self.new ≡ writer_id self.old }
        ensures made { IfOk result (λ t. MakesSeat (writer_view self.old) (writer_view self.new)
            (tx_view t)) }
        ensures of { IfOk result (λ t. IsTxOf (writer_hub self.old) (writer_id self.old) None t) }
        ensures memory { IfErr result (λ e. e ≡ NoMemory) }
        ensures none { OnErr result (writer_view self.new ≡ writer_view self.old) }
    {
        self.make_writer_ext(rt, None)
    }

    /// The same for data of another type (RFC 4254 section 5.2), or for data where there is none.
    pub fn make_writer_ext<R: Wait>(
        &mut self,
        rt: &R,
        ext: Option<u32>,
    ) -> Result<ChannelTx, HandleError>
        ensures hub { writer_hub self.new ≡ writer_hub self.old }
        ensures id { writer_id self.new ≡ writer_id self.old }
        ensures made { IfOk result (λ t. MakesSeat (writer_view self.old) (writer_view self.new)
            (tx_view t)) }
        ensures of { IfOk result (λ t. IsTxOf (writer_hub self.old) (writer_id self.old) ext t) }
        ensures memory { IfErr result (λ e. e ≡ NoMemory) }
        ensures none { OnErr result (writer_view self.new ≡ writer_view self.old) }
    {
        match self.caller.twin(rt) {
            Ok(caller) => Ok(ChannelTx::new(caller, self.channel, ext)),
            Err(e) => Err(e),
        }
    }
}
