// The calls of a channel, each of which is that of one of its halves.
use super::{Channel, ChannelReadHalf};
use crate::reader::ChannelRx;
use crate::writer::ChannelTx;
use bytes::Bytes;
use ssh_hub::HandleError;
use ssh_link::{ChannelMsg, Source};
use ssh_wire::ChannelId;
use std::alloc::Global;
use std::sync::Wait;

impl Channel {
    ghost use Rattle.std.specs.Prelude.{◌≡◌, ◌≤◌, false, None, Some, Option};
    ghost use Rattle.std.specs.Prelude.{IfOk, IfErr, OnErr, IsErrOf};
    ghost use Rattle.ssh_link.specs.Faults.{RoseOrFull};
    ghost use Rattle.ssh_link.specs.declared.command.Command.TheVariants.{Eof, Close, ExitStatus};
    ghost use Rattle.ssh_hub.specs.Words.{Makes};
    ghost use Rattle.ssh_hub.specs.declared.answers.HandleError.TheVariants.{NoMemory, ReadFault};
    ghost use Rattle.ssh_hub.specs.declared.answers.Look.{Look};
    ghost use Rattle.ssh_hub.specs.declared.history.HubCall.TheVariants.{LookAt};
    ghost use Rattle.ssh_hub.specs.declared.history.HubReply.TheVariants.{Saw};
    ghost use Rattle.ssh_handles.specs.Callers.{IsPut, IsReceived};
    ghost use Rattle.ssh_handles.specs.Handles.{reader_view, reader_id, OnlyReads};
    ghost use Rattle.ssh_handles.specs.Handles.{writer_hub, writer_view, writer_id, OnlyWrites};
    ghost use Rattle.ssh_handles.specs.Handles.{writable};
    ghost use Rattle.ssh_handles.specs.Parts.{MakesSeat};
    ghost use Rattle.ssh_handles.specs.Writing.{Writes};
    ghost use Rattle.ssh_handles.specs.Sending.{Sends};
    ghost use Rattle.ssh_handles.specs.Writers.{tx_view, IsTxOf};
    ghost use Rattle.ssh_handles.specs.Readers.{IsRxOf};

    /// `ChannelWriteHalf::id` of the half that writes.
    pub fn id(&self) -> ChannelId
        ensures { result ≡ writer_id self.now.write }
    {
        self.write.id()
    }

    /// `ChannelWriteHalf::writable_packet_size` of the half that writes.
    pub fn writable_packet_size<R: Wait>(&mut self, rt: &R) -> usize
        ensures half { OnlyWrites self.old self.new }
        ensures entries { (look : Option Look) × Makes (writer_view self.old.write) (LookAt
            (writer_id self.old.write)) (Saw look) (writer_view self.new.write) × (result ≡
            writable look) }
    {
        self.write.writable_packet_size(rt)
    }

    /// `ChannelWriteHalf::data_bytes` of the half that writes.
    pub fn data_bytes<R: Wait>(&mut self, rt: &R, bytes: Bytes) -> Result<(), HandleError>
        ensures half { OnlyWrites self.old self.new }
        ensures entries { Writes (writer_id self.old.write) None bytes (writer_view
            self.old.write) result (writer_view self.new.write) }
    {
        self.write.data_bytes(rt, bytes)
    }

    /// `ChannelWriteHalf::extended_data_bytes` of the half that writes.
    pub fn extended_data_bytes<R: Wait>(
        &mut self,
        rt: &R,
        ext: u32,
        bytes: Bytes,
    ) -> Result<(), HandleError>
        ensures half { OnlyWrites self.old self.new }
        ensures entries { Writes (writer_id self.old.write) (Some ext) bytes (writer_view
            self.old.write) result (writer_view self.new.write) }
    {
        self.write.extended_data_bytes(rt, ext, bytes)
    }

    /// `ChannelWriteHalf::data` of the half that writes.
    pub fn data<R: Wait, S: Source>(
        &mut self,
        rt: &R,
        alloc: Global,
        reader: &mut S,
    ) -> Result<u64, HandleError>
        ensures half { OnlyWrites self.old self.new }
        ensures entries { Sends (writer_id self.old.write) None (S.left reader.old) (S.left
            reader.new) (writer_view self.old.write) result (writer_view self.new.write) }
        ensures cause { IsErrOf result ReadFault → RoseOrFull (S.faults reader.old) (S.faults
            reader.new) }
        ensures later { S.faults reader.old ≤ S.faults reader.new }
    {
        self.write.data(rt, alloc, reader)
    }

    /// `ChannelWriteHalf::extended_data` of the half that writes.
    pub fn extended_data<R: Wait, S: Source>(
        &mut self,
        rt: &R,
        alloc: Global,
        ext: u32,
        reader: &mut S,
    ) -> Result<u64, HandleError>
        ensures half { OnlyWrites self.old self.new }
        ensures entries { Sends (writer_id self.old.write) (Some ext) (S.left reader.old)
            (S.left reader.new) (writer_view self.old.write) result (writer_view self.new.write) }
        ensures cause { IsErrOf result ReadFault → RoseOrFull (S.faults reader.old) (S.faults
            reader.new) }
        ensures later { S.faults reader.old ≤ S.faults reader.new }
    {
        self.write.extended_data(rt, alloc, ext, reader)
    }

    /// `ChannelWriteHalf::eof` of the half that writes.
    pub fn eof<R: Wait>(&mut self, rt: &R) -> Result<u64, HandleError>
        ensures half { OnlyWrites self.old self.new }
        ensures entries { IsPut (Eof (writer_id self.old.write)) 0 false (writer_view
            self.old.write) result (writer_view self.new.write) }
    {
        self.write.eof(rt)
    }

    /// `ChannelWriteHalf::close` of the half that writes.
    pub fn close<R: Wait>(&mut self, rt: &R) -> Result<u64, HandleError>
        ensures half { OnlyWrites self.old self.new }
        ensures entries { IsPut (Close (writer_id self.old.write)) 0 false (writer_view
            self.old.write) result (writer_view self.new.write) }
    {
        self.write.close(rt)
    }

    /// `ChannelWriteHalf::exit_status` of the half that writes.
    pub fn exit_status<R: Wait>(&mut self, rt: &R, exit_status: u32) -> Result<u64, HandleError>
        ensures half { OnlyWrites self.old self.new }
        ensures entries { IsPut (ExitStatus (writer_id self.old.write) exit_status) 0 false
            (writer_view self.old.write) result (writer_view self.new.write) }
    {
        self.write.exit_status(rt, exit_status)
    }

    /// `ChannelWriteHalf::make_writer` of the half that writes.
    pub fn make_writer<R: Wait>(&mut self, rt: &R) -> Result<ChannelTx, HandleError>
        ensures half { OnlyWrites self.old self.new }
        ensures made { IfOk result (λ t. MakesSeat (writer_view self.old.write) (writer_view
            self.new.write) (tx_view t)) }
        ensures of { IfOk result (λ t. IsTxOf (writer_hub self.old.write) (writer_id
            self.old.write) None t) }
        ensures memory { IfErr result (λ e. e ≡ NoMemory) }
        ensures none { OnErr result (writer_view self.new.write ≡ writer_view self.old.write) }
    {
        self.write.make_writer(rt)
    }

    /// `ChannelWriteHalf::make_writer_ext` of the half that writes.
    pub fn make_writer_ext<R: Wait>(
        &mut self,
        rt: &R,
        ext: Option<u32>,
    ) -> Result<ChannelTx, HandleError>
        ensures half { OnlyWrites self.old self.new }
        ensures made { IfOk result (λ t. MakesSeat (writer_view self.old.write) (writer_view
            self.new.write) (tx_view t)) }
        ensures of { IfOk result (λ t. IsTxOf (writer_hub self.old.write) (writer_id
            self.old.write) ext t) }
        ensures memory { IfErr result (λ e. e ≡ NoMemory) }
        ensures none { OnErr result (writer_view self.new.write ≡ writer_view self.old.write) }
    {
        self.write.make_writer_ext(rt, ext)
    }

    /// `ChannelReadHalf::wait` of the half that reads.
    pub fn wait<R: Wait>(&mut self, rt: &R) -> Option<ChannelMsg>
        ensures half { OnlyReads self.old self.new }
        ensures entries { IsReceived (reader_id self.old.read) (reader_view self.old.read)
            result (reader_view self.new.read) }
    {
        self.read.wait(rt)
    }

    /// `ChannelReadHalf::make_reader` of the half that reads.
    pub fn make_reader(&mut self) -> ChannelRx<&mut ChannelReadHalf>
        ensures half { result.half.now ≡ self.old.read }
        ensures new { IsRxOf None result }
    {
        self.read.make_reader()
    }

    /// `ChannelReadHalf::make_reader_ext` of the half that reads.
    pub fn make_reader_ext(&mut self, ext: Option<u32>) -> ChannelRx<&mut ChannelReadHalf>
        ensures half { result.half.now ≡ self.old.read }
        ensures new { IsRxOf ext result }
    {
        self.read.make_reader_ext(ext)
    }
}
