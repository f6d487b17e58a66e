// What this side sends on a channel, and how it is handed on.
ghost use Rattle.std.specs.Prelude.{◌≡◌, ◌==◌, [], ◌∷◌, ◌++◌, length, option_to_list, IfNone};
ghost use Rattle.std.specs.Prelude.{IfOk, IfErr, IsOk, OnOk, OnErr};
ghost use Rattle.ssh_wire.specs.declared.error.WireError.TheVariants as wire;
ghost use Rattle.ssh_channels.specs.declared.error.TableError.TheVariants.{NoMemory};
ghost use Rattle.ssh_channels.specs.declared.chunk.DataKind.TheVariants.{Plain, Extended};
ghost use Rattle.ssh_channels.specs.Layout.{chunk as chunk_of};
ghost use Rattle.ssh_channels.specs.Line as line;
ghost use Rattle.ssh_channels.specs.Table as table;
ghost use Rattle.ssh_channels.specs.Calls as calls;
ghost use Rattle.ssh_channels.specs.Paths as paths;

use crate::frames::{Recipient, bare_frame};
use crate::waiting::{data_frame, keep_if, note};
use crate::{Chunk, DataKind, Encrypted, TableError};
use bytes::Bytes;
use ssh_link::Frame;
use ssh_wire::{ChannelId, WireError};
use std::alloc::Global;
use std::collections::VecDeque;
use std::marker::Model;
use std::mem;

/// Frames that are to be handed on, in order. A clause sees the list.
#[derive(Debug, Drop)]
pub struct FrameSink {
    pub(crate) frames: VecDeque<Frame>,
}

impl Model for FrameSink {
    ghost use Rattle.std.specs.Prelude.{List};
    ghost use Rattle.ssh_link.specs.Frames.{Frame};

    ghost Value = { List Frame };

    ghost view = { λ sink. sink.frames.items };
}

impl FrameSink {
    /// No frame.
    pub fn new(alloc: Global) -> FrameSink
        ensures { result ≡ [] }
    {
        FrameSink {
            frames: VecDeque::new(alloc),
        }
    }

    /// Adds a frame at the end. `NoMemory` is the only error, and leaves the list as it was.
    pub fn push(&mut self, frame: Frame) -> Result<(), WireError>
        ensures ok { OnOk result (self.new ≡ self.old ++ frame ∷ []) }
        ensures err { OnErr result (self.new ≡ self.old) }
        ensures memory { IfErr result (λ e. e ≡ wire.NoMemory) }
    {
        self.frames.push_back(frame)?;
        Ok(())
    }

    /// Whether there is no frame.
    pub fn is_empty(&self) -> bool
        ensures { result ≡ (length self.now == 0) }
    {
        self.frames.is_empty()
    }

    /// Takes the first frame, and none exactly where there is no frame. The others stay where they
    /// are.
    pub fn pop_front(&mut self) -> Option<Frame>
        ensures first { self.old ≡ option_to_list result ++ self.new }
        ensures none { IfNone result (self.old ≡ []) }
    {
        self.frames.pop_front()
    }

    /// The frames in order, to hand on.
    pub fn into_vec(self) -> Vec<Frame>
        ensures { result.items ≡ self }
    {
        self.frames.into_vec()
    }
}

impl Encrypted {
    /// What one data command brings goes out, or waits.
    fn send(
        &mut self,
        channel: ChannelId,
        chunk: Chunk,
        is_rekeying: bool,
    ) -> Result<bool, TableError>
        ensures answer { IfOk result (λ r. r ≡ table.has line.may_send channel.0 self.old) }
        ensures table { OnOk result (self.new ≡ calls.send channel.0 chunk is_rekeying self.old) }
        ensures unchanged { OnErr result (self.new ≡ self.old) }
        ensures memory { IfErr result (λ e. e ≡ NoMemory) }
    {
        let Some(line) = self.lines.get_mut(&channel.0) else {
            return Ok(false);
        };
        if !line.may_send() {
            return Ok(false);
        }
        let is_one = !is_rekeying && line.takes_whole(&chunk.bytes);
        if is_one {
            // They need no list of pieces, and nothing waits after them that did not before.
            let peer = line.recipient_channel;
            let count = chunk.bytes.len() as u32;
            let to = Recipient { own: channel, peer };
            let frame = data_frame(to, chunk.kind, chunk.bytes);
            self.staged.push_back(frame)?;
            line.recipient_window_size -= count;
            return Ok(true);
        }
        let waits = line.waits_with(&chunk, is_rekeying);
        note(&mut self.waiting, channel.0, waits)?;
        if let Err(why) = line.take(self.alloc, channel, chunk, is_rekeying, &mut self.staged) {
            let waits = line.something_waits();
            keep_if(&mut self.waiting, channel.0, waits);
            return Err(why);
        }
        Ok(true)
    }

    /// These bytes go out on the channel as CHANNEL_DATA, as far as the credit goes and where
    /// nothing waits and no exchange runs; the rest waits. Frames and what waits share the bytes.
    /// `false` exactly where the channel is not established, or an EOF or a CLOSE was accepted on
    /// it.
    pub fn data(
        &mut self,
        channel: ChannelId,
        bytes: Bytes,
        is_rekeying: bool,
    ) -> Result<bool, TableError>
        ensures answer { IfOk result (λ r. r ≡ table.has line.may_send channel.0 self.old) }
        ensures table { OnOk result (self.new
            ≡ calls.send channel.0 (chunk_of Plain bytes) is_rekeying self.old) }
        ensures unchanged { OnErr result (self.new ≡ self.old) }
        ensures memory { IfErr result (λ e. e ≡ NoMemory) }
    {
        let kind = DataKind::Plain;
        self.send(channel, Chunk { kind, bytes }, is_rekeying)
    }

    /// `data`, as CHANNEL_EXTENDED_DATA of the data type code `ext`. Both kinds share one queue
    /// and one credit.
    pub fn extended_data(
        &mut self,
        channel: ChannelId,
        ext: u32,
        bytes: Bytes,
        is_rekeying: bool,
    ) -> Result<bool, TableError>
        ensures answer { IfOk result (λ r. r ≡ table.has line.may_send channel.0 self.old) }
        ensures table { OnOk result (self.new
            ≡ calls.send channel.0 (chunk_of (Extended ext) bytes) is_rekeying self.old) }
        ensures unchanged { OnErr result (self.new ≡ self.old) }
        ensures memory { IfErr result (λ e. e ≡ NoMemory) }
    {
        let kind = DataKind::Extended(ext);
        self.send(channel, Chunk { kind, bytes }, is_rekeying)
    }

    /// EOF goes out, or waits behind the data. `false` exactly where the channel is not
    /// established, or an EOF or a CLOSE was accepted on it.
    pub fn eof(&mut self, channel: ChannelId) -> Result<bool, TableError>
        ensures answer { IfOk result (λ r. r ≡ table.has line.may_send channel.0 self.old) }
        ensures table { OnOk result (self.new ≡ calls.eof channel.0 self.old) }
        ensures unchanged { OnErr result (self.new ≡ self.old) }
        ensures memory { IfErr result (λ e. e ≡ NoMemory) }
    {
        let Some(line) = self.lines.get_mut(&channel.0) else {
            return Ok(false);
        };
        if !line.may_send() {
            return Ok(false);
        }
        line.end(channel, &mut self.staged)?;
        let waits = line.something_waits();
        keep_if(&mut self.waiting, channel.0, waits);
        Ok(true)
    }

    /// A message that says no more than its number `msg` goes out, as CHANNEL_SUCCESS and
    /// CHANNEL_FAILURE do. `false` exactly where the channel is not established.
    pub fn byte(&mut self, channel: ChannelId, msg: u8) -> Result<bool, TableError>
        ensures answer { IfOk result (λ r. r ≡ table.has line.is_established channel.0 self.old) }
        ensures table { OnOk result (self.new ≡ calls.byte channel.0 msg self.old) }
        ensures unchanged { OnErr result (self.new ≡ self.old) }
        ensures memory { IfErr result (λ e. e ≡ NoMemory) }
    {
        let Some(line) = self.lines.get(&channel.0) else {
            return Ok(false);
        };
        if !line.confirmed {
            return Ok(false);
        }
        let frame = bare_frame(line.recipient(channel), msg);
        self.staged.push_back(frame)?;
        Ok(true)
    }

    /// Stages a frame behind the others. `NoMemory` is the only error.
    pub fn stage(&mut self, frame: Frame) -> Result<(), TableError>
        ensures table { OnOk result (self.new ≡ calls.stage frame self.old) }
        ensures unchanged { OnErr result (self.new ≡ self.old) }
        ensures memory { IfErr result (λ e. e ≡ NoMemory) }
    {
        self.staged.push_back(frame)?;
        Ok(())
    }

    /// What waits on the channel goes out as far as the credit goes, and then the EOF and the CLOSE
    /// that waited behind it; with the CLOSE the channel is gone. Answers how many bytes of data
    /// went out.
    pub fn flush_pending(&mut self, channel: ChannelId) -> Result<usize, TableError>
        ensures answer { IfOk result (λ r. r ≡ calls.framed_at channel.0 self.old) }
        ensures table { OnOk result (self.new ≡ calls.flush_line channel.0 self.old) }
        ensures unchanged { OnErr result (self.new ≡ self.old) }
        ensures memory { IfErr result (λ e. e ≡ NoMemory) }
    {
        let Some(line) = self.lines.get_mut(&channel.0) else {
            return Ok(0);
        };
        let credit = line.recipient_window_size;
        let gone = line.go_on(self.alloc, channel, &mut self.staged)?;
        let framed = credit - line.recipient_window_size;
        let waits = line.waits_on(gone);
        keep_if(&mut self.waiting, channel.0, waits);
        if gone {
            let _ = self.lines.remove(&channel.0);
        }
        Ok(framed as usize)
    }

    /// `flush_pending` of each channel, in ascending order. Where there is no memory, the first few
    /// channels were flushed. It costs the same however many channels there are on which nothing
    /// waits.
    pub fn flush_all_pending(&mut self) -> Result<(), TableError>
        ensures table { OnOk result (self.new ≡ calls.flush_all self.old) }
        ensures part { OnErr result (paths.IsPart self.old self.new) }
        ensures memory { IfErr result (λ e. e ≡ NoMemory) }
    {
        // From their count it is known that the channels stand in ascending order.
        let _channels = self.lines.len();
        let numbers: Vec<u32> = self.waiting.iter().copied().collect(self.alloc)?;
        for number in numbers {
            self.flush_pending(ChannelId(number))?;
        }
        Ok(())
    }

    /// The staged frames are handed on to the sink, and nothing is where an exchange runs. A sink
    /// without frames takes them over, which needs no memory.
    pub fn flush(&mut self, sink: &mut FrameSink, is_rekeying: bool) -> Result<(), TableError>
        ensures table { OnOk result (self.new ≡ calls.hand_on is_rekeying self.old) }
        ensures sink { OnOk result (sink.new ≡ sink.old ++ calls.handed is_rekeying self.old) }
        ensures out { OnOk result (paths.put_out (record { table = self.new; sink = sink.new })
            ≡ paths.put_out (record { table = self.old; sink = sink.old })) }
        ensures unchanged { OnErr result (self.new ≡ self.old) }
        ensures kept { OnErr result (sink.new ≡ sink.old) }
        ensures memory { IfErr result (λ e. e ≡ NoMemory) }
        ensures at_once { sink.old ≡ [] → IsOk result }
    {
        if is_rekeying {
            return Ok(());
        }
        if sink.frames.is_empty() {
            mem::swap(&mut sink.frames, &mut self.staged);
            return Ok(());
        }
        sink.frames.append(&mut self.staged)?;
        Ok(())
    }
}
