// One end of a connection.
ghost use Rattle.std.specs.Prelude.{◌≡◌, ◌≢◌, ◌<◌, ◌⊎◌, ◌++◌, false, length, Some, None};
ghost use Rattle.std.specs.Prelude.{IfOk, IfErr, OnOk, OnErr};
ghost use Rattle.ssh_channels.specs.Line as line;
ghost use Rattle.ssh_channels.specs.Layout.{chunk};
ghost use Rattle.ssh_channels.specs.Table as table;
ghost use Rattle.ssh_channels.specs.Numbers as numbers;
ghost use Rattle.ssh_channels.specs.Calls as calls;
ghost use Rattle.ssh_ends.specs.End as spec;
ghost use Rattle.ssh_ends.specs.Incoming.{HasPackets};
ghost use Rattle.ssh_ends.specs.declared.error.EndError.TheVariants.{NoMemory, Full};

use crate::frames::{confirmation_frame, open_frame};
use crate::reading::read;
use crate::{EndError, Incoming};
use bytes::Bytes;
use ssh_channels::{Adjusted, Encrypted, FrameSink};
use ssh_wire::ChannelId;
use std::alloc::Global;
use std::marker::Model;

/// Data that came in on a channel, in the order in which they came (RFC 4254 section 5.2).
#[derive(Debug, Drop, PartialEq, Eq)]
pub struct Delivered {
    /// This side's number of the channel.
    pub channel: ChannelId,
    /// The data type code of CHANNEL_EXTENDED_DATA; none for CHANNEL_DATA.
    pub ext: Option<u32>,
    /// The bytes.
    pub bytes: Bytes,
}

/// One side of a connection above its channels alone (RFC 4254 section 5): it opens channels, accepts
/// each that the other side opens, and sends and takes data on them. A client's side may be one.
///
/// It needs no authentication and knows no exchange of keys. Where a call answers an error, the end
/// is as it was.
#[derive(Drop)]
pub struct End {
    alloc: Global,
    table: Encrypted,
    window: u32,
    packet: u32,
}

impl Model for End {
    ghost use Rattle.std.specs.Prelude.{◌<◌};
    ghost use Rattle.ssh_ends.specs.End.{EndTable};

    ghost Value = { EndTable };

    ghost view = { λ e. record { table = e.table; window = e.window; packet = e.packet } };

    ghost invariant = { λ e. 0 < e.packet };
}

impl End {
    /// An end without channels. Each channel begins with this window, in bytes, which it is filled
    /// up to again as data come in, and takes messages of data of at most `packet` bytes.
    pub fn new(alloc: Global, window: u32, packet: u32) -> End
        requires { 0 < packet }
        ensures { result ≡ record { table = numbers.empty; window = window; packet = packet } }
    {
        End {
            alloc,
            table: Encrypted::new(alloc),
            window,
            packet,
        }
    }

    /// Opens a channel: an open of a session goes out (RFC 4254 section 5.1). `Full` where all
    /// numbers are in use, and `NoMemory`.
    pub fn open(&mut self) -> Result<ChannelId, EndError>
        ensures number { IfOk result (λ id. numbers.next_number self.old.table ≡ Some id.0) }
        ensures opened { IfOk result (λ id. self.new
            ≡ spec.with_table (spec.opens id.0 self.old) self.old) }
        ensures unchanged { OnErr result (self.new ≡ self.old) }
        ensures errors { IfErr result (λ e. (e ≡ NoMemory)
            ⊎ ((e ≡ Full) × (numbers.next_number self.old.table ≡ None))) }
    {
        let Some(own) = self.table.next_channel_id() else {
            return Err(EndError::Full);
        };
        let frame = open_frame(self.alloc, own, self.window, self.packet)?;
        Ok(
            self.table
                .new_channel_with(self.window, self.packet, frame)?,
        )
    }

    /// Sends these bytes on the channel, as far as the other side's window goes; the rest waits
    /// (RFC 4254 section 5.2). `ext` is the data type code of extended data, and none for data.
    /// `false` exactly where the channel is not established, or its end or its close was asked for.
    pub fn data(
        &mut self,
        channel: ChannelId,
        ext: Option<u32>,
        bytes: Bytes,
    ) -> Result<bool, EndError>
        ensures answer { IfOk result (λ r. r
            ≡ table.has line.may_send channel.0 self.old.table) }
        ensures sent { OnOk result (self.new ≡ spec.with_table (calls.send channel.0
            (chunk (spec.kind_of ext) bytes) false self.old.table) self.old) }
        ensures unchanged { OnErr result (self.new ≡ self.old) }
        ensures memory { IfErr result (λ e. e ≡ NoMemory) }
    {
        let accepted = match ext {
            None => self.table.data(channel, bytes, false)?,
            Some(code) => self.table.extended_data(channel, code, bytes, false)?,
        };
        Ok(accepted)
    }

    /// Says that no more data follow on the channel, behind the data that wait (RFC 4254 section
    /// 5.3). It answers as `data` does.
    pub fn eof(&mut self, channel: ChannelId) -> Result<bool, EndError>
        ensures answer { IfOk result (λ r. r
            ≡ table.has line.may_send channel.0 self.old.table) }
        ensures ended { OnOk result (self.new
            ≡ spec.with_table (calls.eof channel.0 self.old.table) self.old) }
        ensures unchanged { OnErr result (self.new ≡ self.old) }
        ensures memory { IfErr result (λ e. e ≡ NoMemory) }
    {
        Ok(self.table.eof(channel)?)
    }

    /// Closes the channel, behind the data that wait (RFC 4254 section 5.3). `false` exactly where
    /// it is not established, or its close was asked for.
    pub fn close(&mut self, channel: ChannelId) -> Result<bool, EndError>
        ensures answer { IfOk result (λ r. r
            ≡ table.has line.may_close channel.0 self.old.table) }
        ensures closed { OnOk result (self.new
            ≡ spec.with_table (calls.close channel.0 self.old.table) self.old) }
        ensures unchanged { OnErr result (self.new ≡ self.old) }
        ensures memory { IfErr result (λ e. e ≡ NoMemory) }
    {
        Ok(self.table.close(channel)?)
    }

    /// Up to how many bytes the window of the channel is filled from now on, once less than half of
    /// that is left. `false` exactly where there is no such channel.
    pub fn set_target(&mut self, channel: ChannelId, target: u32) -> bool
        ensures answer { result ≡ table.is_live channel.0 self.old.table }
        ensures aimed { self.new
            ≡ spec.with_table (calls.set_target channel.0 target self.old.table) self.old }
    {
        self.table.set_target(channel, target)
    }

    /// Takes a payload of the other side, and gives the data that it brings where the window has
    /// room for them (RFC 4254 section 5). An open is accepted at once, data refill the window, a
    /// grant lets out what waits, and a close is answered by one.
    ///
    /// `Unexpected` where the payload is no open, confirmation, grant, data, end of file or close,
    /// or confirms a channel that does not wait for it; `Full` where an open finds no free number;
    /// and `NoMemory`.
    pub fn take(&mut self, payload: &[u8]) -> Result<Option<Delivered>, EndError>
        ensures took { IfOk result (spec.Takes payload.now self.old self.new) }
        ensures unchanged { OnErr result (self.new ≡ self.old) }
        ensures errors { IfErr result (spec.TakesNot payload.now self.old) }
    {
        let said = read(self.alloc, payload)?;
        self.take_said(said)
    }

    /// Hands on what was written, behind what is in the list. `NoMemory` is the only error, and
    /// leaves the list as it was.
    pub fn out(&mut self, sink: &mut FrameSink) -> Result<(), EndError>
        ensures out { OnOk result (self.new
            ≡ spec.with_table (calls.hand_on false self.old.table) self.old) }
        ensures frames { OnOk result (sink.new ≡ sink.old ++ self.old.table.staged) }
        ensures unchanged { OnErr result (self.new ≡ self.old) }
        ensures kept { OnErr result (sink.new ≡ sink.old) }
        ensures memory { IfErr result (λ e. e ≡ NoMemory) }
    {
        self.table.flush(sink, false)?;
        Ok(())
    }

    // Takes what a payload says.
    fn take_said(&mut self, said: Incoming) -> Result<Option<Delivered>, EndError>
        requires { HasPackets said }
        ensures taken { IfOk result (spec.IsTaken said self.old self.new) }
        ensures unchanged { OnErr result (self.new ≡ self.old) }
        ensures errors { IfErr result (spec.IsRefusedBy said self.old) }
    {
        match said {
            Incoming::Open {
                sender,
                window,
                packet,
            } => {
                self.accept(sender, window, packet)?;
                Ok(None)
            }
            Incoming::Confirmation(confirmation) => {
                if self.table.confirm(&confirmation)? {
                    Ok(None)
                } else {
                    Err(EndError::Unexpected)
                }
            }
            Incoming::WindowAdjust { channel, amount } => {
                let _ = self.table.grant(channel, amount, false)?;
                Ok(None)
            }
            Incoming::Data {
                channel,
                ext,
                bytes,
            } => self.take_data(channel, ext, bytes),
            Incoming::Eof(_) => Ok(None),
            Incoming::Close(channel) => {
                let _ = self.table.peer_close(channel)?;
                Ok(None)
            }
        }
    }

    // Accepts a channel that the other side calls `sender`, and on which it takes so many bytes, and
    // so many in one message.
    fn accept(&mut self, sender: u32, window: u32, packet: u32) -> Result<(), EndError>
        requires { packet ≢ 0 }
        ensures accepted { OnOk result (self.new ≡ spec.with_table (spec.accepts_under
            (numbers.next_number self.old.table) sender window packet self.old) self.old) }
        ensures number { OnOk result (numbers.next_number self.old.table ≡ None → ⊥) }
        ensures unchanged { OnErr result (self.new ≡ self.old) }
        ensures errors { IfErr result (λ e. (e ≡ NoMemory)
            ⊎ ((e ≡ Full) × (numbers.next_number self.old.table ≡ None))) }
    {
        let Some(own) = self.table.next_channel_id() else {
            return Err(EndError::Full);
        };
        let frame = confirmation_frame(self.alloc, own, sender, self.window, self.packet)?;
        let _ = self
            .table
            .accept(sender, window, self.window, packet, self.packet, frame)?;
        Ok(())
    }

    // Data that came in: they are passed on where the window has room for them.
    fn take_data(
        &mut self,
        channel: ChannelId,
        ext: Option<u32>,
        bytes: Bytes,
    ) -> Result<Option<Delivered>, EndError>
        ensures taken { IfOk result (λ passed. (self.new ≡ spec.with_table (calls.adjust channel.0
            (length bytes) (calls.target_at channel.0 self.old.table) self.old.table) self.old)
            × (passed ≡ spec.unless_dropped (calls.adjusting_at channel.0 (length bytes)
            (calls.target_at channel.0 self.old.table) self.old.table)
            (record { channel = channel; ext = ext; bytes = bytes }))) }
        ensures unchanged { OnErr result (self.new ≡ self.old) }
        ensures memory { IfErr result (λ e. e ≡ NoMemory) }
    {
        let target = self.table.target(channel);
        let adjusted = self
            .table
            .adjust_window_size(channel, bytes.as_slice(), target)?;
        match adjusted {
            Adjusted::Dropped => {
                drop(bytes);
                Ok(None)
            }
            Adjusted::Kept | Adjusted::Granted(_) => Ok(Some(Delivered {
                channel,
                ext,
                bytes,
            })),
        }
    }
}
