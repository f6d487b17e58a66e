// A channel of a table.
ghost use Rattle.std.specs.Prelude.{◌≡◌, ◌&&◌, ◌++◌, true, not, IfOk};
ghost use Rattle.std.specs.Prelude.{IfErr, OnOk, OnErr};
ghost use Rattle.ssh_channels.specs.declared.error.TableError.TheVariants.{NoMemory};
ghost use Rattle.ssh_channels.specs.Line as line;
ghost use Rattle.ssh_channels.specs.Window as window;

use crate::frames::{Recipient, close_frame, eof_frame};
use crate::replies::Replies;
use crate::waiting::{Waiting, longest_piece};
use crate::{Chunk, TableError};
use bytes::Bytes;
use ssh_link::Frame;
use ssh_wire::ChannelId;
use std::alloc::Global;
use std::collections::VecDeque;

/// A channel that this side opened and the peer has not confirmed, or that is established (RFC 4254
/// section 5.1). What waits to be sent on it is private, and so are the replies that the peer's
/// requests want; a definition sees the list of the chunks, and that of the replies. Sizes are in
/// bytes.
#[derive(Drop)]
pub struct ChannelParams {
    /// The peer's number of the channel, and 0 until it confirmed it.
    pub recipient_channel: u32,
    /// This side's number of the channel.
    pub sender_channel: ChannelId,
    /// The credit: what the peer granted and was not framed.
    pub recipient_window_size: u32,
    /// The room: what this side granted and the peer has not used up.
    pub sender_window_size: u32,
    /// Up to how many bytes the room is filled.
    pub target: u32,
    /// The most data that the peer takes in one message.
    pub recipient_maximum_packet_size: u32,
    /// The most data that this side takes in one message.
    pub sender_maximum_packet_size: u32,
    /// It is established.
    pub confirmed: bool,
    /// An EOF waits behind data.
    pub pending_eof: bool,
    /// A CLOSE waits behind data.
    pub pending_close: bool,
    /// An EOF or a CLOSE was accepted, so no data are any more.
    pub ended: bool,
    pub(crate) waiting: Waiting,
    pub(crate) replies: Replies,
}

impl ChannelParams {
    ghost use Rattle.ssh_channels.specs.Line.{established};

    /// An established channel on which nothing waits, nothing ended and no reply is wanted. Its
    /// room is filled up to what it is.
    pub fn new(
        alloc: Global,
        recipient_channel: u32,
        sender_channel: ChannelId,
        recipient_window_size: u32,
        sender_window_size: u32,
        recipient_maximum_packet_size: u32,
        sender_maximum_packet_size: u32,
    ) -> ChannelParams
        ensures { result
            ≡ established recipient_channel sender_channel recipient_window_size sender_window_size
            recipient_maximum_packet_size sender_maximum_packet_size }
    {
        ChannelParams {
            recipient_channel,
            sender_channel,
            recipient_window_size,
            sender_window_size,
            target: sender_window_size,
            recipient_maximum_packet_size,
            sender_maximum_packet_size,
            confirmed: true,
            pending_eof: false,
            pending_close: false,
            ended: false,
            waiting: Waiting::new(alloc),
            replies: Replies::new(alloc),
        }
    }

    /// A channel that this side opens and the peer has not confirmed.
    pub(crate) fn opening(alloc: Global, own: ChannelId, window: u32, packet: u32) -> ChannelParams
        ensures { result ≡ line.opening own.0 window packet }
    {
        let mut params = ChannelParams::new(alloc, 0, own, 0, window, 0, packet);
        params.confirmed = false;
        params
    }

    pub(crate) fn recipient(&self, own: ChannelId) -> Recipient
        ensures own { result.own ≡ own }
        ensures peer { result.peer ≡ self.now.recipient_channel }
    {
        Recipient {
            own,
            peer: self.recipient_channel,
        }
    }

    /// Whether data wait, or an EOF or a CLOSE behind them.
    pub(crate) fn something_waits(&self) -> bool
        ensures { result ≡ line.something_waits self.now }
    {
        !self.waiting.is_empty() || self.pending_eof || self.pending_close
    }

    /// Whether something waits still, where the channel is not gone.
    pub(crate) fn waits_on(&self, gone: bool) -> bool
        ensures { result ≡ line.something_waits self.now && not gone }
    {
        self.something_waits() && !gone
    }

    /// Whether something waits once these data were taken.
    pub(crate) fn waits_with(&self, chunk: &Chunk, is_rekeying: bool) -> bool
        ensures { result ≡ line.something_waits (line.taking chunk.now is_rekeying self.now) }
    {
        if self.pending_eof || self.pending_close {
            return true;
        }
        if is_rekeying || !self.waiting.is_empty() {
            return !self.waiting.is_empty() || !chunk.bytes.is_empty();
        }
        chunk.bytes.len() > self.recipient_window_size as usize
    }

    pub(crate) fn may_send(&self) -> bool
        ensures { result ≡ line.may_send self.now }
    {
        self.confirmed && !self.ended
    }

    pub(crate) fn may_close(&self) -> bool
        ensures { result ≡ line.may_close self.now }
    {
        self.confirmed && !self.pending_close
    }

    /// Whether the channel is established and has room for so many bytes of the peer's.
    pub(crate) fn fits(&self, count: usize) -> bool
        ensures { result ≡ window.fits count self.now }
    {
        self.confirmed && count <= self.sender_window_size as usize
    }

    /// Whether one message takes these bytes at once: nothing waits before them, and they are within
    /// the credit.
    pub(crate) fn takes_whole(&self, bytes: &Bytes) -> bool
        ensures { result ≡ line.nothing_waits self.now && line.takes_whole bytes.now self.now }
    {
        let count = bytes.len();
        self.waiting.is_empty()
            && count > 0
            && count <= self.recipient_window_size as usize
            && count <= longest_piece(self.recipient_maximum_packet_size)
    }

    /// What waits goes out, as far as the credit goes. Where there is no memory, all is as before.
    fn flush(
        &mut self,
        alloc: Global,
        own: ChannelId,
        staged: &mut VecDeque<Frame>,
    ) -> Result<(), TableError>
        ensures line { OnOk result (self.new ≡ line.flushed self.old) }
        ensures staged { OnOk result (staged.new.items
            ≡ staged.old.items ++ line.sent own.0 self.old) }
        ensures unchanged { OnErr result (self.new ≡ self.old) }
        ensures kept { OnErr result (staged.new.items ≡ staged.old.items) }
        ensures memory { IfErr result (λ e. e ≡ NoMemory) }
    {
        let credit = self.recipient_window_size;
        let packet = self.recipient_maximum_packet_size;
        let to = self.recipient(own);
        let mut frames = self.waiting.frames(alloc, to, packet, credit)?;
        staged.append(&mut frames)?;
        // No memory is taken from here on.
        self.recipient_window_size = self.waiting.skip(credit);
        Ok(())
    }

    /// The frames of the EOF and the CLOSE that were deferred, where all that waited is done.
    fn push_deferred(
        &self,
        own: ChannelId,
        done: bool,
        frames: &mut VecDeque<Frame>,
    ) -> Result<(), TableError>
        ensures ok { OnOk result (frames.new.items
            ≡ frames.old.items ++ line.deferred_if own.0 done self.now) }
        ensures memory { IfErr result (λ e. e ≡ NoMemory) }
    {
        if !done {
            return Ok(());
        }
        let to = self.recipient(own);
        if self.pending_eof {
            frames.push_back(eof_frame(to))?;
        }
        if self.pending_close {
            frames.push_back(close_frame(to))?;
        }
        Ok(())
    }

    /// What waits goes out, as far as the credit goes, and the EOF and the CLOSE behind it. Answers
    /// whether the CLOSE went out. Where there is no memory, all is as before.
    pub(crate) fn go_on(
        &mut self,
        alloc: Global,
        own: ChannelId,
        staged: &mut VecDeque<Frame>,
    ) -> Result<bool, TableError>
        ensures closes { IfOk result (λ gone. gone ≡ line.closes self.old) }
        ensures line { OnOk result (self.new ≡ line.settled self.old) }
        ensures staged { OnOk result (staged.new.items
            ≡ staged.old.items ++ line.goes own.0 self.old) }
        ensures unchanged { OnErr result (self.new ≡ self.old) }
        ensures kept { OnErr result (staged.new.items ≡ staged.old.items) }
        ensures memory { IfErr result (λ e. e ≡ NoMemory) }
    {
        let credit = self.recipient_window_size;
        let packet = self.recipient_maximum_packet_size;
        let to = self.recipient(own);
        let mut frames = self.waiting.frames(alloc, to, packet, credit)?;
        let done = self.waiting.is_covered(credit);
        self.push_deferred(own, done, &mut frames)?;
        staged.append(&mut frames)?;
        // No memory is taken from here on.
        self.recipient_window_size = self.waiting.skip(credit);
        self.pending_eof = self.pending_eof && !done;
        Ok(done && self.pending_close)
    }

    /// The peer grants so many bytes more: what waits goes out within the old credit and then
    /// within the new one, and the EOF and the CLOSE behind it. Answers whether the CLOSE went
    /// out. Where there is no memory, all is as before.
    pub(crate) fn grant(
        &mut self,
        alloc: Global,
        own: ChannelId,
        amount: u32,
        staged: &mut VecDeque<Frame>,
    ) -> Result<bool, TableError>
        ensures closes { IfOk result (λ gone. gone ≡ line.closes (line.granted amount self.old)) }
        ensures line { OnOk result (self.new ≡ line.settled (line.granted amount self.old)) }
        ensures staged { OnOk result (staged.new.items
            ≡ staged.old.items ++ line.granting_frames own.0 amount self.old) }
        ensures unchanged { OnErr result (self.new ≡ self.old) }
        ensures kept { OnErr result (staged.new.items ≡ staged.old.items) }
        ensures memory { IfErr result (λ e. e ≡ NoMemory) }
    {
        let credit = self.recipient_window_size;
        let packet = self.recipient_maximum_packet_size;
        let to = self.recipient(own);
        let (mut frames, done) = self
            .waiting
            .frames_within(alloc, to, packet, credit, amount)?;
        self.push_deferred(own, done, &mut frames)?;
        staged.append(&mut frames)?;
        // No memory is taken from here on.
        let raised = self.waiting.skip(credit).saturating_add(amount);
        self.recipient_window_size = self.waiting.skip(raised);
        self.pending_eof = self.pending_eof && !done;
        Ok(done && self.pending_close)
    }

    /// An EOF command: EOF goes out, or waits behind the data. Where there is no memory, all is as
    /// before.
    pub(crate) fn end(
        &mut self,
        own: ChannelId,
        staged: &mut VecDeque<Frame>,
    ) -> Result<(), TableError>
        ensures line { OnOk result (self.new ≡ line.ending self.old) }
        ensures staged { OnOk result (staged.new.items
            ≡ staged.old.items ++ line.ending_frames own.0 self.old) }
        ensures unchanged { OnErr result (self.new ≡ self.old) }
        ensures kept { OnErr result (staged.new.items ≡ staged.old.items) }
        ensures memory { IfErr result (λ e. e ≡ NoMemory) }
    {
        if self.waiting.is_empty() {
            staged.push_back(eof_frame(self.recipient(own)))?;
            self.pending_eof = false;
        } else {
            self.pending_eof = true;
        }
        self.ended = true;
        Ok(())
    }

    /// One data command's bytes go out, or wait. Where there is no memory, all is as before.
    pub(crate) fn take(
        &mut self,
        alloc: Global,
        own: ChannelId,
        chunk: Chunk,
        is_rekeying: bool,
        staged: &mut VecDeque<Frame>,
    ) -> Result<(), TableError>
        ensures line { OnOk result (self.new ≡ line.taking chunk is_rekeying self.old) }
        ensures staged { OnOk result (staged.new.items
            ≡ staged.old.items ++ line.taking_frames own.0 chunk is_rekeying self.old) }
        ensures unchanged { OnErr result (self.new ≡ self.old) }
        ensures kept { OnErr result (staged.new.items ≡ staged.old.items) }
        ensures memory { IfErr result (λ e. e ≡ NoMemory) }
    {
        if is_rekeying || !self.waiting.is_empty() {
            if !chunk.bytes.is_empty() {
                self.waiting.push(chunk)?;
            }
            return Ok(());
        }
        self.waiting.push(chunk)?;
        match self.flush(alloc, own, staged) {
            Ok(()) => Ok(()),
            Err(why) => {
                self.waiting.clear();
                Err(why)
            }
        }
    }

    /// A request wants a reply. Answers how many were wanted before it. Where there is no memory,
    /// all is as before.
    pub(crate) fn want_reply(&mut self) -> Result<u64, TableError>
        ensures place { IfOk result (λ place. place ≡ self.old.replies.count) }
        ensures line { OnOk result (self.new ≡ line.requested self.old) }
        ensures waiting { self.new.waiting ≡ self.old.waiting }
        ensures unchanged { OnErr result (self.new ≡ self.old) }
        ensures memory { IfErr result (λ e. e ≡ NoMemory) }
    {
        self.replies.want()
    }

    /// Whether the reply of this place, or any where none is given, is owed.
    pub(crate) fn owes_reply(&self, place: Option<u64>) -> bool
        ensures { result ≡ line.owes_reply place self.now }
    {
        self.replies.owes(place)
    }

    /// The owed reply of this place, or the first that is owed, is settled, and those that are
    /// ready go out. Where there is no memory, all is as before.
    pub(crate) fn settle_reply(
        &mut self,
        alloc: Global,
        own: ChannelId,
        place: Option<u64>,
        success: bool,
        staged: &mut VecDeque<Frame>,
    ) -> Result<(), TableError>
        requires owed { line.owes_reply place self.old ≡ true }
        ensures line { OnOk result (self.new ≡ line.replied place success self.old) }
        ensures waiting { self.new.waiting ≡ self.old.waiting }
        ensures staged { OnOk result (staged.new.items
            ≡ staged.old.items ++ line.reply_frames own.0 place success self.old) }
        ensures unchanged { OnErr result (self.new ≡ self.old) }
        ensures kept { OnErr result (staged.new.items ≡ staged.old.items) }
        ensures memory { IfErr result (λ e. e ≡ NoMemory) }
    {
        let to = self.recipient(own);
        self.replies.settle(alloc, to, place, success, staged)
    }
}
