// A reader of a channel's data that does not wait.
ghost use Rattle.std.specs.Prelude.{◌≡◌, ◌<◌, [], false, min, length, take, drop};
ghost use Rattle.ssh_handles.specs.Tries.{Tries};
ghost use Rattle.ssh_handles.specs.Reading.{some_data, is_kind, found_in, found_said, Finds};
ghost use Rattle.ssh_handles.specs.Reading.{HandsOut, IsNoError};
ghost use Rattle.ssh_handles.specs.declared.poll.Poll.TheVariants.{Ready};
ghost use Rattle.ssh_handles.specs.declared.reader.Found.{Found};
ghost use Rattle.ssh_hub.specs.declared.history.HubCall.TheVariants.{ReceiveMsg};

use crate::poll::{Poll, Why};
use bytes::Bytes;
use ssh_hub::{HandleError, Received};
use ssh_link::ChannelMsg;
use std::mem;
use std::sync::Wait;

/// What has the half of a channel that reads.
pub trait HoldsReadHalf {
    ghost use Rattle.ssh_wire.specs.declared.channel_id.ChannelId.{ChannelId};
    ghost use Rattle.ssh_hub.specs.Step.{opening};
    ghost use Rattle.ssh_hub.specs.History.{IsLegal};
    ghost use Rattle.ssh_hub.specs.Words.{Makes};
    ghost use Rattle.ssh_hub.specs.declared.history.HubCall.TheVariants.{ReceiveMsg};
    ghost use Rattle.ssh_hub.specs.declared.history.HubReply.TheVariants.{HasReceived};
    ghost use Rattle.ssh_hub.specs.declared.history.View.{View};

    /// What the seat of the half knows.
    ghost view: { Self → View };

    /// The channel.
    ghost channel: { Self → ChannelId };

    /// Takes the first message out of the inbox of the channel.
    fn receive<R: Wait>(&mut self, rt: &R) -> Received
        ensures channel { channel self.new ≡ channel self.old }
        ensures call { Makes (view self.old) (ReceiveMsg (channel self.old)) (HasReceived result)
            (view self.new) };

    ghost legal: { (half : Self) → IsLegal (opening (view half).config) (view half).seen };
}

/// A reader of the data of a channel, or of its data of one other type, which does not wait.
/// Messages of another kind are passed over.
#[derive(Drop)]
pub struct ChannelRx<R> {
    /// What has the half.
    pub half: R,
    /// The type of the data (RFC 4254 section 5.2); none for data of no type.
    pub ext: Option<u32>,
    /// What was taken out of the inbox and is not read yet.
    pub unread: Bytes,
    /// Whether the data are at their end.
    pub is_over: bool,
}

/// What a reader finds.
#[derive(Debug, Drop)]
pub enum Found {
    /// These data.
    Data(Bytes),
    /// The end of the data.
    End,
    /// No message waits.
    Nothing,
}

impl<R: HoldsReadHalf> ChannelRx<R> {
    /// A reader of the channel's data, or of its data of this type (RFC 4254 section 5.2).
    pub fn new(channel: R, ext: Option<u32>) -> ChannelRx<R>
        ensures { (result.half ≡ channel) × (result.ext ≡ ext) × (result.unread ≡ [])
            × (result.is_over ≡ false) }
    {
        ChannelRx {
            half: channel,
            ext,
            unread: Bytes::new(),
            is_over: false,
        }
    }

    /// Reads the next bytes into the front of `buf`, and answers how many these are: 0 at the end
    /// of the data, then and later. At an end of file, at a close, and where no message waits and
    /// none can come, the data are at their end. For an empty `buf` the answer is 0, and nothing
    /// is taken. It answers no error, and it is `Pending` where no message waits.
    pub fn poll_read<W: Wait>(&mut self, rt: &W, buf: &mut [u8]) -> Poll<Result<usize, HandleError>>
        ensures channel { R.channel self.new.half ≡ R.channel self.old.half }
        ensures ext { self.new.ext ≡ self.old.ext }
        ensures len { length buf.new ≡ length buf.old }
        ensures errors { IsNoError result }
        ensures empty { length buf.old ≡ 0 → (result ≡ Ready (Ok 0)) × (self.new ≡ self.old) }
        ensures entries { 0 < length buf.old → (found : Found)
            × Finds (R.channel self.old.half) self.old.ext self.old.unread self.old.is_over
            (R.view self.old.half) found (R.view self.new.half)
            × HandsOut found buf.old result self.new.unread self.new.is_over buf.new }
    {
        if buf.is_empty() {
            return Poll::Ready(Ok(0));
        }
        match self.next(rt) {
            Found::Data(bytes) => {
                self.unread = bytes;
                Poll::Ready(Ok(hand_out(&mut self.unread, buf)))
            }
            Found::End => {
                self.is_over = true;
                Poll::Ready(Ok(0))
            }
            Found::Nothing => Poll::Pending(Why::NothingThere),
        }
    }

    // What is there to be read. What was not used up is taken out.
    fn next<W: Wait>(&mut self, rt: &W) -> Found
        ensures channel { R.channel self.new.half ≡ R.channel self.old.half }
        ensures ext { self.new.ext ≡ self.old.ext }
        ensures over { self.new.is_over ≡ self.old.is_over }
        ensures unread { self.new.unread ≡ [] }
        ensures entries { Finds (R.channel self.old.half) self.old.ext self.old.unread
            self.old.is_over (R.view self.old.half) result (R.view self.new.half) }
    {
        if self.unread.is_empty() {
            if self.is_over {
                return Found::End;
            }
            return self.find(rt);
        }
        Found::Data(mem::replace(&mut self.unread, Bytes::new()))
    }

    // Takes messages until one has data, or is an end, or there is none.
    fn find<W: Wait>(&mut self, rt: &W) -> Found
        ensures channel { R.channel self.new.half ≡ R.channel self.old.half }
        ensures ext { self.new.ext ≡ self.old.ext }
        ensures over { self.new.is_over ≡ self.old.is_over }
        ensures unread { self.new.unread ≡ self.old.unread }
        ensures entries { Tries (ReceiveMsg (R.channel self.old.half)) (found_said self.old.ext)
            (R.view self.old.half) result (R.view self.new.half) }
    {
        for _ in rt.forever() {
            match self.half.receive(rt) {
                Received::Msg(msg) => {
                    if let Some(found) = found_in(self.ext, msg) {
                        return found;
                    }
                }
                Received::Closed => return Found::End,
                Received::Ended { .. } => return Found::End,
                Received::Nothing => return Found::Nothing,
            }
        }
        unreachable!()
    }
}

// What a message is to a reader of data, or of data of this type; none where it is passed over.
fn found_in(ext: Option<u32>, msg: ChannelMsg) -> Option<Found>
    ensures { result ≡ found_in ext msg }
{
    match msg {
        ChannelMsg::Data { bytes } => some_data(ext.is_none(), bytes),
        ChannelMsg::ExtendedData { bytes, ext: kind } => some_data(is_kind(kind, ext), bytes),
        ChannelMsg::Eof => Some(Found::End),
        ChannelMsg::Close => Some(Found::End),
        other => {
            drop(other);
            None
        }
    }
}

// Whether data of this type are those that are read.
fn is_kind(kind: u32, ext: Option<u32>) -> bool
    ensures { result ≡ is_kind kind ext }
{
    match ext {
        Some(ext) => ext == kind,
        None => false,
    }
}

// Data of the kind that is read, where they are not empty.
fn some_data(is_wanted: bool, bytes: Bytes) -> Option<Found>
    ensures { result ≡ some_data is_wanted bytes }
{
    if is_wanted && !bytes.is_empty() {
        Some(Found::Data(bytes))
    } else {
        None
    }
}

// Moves the first of these bytes into the front of `buf`, and says how many.
fn hand_out(unread: &mut Bytes, buf: &mut [u8]) -> usize
    ensures count { result ≡ min (length unread.old) (length buf.old) }
    ensures rest { unread.new ≡ drop result unread.old }
    ensures front { take result buf.new ≡ take result unread.old }
    ensures len { length buf.new ≡ length buf.old }
{
    let count = copy_front(unread.as_slice(), buf);
    unread.advance(count);
    count
}

// Copies as many bytes as are left and fit to the front of the buffer.
fn copy_front(left: &[u8], buf: &mut [u8]) -> usize
    ensures count { result ≡ min (length left.now) (length buf.old) }
    ensures front { take result buf.new ≡ take result left.now }
    ensures len { length buf.new ≡ length buf.old }
{
    let count = left.len().min(buf.len());
    buf[..count].copy_from_slice(&left[..count]);
    count
}
