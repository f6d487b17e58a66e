// A writer: who writes on a channel of a hub.
ghost use Rattle.std.specs.Prelude.{◌≡◌, OnOk, IfOk};
ghost use Rattle.ssh_hub.specs.Words.{view_of, IsSeatOf};
ghost use Rattle.ssh_writers.specs.Writers.{IsWriterOf, HasMadeNone, HasWritten, WritesFirst, bytes_for};
ghost use Rattle.ssh_handles.specs.Handles.{handle_hub, reader_hub, writer_hub};
ghost use Rattle.ssh_handles.specs.Handles.{writer_id, writer_view};

use crate::bell::{Bells, Sleeping};
use crate::post::{Post, Words};
use crate::waiting::wait_for;
use bytes::Bytes;
use ssh_handles::{Channel, ChannelWriteHalf, Gate, Handle};
use ssh_hub::{HandleError, HubLock, Seat};
use ssh_link::Refusal;
use ssh_wire::ChannelId;
use std::alloc::Global;
use std::sync::Wait;

/// How many bytes each writer sends.
pub const BYTES_EACH: usize = 100_000;

/// Who writes on a channel of a hub.
#[derive(Drop)]
pub struct Writer {
    /// Its seat.
    pub post: Post,
    /// The channel.
    pub channel: ChannelId,
}

/// What came of a writer.
#[derive(Drop)]
pub struct Written {
    /// Its seat, into which those of its halves were joined.
    pub seat: Seat,
    /// Why it did not come to its end: the hub ended before the channel was there, or as a write
    /// half answers it.
    pub result: Result<(), HandleError>,
}

impl Writer {
    /// Waits until the channel is there, sends its bytes through the gate, and then the end of file
    /// (RFC 4254 section 5.3). After an error it asks for the end of the connection. Where it came to
    /// its end, the history has a seat whose first calls put its bytes on the channel.
    pub fn run<R: Wait, G: Gate>(
        self,
        rt: &R,
        alloc: Global,
        gate: &G,
        bells: &Bells,
        lock: &HubLock,
    ) -> Written
        requires { IsWriterOf lock.now self }
        ensures seat { IsSeatOf lock.now result.seat }
        ensures wrote { OnOk result.result (HasWritten self.channel (bytes_for self.channel)
            (view_of result.seat).seen) }
    {
        let Writer { post, channel } = self;
        let Post {
            lock: shared,
            mut seat,
            words,
        } = post;
        if let Err(e) = wait_for(rt, bells, lock, &mut seat, channel) {
            return Written {
                seat,
                result: Err(e),
            };
        }
        let mut handle = Handle::new(shared, seat);
        match handle.channel(rt, channel) {
            Ok(Some(channel)) => write_on(rt, alloc, gate, bells, lock, handle, words, channel),
            Ok(None) => {
                let gone = HandleError::Refused(Refusal::UnknownChannel);
                leave(rt, handle, words, Err(gone))
            }
            Err(e) => leave(rt, handle, words, Err(e)),
        }
    }
}

// Sends the bytes of a writer on its channel, and gives back all three seats as one.
fn write_on<R: Wait, G: Gate>(
    rt: &R,
    alloc: Global,
    gate: &G,
    bells: &Bells,
    lock: &HubLock,
    handle: Handle,
    words: Words,
    channel: Channel,
) -> Written
    requires handle { handle_hub handle ≡ lock.now }
    requires read { reader_hub channel.read ≡ lock.now }
    requires write { writer_hub channel.write ≡ lock.now }
    requires new { HasMadeNone (writer_view channel.write) }
    ensures seat { IsSeatOf lock.now result.seat }
    ensures wrote { OnOk result.result (HasWritten (writer_id channel.write)
        (bytes_for (writer_id channel.write)) (view_of result.seat).seen) }
{
    let (read, mut write) = channel.split();
    let sent = send_all(rt, alloc, gate, bells, &mut write);
    let mut written = leave(rt, handle, words, sent);
    lock.join(&mut written.seat, read.into_seat());
    lock.join(&mut written.seat, write.into_seat());
    written
}

// Asks for the end of the connection where this is an error, and gives the seat back.
fn leave<R: Wait>(
    rt: &R,
    mut handle: Handle,
    words: Words,
    sent: Result<(), HandleError>,
) -> Written
    ensures seat { IsSeatOf (handle_hub handle) result.seat }
    ensures result { result.result ≡ sent }
{
    if sent.is_err() {
        words.part(rt, &mut handle);
    } else {
        drop(words);
    }
    Written {
        seat: handle.into_seat(),
        result: sent,
    }
}

// Sends as many bytes as each writer does, and then the end of file.
fn send_all<R: Wait, G: Gate>(
    rt: &R,
    alloc: Global,
    gate: &G,
    bells: &Bells,
    half: &mut ChannelWriteHalf,
) -> Result<(), HandleError>
    ensures hub { writer_hub half.new ≡ writer_hub half.old }
    ensures wrote { OnOk result (WritesFirst (writer_id half.old) (bytes_for (writer_id half.old))
        (writer_view half.old) (writer_view half.new)) }
{
    let channel = half.id();
    let bytes = bytes_for(alloc, channel)?;
    let own = Sleeping {
        rt,
        gate,
        bells,
        channel,
    };
    half.data_bytes_through(rt, &own, bytes)?;
    half.eof(rt)?;
    Ok(())
}

// What the writer on this channel sends.
fn bytes_for(alloc: Global, channel: ChannelId) -> Result<Bytes, HandleError>
    ensures { IfOk result (λ bytes. bytes ≡ bytes_for channel) }
{
    let bytes = vec![in alloc; (channel.0 % 251) as u8; BYTES_EACH]?;
    Ok(Bytes::from_vec(bytes)?)
}
