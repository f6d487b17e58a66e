// A channel as a stream of bytes.
use crate::channel::{ChannelReadHalf, ChannelWriteHalf};
use crate::poll::Poll;
use crate::reader::ChannelRx;
use crate::writer::ChannelTx;
use ssh_hub::{HandleError, Seat};
use std::alloc::Global;
use std::sync::Wait;

/// A channel as a stream of bytes, whose calls do not wait. It cannot be dropped: `finish` gives
/// back what is reserved, and closes the channel.
pub struct ChannelStream {
    reader: ChannelRx<ChannelReadHalf>,
    writer: ChannelTx,
}

impl ChannelStream {
    ghost use Rattle.std.specs.Prelude.{◌≡◌, ◌<◌, [], Err, Ok, length};
    ghost use Rattle.ssh_hub.specs.Views.{own_reservations};
    ghost use Rattle.ssh_hub.specs.Words.{view_of, IsSeatOf};
    ghost use Rattle.ssh_hub.specs.declared.answers.HandleError.TheVariants.{EmptyWrite};
    ghost use Rattle.ssh_handles.specs.declared.poll.Poll.TheVariants.{Ready};
    ghost use Rattle.ssh_handles.specs.declared.reader.Found.{Found};
    ghost use Rattle.ssh_handles.specs.Handles.{reader_view, reader_id};
    ghost use Rattle.ssh_handles.specs.Reading.{Finds, HandsOut, IsNoError};
    ghost use Rattle.ssh_handles.specs.Readers.{stream_rx, stream_tx, IsStreamOf};
    ghost use Rattle.ssh_handles.specs.Staging.{PollsWrite, Shuts};
    ghost use Rattle.ssh_handles.specs.Writers.{tx_hub, tx_view, tx_id, tx_ext, tx_kept, IsSameTx};
    ghost use Rattle.ssh_handles.specs.Writers.{Closes};

    pub(crate) fn new(read: ChannelReadHalf, write: ChannelWriteHalf) -> ChannelStream
        ensures { IsStreamOf read write result }
    {
        let (caller, channel) = write.into_parts();
        ChannelStream {
            reader: ChannelRx::new(read, None),
            writer: ChannelTx::new(caller, channel, None),
        }
    }

    /// `ChannelRx::poll_read` of its reading half.
    pub fn poll_read<R: Wait>(&mut self, rt: &R, buf: &mut [u8]) -> Poll<Result<usize, HandleError>>
        ensures writer { stream_tx self.new ≡ stream_tx self.old }
        ensures channel { reader_id (stream_rx self.new).half
            ≡ reader_id (stream_rx self.old).half }
        ensures ext { (stream_rx self.new).ext ≡ (stream_rx self.old).ext }
        ensures len { length buf.new ≡ length buf.old }
        ensures errors { IsNoError result }
        ensures empty { length buf.old ≡ 0 → (result ≡ Ready (Ok 0)) × (self.new ≡ self.old) }
        ensures entries { 0 < length buf.old → (found : Found)
            × Finds (reader_id (stream_rx self.old).half) (stream_rx self.old).ext
            (stream_rx self.old).unread (stream_rx self.old).is_over
            (reader_view (stream_rx self.old).half) found
            (reader_view (stream_rx self.new).half)
            × HandsOut found buf.old result (stream_rx self.new).unread
            (stream_rx self.new).is_over buf.new }
    {
        self.reader.poll_read(rt, buf)
    }

    /// `ChannelTx::poll_write` of its writing half.
    pub fn poll_write<R: Wait>(
        &mut self,
        rt: &R,
        alloc: Global,
        buf: &[u8],
    ) -> Poll<Result<usize, HandleError>>
        ensures reader { stream_rx self.new ≡ stream_rx self.old }
        ensures same { IsSameTx (stream_tx self.old) (stream_tx self.new) }
        ensures empty { length buf.now ≡ 0 → (result ≡ Ready (Err EmptyWrite))
            × (tx_kept (stream_tx self.new) ≡ tx_kept (stream_tx self.old))
            × (tx_view (stream_tx self.new) ≡ tx_view (stream_tx self.old)) }
        ensures entries { 0 < length buf.now → PollsWrite (tx_id (stream_tx self.old))
            (tx_ext (stream_tx self.old)) (tx_kept (stream_tx self.old)) buf.now
            (tx_view (stream_tx self.old)) result (tx_kept (stream_tx self.new))
            (tx_view (stream_tx self.new)) }
    {
        self.writer.poll_write(rt, alloc, buf)
    }

    /// `ChannelTx::poll_flush` of its writing half.
    pub fn poll_flush(&mut self) -> Poll<Result<(), HandleError>>
        ensures { (result ≡ Ready (Ok tt)) × (self.new ≡ self.old) }
    {
        self.writer.poll_flush()
    }

    /// `ChannelTx::poll_shutdown` of its writing half.
    pub fn poll_shutdown<R: Wait>(&mut self, rt: &R) -> Poll<Result<(), HandleError>>
        ensures reader { stream_rx self.new ≡ stream_rx self.old }
        ensures same { IsSameTx (stream_tx self.old) (stream_tx self.new) }
        ensures kept { tx_kept (stream_tx self.new) ≡ [] }
        ensures entries { Shuts (tx_id (stream_tx self.old)) (tx_kept (stream_tx self.old))
            (tx_view (stream_tx self.old)) result (tx_view (stream_tx self.new)) }
    {
        self.writer.poll_shutdown(rt)
    }

    /// Gives back what is reserved, closes the channel (RFC 4254 section 5.3), and is gone. Beside the
    /// ticket of the close, for which `Ended` is the only error, the answer is the seat that wrote.
    pub fn finish<R: Wait>(self, rt: &R) -> (Seat, Result<u64, HandleError>)
        ensures seat { IsSeatOf (tx_hub (stream_tx self)) result.0 }
        ensures none { own_reservations (view_of result.0) ≡ [] }
        ensures entries { Closes (tx_id (stream_tx self)) (tx_kept (stream_tx self))
            (tx_view (stream_tx self)) result.1 (view_of result.0) }
    {
        let ChannelStream { reader, writer } = self;
        drop(reader);
        writer.close(rt)
    }
}
