// A channel, as its two halves.
use crate::caller::Caller;
use crate::stream::ChannelStream;
use ssh_wire::ChannelId;

mod calls;
mod client_calls;
mod client_only;
mod read_half;
mod write_half;

pub use read_half::ChannelReadHalf;
pub use write_half::ChannelWriteHalf;

/// A channel that is open on both sides, as its two halves. Each of its calls is one of a half, and
/// the other half makes none in it.
#[derive(Drop)]
pub struct Channel {
    /// What reads.
    pub read: ChannelReadHalf,
    /// What writes.
    pub write: ChannelWriteHalf,
}

impl Channel {
    ghost use Rattle.std.specs.Prelude.{◌≡◌, []};
    ghost use Rattle.ssh_hub.specs.Views.{own_reservations};
    ghost use Rattle.ssh_hub.specs.Words.{room_of};
    ghost use Rattle.ssh_handles.specs.Callers.{hub_of, seen_by};
    ghost use Rattle.ssh_handles.specs.Handles.{reader_view, writer_view, IsChannelOf};
    ghost use Rattle.ssh_handles.specs.Readers.{IsStreamOf};

    // A channel by two callers on one hub, the second of which is new.
    pub(crate) fn new(reading: Caller, writing: Caller, id: ChannelId) -> Channel
        requires hub { hub_of writing ≡ hub_of reading }
        requires none { own_reservations (seen_by writing) ≡ [] }
        requires room { room_of writing.seat ≡ 1 }
        ensures of { IsChannelOf (hub_of reading) id result }
        ensures read { reader_view result.read ≡ seen_by reading }
        ensures write { writer_view result.write ≡ seen_by writing }
    {
        Channel {
            read: ChannelReadHalf::new(reading, id),
            write: ChannelWriteHalf::new(writing, id),
        }
    }

    /// The two halves, which may go to two threads.
    pub fn split(self) -> (ChannelReadHalf, ChannelWriteHalf)
        ensures { (result.0 ≡ self.read) × (result.1 ≡ self.write) }
    {
        let Channel { read, write } = self;
        (read, write)
    }

    /// The channel as a stream of bytes.
    pub fn into_stream(self) -> ChannelStream
        ensures { IsStreamOf self.read self.write result }
    {
        let Channel { read, write } = self;
        ChannelStream::new(read, write)
    }
}
