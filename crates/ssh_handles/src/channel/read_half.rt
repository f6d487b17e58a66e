// The half of a channel that reads.
use crate::caller::Caller;
use crate::reader::{ChannelRx, HoldsReadHalf};
use ssh_hub::{Received, Seat};
use ssh_link::ChannelMsg;
use ssh_wire::ChannelId;
use std::sync::Wait;

/// The half of a channel that reads.
#[derive(Drop)]
pub struct ChannelReadHalf {
    caller: Caller,
    channel: ChannelId,
}

impl ChannelReadHalf {
    ghost use Rattle.std.specs.Prelude.{◌≡◌};
    ghost use Rattle.ssh_hub.specs.Words.{view_of, IsSeatOf};
    ghost use Rattle.ssh_handles.specs.Callers.{hub_of, seen_by, IsReceived};
    ghost use Rattle.ssh_handles.specs.Handles.{reader_hub, reader_view, reader_id};
    ghost use Rattle.std.specs.Prelude.{None};
    ghost use Rattle.ssh_handles.specs.Readers.{IsRxOf};

    pub(crate) fn new(caller: Caller, channel: ChannelId) -> ChannelReadHalf
        ensures hub { reader_hub result ≡ hub_of caller }
        ensures view { reader_view result ≡ seen_by caller }
        ensures id { reader_id result ≡ channel }
    {
        ChannelReadHalf { caller, channel }
    }

    /// This side's number of the channel.
    pub fn id(&self) -> ChannelId
        ensures { result ≡ reader_id self.now }
    {
        self.channel
    }

    /// The seat of the half, which makes no call in this.
    pub fn into_seat(self) -> Seat
        ensures seat { IsSeatOf (reader_hub self) result }
        ensures view { view_of result ≡ reader_view self }
    {
        let ChannelReadHalf { caller, channel: _ } = self;
        caller.into_seat()
    }

    /// Waits for the next message of the channel; none where no message waits and none can come,
    /// since the channel is closed or the hub has ended.
    pub fn wait<R: Wait>(&mut self, rt: &R) -> Option<ChannelMsg>
        ensures hub { reader_hub self.new ≡ reader_hub self.old }
        ensures id { reader_id self.new ≡ reader_id self.old }
        ensures entries { IsReceived (reader_id self.old) (reader_view self.old) result
            (reader_view self.new) }
    {
        self.caller.message(rt, self.channel)
    }

    /// A reader of the channel's data, which does not wait.
    pub fn make_reader(&mut self) -> ChannelRx<&mut ChannelReadHalf>
        ensures same_reference { result.half.ghost_name ≡ self.entry.ghost_name }
        ensures half { result.half.now ≡ self.old }
        ensures new { IsRxOf None result }
    {
        ChannelRx::new(self, None)
    }

    /// The same for data of another type (RFC 4254 section 5.2), or for data where there is none.
    pub fn make_reader_ext(&mut self, ext: Option<u32>) -> ChannelRx<&mut ChannelReadHalf>
        ensures same_reference { result.half.ghost_name ≡ self.entry.ghost_name }
        ensures half { result.half.now ≡ self.old }
        ensures new { IsRxOf ext result }
    {
        ChannelRx::new(self, ext)
    }
}

impl HoldsReadHalf for ChannelReadHalf {
    ghost use Rattle.ssh_handles.specs.Handles.{reader_view, reader_id};

    ghost view = { reader_view };

    ghost channel = { reader_id };

    ghost legal = { λ half. half.caller.seat.legal };

    fn receive<R: Wait>(&mut self, rt: &R) -> Received {
        let caller = &mut self.caller;
        caller.lock.receive(rt, &mut caller.seat, self.channel)
    }
}

impl HoldsReadHalf for &mut ChannelReadHalf {
    ghost use Rattle.ssh_handles.specs.Handles.{reader_view, reader_id};

    ghost view = { λ half. reader_view half.now };

    ghost channel = { λ half. reader_id half.now };

    ghost legal = { λ half. half.now.caller.seat.legal };

    fn receive<R: Wait>(&mut self, rt: &R) -> Received {
        (**self).receive(rt)
    }
}
