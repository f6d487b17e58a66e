// A writer of a channel's data that does not wait.
ghost use Rattle.std.specs.Prelude.{◌≡◌, ◌<◌, ◌^◌, length};
ghost use Rattle.ssh_hub.specs.Views.{own_reservations};
ghost use Rattle.ssh_hub.specs.Words.{room_of};
ghost use Rattle.ssh_handles.specs.Callers.{seen_by};
ghost use Rattle.ssh_handles.specs.Staging.{staged_on};

use crate::caller::Caller;
use crate::poll::{Poll, Why};
use crate::tags::{bytes_of, data_command, wanted};
use bytes::Bytes;
use ssh_hub::{HandleError, Put, Reserve, Seat};
use ssh_link::{Command, Refusal};
use ssh_wire::ChannelId;
use std::alloc::Global;
use std::mem;
use std::sync::Wait;

/// A writer of the data of a channel, or of its data of one other type, which does not wait. A
/// message that found no room is kept with what is reserved for it. It cannot be dropped: `finish`
/// gives back what is reserved.
pub struct ChannelTx {
    caller: Caller,
    channel: ChannelId,
    ext: Option<u32>,
    staged: Bytes,
    ghost held: { own_reservations (seen_by caller) ≡ staged_on channel.0 staged },
    ghost room: { room_of caller.seat ≡ 1 },
    ghost short: { length staged < 2 ^ 32 },
}

impl ChannelTx {
    ghost use Rattle.std.specs.Prelude.{[], Err, Ok, false};
    ghost use Rattle.ssh_hub.specs.Words.{view_of, IsSeatOf};
    ghost use Rattle.ssh_hub.specs.declared.answers.HandleError.TheVariants.{EmptyWrite};
    ghost use Rattle.ssh_link.specs.declared.command.Command.TheVariants.{Close};
    ghost use Rattle.ssh_handles.specs.declared.poll.Poll.TheVariants.{Ready};
    ghost use Rattle.ssh_handles.specs.Callers.{hub_of, IsPut};
    ghost use Rattle.ssh_handles.specs.Staging.{PollsWrite, PutsStaged, Stages, GivesBack, Shuts};
    ghost use Rattle.ssh_handles.specs.Writers.{tx_hub, tx_view, tx_id, tx_ext, tx_kept, IsSameTx};
    ghost use Rattle.ssh_handles.specs.Writers.{Closes};

    pub(crate) fn new(caller: Caller, channel: ChannelId, ext: Option<u32>) -> ChannelTx
        requires none { own_reservations (seen_by caller) ≡ [] }
        requires room { room_of caller.seat ≡ 1 }
        ensures hub { tx_hub result ≡ hub_of caller }
        ensures view { tx_view result ≡ seen_by caller }
        ensures of { (tx_id result ≡ channel) × (tx_ext result ≡ ext) × (tx_kept result ≡ []) }
    {
        ChannelTx {
            caller,
            channel,
            ext,
            staged: Bytes::new(),
        }
    }

    /// Sends the first of these bytes, as many as the packet size and the window of the channel
    /// take (RFC 4254 section 5.2), and answers how many these are. `Pending` with `WindowEmpty`
    /// where the window has no byte left, and with `InboxFull` where as many commands wait as the
    /// hub holds: the message is kept then, and the next call sends it, whatever its `buf` holds,
    /// and answers its length. `EmptyWrite` for an empty `buf`, `Refused` where the channel is
    /// closed or was never there, `Inconsistent` at packet size 0, `Ended` where the hub has
    /// ended, and `NoMemory`. After an error nothing is kept, and nothing is reserved.
    pub fn poll_write<R: Wait>(
        &mut self,
        rt: &R,
        alloc: Global,
        buf: &[u8],
    ) -> Poll<Result<usize, HandleError>>
        ensures same { IsSameTx self.old self.new }
        ensures empty { length buf.now ≡ 0 → (result ≡ Ready (Err EmptyWrite))
            × (tx_kept self.new ≡ tx_kept self.old) × (tx_view self.new ≡ tx_view self.old) }
        ensures entries { 0 < length buf.now → PollsWrite (tx_id self.old) (tx_ext self.old)
            (tx_kept self.old) buf.now (tx_view self.old) result (tx_kept self.new)
            (tx_view self.new) }
    {
        if buf.is_empty() {
            return Poll::Ready(Err(HandleError::EmptyWrite));
        }
        if !self.staged.is_empty() {
            return self.put_staged(rt);
        }
        let caller = &mut self.caller;
        let Some(look) = caller.lock.look(rt, &mut caller.seat, self.channel) else {
            return Poll::Ready(Err(HandleError::Refused(Refusal::UnknownChannel)));
        };
        if look.packet == 0 {
            return Poll::Ready(Err(HandleError::Inconsistent));
        }
        self.stage(rt, alloc, look.packet, buf)
    }

    /// Nothing is kept back but a message that found no room, so that there is nothing to do.
    pub fn poll_flush(&mut self) -> Poll<Result<(), HandleError>>
        ensures { (result ≡ Ready (Ok tt)) × (self.new ≡ self.old) }
    {
        Poll::Ready(Ok(()))
    }

    /// Drops a message that is kept, gives back what is reserved for it, and tells the peer that
    /// no more data follow (RFC 4254 section 5.3). `Pending` with `InboxFull` where as many
    /// commands wait as the hub holds; `Ended` is the only error.
    pub fn poll_shutdown<R: Wait>(&mut self, rt: &R) -> Poll<Result<(), HandleError>>
        ensures same { IsSameTx self.old self.new }
        ensures kept { tx_kept self.new ≡ [] }
        ensures entries { Shuts (tx_id self.old) (tx_kept self.old) (tx_view self.old) result
            (tx_view self.new) }
    {
        self.give_back(rt);
        let channel = self.channel;
        let caller = &mut self.caller;
        match caller
            .lock
            .put(rt, &mut caller.seat, Command::Eof { channel }, 0, false)
        {
            Put::Done(_) => Poll::Ready(Ok(())),
            Put::Full(back) => {
                drop(back);
                Poll::Pending(Why::InboxFull)
            }
            Put::Ended { at, msg } => {
                drop(msg);
                Poll::Ready(Err(HandleError::Ended { at }))
            }
        }
    }

    /// Gives back what is reserved, and is gone. Its seat, which has nothing reserved then, may be
    /// joined into another or dropped.
    pub fn finish<R: Wait>(mut self, rt: &R) -> Seat
        ensures seat { IsSeatOf (tx_hub self) result }
        ensures none { own_reservations (view_of result) ≡ [] }
        ensures entries { GivesBack (tx_id self) (tx_kept self) (tx_view self) (view_of result) }
    {
        self.give_back(rt);
        let ChannelTx {
            caller,
            channel: _,
            ext: _,
            staged: _,
        } = self;
        caller.into_seat()
    }

    /// The same, and closes the channel (RFC 4254 section 5.3). `Ended` is the only error.
    pub(crate) fn close<R: Wait>(mut self, rt: &R) -> (Seat, Result<u64, HandleError>)
        ensures seat { IsSeatOf (tx_hub self) result.0 }
        ensures none { own_reservations (view_of result.0) ≡ [] }
        ensures entries { Closes (tx_id self) (tx_kept self) (tx_view self) result.1
            (view_of result.0) }
    {
        self.give_back(rt);
        let ChannelTx {
            mut caller,
            channel,
            ext: _,
            staged: _,
        } = self;
        let closed = caller.ticket(rt, Command::Close { channel }, false);
        (caller.into_seat(), closed)
    }

    // Drops the message that is kept, and gives back what is reserved for it.
    fn give_back<R: Wait>(&mut self, rt: &R)
        ensures same { IsSameTx self.old self.new }
        ensures kept { tx_kept self.new ≡ [] }
        ensures entries { GivesBack (tx_id self.old) (tx_kept self.old) (tx_view self.old)
            (tx_view self.new) }
    {
        let count = self.staged.len() as u32;
        self.staged = Bytes::new();
        if count > 0 {
            let caller = &mut self.caller;
            caller
                .lock
                .release(rt, &mut caller.seat, self.channel, count);
        }
    }

    // Reserves for the first of these bytes, and puts them. No message is kept.
    fn stage<R: Wait>(
        &mut self,
        rt: &R,
        alloc: Global,
        packet: u32,
        buf: &[u8],
    ) -> Poll<Result<usize, HandleError>>
        requires kept { tx_kept self.old ≡ [] }
        requires packet { 0 < packet }
        requires some { 0 < length buf.now }
        ensures same { IsSameTx self.old self.new }
        ensures entries { Stages (tx_id self.old) (tx_ext self.old) packet buf.now
            (tx_view self.old) result (tx_kept self.new) (tx_view self.new) }
    {
        let want = wanted(packet, buf.len());
        let Ok(mut piece) = Bytes::copy_from_slice(alloc, &buf[..want as usize]) else {
            return Poll::Ready(Err(HandleError::NoMemory));
        };
        let caller = &mut self.caller;
        match caller
            .lock
            .reserve(rt, &mut caller.seat, self.channel, want)
        {
            Reserve::Got(count) => {
                piece.truncate(count as usize);
                self.staged = piece;
                self.put_staged(rt)
            }
            Reserve::Empty => Poll::Pending(Why::WindowEmpty),
            Reserve::Gone => Poll::Ready(Err(HandleError::Refused(Refusal::UnknownChannel))),
            Reserve::Ended { at } => Poll::Ready(Err(HandleError::Ended { at })),
        }
    }

    // Puts the message that is kept.
    fn put_staged<R: Wait>(&mut self, rt: &R) -> Poll<Result<usize, HandleError>>
        requires { 0 < length (tx_kept self.old) }
        ensures same { IsSameTx self.old self.new }
        ensures entries { PutsStaged (tx_id self.old) (tx_ext self.old) (tx_kept self.old)
            (tx_view self.old) result (tx_kept self.new) (tx_view self.new) }
    {
        let count = self.staged.len();
        let bytes = mem::replace(&mut self.staged, Bytes::new());
        let msg = data_command(self.channel, self.ext, bytes);
        let caller = &mut self.caller;
        match caller
            .lock
            .put(rt, &mut caller.seat, msg, count as u32, false)
        {
            Put::Done(_) => Poll::Ready(Ok(count)),
            Put::Full(back) => {
                self.staged = bytes_of(back);
                Poll::Pending(Why::InboxFull)
            }
            Put::Ended { at, msg } => {
                drop(msg);
                caller
                    .lock
                    .release(rt, &mut caller.seat, self.channel, count as u32);
                Poll::Ready(Err(HandleError::Ended { at }))
            }
        }
    }
}
