// A hub with channels, and what comes out of it.
ghost use Rattle.std.specs.Prelude.{◌<◌, IfOk};
ghost use Rattle.std.specs.Arc.{arc_value};
ghost use Rattle.ssh_hub.specs.Words.{IsSeatOf};

use bytes::Bytes;
use ssh_handles::{Channel, Handle};
use ssh_hub::{Config2, HandleError, HubLock, Look, Seat, Taken};
use ssh_link::{Command, Refusal};
use ssh_wire::ChannelId;
use std::alloc::Global;
use std::sync::{Arc, Wait};

pub const A: ChannelId = ChannelId(2);

pub const B: ChannelId = ChannelId(3);

// A hub that holds so many commands and four messages in an inbox.
pub fn hub(alloc: Global, commands: usize) -> Result<(Arc<HubLock>, Seat), HandleError>
    requires { 0 < commands }
    ensures { IfOk result (λ made. IsSeatOf (arc_value made.0) made.1) }
{
    let config = Config2 {
        channel_buffer_size: 4,
        event_buffer_size: commands,
    };
    let (lock, seat) = HubLock::new(alloc, &config)?;
    let lock = Arc::new(alloc, lock)?;
    Ok((lock, seat))
}

// A handle on the hub, with a seat of its own.
pub fn handle<R: Wait>(rt: &R, lock: &Arc<HubLock>, seat: &mut Seat) -> Result<Handle, HandleError>
    requires { IsSeatOf (arc_value lock.now) seat.old }
    ensures { IsSeatOf (arc_value lock.now) seat.new }
{
    let other = lock.split(rt, seat)?;
    let same = Arc::try_clone(lock)?;
    Ok(Handle::new(same, other))
}

// The channel with this window and packet size, of which nobody took the halves.
pub fn channel<R: Wait>(
    rt: &R,
    lock: &Arc<HubLock>,
    seat: &mut Seat,
    id: ChannelId,
    window: u32,
    packet: u32,
) -> Result<Channel, HandleError>
    requires { IsSeatOf (arc_value lock.now) seat.old }
    ensures { IsSeatOf (arc_value lock.now) seat.new }
{
    lock.ready(rt, seat, id, window, packet)?;
    let mut handle = handle(rt, lock, seat)?;
    match handle.channel(rt, id) {
        Ok(Some(channel)) => Ok(channel),
        Ok(None) => Err(HandleError::Refused(Refusal::UnknownChannel)),
        Err(e) => Err(e),
    }
}

// Whether the next command that is taken is data of the channel, with these bytes.
pub fn takes<R: Wait>(rt: &R, lock: &HubLock, seat: &mut Seat, id: ChannelId, bytes: &[u8]) -> bool
    requires { IsSeatOf lock.now seat.old }
    ensures { IsSeatOf lock.now seat.new }
{
    let taken = lock.take(rt, seat, true, true);
    let is_so = is_data(&taken, id, bytes);
    drop(taken);
    is_so
}

fn is_data(taken: &Option<Taken>, id: ChannelId, bytes: &[u8]) -> bool {
    match taken {
        Some(
            Taken::Command(
                _,
                Command::Data {
                    channel,
                    bytes: sent,
                },
            ),
        ) => { *channel == id && sent.as_slice() == bytes }
        _ => false,
    }
}

// Whether nothing waits for the session.
pub fn is_quiet<R: Wait>(rt: &R, lock: &HubLock, seat: &mut Seat) -> bool
    requires { IsSeatOf lock.now seat.old }
    ensures { IsSeatOf lock.now seat.new }
{
    let taken = lock.take(rt, seat, true, true);
    let none = taken.is_none();
    drop(taken);
    none
}

// How many bytes of the channel are left.
pub fn left<R: Wait>(rt: &R, lock: &HubLock, seat: &mut Seat, id: ChannelId) -> Option<u32>
    requires { IsSeatOf lock.now seat.old }
    ensures { IsSeatOf lock.now seat.new }
{
    match lock.look(rt, seat, id) {
        Some(Look { left, packet: _ }) => Some(left),
        None => None,
    }
}

pub fn bytes(text: &'static [u8]) -> Bytes {
    Bytes::from_static(text)
}
