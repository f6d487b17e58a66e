// Ten bytes through the half of a channel that writes, once as shared bytes and once from a source. For
// each it says the bytes of the messages that then come out of the hub, what is left of the peer's
// window, and how the call went. `bench/refuse-memory` runs it with one allocation after another
// refused.
ghost use Rattle.std.specs.Prelude.{IfOk};
ghost use Rattle.std.specs.Arc.{arc_value};
ghost use Rattle.ssh_hub.specs.Words.{IsSeatOf};

use bytes::Bytes;
use ssh_handles::{Channel, Handle};
use ssh_hub::{Config2, HandleError, HubLock, Look, Seat, Taken};
use ssh_link::{Calls, Command, MemorySource, Refusal};
use ssh_wire::ChannelId;
use std::alloc::{AllocError, Global};
use std::sync::{Arc, Wait};

/// The peer's window of each channel, in bytes (RFC 4254 section 5.2).
const WINDOW: u32 = 1024;

/// The peer's packet size of each channel, in bytes.
const PACKET: u32 = 4;

/// What is written.
static TEXT: &[u8] = b"abcdefghij";

/// How it is handed in.
#[derive(Clone, Copy)]
enum Way {
    Bytes,
    Source,
}

impl Way {
    fn name(self) -> &'static str {
        match self {
            Way::Bytes => "bytes",
            Way::Source => "source",
        }
    }

    fn channel(self) -> ChannelId {
        match self {
            Way::Bytes => ChannelId(2),
            Way::Source => ChannelId(3),
        }
    }
}

/// A hub that holds 64 commands, and four messages of each channel.
fn hub(alloc: Global) -> Result<(Arc<HubLock>, Seat), HandleError>
    ensures { IfOk result (λ made. IsSeatOf (arc_value made.0) made.1) }
{
    let config = Config2 {
        channel_buffer_size: 4,
        event_buffer_size: 64,
    };
    let (lock, seat) = HubLock::new(alloc, &config)?;
    let lock = Arc::new(alloc, lock)?;
    Ok((lock, seat))
}

/// The channel, made ready, with its halves.
fn channel<R: Wait>(
    rt: &R,
    lock: &Arc<HubLock>,
    seat: &mut Seat,
    id: ChannelId,
) -> Result<Channel, HandleError>
    requires { IsSeatOf (arc_value lock.now) seat.old }
    ensures { IsSeatOf (arc_value lock.now) seat.new }
{
    lock.ready(rt, seat, id, WINDOW, PACKET)?;
    let other = lock.split(rt, seat)?;
    let mut handle = Handle::new(Arc::try_clone(lock)?, other);
    match handle.channel(rt, id) {
        Ok(Some(channel)) => Ok(channel),
        Ok(None) => Err(HandleError::Refused(Refusal::UnknownChannel)),
        Err(e) => Err(e),
    }
}

fn write<R: Wait>(
    rt: &R,
    alloc: Global,
    channel: &mut Channel,
    way: Way,
) -> Result<(), HandleError> {
    let text = Bytes::from_static(TEXT);
    match way {
        Way::Bytes => channel.write.data_bytes(rt, text),
        Way::Source => {
            let mut source = MemorySource::new(text, Calls::new(alloc));
            match channel.write.data(rt, alloc, &mut source) {
                Ok(_) => Ok(()),
                Err(e) => Err(e),
            }
        }
    }
}

/// The bytes of the messages that wait in the hub, which takes them out: three at most.
fn pieces<R: Wait>(
    rt: &R,
    alloc: Global,
    lock: &HubLock,
    seat: &mut Seat,
) -> Result<String, AllocError>
    requires { IsSeatOf lock.now seat.old }
    ensures { IsSeatOf lock.now seat.new }
{
    let mut line = String::new(alloc);
    for _ in 0..4 {
        if let Some(Taken::Command(_, Command::Data { channel: _, bytes })) = lock.take(
            rt, seat, false, true,
        ) {
            let piece = format!(in alloc; " {}", bytes.escape_ascii())?;
            line.push_str(piece.as_str())?;
        }
    }
    Ok(line)
}

/// What is left of the peer's window.
fn left<R: Wait>(rt: &R, lock: &HubLock, seat: &mut Seat, id: ChannelId) -> u32
    requires { IsSeatOf lock.now seat.old }
    ensures { IsSeatOf lock.now seat.new }
{
    match lock.look(rt, seat, id) {
        Some(Look { left, packet: _ }) => left,
        None => 0,
    }
}

fn said(answer: &Result<(), HandleError>) -> &'static str {
    match answer {
        Ok(()) => "ok",
        Err(HandleError::NoMemory) => "no memory",
        Err(_) => "refused",
    }
}

/// Writes in this way, and says what came of it.
fn line<R: Wait>(
    rt: &R,
    alloc: Global,
    lock: &Arc<HubLock>,
    seat: &mut Seat,
    way: Way,
) -> Result<String, HandleError>
    requires { IsSeatOf (arc_value lock.now) seat.old }
    ensures { IsSeatOf (arc_value lock.now) seat.new }
{
    let id = way.channel();
    let mut channel = channel(rt, lock, seat, id)?;
    let written = write(rt, alloc, &mut channel, way);
    let pieces = pieces(rt, alloc, lock, seat)?;
    let left = left(rt, lock, seat, id);
    let name = way.name();
    let ended = said(&written);
    Ok(format!(in alloc; "{name}{pieces} left {left} {ended}\n")?)
}

/// Both lines; `NoMemory` where there is none for the hub, its channels or the lines.
pub(crate) fn written_both_ways<R: Wait>(rt: &R, alloc: Global) -> Result<String, HandleError> {
    let (lock, mut seat) = hub(alloc)?;
    let mut lines = line(rt, alloc, &lock, &mut seat, Way::Bytes)?;
    lines.push_str(line(rt, alloc, &lock, &mut seat, Way::Source)?.as_str())?;
    Ok(lines)
}
