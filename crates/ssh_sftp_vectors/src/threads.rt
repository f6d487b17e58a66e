// A file server on a channel in one thread, and in another its client with what carries data to and
// fro.
ghost use Rattle.std.specs.Prelude.{◌<◌, IfOk};
ghost use Rattle.std.specs.Arc.{arc_value};
ghost use Rattle.ssh_hub.specs.Words.{IsSeatOf};

use bytes::Bytes;
use ssh_handles::{Channel, Handle};
use ssh_hub::{Config2, HandleError, HubLock, Seat, Taken};
use ssh_link::{ChannelMsg, Command, Refusal};
use ssh_sftp::{SftpError, SftpServer, serve_sftp};
use ssh_wire::ChannelId;
use std::alloc::{AllocError, Global};
use std::sync::{Arc, Wait};
use std::test::*;
use std::thread::{Threads, join};

const ID: ChannelId = ChannelId(2);

// What the client sends, in pieces of so many bytes at most, and what it is answered.
static TALK: [(&[u8], &[u8]); 6] = [
    (b"\0\0\0\x05\x01\0\0\0\x03", b"\0\0\0\x05\x02\0\0\0\x03"),
    // OPEN of /a to read, write and create.
    (
        b"\0\0\0\x13\x03\0\0\0\x01\0\0\0\x02/a\0\0\0\x0b\0\0\0\0",
        b"\0\0\0\x0df\0\0\0\x01\0\0\0\x04\0\0\0\x01",
    ),
    // WRITE of "hi" at its front.
    (
        b"\0\0\0\x1b\x06\0\0\0\x02\0\0\0\x04\0\0\0\x01\0\0\0\0\0\0\0\0\0\0\0\x02hi",
        b"\0\0\0\x13e\0\0\0\x02\0\0\0\0\0\0\0\x02ok\0\0\0\0",
    ),
    // READ of five bytes at its front.
    (
        b"\0\0\0\x19\x05\0\0\0\x03\0\0\0\x04\0\0\0\x01\0\0\0\0\0\0\0\0\0\0\0\x05",
        b"\0\0\0\x0bg\0\0\0\x03\0\0\0\x02hi",
    ),
    // CLOSE.
    (
        b"\0\0\0\x0d\x04\0\0\0\x04\0\0\0\x04\0\0\0\x01",
        b"\0\0\0\x13e\0\0\0\x04\0\0\0\0\0\0\0\x02ok\0\0\0\0",
    ),
    // STAT.
    (
        b"\0\0\0\x0b\x11\0\0\0\x05\0\0\0\x02/a",
        b"\0\0\0\x11i\0\0\0\x05\0\0\0\x01\0\0\0\0\0\0\0\x02",
    ),
];

// How many bytes one message of the client brings at most.
const PIECE: usize = 16;

// A hub with a channel of this window and packet size.
fn channel<R: Wait>(
    rt: &R,
    lock: &Arc<HubLock>,
    seat: &mut Seat,
    window: u32,
    packet: u32,
) -> Result<Channel, HandleError>
    requires { IsSeatOf (arc_value lock.now) seat.old }
    ensures { IsSeatOf (arc_value lock.now) seat.new }
{
    lock.ready(rt, seat, ID, window, packet)?;
    let other = lock.split(rt, seat)?;
    let same = Arc::try_clone(lock)?;
    let mut handle = Handle::new(same, other);
    match handle.channel(rt, ID) {
        Ok(Some(channel)) => Ok(channel),
        Ok(None) => Err(HandleError::Refused(Refusal::UnknownChannel)),
        Err(e) => Err(e),
    }
}

fn deliver<R: Wait>(rt: &R, lock: &HubLock, seat: &mut Seat, msg: ChannelMsg)
    requires { IsSeatOf lock.now seat.old }
    ensures { IsSeatOf lock.now seat.new }
{
    let delivered = lock.deliver(rt, seat, ID, msg);
    drop(delivered);
}

// Keeps the data that a command brings.
fn keep(got: &mut Vec<u8>, taken: &Option<Taken>) -> Result<bool, AllocError> {
    let Some(Taken::Command(_, Command::Data { channel: _, bytes })) = taken else {
        return Ok(false);
    };
    got.extend_from_slice(bytes.as_slice())?;
    Ok(true)
}

// Takes what the server sends, until so many bytes came.
fn collect<R: Wait>(
    rt: &R,
    lock: &HubLock,
    seat: &mut Seat,
    got: &mut Vec<u8>,
    count: usize,
) -> Result<(), AllocError>
    requires { IsSeatOf lock.now seat.old }
    ensures { IsSeatOf lock.now seat.new }
{
    for _ in rt.forever() {
        if got.len() >= count {
            return Ok(());
        }
        let taken = lock.take(rt, seat, true, true);
        let kept = keep(got, &taken);
        drop(taken);
        if kept? {
            continue;
        }
        if let Some(place) = seat.place() {
            lock.pause(rt, place);
        }
    }
    unreachable!()
}

// Sends a request in pieces, and says whether it is answered so.
fn is_answered<R: Wait>(
    rt: &R,
    alloc: Global,
    lock: &HubLock,
    seat: &mut Seat,
    request: &'static [u8],
    answer: &[u8],
) -> Result<bool, AllocError>
    requires { IsSeatOf lock.now seat.old }
    ensures { IsSeatOf lock.now seat.new }
{
    let (front, rest) = request.split_at(PIECE.min(request.len()));
    let bytes = Bytes::from_static(front);
    deliver(rt, lock, seat, ChannelMsg::Data { bytes });
    let bytes = Bytes::from_static(rest);
    deliver(rt, lock, seat, ChannelMsg::Data { bytes });
    let mut got = Vec::new(alloc);
    collect(rt, lock, seat, &mut got, answer.len())?;
    Ok(got.as_slice() == answer)
}

// Makes all requests in turn, and then ends the data.
fn talks<R: Wait>(rt: &R, alloc: Global, lock: &HubLock, mut seat: Seat) -> bool
    requires { IsSeatOf lock.now seat }
{
    let mut are_answered = true;
    for (request, answer) in &TALK {
        are_answered &= is_answered(rt, alloc, lock, &mut seat, request, answer) == Ok(true);
    }
    deliver(rt, lock, &mut seat, ChannelMsg::Eof);
    are_answered
}

fn serves<R: Wait>(rt: &R, alloc: Global, mut channel: Channel) -> Result<(), SftpError> {
    let mut server = SftpServer::new(alloc);
    serve_sftp(rt, alloc, &mut channel, &mut server)
}

// Whether a client is answered on a channel whose messages have at most ten bytes.
fn two_threads<R: Threads + Wait + Sync>(rt: &R, alloc: Global) -> Result<bool, HandleError> {
    let config = Config2 {
        channel_buffer_size: 4,
        event_buffer_size: 4,
    };
    let (lock, mut seat) = HubLock::new(alloc, &config)?;
    let lock = Arc::new(alloc, lock)?;
    let channel = channel(rt, &lock, &mut seat, 1000, 10)?;
    let lock_ref: &HubLock = &lock;
    let (served, answered) = join(
        rt,
        || serves(rt, alloc, channel),
        || talks(rt, alloc, lock_ref, seat),
    );
    Ok(served == Ok(()) && answered)
}

#[test]
fn a_file_is_served_on_a_channel_by_a_thread_of_its_own(rt: HostRuntime) {
    assert!(rt; two_threads(&rt, rt.alloc()) == Ok(true));
}
