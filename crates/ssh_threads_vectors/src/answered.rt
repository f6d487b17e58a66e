// What calls of a handle and of a channel come to over a session, whose peer answers by payloads.
ghost use Rattle.std.specs.Prelude.{◌≡◌, IfOk};
ghost use Rattle.std.specs.Arc.{arc_value};
ghost use Rattle.ssh_hub.specs.Words.{IsSeatOf};
ghost use Rattle.ssh_handles.specs.Handles.{handle_hub, writer_hub};

use crate::planned_feed::{PlannedFeed, Step};
use crate::scene::hub;
use ssh_handles::{ChannelWriteHalf, Handle};
use ssh_hub::{HandleError, HubLock, Seat};
use ssh_hub_link::HubLink;
use ssh_link::{ChannelMsg, Link, Refusal};
use ssh_threads::serve_over;
use ssh_wire::message::{CHANNEL_OPEN, CHANNEL_REQUEST, GLOBAL_REQUEST};
use ssh_wire::{ChannelOpenFailure, Disconnect, Text};
use std::alloc::Global;
use std::sync::{Arc, Wait};
use std::test::*;
use std::thread::{Threads, join};

// The peer asks for authentication, and to be let in as alice by the method none (RFC 4253 section 10
// and RFC 4252 section 5).
const SERVICE: Step = Step::Payload(b"\x05\0\0\0\x0cssh-userauth");

const USER: Step = Step::Payload(b"\x32\0\0\0\x05alice\0\0\0\x0essh-connection\0\0\0\x04none");

// What the application asks for, how the peer answers, and what the application gets.
struct Row {
    call: Call,
    steps: &'static [Step],
    wanted: Result<Told, HandleError>,
}

static ROWS: [Row; 5] = [
    // CHANNEL_OPEN_FAILURE for channel 2 with reason code 9, which is none of the standard (RFC
    // 4254 section 5.1).
    Row {
        call: Call::Session,
        steps: &[
            SERVICE,
            USER,
            Step::Answer(
                CHANNEL_OPEN,
                b"\x5c\0\0\0\x02\0\0\0\x09\0\0\0\x02no\0\0\0\x02en",
            ),
        ],
        wanted: Err(HandleError::OpenFailed(ChannelOpenFailure::AdministrativelyProhibited)),
    },
    // The same with reason code 2.
    Row {
        call: Call::Session,
        steps: &[
            SERVICE,
            USER,
            Step::Answer(
                CHANNEL_OPEN,
                b"\x5c\0\0\0\x02\0\0\0\x02\0\0\0\x02no\0\0\0\x02en",
            ),
        ],
        wanted: Err(HandleError::OpenFailed(ChannelOpenFailure::ConnectFailed)),
    },
    // REQUEST_FAILURE (RFC 4254 section 4).
    Row {
        call: Call::Forward,
        steps: &[SERVICE, USER, Step::Answer(GLOBAL_REQUEST, b"\x52")],
        wanted: Err(HandleError::Denied),
    },
    // REQUEST_SUCCESS with port 4022 (RFC 4254 section 7.1).
    Row {
        call: Call::Forward,
        steps: &[
            SERVICE,
            USER,
            Step::Answer(GLOBAL_REQUEST, b"\x51\0\0\x0f\xb6"),
        ],
        wanted: Ok(Told::Port(4022)),
    },
    // CHANNEL_OPEN_CONFIRMATION for channel 2; then CHANNEL_FAILURE and CHANNEL_EOF on it (RFC 4254
    // sections 5.1, 5.4 and 5.3). A shell is asked for by clients alone, so that a session of a
    // server sends no such request, and the peer's failure answers none.
    Row {
        call: Call::Shell,
        steps: &[
            SERVICE,
            USER,
            Step::Answer(
                CHANNEL_OPEN,
                b"\x5b\0\0\0\x02\0\0\0\x07\0\0\x80\0\0\0\x80\0",
            ),
            Step::Answer(CHANNEL_REQUEST, b"\x64\0\0\0\x02"),
            Step::Answer(CHANNEL_REQUEST, b"\x60\0\0\0\x02"),
        ],
        wanted: Ok(Told::Asked {
            is_refused: true,
            is_eof: true,
        }),
    },
];

// Whether a session over the link comes to its end.
fn runs<L: Link>(alloc: Global, link: &mut L) -> bool {
    let outcome = serve_over(alloc, link);
    let is_ok = matches!(&outcome, Ok(Ok(())));
    drop(outcome);
    is_ok
}

// A hub that is shared, and a seat of it.
#[derive(Drop)]
struct Side {
    lock: Arc<HubLock>,
    seat: Seat,
    ghost fits: { IsSeatOf (arc_value lock) seat },
}

// The session's part. The hub has ended behind it.
fn serves<R: Wait + Clone + Drop>(
    rt: &R,
    alloc: Global,
    side: Side,
    steps: &'static [Step],
) -> bool {
    let Side { lock, mut seat } = side;
    let Ok(own) = rt.clone() else {
        lock.end(rt, &mut seat);
        return false;
    };
    let peer = PlannedFeed::new(steps, u64::MAX, true);
    let mut link = HubLink::new(own, alloc, lock, seat, peer, false);
    let has_run = runs(alloc, &mut link);
    drop(link.finish());
    has_run
}

// What the application asks for.
#[derive(Clone, Copy)]
enum Call {
    Session,
    Forward,
    Shell,
}

// What it gets.
#[derive(Clone, Copy, PartialEq)]
enum Told {
    Opened,
    Port(u32),
    // Whether the session refused the request, and whether the channel's reader got an end of file
    // next.
    Asked { is_refused: bool, is_eof: bool },
}

fn opens<R: Wait>(rt: &R, handle: &mut Handle) -> Result<Told, HandleError> {
    match handle.channel_open_session(rt) {
        Ok(channel) => {
            drop(channel);
            Ok(Told::Opened)
        }
        Err(e) => Err(e),
    }
}

fn forwards<R: Wait>(rt: &R, alloc: Global, handle: &mut Handle) -> Result<Told, HandleError> {
    let Ok(address) = Text::new(alloc, "localhost") else {
        return Err(HandleError::NoMemory);
    };
    match handle.forward_tcpip(rt, address, 0) {
        Ok(port) => Ok(Told::Port(port)),
        Err(e) => Err(e),
    }
}

// Asks for a shell, and then tells a status, which goes out behind it. The answer is the ticket of
// the first.
fn asks<R: Wait>(rt: &R, write: &mut ChannelWriteHalf) -> Result<u64, HandleError>
    ensures { writer_hub write.new ≡ writer_hub write.old }
{
    let ticket = write.request_shell(rt, true)?;
    write.exit_status(rt, 0)?;
    Ok(ticket)
}

// Whether the newest refusal of the half is that of this ticket, as a request of clients alone.
fn is_refused<R: Wait>(rt: &R, lock: &HubLock, write: ChannelWriteHalf, ticket: u64) -> bool
    requires { writer_hub write ≡ lock.now }
{
    let mut seat = write.into_seat();
    lock.refusal(rt, &mut seat) == Some((ticket, Refusal::ClientOnly))
}

fn is_eof(came: Option<ChannelMsg>) -> bool {
    let is_so = matches!(&came, Some(ChannelMsg::Eof));
    drop(came);
    is_so
}

fn asks_for_shell<R: Wait>(rt: &R, lock: &HubLock, handle: &mut Handle) -> Result<Told, HandleError>
    requires { handle_hub handle.old ≡ lock.now }
{
    let channel = match handle.channel_open_session(rt) {
        Ok(channel) => channel,
        Err(e) => return Err(e),
    };
    let (mut read, mut write) = channel.split();
    let ticket = asks(rt, &mut write);
    let is_eof = is_eof(read.wait(rt));
    drop(read);
    let is_refused = is_refused(rt, lock, write, ticket.unwrap_or(0));
    Ok(Told::Asked { is_refused, is_eof })
}

// Ends the connection, and with it the run. The peer stays until then: a call that still waits when
// the hub ends may be told of the end in place of the answer.
fn leaves<R: Wait>(rt: &R, alloc: Global, handle: &mut Handle) -> Result<u64, HandleError>
    ensures { handle_hub handle.new ≡ handle_hub handle.old }
{
    let description = Text::new(alloc, "bye").or(Err(HandleError::NoMemory))?;
    let language = Text::new(alloc, "").or(Err(HandleError::NoMemory))?;
    handle.disconnect(rt, Disconnect::ByApplication, description, language)
}

// The application's part.
fn calls<R: Wait>(
    rt: &R,
    alloc: Global,
    lock: &HubLock,
    mut handle: Handle,
    call: Call,
) -> Result<Told, HandleError>
    requires { handle_hub handle ≡ lock.now }
{
    let told = match call {
        Call::Session => opens(rt, &mut handle),
        Call::Forward => forwards(rt, alloc, &mut handle),
        Call::Shell => asks_for_shell(rt, lock, &mut handle),
    };
    match leaves(rt, alloc, &mut handle) {
        Ok(_) => told,
        Err(e) => Err(e),
    }
}

// The session's side of a hub, and a handle on it.
fn sides(lock: &Arc<HubLock>, seat: Seat, other: Seat) -> Result<(Side, Handle), HandleError>
    requires own { IsSeatOf (arc_value lock.now) seat }
    requires other { IsSeatOf (arc_value lock.now) other }
    ensures { IfOk result (λ made. handle_hub made.1 ≡ arc_value lock.now) }
{
    let handle = Handle::new(Arc::try_clone(lock)?, other);
    let lock = Arc::try_clone(lock)?;
    Ok((Side { lock, seat }, handle))
}

// What the call comes to, while a session runs whose peer answers so.
fn comes_to<R: Threads + Wait + Clone + Drop + Sync>(
    rt: &R,
    alloc: Global,
    call: Call,
    steps: &'static [Step],
) -> Result<Told, HandleError> {
    let (lock, seat, other) = hub(rt, alloc)?;
    let (side, handle) = sides(&lock, seat, other)?;
    let lock_ref: &HubLock = &lock;
    let (told, has_run) = join(
        rt,
        || calls(rt, alloc, lock_ref, handle, call),
        || serves(rt, alloc, side, steps),
    );
    if !has_run {
        return Err(HandleError::Inconsistent);
    }
    told
}

fn first_that_fails<R: Threads + Wait + Clone + Drop + Sync>(
    rt: &R,
    alloc: Global,
) -> Option<usize> {
    let mut at: usize = 0;
    for row in &ROWS {
        if comes_to(rt, alloc, row.call, row.steps) != row.wanted {
            return Some(at);
        }
        at = at.saturating_add(1);
    }
    None
}

#[test]
fn an_open_a_forward_and_a_request_come_to_what_the_peer_answers(rt: HostRuntime) {
    let failing = first_that_fails(&rt, rt.alloc());
    assert!(rt; failing.is_none(), "row {failing:?}");
}
