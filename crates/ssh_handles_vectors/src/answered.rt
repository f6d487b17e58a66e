// Opens and forwards of one thread, which another answers as a session does.
ghost use Rattle.ssh_hub.specs.Words.{IsSeatOf};

use crate::scene::{A, handle, hub};
use ssh_handles::{Channel, Handle};
use ssh_hub::{HandleError, HubLock, Seat, SlotAnswer, Taken};
use ssh_link::{ChannelMsg, Command, CommandOutcome, Refusal};
use ssh_wire::{ChannelOpenFailure, Text};
use std::alloc::Global;
use std::sync::Wait;
use std::test::*;
use std::thread::{Threads, join};

// The ticket of a command, and the slot under which its answer is told; 0 where it has none.
fn ticket_in(taken: &Option<Taken>) -> Option<(u64, u64)> {
    match taken {
        Some(Taken::Command(ticket, Command::TcpipForward { reply, .. })) => {
            Some((*ticket, reply.unwrap_or(0)))
        }
        Some(Taken::Command(ticket, Command::CancelTcpipForward { reply, .. })) => {
            Some((*ticket, reply.unwrap_or(0)))
        }
        Some(Taken::Command(ticket, _)) => Some((*ticket, 0)),
        _ => None,
    }
}

// Waits for a command, and takes it.
fn next_command<R: Wait>(rt: &R, lock: &HubLock, seat: &mut Seat) -> (u64, u64)
    requires { IsSeatOf lock.now seat.old }
    ensures { IsSeatOf lock.now seat.new }
{
    for _ in rt.forever() {
        let taken = lock.take(rt, seat, true, true);
        let found = ticket_in(&taken);
        drop(taken);
        if let Some(found) = found {
            return found;
        }
        if let Some(place) = seat.place() {
            lock.pause(rt, place);
        }
    }
    unreachable!()
}

// What the session does with the command that it takes.
#[derive(Clone, Copy)]
enum Plan {
    Confirms,
    Fails(ChannelOpenFailure),
    Refuses(Refusal),
    Answers(SlotAnswer),
    Ends,
}

// The session's part: it takes one command, and does with it as planned.
fn serves<R: Wait>(rt: &R, lock: &HubLock, mut seat: Seat, plan: Plan) -> Result<(), HandleError>
    requires { IsSeatOf lock.now seat }
{
    let (ticket, slot) = next_command(rt, lock, &mut seat);
    match plan {
        Plan::Confirms => confirms(rt, lock, &mut seat, ticket),
        Plan::Fails(reason) => fails(rt, lock, &mut seat, ticket, reason),
        Plan::Refuses(why) => { lock.answer(rt, &mut seat, ticket, CommandOutcome::Refused(why)) }
        Plan::Answers(answer) => {
            lock.answer(rt, &mut seat, ticket, CommandOutcome::Accepted)?;
            lock.slot_answer(rt, &mut seat, slot, answer);
            Ok(())
        }
        Plan::Ends => {
            lock.end(rt, &mut seat);
            Ok(())
        }
    }
}

// The open gets this number, and the peer confirms it.
fn confirms<R: Wait>(
    rt: &R,
    lock: &HubLock,
    seat: &mut Seat,
    ticket: u64,
) -> Result<(), HandleError>
    requires { IsSeatOf lock.now seat.old }
{
    lock.answer(rt, seat, ticket, CommandOutcome::Opened(A))?;
    lock.ready(rt, seat, A, 10, 4)?;
    let open = ChannelMsg::Open {
        id: A,
        max_packet_size: 4,
        window_size: 10,
    };
    drop(lock.deliver(rt, seat, A, open));
    Ok(())
}

// The open gets this number, and the peer fails it.
fn fails<R: Wait>(
    rt: &R,
    lock: &HubLock,
    seat: &mut Seat,
    ticket: u64,
    reason: ChannelOpenFailure,
) -> Result<(), HandleError>
    requires { IsSeatOf lock.now seat.old }
{
    lock.answer(rt, seat, ticket, CommandOutcome::Opened(A))?;
    drop(lock.deliver(rt, seat, A, ChannelMsg::OpenFailure(reason)));
    Ok(())
}

// A kind of open (RFC 4254 sections 6.1, 6.3.2 and 7.2, OpenSSH PROTOCOL section 2.4).
#[derive(Clone, Copy)]
enum Kind {
    Session,
    Agent,
    Connection,
    Forwarded,
    Socket,
    ForwardedSocket,
    Display,
}

static KINDS: [Kind; 7] = [
    Kind::Session,
    Kind::Agent,
    Kind::Connection,
    Kind::Forwarded,
    Kind::Socket,
    Kind::ForwardedSocket,
    Kind::Display,
];

fn open<R: Wait>(
    rt: &R,
    alloc: Global,
    handle: &mut Handle,
    kind: Kind,
) -> Result<Channel, HandleError> {
    match kind {
        Kind::Session => handle.channel_open_session(rt),
        Kind::Agent => handle.channel_open_agent(rt),
        Kind::Connection => {
            let (host, from) = localhosts(alloc)?;
            handle.channel_open_direct_tcpip(rt, host, 22, from, 4022)
        }
        Kind::Forwarded => {
            let (host, from) = localhosts(alloc)?;
            handle.channel_open_forwarded_tcpip(rt, host, 22, from, 4022)
        }
        Kind::Socket => handle.channel_open_direct_streamlocal(rt, localhost(alloc)?),
        Kind::ForwardedSocket => handle.channel_open_forwarded_streamlocal(rt, localhost(alloc)?),
        Kind::Display => handle.channel_open_x11(rt, localhost(alloc)?, 4022),
    }
}

// What an open comes to: how many bytes one message of the channel may have.
fn opens<R: Wait>(
    rt: &R,
    alloc: Global,
    mut handle: Handle,
    kind: Kind,
) -> Result<usize, HandleError> {
    let mut channel: Channel = open(rt, alloc, &mut handle, kind)?;
    Ok(channel.writable_packet_size(rt))
}

// What an open comes to, where the session does as planned.
fn opened<R: Threads + Wait + Sync>(
    rt: &R,
    alloc: Global,
    kind: Kind,
    plan: Plan,
) -> Result<usize, HandleError> {
    let (lock, mut seat) = hub(alloc, 3)?;
    let handle = handle(rt, &lock, &mut seat)?;
    let lock_ref: &HubLock = &lock;
    let (opened, served) = join(
        rt,
        || opens(rt, alloc, handle, kind),
        || serves(rt, lock_ref, seat, plan),
    );
    served?;
    opened
}

fn localhost(alloc: Global) -> Result<Text, HandleError> {
    match Text::new(alloc, "localhost") {
        Ok(address) => Ok(address),
        Err(_) => Err(HandleError::NoMemory),
    }
}

fn localhosts(alloc: Global) -> Result<(Text, Text), HandleError> {
    let first = localhost(alloc)?;
    Ok((first, localhost(alloc)?))
}

fn forwards<R: Wait>(rt: &R, mut handle: Handle, address: Text) -> Result<u32, HandleError> {
    handle.forward_tcpip(rt, address, 0)
}

// What a request to forward comes to.
fn forwarded<R: Threads + Wait + Sync>(
    rt: &R,
    alloc: Global,
    plan: Plan,
) -> Result<u32, HandleError> {
    let (lock, mut seat) = hub(alloc, 3)?;
    let handle = handle(rt, &lock, &mut seat)?;
    let address = localhost(alloc)?;
    let lock_ref: &HubLock = &lock;
    let (port, served) = join(
        rt,
        || forwards(rt, handle, address),
        || serves(rt, lock_ref, seat, plan),
    );
    served?;
    port
}

fn takes_back<R: Wait>(rt: &R, mut handle: Handle, address: Text) -> Result<(), HandleError> {
    handle.cancel_forward_tcpip(rt, address, 22)
}

// What a request to forward no longer comes to.
fn taken_back<R: Threads + Wait + Sync>(
    rt: &R,
    alloc: Global,
    plan: Plan,
) -> Result<(), HandleError> {
    let (lock, mut seat) = hub(alloc, 3)?;
    let handle = handle(rt, &lock, &mut seat)?;
    let address = localhost(alloc)?;
    let lock_ref: &HubLock = &lock;
    let (done, served) = join(
        rt,
        || takes_back(rt, handle, address),
        || serves(rt, lock_ref, seat, plan),
    );
    served?;
    done
}

#[test]
fn an_open_comes_to_what_the_session_and_the_peer_answer(rt: HostRuntime) {
    let (reason, why) = (
        ChannelOpenFailure::AdministrativelyProhibited,
        Refusal::NumbersFull,
    );
    let alloc = rt.alloc();
    assert!(rt;
        opened(&rt, alloc, Kind::Session, Plan::Fails(reason))
            == Err(HandleError::OpenFailed(reason))
            && opened(&rt, alloc, Kind::Session, Plan::Refuses(why))
                == Err(HandleError::Refused(why))
    );
}

#[test]
fn an_open_of_each_kind_is_confirmed(rt: HostRuntime) {
    for kind in &KINDS {
        assert!(rt; opened(&rt, rt.alloc(), *kind, Plan::Confirms) == Ok(4));
    }
}

#[test]
fn a_forward_comes_to_the_port_that_the_peer_answers(rt: HostRuntime) {
    let granted = Plan::Answers(SlotAnswer::Port(Some(4022)));
    let denied = Plan::Answers(SlotAnswer::Port(None));
    let alloc = rt.alloc();
    assert!(rt;
        forwarded(&rt, alloc, granted) == Ok(4022)
            && forwarded(&rt, alloc, denied) == Err(HandleError::Denied)
    );
}

#[test]
fn a_forward_is_taken_back_or_not(rt: HostRuntime) {
    let done = Plan::Answers(SlotAnswer::Cancelled(true));
    let denied = Plan::Answers(SlotAnswer::Cancelled(false));
    let alloc = rt.alloc();
    assert!(rt;
        taken_back(&rt, alloc, done) == Ok(())
            && taken_back(&rt, alloc, denied) == Err(HandleError::Denied)
    );
}

#[test]
fn who_waits_for_an_answer_is_told_that_the_hub_ended(rt: HostRuntime) {
    assert!(rt;
        matches!(
            opened(&rt, rt.alloc(), Kind::Session, Plan::Ends),
            Err(HandleError::Ended { .. })
        )
    );
}
