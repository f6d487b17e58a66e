// A hub by example, on one thread and on two.
mod rings;
mod room;

ghost use Rattle.std.specs.Prelude.{IfOk, ◌<◌};
ghost use Rattle.ssh_hub.specs.Words.{IsSeatOf};

use bytes::Bytes;
use ssh_hub::{
    Config2, Deliver, HandleError, HubLock, Look, Put, PutReply, Received, Reserve, Seat,
    SlotAnswer, Taken,
};
use ssh_link::{ChannelMsg, ChannelOpenHandle, Command, CommandOutcome, OpenAnswer, Refusal};
use ssh_wire::ChannelId;
use std::alloc::Global;
use std::sync::Wait;
use std::test::*;
use std::thread::{Threads, join};

const CHANNEL: ChannelId = ChannelId(2);

// A hub that holds two commands and two messages in an inbox.
fn small_hub(alloc: Global) -> Result<(HubLock, Seat), HandleError>
    ensures { IfOk result (λ made. IsSeatOf made.0 made.1) }
{
    let config = Config2 {
        channel_buffer_size: 2,
        event_buffer_size: 2,
    };
    HubLock::new(alloc, &config)
}

// What came of a call that hands in or hands out a command or a reply. A value with one in it is
// read by reference and then always moved: dropping it on some of the ways through a function would
// take its proof long.
#[derive(Clone, Copy, PartialEq)]
enum Came {
    Done(u64),
    Full,
    Reply(u64),
    Command(u64),
    Else,
}

fn read_put(put: &Put) -> Came {
    match put {
        Put::Done(ticket) => Came::Done(*ticket),
        Put::Full(_) => Came::Full,
        _ => Came::Else,
    }
}

fn came_of_put(put: Put) -> Came {
    let came = read_put(&put);
    drop(put);
    came
}

fn read_reply(put: &PutReply) -> Came {
    match put {
        PutReply::Done(ticket) => Came::Done(*ticket),
        PutReply::Full(_) => Came::Full,
        _ => Came::Else,
    }
}

fn came_of_reply(put: PutReply) -> Came {
    let came = read_reply(&put);
    drop(put);
    came
}

fn read_taken(taken: &Option<Taken>) -> Came {
    match taken {
        Some(Taken::Reply(ticket, _)) => Came::Reply(*ticket),
        Some(Taken::Command(ticket, _)) => Came::Command(*ticket),
        None => Came::Else,
    }
}

fn came_of_take(taken: Option<Taken>) -> Came {
    let came = read_taken(&taken);
    drop(taken);
    came
}

// What came of a call on an inbox.
#[derive(Clone, Copy, PartialEq)]
enum Inbox {
    Done,
    Gone,
    Eof,
    Close,
    Nothing,
    Closed,
    Else,
}

fn read_delivered(delivered: &Deliver) -> Inbox {
    match delivered {
        Deliver::Done => Inbox::Done,
        Deliver::Gone(_) => Inbox::Gone,
        _ => Inbox::Else,
    }
}

fn inbox_of_deliver(delivered: Deliver) -> Inbox {
    let told = read_delivered(&delivered);
    drop(delivered);
    told
}

fn read_received(received: &Received) -> Inbox {
    match received {
        Received::Msg(ChannelMsg::Eof) => Inbox::Eof,
        Received::Msg(ChannelMsg::Close) => Inbox::Close,
        Received::Nothing => Inbox::Nothing,
        Received::Closed => Inbox::Closed,
        _ => Inbox::Else,
    }
}

fn inbox_of_receive(received: Received) -> Inbox {
    let told = read_received(&received);
    drop(received);
    told
}

// Each of these makes one call of the lock, and lets go of what it hands out.

fn put<R: Wait>(rt: &R, lock: &HubLock, seat: &mut Seat, msg: Command, spend: u32) -> Came
    requires { IsSeatOf lock.now seat.old }
    ensures { IsSeatOf lock.now seat.new }
{
    came_of_put(lock.put(rt, seat, msg, spend, false))
}

fn put_wanted<R: Wait>(rt: &R, lock: &HubLock, seat: &mut Seat, msg: Command) -> Came
    requires { IsSeatOf lock.now seat.old }
    ensures { IsSeatOf lock.now seat.new }
{
    came_of_put(lock.put(rt, seat, msg, 0, true))
}

fn reply<R: Wait>(rt: &R, lock: &HubLock, seat: &mut Seat, channel: ChannelId) -> Came
    requires { IsSeatOf lock.now seat.old }
    ensures { IsSeatOf lock.now seat.new }
{
    let accepted = ChannelOpenHandle::new(channel).accept();
    came_of_reply(lock.put_reply(rt, seat, accepted))
}

fn take<R: Wait>(rt: &R, lock: &HubLock, seat: &mut Seat, replies: bool) -> Came
    requires { IsSeatOf lock.now seat.old }
    ensures { IsSeatOf lock.now seat.new }
{
    came_of_take(lock.take(rt, seat, replies, true))
}

// What a `reserve` answers; none where the seat has no room for a reservation.
fn reserve<R: Wait>(rt: &R, lock: &HubLock, seat: &mut Seat, want: u32) -> Option<Reserve>
    requires seat { IsSeatOf lock.now seat.old }
    requires some { 0 < want }
    ensures { IsSeatOf lock.now seat.new }
{
    if !seat.has_room(CHANNEL) {
        return None;
    }
    Some(lock.reserve(rt, seat, CHANNEL, want))
}

fn deliver<R: Wait>(rt: &R, lock: &HubLock, seat: &mut Seat, msg: ChannelMsg) -> Inbox
    requires { IsSeatOf lock.now seat.old }
    ensures { IsSeatOf lock.now seat.new }
{
    inbox_of_deliver(lock.deliver(rt, seat, CHANNEL, msg))
}

fn receive<R: Wait>(rt: &R, lock: &HubLock, seat: &mut Seat) -> Inbox
    requires { IsSeatOf lock.now seat.old }
    ensures { IsSeatOf lock.now seat.new }
{
    inbox_of_receive(lock.receive(rt, seat, CHANNEL))
}

// Two seats reserve of ten bytes, and the first gives three back.
fn reserves<R: Wait>(rt: &R, lock: &HubLock, a: &mut Seat, b: &mut Seat) -> [Option<Reserve>; 4]
    requires a { IsSeatOf lock.now a.old }
    requires b { IsSeatOf lock.now b.old }
    ensures a { IsSeatOf lock.now a.new }
    ensures b { IsSeatOf lock.now b.new }
{
    let first = reserve(rt, lock, a, 8);
    let rest = reserve(rt, lock, b, 8);
    let none = reserve(rt, lock, b, 1);
    lock.release(rt, a, CHANNEL, 3);
    let again = reserve(rt, lock, b, 8);
    [first, rest, none, again]
}

// One seat puts data, and the other an end of file, for which there is room once.
fn puts<R: Wait>(rt: &R, lock: &HubLock, a: &mut Seat, b: &mut Seat) -> [Came; 3]
    requires a { IsSeatOf lock.now a.old }
    requires b { IsSeatOf lock.now b.old }
    ensures a { IsSeatOf lock.now a.new }
    ensures b { IsSeatOf lock.now b.new }
{
    let channel = CHANNEL;
    let bytes = Bytes::from_static(b"hello");
    let data = put(rt, lock, a, Command::Data { channel, bytes }, 5);
    let eof = put(rt, lock, b, Command::Eof { channel }, 0);
    let third = put(rt, lock, b, Command::Eof { channel }, 0);
    [data, eof, third]
}

// What one seat takes, while the other puts a reply.
fn takes<R: Wait>(rt: &R, lock: &HubLock, a: &mut Seat, b: &mut Seat) -> [Came; 4]
    requires a { IsSeatOf lock.now a.old }
    requires b { IsSeatOf lock.now b.old }
    ensures a { IsSeatOf lock.now a.new }
    ensures b { IsSeatOf lock.now b.new }
{
    let first = take(rt, lock, a, true);
    let put = reply(rt, lock, b, ChannelId(3));
    let second = take(rt, lock, a, true);
    let third = take(rt, lock, a, true);
    [first, put, second, third]
}

// Whether two seats of one hub are answered as they share it.
fn share_a_window<R: Wait>(rt: &R, lock: &HubLock, a: &mut Seat, b: &mut Seat) -> bool
    requires a { IsSeatOf lock.now a.old }
    requires b { IsSeatOf lock.now b.old }
{
    let reserved = reserves(rt, lock, a, b);
    let put = puts(rt, lock, a, b);
    lock.grant(rt, a, CHANNEL, u32::MAX);
    let seen = lock.look(rt, a, CHANNEL);
    let taken = takes(rt, lock, a, b);
    let (left, packet) = (4294967290, 4);
    reserved
        == [
            Some(Reserve::Got(8)),
            Some(Reserve::Got(2)),
            Some(Reserve::Empty),
            Some(Reserve::Got(3)),
        ]
        && put == [Came::Done(1), Came::Done(2), Came::Full]
        && seen == Some(Look { left, packet })
        && taken
            == [
                Came::Command(1),
                Came::Done(3),
                Came::Reply(3),
                Came::Command(2),
            ]
}

fn on_two_seats<R: Wait>(rt: &R, alloc: Global) -> Result<bool, HandleError> {
    let (lock, mut a) = small_hub(alloc)?;
    lock.ready(rt, &mut a, CHANNEL, 10, 4)?;
    let mut b = lock.split(rt, &mut a)?;
    Ok(share_a_window(rt, &lock, &mut a, &mut b))
}

#[test]
fn two_seats_share_a_window_and_the_commands(rt: HostRuntime) {
    assert!(rt; on_two_seats(&rt, rt.alloc()) == Ok(true));
}

// Whether an end of file and a close come to an inbox, and are taken out of it.
fn fill_and_empty<R: Wait>(rt: &R, lock: &HubLock, seat: &mut Seat) -> Result<bool, HandleError>
    requires { IsSeatOf lock.now seat.old }
{
    let gone = deliver(rt, lock, seat, ChannelMsg::Eof);
    lock.ready(rt, seat, CHANNEL, 10, 4)?;
    let none = receive(rt, lock, seat);
    let first = deliver(rt, lock, seat, ChannelMsg::Eof);
    let second = deliver(rt, lock, seat, ChannelMsg::Close);
    let eof = receive(rt, lock, seat);
    let close = receive(rt, lock, seat);
    let closed = receive(rt, lock, seat);
    let reserved = reserve(rt, lock, seat, 1);
    Ok(
        [gone, none] == [Inbox::Gone, Inbox::Nothing]
            && [first, second] == [Inbox::Done, Inbox::Done]
            && [eof, close, closed] == [Inbox::Eof, Inbox::Close, Inbox::Closed]
            && reserved == Some(Reserve::Gone),
    )
}

fn on_an_inbox<R: Wait>(rt: &R, alloc: Global) -> Result<bool, HandleError> {
    let (lock, mut seat) = small_hub(alloc)?;
    fill_and_empty(rt, &lock, &mut seat)
}

#[test]
fn an_inbox_is_emptied_before_it_tells_that_the_channel_is_closed(rt: HostRuntime) {
    assert!(rt; on_an_inbox(&rt, rt.alloc()) == Ok(true));
}

// Whether two commands come to their outcomes, that of the second being wanted.
fn keep_outcomes<R: Wait>(rt: &R, lock: &HubLock, seat: &mut Seat) -> Result<bool, HandleError>
    requires { IsSeatOf lock.now seat.old }
{
    let channel = CHANNEL;
    let first = put(rt, lock, seat, Command::Eof { channel }, 0);
    let second = put_wanted(rt, lock, seat, Command::Eof { channel });
    let taken = take(rt, lock, seat, true);
    let why = Refusal::UnknownChannel;
    lock.answer(rt, seat, 1, CommandOutcome::Refused(why))?;
    let refused = (lock.outcome(rt, seat, 1), lock.refusal(rt, seat));
    let next = take(rt, lock, seat, false);
    lock.answer(rt, seat, 2, CommandOutcome::Opened(channel))?;
    let opened = [lock.outcome(rt, seat, 2), lock.outcome(rt, seat, 2)];
    let claimed = [lock.claim(rt, seat, channel), lock.claim(rt, seat, channel)];
    Ok(
        [first, second] == [Came::Done(1), Came::Done(2)]
            && [taken, next] == [Came::Command(1), Came::Command(2)]
            && refused == (None, Some((1, why)))
            && opened == [Some(CommandOutcome::Opened(channel)), None]
            && claimed == [true, false],
    )
}

fn on_outcomes<R: Wait>(rt: &R, alloc: Global) -> Result<bool, HandleError> {
    let (lock, mut seat) = small_hub(alloc)?;
    keep_outcomes(rt, &lock, &mut seat)
}

#[test]
fn an_outcome_is_kept_where_it_is_wanted_and_a_refusal_besides(rt: HostRuntime) {
    assert!(rt; on_outcomes(&rt, rt.alloc()) == Ok(true));
}

// Whether a slot that is answered twice keeps the first answer, and a hub that is ended twice the
// first end.
fn answer_and_end<R: Wait>(rt: &R, lock: &HubLock, seat: &mut Seat) -> Result<bool, HandleError>
    requires { IsSeatOf lock.now seat.old }
{
    let slot = lock.slot(rt, seat)?;
    let none = lock.slot_outcome(rt, seat, slot);
    let answer = SlotAnswer::Port(Some(22));
    lock.slot_answer(rt, seat, slot, answer);
    lock.slot_answer(rt, seat, slot, SlotAnswer::Pong);
    let first = lock.slot_outcome(rt, seat, slot);
    let again = lock.slot_outcome(rt, seat, slot);
    let before = lock.ended(rt, seat);
    lock.end(rt, seat);
    let place = seat.place();
    lock.nudge(rt, seat);
    lock.end(rt, seat);
    let after = lock.ended(rt, seat);
    let reserved = reserve(rt, lock, seat, 1);
    lock.pause(rt, 0);
    Ok(
        slot == 1
            && [none, first, again] == [None, Some(answer), None]
            && [before, place, after] == [None, Some(7), Some(7)]
            && reserved == Some(Reserve::Ended { at: 7 }),
    )
}

fn on_a_slot<R: Wait>(rt: &R, alloc: Global) -> Result<bool, HandleError> {
    let (lock, mut seat) = small_hub(alloc)?;
    answer_and_end(rt, &lock, &mut seat)
}

#[test]
fn a_slot_keeps_its_first_answer_and_the_hub_its_first_end(rt: HostRuntime) {
    assert!(rt; on_a_slot(&rt, rt.alloc()) == Ok(true));
}

// Reserves up to three bytes and gives them back, a thousand times. Says how many it got in all.
fn take_turns<R: Wait>(rt: &R, lock: &HubLock, mut seat: Seat) -> (Seat, u64)
    requires { IsSeatOf lock.now seat }
    ensures { IsSeatOf lock.now result.0 }
{
    let mut sum: u64 = 0;
    for _ in 0..1000 {
        if let Some(Reserve::Got(got)) = reserve(rt, lock, &mut seat, 3) {
            lock.release(rt, &mut seat, CHANNEL, got);
            sum = sum.saturating_add(u64::from(got));
        }
    }
    (seat, sum)
}

// Two threads share ten bytes. Says how many they got in all, and what is left at the end.
fn share<R: Threads + Wait + Sync>(
    rt: &R,
    alloc: Global,
) -> Result<(u64, Option<Look>), HandleError> {
    let (lock, mut seat) = small_hub(alloc)?;
    lock.ready(rt, &mut seat, CHANNEL, 10, 4)?;
    let one = lock.split(rt, &mut seat)?;
    let two = lock.split(rt, &mut seat)?;
    let lock_ref = &lock;
    let (a, b) = join(
        rt,
        || take_turns(rt, lock_ref, one),
        || take_turns(rt, lock_ref, two),
    );
    lock.join(&mut seat, a.0);
    lock.join(&mut seat, b.0);
    let seen = lock.look(rt, &mut seat, CHANNEL);
    Ok((a.1.saturating_add(b.1), seen))
}

#[test]
fn two_threads_give_back_what_they_reserve(rt: HostRuntime) {
    let (left, packet) = (10, 4);
    assert!(rt; share(&rt, rt.alloc()) == Ok((6000, Some(Look { left, packet }))));
}
