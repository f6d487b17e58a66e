// What a link over a hub gives, and what it does in the hub for a session.
ghost use Rattle.ssh_hub.specs.Words.{IsSeatOf};

use crate::planned_feed::{PlannedFeed, Step};
use crate::scene::hub;
use bytes::Bytes;
use ssh_hub::{HandleError, HubLock, Put, PutReply, Received, Seat, SlotAnswer};
use ssh_hub_link::HubLink;
use ssh_link::{
    ChannelMsg, Command, CommandOutcome, Frame, Input, InputKind, Link, LinkFault, Notice,
    OpenAnswer,
};
use ssh_wire::ChannelId;
use std::alloc::Global;
use std::sync::{Arc, Wait};
use std::test::*;

const CHANNEL: ChannelId = ChannelId(2);

// What a session tells of the channel and of a slot.
#[derive(Clone, Copy)]
enum Told {
    Ready,
    Granted,
    Window(u32),
    Close,
    Pong,
}

// What a session does with its link. A command with ticket 1 and a reply with ticket 2 wait in the
// hub, and the feed takes one frame.
#[derive(Clone, Copy)]
enum Deed {
    // It asks for an input, for commands and for replies.
    Next(bool, bool),
    // It answers that the command is accepted.
    Accept,
    Tell(Told),
    Send,
}

const BOTH: Deed = Deed::Next(true, true);

const REPLIES: Deed = Deed::Next(false, true);

const NEITHER: Deed = Deed::Next(false, false);

// What comes of it, or what waits in an inbox: of a reply or a command its ticket, of a payload its
// length.
#[derive(Clone, Copy, PartialEq)]
enum Seen {
    Reply(u64),
    Command(u64),
    Payload(usize),
    Tick,
    End,
    Done,
    Fault(LinkFault),
    Window(u32),
    Close,
    Nothing,
    Else,
}

const FAULT: Seen = Seen::Fault(LinkFault::Failed);

// What the hub has afterwards.
struct Left {
    // What the inbox of the channel, which holds two messages, gives one after another.
    inbox: &'static [Seen],
    // Whether the command is accepted, and the slot has its answer.
    stands: bool,
    // Whether the channel is there.
    is_open: bool,
}

const UNTOUCHED: Left = Left {
    inbox: &[Seen::Else, Seen::Else, Seen::Else],
    stands: false,
    is_open: false,
};

// A feed, and what comes of a session's deeds.
struct Row {
    steps: &'static [Step],
    deeds: &'static [(Deed, Seen)],
    // How many deeds the link tells; where they are none it keeps no trace.
    told: usize,
    // How often the feed was polled, was waited for and failed.
    polls: u64,
    waits: u64,
    faults: u64,
    left: Left,
}

static ROWS: [Row; 8] = [
    // A reply comes before the feed, and the feed before a command.
    Row {
        steps: &[Step::Payload(b"ab")],
        deeds: &[
            (BOTH, Seen::Reply(2)),
            (BOTH, Seen::Payload(2)),
            (BOTH, Seen::Command(1)),
            (BOTH, Seen::End),
        ],
        told: 4,
        polls: 3,
        waits: 1,
        faults: 0,
        left: UNTOUCHED,
    },
    // What is not asked for waits.
    Row {
        steps: &[Step::Nothing, Step::Keepalive],
        deeds: &[
            (NEITHER, Seen::Tick),
            (REPLIES, Seen::Reply(2)),
            (REPLIES, Seen::End),
            (BOTH, Seen::Command(1)),
        ],
        told: 4,
        polls: 3,
        waits: 2,
        faults: 0,
        left: UNTOUCHED,
    },
    // Where nothing is asked for the feed alone is.
    Row {
        steps: &[Step::Payload(b"a"), Step::Payload(b"abc")],
        deeds: &[
            (NEITHER, Seen::Payload(1)),
            (NEITHER, Seen::Payload(3)),
            (NEITHER, Seen::End),
        ],
        told: 3,
        polls: 3,
        waits: 1,
        faults: 0,
        left: UNTOUCHED,
    },
    // A fault of the feed is told, and the link goes on.
    Row {
        steps: &[Step::Fails, Step::Payload(b"a"), Step::Nothing, Step::Fails],
        deeds: &[
            (BOTH, Seen::Reply(2)),
            (BOTH, FAULT),
            (BOTH, Seen::Payload(1)),
            (BOTH, Seen::Command(1)),
            (NEITHER, FAULT),
        ],
        told: 3,
        polls: 4,
        waits: 0,
        faults: 2,
        left: UNTOUCHED,
    },
    // An end of the feed ends nothing by itself.
    Row {
        steps: &[Step::End],
        deeds: &[
            (REPLIES, Seen::Reply(2)),
            (REPLIES, Seen::End),
            (BOTH, Seen::Command(1)),
        ],
        told: 3,
        polls: 2,
        waits: 0,
        faults: 0,
        left: UNTOUCHED,
    },
    // A notice of a full inbox that only says how much may be sent is dropped, and so is one for a
    // channel that is not there. Neither is a fault.
    Row {
        steps: &[],
        deeds: &[
            (Deed::Tell(Told::Window(1)), Seen::Done),
            (Deed::Tell(Told::Ready), Seen::Done),
            (Deed::Tell(Told::Window(2)), Seen::Done),
            (Deed::Tell(Told::Window(3)), Seen::Done),
            (Deed::Tell(Told::Window(4)), Seen::Done),
        ],
        told: 0,
        polls: 0,
        waits: 0,
        faults: 0,
        left: Left {
            inbox: &[Seen::Window(2), Seen::Window(3), Seen::Nothing],
            stands: false,
            is_open: true,
        },
    },
    // What is told of a channel, of a slot and of a command stands in the hub.
    Row {
        steps: &[],
        deeds: &[
            (BOTH, Seen::Reply(2)),
            (BOTH, Seen::Command(1)),
            (Deed::Accept, Seen::Done),
            (Deed::Tell(Told::Ready), Seen::Done),
            (Deed::Tell(Told::Granted), Seen::Done),
            (Deed::Tell(Told::Pong), Seen::Done),
            (Deed::Tell(Told::Close), Seen::Done),
        ],
        told: 7,
        polls: 1,
        waits: 0,
        faults: 0,
        left: Left {
            inbox: &[Seen::Close, Seen::Else, Seen::Else],
            stands: true,
            is_open: false,
        },
    },
    // A frame that the feed does not take is not told.
    Row {
        steps: &[],
        deeds: &[(Deed::Send, Seen::Done), (Deed::Send, FAULT)],
        told: 1,
        polls: 0,
        waits: 0,
        faults: 1,
        left: UNTOUCHED,
    },
];

// Puts a command that is ticketed and a reply to an open, and draws a slot.
fn put_all<R: Wait>(rt: &R, lock: &HubLock, seat: &mut Seat) -> Result<u64, HandleError>
    requires { IsSeatOf lock.now seat.old }
    ensures { IsSeatOf lock.now seat.new }
{
    let put: Put = lock.put(rt, seat, Command::Eof { channel: CHANNEL }, 0, true);
    drop(put);
    let answer = OpenAnswer {
        channel: CHANNEL,
        rejection: None,
        texts: None,
    };
    let put: PutReply = lock.put_reply(rt, seat, answer);
    drop(put);
    lock.slot(rt, seat)
}

fn read_input(input: &Input) -> Seen {
    match &input.kind {
        InputKind::OpenReply(ticket, _) => Seen::Reply(*ticket),
        InputKind::Command(ticket, _) => Seen::Command(*ticket),
        InputKind::Payload(bytes) => Seen::Payload(bytes.len()),
        InputKind::End => Seen::End,
        _ => Seen::Tick,
    }
}

fn what_came(given: Result<Input, LinkFault>) -> Seen {
    let seen = match &given {
        Ok(input) => read_input(input),
        Err(fault) => Seen::Fault(*fault),
    };
    drop(given);
    seen
}

fn done(told: Result<(), LinkFault>) -> Seen {
    match told {
        Ok(()) => Seen::Done,
        Err(fault) => Seen::Fault(fault),
    }
}

fn notice_of(told: Told) -> Notice {
    match told {
        Told::Ready => Notice::Ready {
            channel: CHANNEL,
            window: 10,
            packet: 4,
        },
        Told::Granted => Notice::Granted {
            channel: CHANNEL,
            amount: 5,
        },
        Told::Window(new_size) => {
            Notice::Channel(CHANNEL, ChannelMsg::WindowAdjusted { new_size })
        }
        Told::Close => Notice::Channel(CHANNEL, ChannelMsg::Close),
        Told::Pong => Notice::Pong { slot: 1 },
    }
}

fn does<R: Wait + Clone + Drop>(link: &mut HubLink<R, PlannedFeed>, deed: Deed) -> Seen {
    match deed {
        Deed::Next(commands, replies) => what_came(link.next(commands, replies)),
        Deed::Accept => done(link.answer(1, CommandOutcome::Accepted)),
        Deed::Tell(told) => done(link.notice(notice_of(told))),
        Deed::Send => done(link.send(Frame::new(Bytes::from_static(b"\x5e"), None, None))),
    }
}

fn gives<R: Wait + Clone + Drop>(
    link: &mut HubLink<R, PlannedFeed>,
    deeds: &[(Deed, Seen)],
) -> bool {
    for (deed, wanted) in deeds {
        if does(link, *deed) != *wanted {
            return false;
        }
    }
    true
}

fn read_received(received: &Received) -> Seen {
    match received {
        Received::Msg(ChannelMsg::WindowAdjusted { new_size }) => Seen::Window(*new_size),
        Received::Msg(ChannelMsg::Close) => Seen::Close,
        Received::Nothing => Seen::Nothing,
        _ => Seen::Else,
    }
}

fn receive<R: Wait>(rt: &R, lock: &HubLock, seat: &mut Seat) -> Seen
    requires { IsSeatOf lock.now seat.old }
    ensures { IsSeatOf lock.now seat.new }
{
    let received = lock.receive(rt, seat, CHANNEL);
    let seen = read_received(&received);
    drop(received);
    seen
}

// Whether just this is in the hub.
fn has<R: Wait>(rt: &R, lock: &HubLock, seat: &mut Seat, left: &Left) -> bool
    requires { IsSeatOf lock.now seat.old }
    ensures { IsSeatOf lock.now seat.new }
{
    let inbox = [
        receive(rt, lock, seat),
        receive(rt, lock, seat),
        receive(rt, lock, seat),
    ];
    let outcome = lock.outcome(rt, seat, 1);
    let answer = lock.slot_outcome(rt, seat, 1);
    let look = lock.look(rt, seat, CHANNEL);
    let stands = outcome == Some(CommandOutcome::Accepted) && answer == Some(SlotAnswer::Pong);
    inbox.as_slice() == left.inbox && stands == left.stands && look.is_some() == left.is_open
}

// Whether the hub ends by the end of the link, and the feed was asked as often as it is to be.
fn ends<R: Wait + Clone + Drop>(
    rt: &R,
    lock: &HubLock,
    seat: &mut Seat,
    link: HubLink<R, PlannedFeed>,
    row: &Row,
) -> bool
    requires { IsSeatOf lock.now seat.old }
{
    let before = lock.ended(rt, seat);
    let (feed, _seat) = link.finish();
    let after = lock.ended(rt, seat);
    before.is_none()
        && after.is_some()
        && feed.polls == row.polls
        && feed.waits == row.waits
        && feed.faults == row.faults
}

fn holds<R: Wait + Clone + Drop>(rt: &R, alloc: Global, row: &Row) -> Result<bool, HandleError> {
    let (lock, seat, mut other) = hub(rt, alloc)?;
    let slot = put_all(rt, &lock, &mut other)?;
    let feed = PlannedFeed::new(row.steps, 1, false);
    let same = Arc::try_clone(&lock)?;
    let mut link = HubLink::new(rt.clone()?, alloc, same, seat, feed, row.told > 0);
    let given = gives(&mut link, row.deeds);
    let is_told = link.is_whole() && link.trace().len() == row.told;
    let held = has(rt, &lock, &mut other, &row.left);
    let ended = ends(rt, &lock, &mut other, link, row);
    Ok(slot == 1 && given && is_told && held && ended)
}

fn first_that_fails<R: Wait + Clone + Drop>(rt: &R, alloc: Global) -> Option<usize> {
    let mut at: usize = 0;
    for row in &ROWS {
        if holds(rt, alloc, row) != Ok(true) {
            return Some(at);
        }
        at = at.saturating_add(1);
    }
    None
}

#[test]
fn a_link_gives_what_there_is_in_order_and_does_what_it_is_told(rt: HostRuntime) {
    let failing = first_that_fails(&rt, rt.alloc());
    assert!(rt; failing.is_none(), "row {failing:?}");
}
