// Stories of sessions: what comes to one, what is done with it, and what its link is told of that.
use crate::answering::{Answering, Plan, QUIET, Told};
use crate::calls::{accepted, applied, called, flushed, hands_on};
use crate::sides::{End, Side, give, is_logged_in, is_sent, payload};
use crate::wishes::{Wish, command};
use ssh_handler::Config;
use ssh_link::{CommandOutcome, Frame, InputKind, MemoryLink, Notice, TraceEntry};
use ssh_wire::{ChannelId, WireError};
use std::alloc::Global;

/// The ticket of each command.
const TICKET: u64 = 23;

/// One thing that happens.
#[derive(Clone, Copy)]
pub enum Line<'a> {
    /// An opened payload of the peer comes.
    In(&'a [u8]),
    /// One comes in parts, of which so many bytes are left.
    Parts(&'a [&'static [u8]], usize),
    /// CHANNEL_DATA comes on this channel, with so many times this byte.
    Flood(u32, usize, u8),
    /// A command comes from outside.
    Asks(Wish),
    /// A tick comes.
    Keepalive,
    Inactivity,
    Rekey,
    /// A command is applied between inputs, or done by its own call, and this comes of it.
    Applies(Wish, CommandOutcome),
    Calls(Wish, CommandOutcome),
    /// An open of this side is done by its own call, and gets this number.
    Opens(Wish, u32),
    /// The open of this number is accepted between inputs.
    Accepts(u32, CommandOutcome),
    /// What waits on a channel is written, so many bytes.
    Flushes(u32, usize),
    /// What was written is handed on.
    HandsOn,
    /// The link is told of a frame of no channel, or of one on a channel.
    Out(&'a [u8]),
    On(u32, &'a [u8]),
    /// It is told of the frame by which an open of the peer's number 7 is confirmed, under this
    /// number of this side's.
    Confirms(u32),
    /// It is told of a frame of no channel that is not to go out yet.
    Later(&'a [u8]),
    /// It is told what came of a command from outside.
    Done(CommandOutcome),
    /// It is told a notice about a channel.
    Noted(u32),
    /// It is told what came of a request of this side, by its slot.
    Forwarded(u64, Option<u32>),
    Cancelled(u64, bool),
    Pong(u64),
    /// The last input ended so. Where no line says how, it went on.
    Ends(End),
}

/// What comes or is done, and what the link is told of that.
pub type Turn = &'static [Line<'static>];

/// A story, and what the handler was told of channels, asked, and told of its commands; none where
/// that is not looked at.
#[derive(Clone, Copy)]
pub struct Story {
    pub shows: &'static str,
    pub logged_in: bool,
    /// The size of windows, and how many keepalive ticks are allowed; none where nothing is set.
    pub window: Option<u32>,
    pub ticks: Option<usize>,
    /// Whether this side can begin an exchange of keys.
    pub repeatable: bool,
    /// Whether the frames alone are looked at of what the link is told.
    pub frames_alone: bool,
    pub plan: Plan,
    pub turns: &'static [Turn],
    pub told: Option<&'static [Told]>,
    pub asked: Option<&'static [u8]>,
    pub done: Option<&'static [(usize, CommandOutcome)]>,
    /// How many callbacks were called.
    pub calls: Option<usize>,
}

/// Behind a login, with a handler that grants nothing, of which all is looked at but what it is
/// told of channels.
pub const STANDARD: Story = Story {
    shows: "",
    logged_in: true,
    window: None,
    ticks: None,
    repeatable: true,
    frames_alone: false,
    plan: QUIET,
    turns: &[],
    told: None,
    asked: Some(b""),
    done: Some(&[]),
    calls: None,
};

/// Such a one, of which the frames are looked at and what the handler is told of channels.
pub const CHANNELS: Story = Story {
    repeatable: false,
    frames_alone: true,
    told: Some(&[]),
    asked: None,
    done: None,
    ..STANDARD
};

/// A command from outside was done.
pub const ACCEPTED: Line<'static> = Line::Done(CommandOutcome::Accepted);

/// The request for a sign of life.
pub const ALIVE: Line<'static> = Line::Out(b"\x50\0\0\0\x15keepalive@openssh.com\x01");

/// The peer opens a session under its number 7, with credit for 1048576 bytes.
pub const OPEN: Line<'static> = Line::In(b"\x5a\0\0\0\x07session\0\0\0\x07\0\x10\0\0\0\0\x80\0");

/// It opens one under its number 44, with credit for 3.
pub const OPEN_SMALL: Line<'static> = Line::In(SMALL);

/// The payload of that.
pub const SMALL: &[u8] = b"\x5a\0\0\0\x07session\0\0\0\x2c\0\0\0\x03\0\0\x80\0";

/// The first of these is confirmed as channel 2.
pub const CONFIRMED: Line<'static> = Line::On(2, b"\x5b\0\0\0\x07\0\0\0\x02\0\x20\0\0\0\0\x80\0");

/// The second one is.
pub const SMALL_CONFIRMED: Line<'static> = Line::On(
    2,
    b"\x5b\0\0\0\x2c\0\0\0\x02\0\x20\0\0\0\0\x80\0",
);

// The parts, one after another, up to so many bytes.
fn joined(alloc: Global, parts: &[&[u8]], count: usize) -> Result<InputKind, WireError> {
    let mut joined = Vec::new(alloc);
    for part in parts {
        joined.extend_from_slice(*part)?;
    }
    joined.truncate(count);
    payload(alloc, joined.as_slice())
}

// CHANNEL_DATA with so many times this byte.
fn flood(alloc: Global, channel: u32, count: usize, byte: u8) -> Result<InputKind, WireError> {
    let length = u32::try_from(count).unwrap_or(0).to_be_bytes();
    let mut bytes = Vec::new(alloc);
    bytes.resize(count, byte)?;
    let channel = channel.to_be_bytes();
    let parts: [&[u8]; 4] = [b"\x5e", &channel, &length, bytes.as_slice()];
    joined(alloc, &parts, usize::MAX)
}

/// What comes by this line; none where nothing does.
pub(crate) fn comes(alloc: Global, line: Line<'_>) -> Result<Option<InputKind>, WireError> {
    Ok(Some(match line {
        Line::In(bytes) => payload(alloc, bytes)?,
        Line::Parts(parts, count) => joined(alloc, parts, count)?,
        Line::Flood(channel, count, byte) => flood(alloc, channel, count, byte)?,
        Line::Asks(wish) => InputKind::Command(TICKET, command(alloc, wish)?),
        Line::Keepalive => InputKind::KeepaliveTick,
        Line::Inactivity => InputKind::InactivityTick,
        Line::Rekey => InputKind::RekeyTick,
        _ => return Ok(None),
    }))
}

/// Whether an input comes by this line.
pub(crate) fn is_input(line: Line<'_>) -> bool {
    matches!(
        line,
        Line::In(_)
            | Line::Parts(_, _)
            | Line::Flood(_, _, _)
            | Line::Asks(_)
            | Line::Keepalive
            | Line::Inactivity
            | Line::Rekey
    )
}

// The channel of a notice about one.
fn noted(entry: &TraceEntry) -> Option<u32> {
    match entry {
        TraceEntry::Noticed(Notice::Channel(channel, _)) => Some(channel.0),
        TraceEntry::Noticed(Notice::Granted { channel, .. }) => Some(channel.0),
        TraceEntry::Noticed(Notice::Ready { channel, .. }) => Some(channel.0),
        _ => None,
    }
}

// Whether the entry says what came of a request of this side, as this line does.
fn is_replied(entry: &TraceEntry, line: Line<'_>) -> bool {
    match (entry, line) {
        (TraceEntry::Noticed(Notice::Forwarded { slot, port }), Line::Forwarded(own, bound)) => {
            *slot == own && *port == bound
        }
        (TraceEntry::Noticed(Notice::Cancelled { slot, ok }), Line::Cancelled(own, done)) => {
            *slot == own && *ok == done
        }
        (TraceEntry::Noticed(Notice::Pong { slot }), Line::Pong(own)) => *slot == own,
        _ => false,
    }
}

// CHANNEL_OPEN_CONFIRMATION for the peer's number 7, with credit for 2097152 bytes.
fn confirmation(channel: u32) -> [u8; 17] {
    let [a, b, c, d] = channel.to_be_bytes();
    [0x5b, 0, 0, 0, 7, a, b, c, d, 0, 0x20, 0, 0, 0, 0, 0x80, 0]
}

// Whether the frame is that of this line.
fn goes_out(frame: &Frame, line: Line<'_>) -> bool {
    let is_held = frame.hold_until().is_some();
    match line {
        Line::Out(payload) => !is_held && is_sent(frame, None, payload),
        Line::On(channel, payload) => !is_held && is_sent(frame, Some(ChannelId(channel)), payload),
        Line::Confirms(channel) => {
            !is_held && is_sent(frame, Some(ChannelId(channel)), &confirmation(channel))
        }
        Line::Later(payload) => is_held && is_sent(frame, None, payload),
        _ => false,
    }
}

// Whether the entry says what this line does.
fn says(entry: &TraceEntry, line: Line<'_>) -> bool {
    match (entry, line) {
        (TraceEntry::Sent(frame), line) => goes_out(frame, line),
        (TraceEntry::Answered(ticket, came), Line::Done(outcome)) => {
            *ticket == TICKET && *came == outcome
        }
        (TraceEntry::Took { .. }, line) => is_input(line),
        (entry, Line::Noted(channel)) => noted(entry) == Some(channel),
        _ => is_replied(entry, line),
    }
}

/// How far a story has come true: how much of what the link was told was looked at, and how the last
/// input ended.
#[derive(Clone, Copy)]
pub(crate) struct Place {
    frames_alone: bool,
    looked: usize,
    end: End,
}

impl Place {
    /// Behind so many entries, which are not looked at.
    pub(crate) fn behind(looked: usize, frames_alone: bool) -> Place {
        Place {
            frames_alone,
            looked,
            end: End::GoesOn,
        }
    }

    /// Whether the next entry that is looked at says what this line does, which for an input is that
    /// it was taken.
    pub(crate) fn tells(&mut self, link: &MemoryLink, line: Line<'_>) -> bool {
        self.pass(link);
        let next = link.trace().get(self.looked);
        self.looked = self.looked.saturating_add(1);
        next.is_some_and(|entry| says(entry, line))
    }

    // Passes over what is not looked at.
    fn pass(&mut self, link: &MemoryLink) {
        for entry in link.trace().iter().skip(self.looked) {
            if !self.frames_alone || matches!(entry, TraceEntry::Sent(_)) {
                return;
            }
            self.looked = self.looked.saturating_add(1);
        }
    }

    /// Whether all was looked at, and the last input went on, where no line said how it ended.
    pub(crate) fn is_at_the_end(&mut self, link: &MemoryLink) -> bool {
        self.pass(link);
        self.looked == link.trace().len() && self.end == End::GoesOn
    }
}

/// Whether the frames that the link was told, behind so many, are those of these lines on channels.
pub fn are_sent(link: &MemoryLink, skipped: usize, lines: &[Line<'_>]) -> bool {
    let mut place = Place::behind(skipped, true);
    for line in lines {
        if matches!(line, Line::On(_, _)) && !place.tells(link, *line) {
            return false;
        }
    }
    place.is_at_the_end(link)
}

// Whether an input comes behind all that was told so far, and a session that does not go on is
// spent.
fn takes(side: &mut Side, place: &mut Place, kind: InputKind) -> bool {
    let is_behind = place.is_at_the_end(&side.link);
    place.end = give(side, kind);
    is_behind && side.session.spent() == (place.end != End::GoesOn)
}

// Whether it is so that no input comes by this line.
fn is_so(side: &mut Side, place: &mut Place, line: Line<'_>) -> Result<bool, WireError> {
    Ok(match line {
        Line::Applies(wish, outcome) => applied(side, wish)? == Some(outcome),
        Line::Calls(wish, outcome) => called(side, wish)? == Some(outcome),
        Line::Opens(wish, number) => {
            called(side, wish)? == Some(CommandOutcome::Opened(ChannelId(number)))
        }
        Line::Accepts(number, outcome) => accepted(side, number)? == Some(outcome),
        Line::Flushes(channel, count) => flushed(side, channel) == Some(count),
        Line::HandsOn => hands_on(side),
        Line::Ends(end) => {
            let is_end = place.end == end;
            place.end = End::GoesOn;
            is_end
        }
        told => place.tells(&side.link, told),
    })
}

/// Whether all lines come true from there on.
pub(crate) fn play(
    side: &mut Side,
    place: &mut Place,
    lines: &[Line<'_>],
) -> Result<bool, WireError> {
    for line in lines {
        let is_true = match comes(side.alloc, *line)? {
            Some(kind) => takes(side, place, kind),
            None => is_so(side, place, *line)?,
        };
        if !is_true {
            return Ok(false);
        }
    }
    Ok(true)
}

fn play_all(side: &mut Side, story: &Story) -> Result<bool, WireError> {
    if story.logged_in && !is_logged_in(side)? {
        return Ok(false);
    }
    let mut place = Place::behind(side.link.trace().len(), story.frames_alone);
    for turn in story.turns {
        if !play(side, &mut place, *turn)? {
            return Ok(false);
        }
    }
    Ok(place.is_at_the_end(&side.link))
}

impl Story {
    // Whether the handler was told and asked as the story says.
    fn was_heard(&self, handler: &Answering) -> bool {
        let told = handler.told.as_slice();
        let asked = handler.asked.as_slice();
        let done = handler.done.as_slice();
        told == self.told.unwrap_or(told)
            && asked == self.asked.unwrap_or(asked)
            && done == self.done.unwrap_or(done)
            && handler.calls == self.calls.unwrap_or(handler.calls)
    }

    fn comes_true(&self, side: &mut Side) -> Result<bool, WireError> {
        Ok(play_all(side, self)? && self.was_heard(&side.handler))
    }

    /// Whether the story comes true where its inputs are given to a session, one after another;
    /// without memory it does not.
    pub fn holds(&self, alloc: Global) -> bool {
        let mut config = Config::standard();
        config.window_size = self.window.unwrap_or(config.window_size);
        config.keepalive_max = self.ticks.unwrap_or(config.keepalive_max);
        match Side::new(alloc, &config, self.repeatable, self.plan) {
            Ok(mut side) => {
                let is_true = self.comes_true(&mut side) == Ok(true);
                drop(side);
                is_true
            }
            Err(_) => false,
        }
    }
}
