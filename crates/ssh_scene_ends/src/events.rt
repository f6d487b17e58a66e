// A script of what happens to two ends.
ghost use Rattle.std.specs.Prelude.{◌≡◌, Some, None, IfOk, if◌then◌else◌};
ghost use Rattle.ssh_scene.specs.Grammar.{cut};
ghost use Rattle.ssh_scene.specs.Scene.{lines_of};
ghost use Rattle.ssh_scene_ends.specs.EventLines.{FitsEvent, data_words, eof_words, close_words};
ghost use Rattle.ssh_scene_ends.specs.EventLines.{target_words, verb_form, lone_verb, side_form};
ghost use Rattle.ssh_scene_ends.specs.EventLines.{move_form, word_event, words_event, ReadsEvent};
ghost use Rattle.ssh_scene_ends.specs.EventLines.{with_event, BringsEvents};

use ssh_ends::{EndEvent, EventList, Side};
use ssh_scene::{bytes_in, channel_in, first_line, small_in};
use std::alloc::{AllocError, Global};

/// What one line of such a script says.
#[derive(Drop)]
pub(crate) enum EventLine {
    /// Nothing: it is empty, or a comment.
    Passed,
    /// An event.
    Event(EndEvent),
}

/// The rest of a line `data`: a channel, and bytes.
fn data_event(alloc: Global, side: Side, rest: &str) -> Result<Option<EndEvent>, AllocError>
    ensures { IfOk result (FitsEvent (data_words side (cut rest.now))) }
{
    let Some((number, digits)) = rest.split_once(' ') else {
        return Ok(None);
    };
    let Some(channel) = channel_in(alloc, number)? else {
        return Ok(None);
    };
    let Some(bytes) = bytes_in(alloc, digits)? else {
        return Ok(None);
    };
    Ok(Some(EndEvent::Data(side, channel, None, bytes)))
}

/// The rest of a line `eof`: a channel.
fn eof_event(alloc: Global, side: Side, number: &str) -> Result<Option<EndEvent>, AllocError>
    ensures { IfOk result (FitsEvent (eof_words side number.now)) }
{
    let Some(channel) = channel_in(alloc, number)? else {
        return Ok(None);
    };
    Ok(Some(EndEvent::Eof(side, channel)))
}

/// The rest of a line `close`: a channel.
fn close_event(alloc: Global, side: Side, number: &str) -> Result<Option<EndEvent>, AllocError>
    ensures { IfOk result (FitsEvent (close_words side number.now)) }
{
    let Some(channel) = channel_in(alloc, number)? else {
        return Ok(None);
    };
    Ok(Some(EndEvent::Close(side, channel)))
}

/// The rest of a line `target`: a channel, and a number of bytes.
fn target_event(alloc: Global, side: Side, rest: &str) -> Result<Option<EndEvent>, AllocError>
    ensures { IfOk result (FitsEvent (target_words side (cut rest.now))) }
{
    let Some((number, digits)) = rest.split_once(' ') else {
        return Ok(None);
    };
    let Some(channel) = channel_in(alloc, number)? else {
        return Ok(None);
    };
    let Some(target) = small_in(alloc, digits)? else {
        return Ok(None);
    };
    Ok(Some(EndEvent::Target(side, channel, target)))
}

/// What a side does by this word, with the rest of its line.
fn verb_event(
    alloc: Global,
    side: Side,
    verb: &str,
    rest: &str,
) -> Result<Option<EndEvent>, AllocError>
    ensures { IfOk result (FitsEvent (verb_form side verb.now rest.now)) }
{
    match verb {
        "data" => data_event(alloc, side, rest),
        "eof" => eof_event(alloc, side, rest),
        "close" => close_event(alloc, side, rest),
        "target" => target_event(alloc, side, rest),
        _ => Ok(None),
    }
}

/// What a side does by one word alone.
fn lone_event(side: Side, verb: &str) -> Option<EndEvent>
    ensures { FitsEvent (lone_verb side verb.now) result }
{
    match verb {
        "open" => Some(EndEvent::Open(side)),
        _ => None,
    }
}

/// The rest of a line of a side.
fn side_event(alloc: Global, side: Side, rest: &str) -> Result<Option<EndEvent>, AllocError>
    ensures { IfOk result (FitsEvent (side_form side rest.now)) }
{
    match rest.split_once(' ') {
        Some((verb, words)) => verb_event(alloc, side, verb, words),
        None => Ok(lone_event(side, rest)),
    }
}

/// The rest of a line `move`: a side.
fn move_event(side: &str) -> Option<EndEvent>
    ensures { FitsEvent (move_form side.now) result }
{
    match side {
        "a" => Some(EndEvent::Move(Side::A)),
        "b" => Some(EndEvent::Move(Side::B)),
        _ => None,
    }
}

/// A line of more than one word.
fn word_event(alloc: Global, word: &str, rest: &str) -> Result<Option<EndEvent>, AllocError>
    ensures { IfOk result (FitsEvent (word_event word.now rest.now)) }
{
    match word {
        "a" => side_event(alloc, Side::A, rest),
        "b" => side_event(alloc, Side::B, rest),
        "move" => Ok(move_event(rest)),
        _ => Ok(None),
    }
}

/// The event of a line; None where it is in no form.
fn event_in(alloc: Global, text: &str) -> Result<Option<EndEvent>, AllocError>
    ensures { IfOk result (FitsEvent (words_event (cut text.now))) }
{
    match text.split_once(' ') {
        Some((word, rest)) => word_event(alloc, word, rest),
        None => Ok(None),
    }
}

/// What a line says; None where it is bad.
fn read_event(alloc: Global, line: &[u8]) -> Result<Option<EventLine>, AllocError>
    ensures { IfOk result (ReadsEvent line.now) }
{
    if let [] | [b'#', ..] = line {
        return Ok(Some(EventLine::Passed));
    }
    let Ok(text) = str::from_utf8(line) else {
        return Ok(None);
    };
    match event_in(alloc, text)? {
        Some(event) => Ok(Some(EventLine::Event(event))),
        None => Ok(None),
    }
}

/// Takes in one more line.
fn add(events: &mut EventList, line: EventLine) -> Result<(), AllocError>
    ensures { IfOk result (λ _. with_event events.old (Some line) ≡ Some events.new) }
{
    match line {
        EventLine::Passed => Ok(()),
        EventLine::Event(event) => match events.push(event) {
            Ok(()) => Ok(()),
            Err(_) => Err(AllocError),
        },
    }
}

/// The events of two ends that the lines bring, or the number of the first line that is bad.
pub fn read_events(alloc: Global, text: &[u8]) -> Result<Result<EventList, u64>, AllocError>
    ensures { IfOk result (BringsEvents (lines_of text.now)) }
{
    let mut events = EventList::new(alloc);
    let mut rest = text;
    let mut done: u64 = 0;
    while let Some((line, more)) = first_line(rest) {
        done += 1;
        let Some(line) = read_event(alloc, line)? else {
            return Ok(Err(done));
        };
        add(&mut events, line)?;
        rest = more;
    }
    Ok(Ok(events))
}
