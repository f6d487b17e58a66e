// The values that the outsides carry, by example.
use crate::command::{notice_is_copied, texts};
use crate::values::{are_equal, equals, is_held};
use bytes::Bytes;
use ssh_link::{ChannelMsg, ChannelOpenHandle, Command, CommandList, Notice, OpenAnswer};
use ssh_wire::{ChannelId, ChannelOpenFailure, Text, WireError};
use std::alloc::Global;
use std::test::*;

const CHANNEL: ChannelId = ChannelId(2);

fn answer(rejection: Option<ChannelOpenFailure>, texts: Option<(Text, Text)>) -> OpenAnswer {
    OpenAnswer {
        channel: CHANNEL,
        rejection,
        texts,
    }
}

fn handle() -> ChannelOpenHandle {
    ChannelOpenHandle::new(CHANNEL)
}

// What a handle is used for.
#[derive(Clone, Copy)]
enum Used {
    Accept,
    Reject(ChannelOpenFailure),
    RejectDefault,
}

fn answer_by(used: Used) -> OpenAnswer {
    match used {
        Used::Accept => handle().accept(),
        Used::Reject(why) => handle().reject(why),
        Used::RejectDefault => handle().reject_default(),
    }
}

const SHORTAGE: ChannelOpenFailure = ChannelOpenFailure::ResourceShortage;

const FORBIDDEN: ChannelOpenFailure = ChannelOpenFailure::AdministrativelyProhibited;

static USES: [(Used, Option<ChannelOpenFailure>); 3] = [
    (Used::Accept, None),
    (Used::Reject(SHORTAGE), Some(SHORTAGE)),
    (Used::RejectDefault, Some(FORBIDDEN)),
];

#[test]
fn a_handle_makes_its_answer_or_keeps_its_number(rt: HostRuntime) {
    let handed = handle();
    assert!(rt; handed.channel() == CHANNEL);
    assert!(rt; handed.into_channel() == CHANNEL);
    for (made, rejection) in &USES {
        assert!(rt; are_equal(answer_by(*made), answer(*rejection, None)));
    }
}

// A refusal with a text, as a handle makes it, or field by field.
fn described(alloc: Global, by_handle: bool) -> Result<OpenAnswer, WireError> {
    let reason = SHORTAGE;
    let (busy, english) = texts(alloc, "busy", "en")?;
    Ok(if by_handle {
        handle().reject_with(reason, busy, english)
    } else {
        answer(Some(reason), Some((busy, english)))
    })
}

fn answer_is_copied(answer: OpenAnswer) -> Result<bool, WireError> {
    let copy = answer.copy();
    equals(answer, copy)
}

fn texts_are_kept(alloc: Global) -> Result<bool, WireError> {
    let made = described(alloc, true)?;
    let is_same = equals(made, described(alloc, false))?;
    Ok(answer_is_copied(described(alloc, true)?)? && is_same)
}

#[test]
fn a_refusal_keeps_its_texts(rt: HostRuntime) {
    assert!(rt; texts_are_kept(rt.alloc()) == Ok(true));
}

#[derive(Clone, Copy)]
enum Listed {
    Eof,
    Hello,
    Accepted,
    Close,
}

fn hello(bytes: Bytes) -> Command {
    Command::Data {
        channel: CHANNEL,
        bytes,
    }
}

fn listed_command(listed: Listed) -> Command {
    match listed {
        Listed::Eof => Command::Eof { channel: CHANNEL },
        Listed::Hello => hello(Bytes::from_static(b"hello")),
        Listed::Accepted => Command::Answer(handle().accept()),
        Listed::Close => Command::Close { channel: CHANNEL },
    }
}

fn wanted_command(listed: Option<Listed>) -> Option<Command> {
    match listed {
        Some(listed) => Some(listed_command(listed)),
        None => None,
    }
}

// Three commands, the bytes standing on the heap.
fn push_three(alloc: Global, commands: &mut CommandList) -> Result<(), WireError> {
    let bytes = Bytes::copy_from_slice(alloc, b"hello")?;
    commands.push(listed_command(Listed::Eof))?;
    commands.push(hello(bytes))?;
    commands.push(listed_command(Listed::Accepted))
}

fn takes(commands: &mut CommandList, wanted: Option<Listed>) -> bool {
    are_equal(commands.take_first(), wanted_command(wanted))
}

fn adds(commands: &mut CommandList, added: Listed) -> bool {
    are_equal(commands.try_push(listed_command(added)), Ok(()))
}

fn holds(commands: &CommandList, place: usize, wanted: Listed) -> bool {
    let is_listed = is_held(commands.as_slice().get(place), listed_command(wanted));
    is_listed && is_held(commands.get(place), listed_command(wanted))
}

fn copies_are_taken(commands: &CommandList) -> Result<bool, WireError> {
    let mut copies = commands.copy()?;
    Ok(
        takes(&mut copies, Some(Listed::Hello))
            && takes(&mut copies, Some(Listed::Accepted))
            && takes(&mut copies, Some(Listed::Close))
            && takes(&mut copies, None),
    )
}

#[test]
fn a_command_list_gives_its_commands_in_order(rt: HostRuntime) {
    let mut commands = CommandList::new(rt.alloc());
    assert!(rt; commands.is_empty());
    assert!(rt; push_three(rt.alloc(), &mut commands) == Ok(()));
    assert!(rt; takes(&mut commands, Some(Listed::Eof)));
    assert!(rt; adds(&mut commands, Listed::Close));
    assert!(rt; commands.len() == 3 && commands.as_slice().len() == 3);
    assert!(rt; holds(&commands, 0, Listed::Hello) && holds(&commands, 2, Listed::Close));
    assert!(rt; commands.get(3).is_none());
    assert!(rt; copies_are_taken(&commands) == Ok(true));
}

// What a notice tells.
#[derive(Clone, Copy)]
enum Told {
    Adjusted,
    Eof,
    Close,
    Granted,
    Ready,
}

fn notice(told: Told) -> Notice {
    let channel = CHANNEL;
    match told {
        Told::Adjusted => Notice::Channel(channel, ChannelMsg::WindowAdjusted { new_size: 5 }),
        Told::Eof => Notice::Channel(channel, ChannelMsg::Eof),
        Told::Close => Notice::Channel(channel, ChannelMsg::Close),
        Told::Granted => Notice::Granted { channel, amount: 5 },
        Told::Ready => Notice::Ready {
            channel,
            window: 256,
            packet: 32_768,
        },
    }
}

static NOTICES: [Told; 5] = [
    Told::Adjusted,
    Told::Eof,
    Told::Close,
    Told::Granted,
    Told::Ready,
];

#[test]
fn a_notice_is_copied_whole(rt: HostRuntime) {
    for told in &NOTICES {
        assert!(rt; notice_is_copied(notice(*told)) == Ok(true));
    }
}
