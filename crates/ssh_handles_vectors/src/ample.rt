// Each call of a handle, a channel, a writer and a stream that puts one message and that no other
// example makes, with memory enough: what the session then takes.
ghost use Rattle.std.specs.Arc.{arc_value};
ghost use Rattle.ssh_hub.specs.Words.{IsSeatOf};

use crate::polling::{Told, told_by};
use crate::scene::{A, B, bytes, channel, handle, hub};
use ssh_handles::{Channel, Handle, Poll, PutError};
use ssh_hub::{HandleError, HubLock, Seat, Taken};
use ssh_link::{ChannelMsg, ChannelOpenHandle, Command};
use ssh_wire::{Disconnect, Pty, Sig, Text};
use std::alloc::Global;
use std::sync::{Arc, Wait};
use std::test::*;

// A call of a handle, by which it names channel 2.
#[derive(Clone, Copy)]
enum ByHandle {
    Data,
    ExtendedData,
    Eof,
    Close,
    Success,
    Failure,
    FlowControl,
    Status,
    Signalled,
    Disconnect,
    Answer,
}

// A call of the channel itself.
#[derive(Clone, Copy)]
enum ByChannel {
    ExtendedBytes,
    Eof,
    Status,
    Terminal,
    Shell,
    Program,
    Signal,
    Subsystem,
    Display,
    Variable,
    Size,
    Agent,
    Close,
}

// What the session takes behind each, in the words of RFC 4254 and RFC 4253.
static BY_HANDLE: [(ByHandle, &str); 11] = [
    (ByHandle::Data, "DATA"),
    (ByHandle::ExtendedData, "EXTENDED_DATA"),
    (ByHandle::Eof, "EOF"),
    (ByHandle::Close, "CLOSE"),
    (ByHandle::Success, "SUCCESS"),
    (ByHandle::Failure, "FAILURE"),
    (ByHandle::FlowControl, "xon-xoff"),
    (ByHandle::Status, "exit-status"),
    (ByHandle::Signalled, "exit-signal"),
    (ByHandle::Disconnect, "DISCONNECT"),
    (ByHandle::Answer, "an answer to an open"),
];

static BY_CHANNEL: [(ByChannel, &str); 13] = [
    (ByChannel::ExtendedBytes, "EXTENDED_DATA"),
    (ByChannel::Eof, "EOF"),
    (ByChannel::Status, "exit-status"),
    (ByChannel::Terminal, "pty-req"),
    (ByChannel::Shell, "shell"),
    (ByChannel::Program, "exec"),
    (ByChannel::Signal, "signal"),
    (ByChannel::Subsystem, "subsystem"),
    (ByChannel::Display, "x11-req"),
    (ByChannel::Variable, "env"),
    (ByChannel::Size, "window-change"),
    (ByChannel::Agent, "auth-agent-req"),
    (ByChannel::Close, "CLOSE"),
];

// The message that was taken.
fn name(taken: &Option<Taken>) -> &'static str {
    match taken {
        Some(Taken::Reply(..)) => "an answer to an open",
        Some(Taken::Command(_, Command::Data { .. })) => "DATA",
        Some(Taken::Command(_, Command::ExtendedData { .. })) => "EXTENDED_DATA",
        Some(Taken::Command(_, Command::Eof { .. })) => "EOF",
        Some(Taken::Command(_, Command::Close { .. })) => "CLOSE",
        Some(Taken::Command(_, Command::ChannelSuccess { .. })) => "SUCCESS",
        Some(Taken::Command(_, Command::ChannelFailure { .. })) => "FAILURE",
        Some(Taken::Command(_, Command::XonXoff { .. })) => "xon-xoff",
        Some(Taken::Command(_, Command::ExitStatus { .. })) => "exit-status",
        Some(Taken::Command(_, Command::ExitSignal { .. })) => "exit-signal",
        Some(Taken::Command(_, Command::Disconnect { .. })) => "DISCONNECT",
        Some(Taken::Command(_, Command::ClientOnly { channel: _, msg })) => asked(msg),
        Some(Taken::Command(..)) => "another command",
        None => "nothing",
    }
}

// The request that only a client makes.
fn asked(msg: &ChannelMsg) -> &'static str {
    match msg {
        ChannelMsg::RequestPty { .. } => "pty-req",
        ChannelMsg::RequestShell { .. } => "shell",
        ChannelMsg::Exec { .. } => "exec",
        ChannelMsg::Signal { .. } => "signal",
        ChannelMsg::RequestSubsystem { .. } => "subsystem",
        ChannelMsg::RequestX11 { .. } => "x11-req",
        ChannelMsg::SetEnv { .. } => "env",
        ChannelMsg::WindowChange { .. } => "window-change",
        ChannelMsg::AgentForward { .. } => "auth-agent-req",
        _ => "another request",
    }
}

fn text(alloc: Global, text: &str) -> Result<Text, HandleError> {
    Text::new(alloc, text).or(Err(HandleError::NoMemory))
}

fn texts(alloc: Global, first: &str, second: &str) -> Result<(Text, Text), HandleError> {
    let first = text(alloc, first)?;
    Ok((first, text(alloc, second)?))
}

fn put(answer: Result<u64, PutError>) -> Result<u64, HandleError> {
    answer.map_err(|e| e.cause)
}

fn by_handle<R: Wait>(
    rt: &R,
    alloc: Global,
    handle: &mut Handle,
    call: ByHandle,
) -> Result<u64, HandleError> {
    match call {
        ByHandle::Data => put(handle.data(rt, A, bytes(b"ab"))),
        ByHandle::ExtendedData => put(handle.extended_data(rt, A, 1, bytes(b"ab"))),
        ByHandle::Eof => handle.eof(rt, A),
        ByHandle::Close => handle.close(rt, A),
        ByHandle::Success => handle.channel_success(rt, A),
        ByHandle::Failure => handle.channel_failure(rt, A),
        ByHandle::FlowControl => handle.xon_xoff_request(rt, A, true),
        ByHandle::Status => handle.exit_status_request(rt, A, 0),
        ByHandle::Signalled => {
            let (message, language) = texts(alloc, "out of memory", "en")?;
            handle.exit_signal_request(rt, A, Sig::KILL, true, message, language)
        }
        ByHandle::Disconnect => {
            let (description, language) = texts(alloc, "bye", "")?;
            handle.disconnect(rt, Disconnect::ByApplication, description, language)
        }
        ByHandle::Answer => handle.answer_open(rt, ChannelOpenHandle::new(B).accept()),
    }
}

fn by_channel<R: Wait>(
    rt: &R,
    alloc: Global,
    channel: &mut Channel,
    call: ByChannel,
) -> Result<u64, HandleError> {
    match call {
        ByChannel::ExtendedBytes => {
            match channel.extended_data_bytes(rt, 1, bytes(b"ab")) {
                Ok(()) => Ok(0),
                Err(e) => Err(e),
            }
        }
        ByChannel::Eof => channel.eof(rt),
        ByChannel::Status => channel.exit_status(rt, 0),
        ByChannel::Terminal => {
            let term = text(alloc, "xterm")?;
            channel.request_pty(rt, alloc, true, term, 80, 24, 640, 480, &[(Pty::ECHO, 1)])
        }
        ByChannel::Shell => channel.request_shell(rt, true),
        ByChannel::Program => channel.exec(rt, true, bytes(b"ls")),
        ByChannel::Signal => channel.signal(rt, Sig::INT),
        ByChannel::Subsystem => channel.request_subsystem(rt, true, text(alloc, "sftp")?),
        ByChannel::Display => {
            let (protocol, cookie) = texts(alloc, "MIT-MAGIC-COOKIE-1", "00")?;
            channel.request_x11(rt, true, false, protocol, cookie, 0)
        }
        ByChannel::Variable => {
            let (variable, value) = texts(alloc, "LANG", "C")?;
            channel.set_env(rt, false, variable, value)
        }
        ByChannel::Size => channel.window_change(rt, 80, 24, 640, 480),
        ByChannel::Agent => channel.agent_forward(rt, true),
        ByChannel::Close => channel.close(rt),
    }
}

// What the session takes next.
fn taken<R: Wait>(rt: &R, lock: &HubLock, seat: &mut Seat) -> &'static str
    requires { IsSeatOf lock.now seat.old }
    ensures { IsSeatOf lock.now seat.new }
{
    let taken = lock.take(rt, seat, true, true);
    let name = name(&taken);
    drop(taken);
    name
}

// Whether each call of a handle, which is another's copy, puts its message.
fn handles_put<R: Wait>(
    rt: &R,
    alloc: Global,
    lock: &Arc<HubLock>,
    seat: &mut Seat,
) -> Result<bool, HandleError>
    requires { IsSeatOf (arc_value lock.now) seat.old }
{
    lock.ready(rt, seat, A, 100, 32)?;
    let mut handle = handle(rt, lock, seat)?.clone_handle(rt)?;
    let mut are_so = true;
    for (call, expected) in &BY_HANDLE {
        by_handle(rt, alloc, &mut handle, *call)?;
        are_so = are_so && taken(rt, lock, seat) == *expected;
    }
    Ok(are_so)
}

fn is_done(poll: &Poll<Result<(), HandleError>>) -> bool {
    matches!(poll, Poll::Ready(Ok(())))
}

// Whether a writer of other data and a reader of it are made, and a stream sends its end of file
// and closes the channel.
fn streams_put<R: Wait>(
    rt: &R,
    alloc: Global,
    lock: &Arc<HubLock>,
    seat: &mut Seat,
) -> Result<bool, HandleError>
    requires { IsSeatOf (arc_value lock.now) seat.old }
{
    let mut errors = channel(rt, lock, seat, A, 100, 32)?;
    let mut writer = errors.make_writer_ext(rt, Some(1))?;
    let wrote = told_by(&writer.poll_write(rt, alloc, b"ab")) == Told::Bytes(2);
    writer.finish(rt);
    let sent = taken(rt, lock, seat) == "EXTENDED_DATA";
    let mut stream = channel(rt, lock, seat, B, 100, 32)?.into_stream();
    let flushed = is_done(&stream.poll_flush());
    let shut = is_done(&stream.poll_shutdown(rt));
    let ended = taken(rt, lock, seat) == "EOF";
    let (_, closed) = stream.finish(rt);
    let are_so = wrote && sent && flushed && shut && ended && closed.is_ok();
    Ok(are_so && taken(rt, lock, seat) == "CLOSE")
}

// Whether each call of a channel does.
fn channels_put<R: Wait>(
    rt: &R,
    alloc: Global,
    lock: &Arc<HubLock>,
    seat: &mut Seat,
) -> Result<bool, HandleError>
    requires { IsSeatOf (arc_value lock.now) seat.old }
{
    let mut channel = channel(rt, lock, seat, A, 100, 32)?;
    let mut are_so = true;
    for (call, expected) in &BY_CHANNEL {
        by_channel(rt, alloc, &mut channel, *call)?;
        are_so = are_so && taken(rt, lock, seat) == *expected;
    }
    Ok(are_so)
}

fn all_put<R: Wait>(rt: &R, alloc: Global) -> Result<bool, HandleError> {
    let (lock, mut seat) = hub(alloc, 3)?;
    let handles = handles_put(rt, alloc, &lock, &mut seat)?;
    let (lock, mut seat) = hub(alloc, 3)?;
    let channels = channels_put(rt, alloc, &lock, &mut seat)?;
    let (lock, mut seat) = hub(alloc, 3)?;
    Ok(handles && channels && streams_put(rt, alloc, &lock, &mut seat)?)
}

#[test]
fn each_call_with_ample_memory_puts_its_message(rt: HostRuntime) {
    assert!(rt; all_put(&rt, rt.alloc()) == Ok(true));
}
