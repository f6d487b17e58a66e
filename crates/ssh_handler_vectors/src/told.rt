// Each callback is passed on and told, and one that is not written goes on and asks for nothing.
use crate::accepting::Accepting;
use crate::events::{Asked, CHANNEL, Event, judged, lent};
use crate::failing::{Failed, Failing};
use crate::lender::Lender;
use ssh_handler::{RecordError, Recorded, ask, judge};
use ssh_link::{ChannelOpenHandle, Command, CommandList};
use ssh_wire::{ChannelId, WireError};
use std::alloc::Global;

/// Why a recording handler over one of the handlers here cannot go on.
pub(crate) type Error = RecordError<Failed>;

/// A call as such a handler tells it.
pub(crate) type Call = ssh_auth::Call<Error>;

// What is told of a call that is lent commands: the callback, the channel that it is about, the
// commands that were recorded, and the answer.
type Told<'a, T> = (&'static str, ChannelId, &'a CommandList, Result<T, Error>);

// Of a call that answers nothing but an error.
fn heard(call: &Call) -> Option<Told<'_, ()>> {
    Some(match call {
        Call::AuthSucceeded { commands, answer } => ("auth_succeeded", CHANNEL, commands, *answer),
        Call::ChannelOpenConfirmation {
            id,
            commands,
            answer,
            ..
        } => ("channel_open_confirmation", *id, commands, *answer),
        Call::WindowAdjusted {
            channel,
            new_size: 5,
            commands,
            answer,
        } => ("window_adjusted", *channel, commands, *answer),
        Call::ChannelClose {
            channel,
            commands,
            answer,
            ..
        } => ("channel_close", *channel, commands, *answer),
        Call::ChannelEof {
            channel,
            commands,
            answer,
            ..
        } => ("channel_eof", *channel, commands, *answer),
        Call::ChannelOpenSession {
            channel,
            commands,
            answer,
            ..
        } => ("channel_open_session", *channel, commands, *answer),
        Call::ChannelOpenX11 {
            channel,
            commands,
            answer,
            ..
        } => ("channel_open_x11", *channel, commands, *answer),
        Call::ChannelOpenDirectTcpip {
            channel,
            commands,
            answer,
            ..
        } => ("channel_open_direct_tcpip", *channel, commands, *answer),
        Call::ChannelOpenForwardedTcpip {
            channel,
            commands,
            answer,
            ..
        } => ("channel_open_forwarded_tcpip", *channel, commands, *answer),
        Call::ChannelOpenDirectStreamlocal {
            channel,
            commands,
            answer,
            ..
        } => (
            "channel_open_direct_streamlocal",
            *channel,
            commands,
            *answer,
        ),
        Call::Data {
            channel,
            commands,
            answer,
            ..
        } => ("data", *channel, commands, *answer),
        Call::ExtendedData {
            channel,
            commands,
            answer,
            ..
        } => ("extended_data", *channel, commands, *answer),
        Call::PtyRequest {
            channel,
            commands,
            answer,
            ..
        } => ("pty_request", *channel, commands, *answer),
        Call::X11Request {
            channel,
            commands,
            answer,
            ..
        } => ("x11_request", *channel, commands, *answer),
        Call::EnvRequest {
            channel,
            commands,
            answer,
            ..
        } => ("env_request", *channel, commands, *answer),
        Call::ShellRequest {
            channel,
            commands,
            answer,
            ..
        } => ("shell_request", *channel, commands, *answer),
        Call::ExecRequest {
            channel,
            commands,
            answer,
            ..
        } => ("exec_request", *channel, commands, *answer),
        Call::SubsystemRequest {
            channel,
            commands,
            answer,
            ..
        } => ("subsystem_request", *channel, commands, *answer),
        Call::WindowChangeRequest {
            channel,
            commands,
            answer,
            ..
        } => ("window_change_request", *channel, commands, *answer),
        Call::Signal {
            channel,
            commands,
            answer,
            ..
        } => ("signal", *channel, commands, *answer),
        _ => return None,
    })
}

// Of one that answers whether it grants what is asked.
fn decided(call: &Call) -> Option<Told<'_, bool>> {
    Some(match call {
        Call::AgentRequest {
            channel,
            commands,
            answer,
        } => ("agent_request", *channel, commands, *answer),
        Call::CancelTcpipForward {
            commands,
            answer,
            ..
        } => ("cancel_tcpip_forward", CHANNEL, commands, *answer),
        Call::StreamlocalForward {
            commands,
            answer,
            ..
        } => ("streamlocal_forward", CHANNEL, commands, *answer),
        Call::CancelStreamlocalForward {
            commands,
            answer,
            ..
        } => ("cancel_streamlocal_forward", CHANNEL, commands, *answer),
        _ => return None,
    })
}

// Whether the list is empty, or the acceptance of channel 2 alone.
fn is_acceptance(commands: &[Command], accepts: bool) -> bool {
    if !accepts {
        return commands.len() == 0;
    }
    let accepted = Command::Answer(ChannelOpenHandle::new(CHANNEL).accept());
    let is_first = commands.first() == Some(&accepted);
    drop(accepted);
    is_first && commands.len() == 1
}

// Whether this callback of channel 2 is told, with this answer and its commands.
fn is_told<T: PartialEq + Drop>(
    told: Option<Told<'_, T>>,
    name: &str,
    answer: Result<T, Error>,
    accepts: bool,
) -> bool {
    match told {
        Some((callback, channel, commands, came)) => {
            let is_named = callback == name && channel == CHANNEL;
            is_named && came == answer && is_acceptance(commands.as_slice(), accepts)
        }
        None => false,
    }
}

// Whether one call alone is told, by this callback, with this answer and its commands.
fn is_heard(calls: &[Call], name: &str, answer: Result<(), Error>, accepts: bool) -> bool {
    matches!(calls, [call] if is_told(heard(call), name, answer, accepts))
}

// Whether a handler that fails is told it by this callback, in a session of this window.
fn fails(alloc: Global, event: Event, name: &'static str, window: u32) -> Result<bool, WireError> {
    let lent = lent(alloc, event)?;
    let mut lender = Lender::new(alloc);
    lender.config.window_size = window;
    let mut session = lender.lend();
    let mut handler = Recorded::new(alloc, Failing { alloc });
    let failure = Err(RecordError::Inner(Failed(name, window)));
    let answer = ask(&mut handler, lent, &mut session);
    let is_told = is_heard(handler.calls(), name, failure, false);
    drop(handler);
    let recorded = session.recorded().len();
    drop(session);
    drop(lender);
    Ok(is_told && answer == failure && recorded == 0)
}

// Whether a handler that writes what it has to goes on, and the call and its commands are told,
// recorded and kept.
fn goes_on(
    alloc: Global,
    event: Event,
    name: &'static str,
    accepts: bool,
) -> Result<bool, WireError> {
    let lent = lent(alloc, event)?;
    let lender = Lender::new(alloc);
    let mut session = lender.lend();
    let mut handler = Recorded::new(alloc, Accepting);
    let answer = ask(&mut handler, lent, &mut session);
    let is_told = is_heard(handler.calls(), name, Ok(()), accepts);
    drop(handler);
    let is_recorded = is_acceptance(session.recorded(), accepts);
    let list = session.into_list();
    let is_kept = is_acceptance(list.as_slice(), accepts);
    drop(list);
    drop(lender);
    Ok(answer == Ok(()) && is_told && is_recorded && is_kept)
}

// What comes, the callback that it is for, and whether that has to accept a channel.
static EVENTS: [(Event, &str, bool); 20] = [
    (Event::Succeeded, "auth_succeeded", false),
    (Event::Session, "channel_open_session", true),
    (Event::X11, "channel_open_x11", true),
    (Event::DirectTcpip, "channel_open_direct_tcpip", true),
    (Event::ForwardedTcpip, "channel_open_forwarded_tcpip", true),
    (
        Event::DirectStreamlocal,
        "channel_open_direct_streamlocal",
        true,
    ),
    (Event::Confirmed, "channel_open_confirmation", false),
    (Event::Data, "data", false),
    (Event::ExtendedData, "extended_data", false),
    (Event::Granted, "window_adjusted", false),
    (Event::Eof, "channel_eof", false),
    (Event::Close, "channel_close", false),
    (Event::Terminal, "pty_request", false),
    (Event::X11Request, "x11_request", false),
    (Event::Variable, "env_request", false),
    (Event::Shell, "shell_request", false),
    (Event::Program, "exec_request", false),
    (Event::Subsystem, "subsystem_request", false),
    (Event::TerminalSize, "window_change_request", false),
    (Event::Signal, "signal", false),
];

#[test]
fn what_comes_is_passed_on_and_told(rt: HostRuntime) {
    let alloc = rt.alloc();
    let mut window: u32 = 0;
    for (event, name, accepts) in &EVENTS {
        window = window.saturating_add(1);
        assert!(rt; fails(alloc, *event, *name, window) == Ok(true), "{name}");
        assert!(rt;
            goes_on(alloc, *event, *name, *accepts) == Ok(true),
            "{name}"
        );
    }
}

// Whether one call alone is told, by this callback, with this answer and no commands.
fn is_decided(calls: &[Call], name: &str, answer: Result<bool, Error>) -> bool {
    matches!(calls, [call] if is_told(decided(call), name, answer, false))
}

// Whether a handler that fails is asked it by this callback, in a session of this window.
fn fails_to_decide(
    alloc: Global,
    asked: Asked,
    name: &'static str,
    window: u32,
) -> Result<bool, WireError> {
    let judged = judged(alloc, asked)?;
    let mut lender = Lender::new(alloc);
    lender.config.window_size = window;
    let mut session = lender.lend();
    let mut handler = Recorded::new(alloc, Failing { alloc });
    let failure = Err(RecordError::Inner(Failed(name, window)));
    let answer = judge(&mut handler, judged, &mut session);
    let is_told = is_decided(handler.calls(), name, failure);
    drop(handler);
    drop(session);
    drop(lender);
    Ok(is_told && answer == failure)
}

// Whether a handler that writes no such callback refuses it, and records nothing.
fn refuses(alloc: Global, asked: Asked, name: &'static str) -> Result<bool, WireError> {
    let judged = judged(alloc, asked)?;
    let lender = Lender::new(alloc);
    let mut session = lender.lend();
    let mut handler = Recorded::new(alloc, Accepting);
    let answer = judge(&mut handler, judged, &mut session);
    let is_told = is_decided(handler.calls(), name, Ok(false));
    drop(handler);
    let recorded = session.recorded().len();
    drop(session);
    drop(lender);
    Ok(answer == Ok(false) && is_told && recorded == 0)
}

// What is asked, and the callback that it is for.
static QUESTIONS: [(Asked, &str); 4] = [
    (Asked::Agent, "agent_request"),
    (Asked::CancelTcpip, "cancel_tcpip_forward"),
    (Asked::Streamlocal, "streamlocal_forward"),
    (Asked::CancelStreamlocal, "cancel_streamlocal_forward"),
];

#[test]
fn what_is_asked_is_passed_on_and_told(rt: HostRuntime) {
    let alloc = rt.alloc();
    let mut window: u32 = 0;
    for (asked, name) in &QUESTIONS {
        window = window.saturating_add(1);
        assert!(rt;
            fails_to_decide(alloc, *asked, *name, window) == Ok(true),
            "{name}"
        );
        assert!(rt; refuses(alloc, *asked, *name) == Ok(true), "{name}");
    }
}
