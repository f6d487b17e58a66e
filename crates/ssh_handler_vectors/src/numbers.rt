// The callbacks that are told a number and may choose another, and the one for what came of a
// command: they are passed on and told.
use crate::accepting::Accepting;
use crate::events::CHANNEL;
use crate::failing::{Failed, Failing};
use crate::lender::Lender;
use crate::told::{Call, Error};
use ssh_handler::{Handler, RecordError, Recorded};
use ssh_link::{CommandOutcome, Refusal};
use ssh_wire::ChannelId;
use std::alloc::Global;

// What is told of a number or of a command, by plain values.
#[derive(Clone, Copy, PartialEq)]
enum Told {
    // The port before and after the call.
    Forward(u32, u32, Result<bool, Error>),
    Window(ChannelId, u32, Result<u32, Error>),
    Done(usize, CommandOutcome, Result<(), Error>),
}

fn read(call: &Call) -> Option<Told> {
    match call {
        Call::TcpipForward {
            port,
            port_after,
            answer,
            ..
        } => Some(Told::Forward(*port, *port_after, *answer)),
        Call::AdjustWindow {
            channel,
            current,
            answer,
        } => Some(Told::Window(*channel, *current, *answer)),
        Call::CommandDone {
            place,
            outcome,
            answer,
        } => Some(Told::Done(*place, *outcome, *answer)),
        _ => None,
    }
}

// Whether this call alone is told.
fn is_told(calls: &[Call], this: Told) -> bool {
    matches!(calls, [call] if read(call) == Some(this))
}

// A handler that fails listens at port 2022.
fn a_forward_fails(alloc: Global) -> bool {
    let mut lender = Lender::new(alloc);
    lender.config.window_size = 7;
    let mut session = lender.lend();
    let mut handler = Recorded::new(alloc, Failing { alloc });
    let mut port = 0;
    let answer = handler.tcpip_forward("here", &mut port, &mut session);
    let failure = Err(RecordError::Inner(Failed("tcpip_forward", 7)));
    let is_told = is_told(handler.calls(), Told::Forward(0, 2022, failure));
    drop(handler);
    drop(session);
    drop(lender);
    answer == failure && port == 2022 && is_told
}

fn a_forward_is_refused(alloc: Global) -> bool {
    let lender = Lender::new(alloc);
    let mut session = lender.lend();
    let mut handler = Recorded::new(alloc, Accepting);
    let mut port = 0;
    let answer = handler.tcpip_forward("here", &mut port, &mut session);
    let is_told = is_told(handler.calls(), Told::Forward(0, 0, Ok(false)));
    drop(handler);
    let recorded = session.recorded().len();
    drop(session);
    drop(lender);
    answer == Ok(false) && port == 0 && is_told && recorded == 0
}

fn a_window_fails(alloc: Global) -> bool {
    let mut handler = Recorded::new(alloc, Failing { alloc });
    let answer = handler.adjust_window(CHANNEL, 8);
    let failure = Err(RecordError::Inner(Failed("adjust_window", 8)));
    let is_told = is_told(handler.calls(), Told::Window(CHANNEL, 8, failure));
    drop(handler);
    answer == failure && is_told
}

fn a_window_stays(alloc: Global) -> bool {
    let mut handler = Recorded::new(alloc, Accepting);
    let answer = handler.adjust_window(CHANNEL, 8);
    let is_told = is_told(handler.calls(), Told::Window(CHANNEL, 8, Ok(8)));
    drop(handler);
    answer == Ok(8) && is_told
}

// What came of a command.
const REFUSED: CommandOutcome = CommandOutcome::Refused(Refusal::UnknownOpen);

fn an_outcome_fails(alloc: Global) -> bool {
    let mut handler = Recorded::new(alloc, Failing { alloc });
    let answer = handler.command_done(3, REFUSED);
    let failure = Err(RecordError::Inner(Failed("command_done", 3)));
    let is_told = is_told(handler.calls(), Told::Done(3, REFUSED, failure));
    drop(handler);
    answer == failure && is_told
}

fn an_outcome_is_told(alloc: Global) -> bool {
    let mut handler = Recorded::new(alloc, Accepting);
    let answer = handler.command_done(3, REFUSED);
    let is_told = is_told(handler.calls(), Told::Done(3, REFUSED, Ok(())));
    drop(handler);
    answer == Ok(()) && is_told
}

#[test]
fn numbers_are_passed_on_and_told(rt: HostRuntime) {
    let alloc = rt.alloc();
    assert!(rt; a_forward_fails(alloc) && a_forward_is_refused(alloc));
    assert!(rt; a_window_fails(alloc) && a_window_stays(alloc));
    assert!(rt; an_outcome_fails(alloc) && an_outcome_is_told(alloc));
}
