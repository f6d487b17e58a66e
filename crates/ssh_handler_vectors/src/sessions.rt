// A handler that serves sessions alone writes one open, and the user's name may be lent to it.
use crate::events::{CHANNEL, Event, lent};
use crate::failing::Failed;
use crate::lender::Lender;
use ssh_auth::{AuthHandler, Unwritten};
use ssh_handler::{Commands, Handler, ask};
use ssh_link::{ChannelOpenHandle, Command, OpenAnswer};
use ssh_wire::{ChannelId, WireError};
use std::alloc::Global;
use std::test::*;

#[derive(Drop)]
struct Sessions;

impl AuthHandler for Sessions {
    type Error = Failed;

    fn untold(&mut self, _by: Unwritten) -> Result<(), Failed> {
        Ok(())
    }
}

impl Handler for Sessions {
    fn channel_open_session(
        &mut self,
        _channel: ChannelId,
        reply: ChannelOpenHandle,
        session: &mut Commands<'_>,
    ) -> Result<(), Failed> {
        session
            .answer_open(reply.accept())
            .or(Err(Failed("answer_open", 0)))
    }
}

// Whether this is the one command.
fn is_answer(commands: &[Command], answer: OpenAnswer) -> bool {
    let wanted = Command::Answer(answer);
    let is_so = matches!(commands, [command] if *command == wanted);
    drop(wanted);
    is_so
}

fn answer(accepts: bool) -> OpenAnswer {
    let reply = ChannelOpenHandle::new(CHANNEL);
    if accepts {
        reply.accept()
    } else {
        reply.reject_default()
    }
}

// Whether the open is accepted or refused.
fn answers(alloc: Global, open: Event, accepts: bool) -> Result<bool, WireError> {
    let lent = lent(alloc, open)?;
    let lender = Lender::new(alloc);
    let mut session = lender.lend();
    let asked = ask(&mut Sessions, lent, &mut session);
    let is_answered = is_answer(session.recorded(), answer(accepts));
    drop(session);
    drop(lender);
    Ok(asked == Ok(()) && is_answered)
}

static OPENS: [(Event, bool, &str); 5] = [
    (Event::Session, true, "a session"),
    (Event::X11, false, "a connection to an X server"),
    (Event::DirectTcpip, false, "a connection to a host"),
    (
        Event::ForwardedTcpip,
        false,
        "a connection to a forwarded port",
    ),
    (Event::DirectStreamlocal, false, "a connection to a socket"),
];

#[test]
fn opens_that_are_not_written_are_refused(rt: HostRuntime) {
    for (open, accepts, shows) in &OPENS {
        assert!(rt; answers(rt.alloc(), *open, *accepts) == Ok(true), "{shows}");
    }
}

fn user_is_lent(alloc: Global) -> bool {
    let lender = Lender::new(alloc);
    let nobody = lender.lend();
    let alice = lender.lend_to("alice");
    let is_lent = nobody.user().is_none() && alice.user() == Some("alice");
    drop(nobody);
    drop(alice);
    drop(lender);
    is_lent
}

#[test]
fn the_user_is_lent_by_name(rt: HostRuntime) {
    assert!(rt; user_is_lent(rt.alloc()));
}
