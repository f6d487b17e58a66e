// Each command is recorded, behind the others.
use super::lending::Lender;
use ssh_handler::Commands;
use ssh_link::Command;
use ssh_stories::{Wish, command, record};
use ssh_wire::Disconnect;
use std::alloc::Global;
use std::test::*;

static WISHES: [Wish; 25] = [
    Wish::Data(2, b"abc"),
    Wish::ExtendedData(2, 1, b"abc"),
    Wish::Eof(2),
    Wish::Close(2),
    Wish::ChannelSuccess(2),
    Wish::ChannelFailure(2),
    Wish::FlowControl(2, true),
    Wish::Status(2, 3),
    Wish::Signalled(2, false, "hung up", "en"),
    Wish::Signalled(2, true, "out of memory", "en"),
    Wish::OpenSession,
    Wish::OpenAgent,
    Wish::OpenDirectTcpip("there", 80, "here", 1024),
    Wish::OpenForwardedTcpip("there", 80, "here", 1024),
    Wish::OpenDirectStreamlocal("/run/there"),
    Wish::OpenForwardedStreamlocal("/run/here"),
    Wish::OpenX11("here", 6000),
    Wish::Forward("here", 0, Some(7)),
    Wish::Cancel("here", 22, None),
    Wish::Keepalive,
    Wish::Ping(7),
    Wish::Success,
    Wish::Failure,
    Wish::Debug(true, "soon", "en"),
    Wish::Disconnect(Disconnect::ByApplication, "done", "en"),
];

// Whether there are this many commands, the last of which is this one.
fn is_last(alloc: Global, commands: &[Command], count: usize, wish: Wish) -> bool {
    match command(alloc, wish) {
        Ok(expected) => {
            let is_last = commands.get(count.saturating_sub(1)) == Some(&expected);
            drop(expected);
            is_last && commands.len() == count
        }
        Err(_) => false,
    }
}

// Whether a session records each of these in its place.
fn are_recorded(alloc: Global, session: &mut Commands<'_>, wishes: &[Wish]) -> bool {
    let mut count: usize = 0;
    for wish in wishes {
        count = count.saturating_add(1);
        let is_recorded = record(alloc, *wish, session).is_ok();
        if !is_recorded || !is_last(alloc, session.recorded(), count, *wish) {
            return false;
        }
    }
    true
}

fn lends(alloc: Global) -> bool {
    let lender = Lender::new(alloc);
    let mut session = lender.lend();
    let are_recorded = are_recorded(alloc, &mut session, &WISHES);
    drop(session);
    drop(lender);
    are_recorded
}

#[test]
fn each_command_is_recorded(rt: HostRuntime) {
    assert!(rt; lends(rt.alloc()));
}
