// Clients that drive a session: what goes out by their moves.
use bytes::Bytes;
use ssh_drive::{Move, drive, serve_payloads};
use ssh_handler::Config;
use ssh_keys::TableVerifier;
use ssh_link::{Calls, CommandOutcome, Inputs, MemoryLink, PlainKex};
use ssh_session::Flow;
use ssh_stories::Line::{Applies, Flushes, HandsOn, In, On};
use ssh_stories::{
    Answering, Line, OPEN_SMALL, PASSWORD, QUIET, SERVICE, SMALL, SMALL_CONFIRMED, Turn, Wish,
    are_sent, command,
};
use ssh_wire::{ChannelId, WireError};
use std::alloc::Global;
use std::test::*;

const HELLO: Line<'static> = Applies(Wish::Data(2, b"hello"), CommandOutcome::Accepted);

const FIRST: Line<'static> = On(2, b"\x5e\0\0\0\x2c\0\0\0\x03hel");

// The peer grants two bytes more than the three of the open.
const GRANT: Line<'static> = In(b"\x5d\0\0\0\x02\0\0\0\x02");

const REST: Line<'static> = On(2, b"\x5e\0\0\0\x2c\0\0\0\x02lo");

// What a client does behind a login, and the frames that go out for that.
#[derive(Clone, Copy)]
struct Row {
    shows: &'static str,
    lines: Turn,
}

static MOVES: [Row; 4] = [
    Row {
        shows: "data are written by a command, and do not go out with it",
        lines: &[OPEN_SMALL, SMALL_CONFIRMED, HELLO],
    },
    Row {
        shows: "handed on, they go out as far as the window goes",
        lines: &[OPEN_SMALL, SMALL_CONFIRMED, HELLO, HandsOn, FIRST],
    },
    Row {
        shows: "a channel lets out nothing beyond the window, and what it wrote before is kept",
        lines: &[
            OPEN_SMALL,
            SMALL_CONFIRMED,
            HELLO,
            Flushes(2, 0),
            HandsOn,
            FIRST,
        ],
    },
    Row {
        shows: "and the rest with the peer's grant",
        lines: &[
            OPEN_SMALL,
            SMALL_CONFIRMED,
            HELLO,
            HandsOn,
            FIRST,
            GRANT,
            REST,
            HandsOn,
        ],
    },
];

fn payload(alloc: Global, payload: &[u8]) -> Result<Move, WireError> {
    Ok(Move::Payload(Bytes::copy_from_slice(alloc, payload)?))
}

// The move of this line; none where it says what goes out.
fn next(alloc: Global, line: Line<'_>) -> Result<Option<Move>, WireError> {
    Ok(Some(match line {
        In(bytes) => payload(alloc, bytes)?,
        Applies(wish, _) => Move::Say(command(alloc, wish)?),
        Flushes(channel, _) => Move::LetOut(ChannelId(channel)),
        HandsOn => Move::HandOn,
        _ => return Ok(None),
    }))
}

fn push<T: Drop>(list: &mut Vec<T>, next: T) -> Result<(), WireError> {
    Ok(list.push(next)?)
}

// The moves of these lines.
fn push_moves(alloc: Global, lines: &[Line<'_>], moves: &mut Vec<Move>) -> Result<(), WireError> {
    for line in lines {
        match next(alloc, *line)? {
            Some(next) => push(moves, next)?,
            None => {}
        }
    }
    Ok(())
}

// Whether all moves are made.
fn drives(alloc: Global, link: &mut MemoryLink, moves: Vec<Move>) -> bool {
    let mut handler = Answering::new(alloc, QUIET);
    let mut kex = PlainKex::new(alloc, false);
    let verifier = TableVerifier::new(alloc);
    let config = Config::standard();
    let (own, line) = (&mut handler, b"SSH-2.0-test");
    let result = drive(
        alloc, &config, b"", line, own, &verifier, &mut kex, link, 0, moves,
    );
    let goes_on = matches!(result, Ok(Flow::Continue));
    drop(result);
    drop(handler);
    goes_on
}

// Whether all payloads are served.
fn serves(alloc: Global, link: &mut MemoryLink, payloads: Vec<Bytes>) -> bool {
    let mut handler = Answering::new(alloc, QUIET);
    let mut kex = PlainKex::new(alloc, false);
    let verifier = TableVerifier::new(alloc);
    let config = Config::standard();
    let (own, line) = (&mut handler, b"SSH-2.0-test");
    let result = serve_payloads(
        alloc, &config, b"", line, own, &verifier, &mut kex, link, 0, payloads,
    );
    let goes_on = matches!(result, Ok(Flow::Continue));
    drop(result);
    drop(handler);
    goes_on
}

// The lines of the login.
static LOGIN: Turn = &[In(SERVICE), In(PASSWORD)];

// Whether the moves of these lines are made behind a login, and these frames go out behind the two
// answers to it.
fn move_so(alloc: Global, link: &mut MemoryLink, lines: &[Line<'_>]) -> bool {
    let mut moves = Vec::new(alloc);
    let login = push_moves(alloc, LOGIN, &mut moves);
    let rest = push_moves(alloc, lines, &mut moves);
    drives(alloc, link, moves) && are_sent(link, 2, lines) && login.and(rest) == Ok(())
}

fn moves_hold(alloc: Global, lines: &[Line<'_>]) -> bool {
    match MemoryLink::new(alloc, Inputs::new(alloc), Calls::new(alloc)) {
        Ok(mut link) => move_so(alloc, &mut link, lines),
        Err(_) => false,
    }
}

#[test]
fn moves_send(rt: HostRuntime) {
    for row in &MOVES {
        assert!(rt; moves_hold(rt.alloc(), row.lines), "{}", row.shows);
    }
}

fn push_payloads(alloc: Global, payloads: &mut Vec<Bytes>) -> Result<(), WireError> {
    push(payloads, Bytes::copy_from_slice(alloc, SERVICE)?)?;
    push(payloads, Bytes::copy_from_slice(alloc, PASSWORD)?)?;
    push(payloads, Bytes::copy_from_slice(alloc, SMALL)?)
}

// Whether the login and an open are served, and the open is confirmed.
fn serve_so(alloc: Global, link: &mut MemoryLink) -> bool {
    let mut payloads = Vec::new(alloc);
    let are_pushed = push_payloads(alloc, &mut payloads) == Ok(());
    serves(alloc, link, payloads) && are_sent(link, 2, &[SMALL_CONFIRMED]) && are_pushed
}

fn payloads_hold(alloc: Global) -> bool {
    match MemoryLink::new(alloc, Inputs::new(alloc), Calls::new(alloc)) {
        Ok(mut link) => serve_so(alloc, &mut link),
        Err(_) => false,
    }
}

#[test]
fn payloads_are_served(rt: HostRuntime) {
    assert!(rt; payloads_hold(rt.alloc()));
}
