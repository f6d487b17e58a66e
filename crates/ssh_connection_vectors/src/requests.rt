// Requests on a channel (RFC 4254 sections 5.4 and 6): scripts, and what the program writes.
mod elsewhere;
mod known;
mod modes;
mod programs;
mod replies;

use ssh_scripted::{Hex, LOGIN, LOGIN_CALLS, LOGIN_TRACE, SETTINGS, writes};
use std::alloc::Global;

// The peer opens a session under its number 7.
const OPEN: &[u8] = b"recv 5a0000000773657373696f6e000000070010000000008000\nrecv ";

const OPEN_CALL: &[u8] = b"call channel_open_session 2\n";

const OPEN_TRACE: &[u8] = b"\
    input 3\n\
    notice 2 Ready 1048576 32768\n\
    send 2 5b00000007000000020020000000008000\n\
    input 4\n";

// The replies to a request, the end of a run that goes on behind it, and of one that it ends.
const SUCCESS: &[u8] = b"send 2 6300000007\n";

const FAILURE: &[u8] = b"send 2 6400000007\n";

const OVER: &[u8] = b"input 5\nok\n";

// A request on channel 2: its type, its flag, and what stands behind the flag, in three pieces.
#[derive(Clone, Copy)]
struct Request<'a> {
    name: &'a [u8],
    flag: u8,
    rest: [&'a [u8]; 3],
}

// One with this behind its flag.
fn with_rest<'a>(name: &'a [u8], flag: u8, rest: &'a [u8]) -> Request<'a> {
    Request {
        name,
        flag,
        rest: [rest, b"", b""],
    }
}

// How many bytes it has.
fn length(request: Request<'_>) -> usize {
    let mut length = request.name.len().saturating_add(10);
    for piece in &request.rest {
        length = length.saturating_add(piece.len());
    }
    length
}

// What comes of a payload: the exit status, the callbacks, and what the trace has for it, each in
// pieces.
#[derive(Clone, Copy)]
struct Outcome<'a> {
    status: u8,
    calls: [&'a [u8]; 3],
    trace: [&'a [u8]; 3],
}

// Whether this comes of so many bytes of the request and a byte behind it, behind the login and the
// open, under this setting.
fn comes_of_bytes(
    alloc: Global,
    setting: &[u8],
    request: Request<'_>,
    count: usize,
    wanted: Outcome<'_>,
) -> bool {
    let length = u32::try_from(request.name.len()).unwrap_or(0).to_be_bytes();
    let flag = [request.flag];
    let (name, [one, two, three]) = (request.name, request.rest);
    let channel = b"\x62\0\0\0\x02";
    let pieces: [&[u8]; 8] = [channel, &length, name, &flag, one, two, three, b"\0"];
    let hex = Hex {
        pieces: &pieces,
        count,
    };
    let script = [setting, SETTINGS, LOGIN, OPEN];
    let ([a, b, c], [d, e, f]) = (wanted.calls, wanted.trace);
    let written = [
        LOGIN_CALLS,
        OPEN_CALL,
        a,
        b,
        c,
        LOGIN_TRACE,
        OPEN_TRACE,
        d,
        e,
        f,
    ];
    writes(alloc, &script, &hex, wanted.status, &written)
}

// Whether this comes of the request.
fn comes_to(alloc: Global, setting: &[u8], request: Request<'_>, wanted: Outcome<'_>) -> bool {
    comes_of_bytes(alloc, setting, request, length(request), wanted)
}

// Nothing but the end of the run.
static NO_ENCODING: Outcome<'static> = Outcome {
    status: 1,
    calls: [b"", b"", b""],
    trace: [b"error Encoding\n", b"", b""],
};

static INCONSISTENT: Outcome<'static> = Outcome {
    status: 1,
    calls: [b"", b"", b""],
    trace: [b"error Inconsistent\n", b"", b""],
};
