// Scripts, row by row.
use crate::playing::{End, are_sent, is_written, link, policy, run, targets};
use ssh_gateway::TargetCall;
use ssh_wire::WireError;
use std::alloc::Global;
use std::test::*;

// CHANNEL_OPEN of direct-tcpip by the peer's number 7, with a window of 4096 and packets of 32768
// bytes, to "10.0.0.1" port 80, from no address; and the same with a window of 3.
const OPEN: &[u8] =
    b"\x5a\0\0\0\x0cdirect-tcpip\0\0\0\x07\0\0\x10\0\0\0\x80\0\0\0\0\x0810.0.0.1\0\0\0\x50\0\0\0\0\0\0\0\0";

const OPEN_SMALL: &[u8] =
    b"\x5a\0\0\0\x0cdirect-tcpip\0\0\0\x07\0\0\0\x03\0\0\x80\0\0\0\0\x0810.0.0.1\0\0\0\x50\0\0\0\0\0\0\0\0";

// CHANNEL_OPEN_CONFIRMATION of this side's number 2.
const CONFIRMED: &[u8] = b"\x5b\0\0\0\x07\0\0\0\x02\0\x20\0\0\0\0\x80\0";

// CHANNEL_OPEN_FAILURE, by the policy and for want of a connection.
const PROHIBITED: &[u8] =
    b"\x5c\0\0\0\x07\0\0\0\x01\0\0\0\x1badministratively prohibited\0\0\0\x02en";

const UNREACHABLE: &[u8] = b"\x5c\0\0\0\x07\0\0\0\x02\0\0\0\x0econnect failed\0\0\0\x02en";

// CHANNEL_DATA "ok", CHANNEL_EOF and CHANNEL_CLOSE to the peer, and CHANNEL_DATA "hi", CHANNEL_EOF
// and CHANNEL_CLOSE from it.
const OK: &[u8] = b"\x5e\0\0\0\x07\0\0\0\x02ok";

const EOF: &[u8] = b"\x60\0\0\0\x07";

const CLOSE: &[u8] = b"\x61\0\0\0\x07";

const HI: &[u8] = b"\x5e\0\0\0\x02\0\0\0\x02hi";

const THEIR_EOF: &[u8] = b"\x60\0\0\0\x02";

const THEIR_CLOSE: &[u8] = b"\x61\0\0\0\x02";

// CHANNEL_REQUEST of a shell that wants a reply, and CHANNEL_FAILURE.
const SHELL: &[u8] = b"\x62\0\0\0\x02\0\0\0\x05shell\x01";

const FAILURE: &[u8] = b"\x64\0\0\0\x07";

// What comes from the peer behind its login, whether the host is allowed, what it gives where it can
// be reached, which call of the targets fails; and what goes to the peer, what is written to the
// host, how many calls of the targets there are, and how it ends.
struct Row {
    shows: &'static str,
    payloads: &'static [&'static [u8]],
    allows: bool,
    gives: Option<&'static [u8]>,
    fails: Option<u64>,
    frames: &'static [&'static [u8]],
    written: &'static [u8],
    calls: usize,
    turns: u64,
    end: End,
}

const PLAIN: Row = Row {
    shows: "",
    payloads: &[],
    allows: true,
    gives: Some(b"ok"),
    fails: None,
    frames: &[],
    written: b"",
    calls: 0,
    turns: 100,
    end: End::Over,
};

static ROWS: [Row; 9] = [
    Row {
        shows: "what the policy does not allow is prohibited, and no target is asked",
        payloads: &[OPEN],
        allows: false,
        frames: &[PROHIBITED],
        ..PLAIN
    },
    Row {
        shows: "what the target gives goes to the peer, with its end, and the peer's data to it",
        payloads: &[OPEN, HI],
        frames: &[CONFIRMED, OK, EOF],
        written: b"hi",
        calls: 4,
        ..PLAIN
    },
    Row {
        shows: "a host that cannot be reached",
        payloads: &[OPEN],
        gives: None,
        frames: &[UNREACHABLE],
        calls: 1,
        ..PLAIN
    },
    Row {
        shows: "both directions end, and the channel is closed",
        payloads: &[OPEN, HI, THEIR_EOF],
        frames: &[CONFIRMED, OK, EOF, CLOSE],
        written: b"hi",
        calls: 6,
        ..PLAIN
    },
    Row {
        shows: "the peer closes",
        payloads: &[OPEN, THEIR_CLOSE, HI],
        frames: &[CONFIRMED, OK, EOF, CLOSE],
        calls: 4,
        ..PLAIN
    },
    Row {
        shows: "requests fail",
        payloads: &[OPEN, SHELL],
        frames: &[CONFIRMED, OK, EOF, FAILURE],
        calls: 3,
        ..PLAIN
    },
    Row {
        shows: "a write that fails",
        payloads: &[OPEN, HI, HI],
        fails: Some(4),
        frames: &[CONFIRMED, OK, EOF],
        calls: 4,
        end: End::TargetFault,
        ..PLAIN
    },
    Row {
        shows: "as many turns as are allowed",
        payloads: &[OPEN, HI],
        frames: &[CONFIRMED],
        calls: 1,
        turns: 4,
        end: End::Limit,
        ..PLAIN
    },
    // Six bytes for a window of three: three wait as keys are exchanged, KEXINIT and NEWKEYS from
    // the peer, and go out behind its WINDOW_ADJUST of five.
    Row {
        shows: "keys are exchanged while data wait",
        payloads: &[OPEN_SMALL, b"\x14", b"\x15", b"\x5d\0\0\0\x02\0\0\0\x05"],
        gives: Some(b"abcdef"),
        frames: &[
            CONFIRMED,
            b"\x5e\0\0\0\x07\0\0\0\x03abc",
            b"\x14",
            b"\x15",
            b"\x5e\0\0\0\x07\0\0\0\x03def",
            EOF,
        ],
        calls: 3,
        ..PLAIN
    },
];

impl Row {
    fn goes_so(&self, alloc: Global) -> Result<bool, WireError> {
        let mut link = link(alloc, self.payloads)?;
        let policy = policy(alloc, self.allows)?;
        let mut targets = targets(alloc, self.gives, self.fails)?;
        let end = run(alloc, &mut link, &policy, &mut targets, self.turns);
        let calls: &[TargetCall] = targets.calls();
        Ok(
            end == self.end
                && are_sent(&link, self.frames)
                && is_written(calls, 1, self.written)
                && calls.len() == self.calls,
        )
    }
}

#[test]
fn gateways_go_row_by_row(rt: HostRuntime) {
    for row in &ROWS {
        assert!(rt; row.goes_so(rt.alloc()) == Ok(true), "{}", row.shows);
    }
}
