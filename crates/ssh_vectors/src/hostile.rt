// What a peer sends that means harm, and an outside whose calls fail, in one table: how the run
// ends, and which callbacks and frames there are.
use crate::failing::{fails_at_each_call, reads_fail, writes_fail};
use ssh_scripted::{Hex, INTERACTIVE, LOGIN, LOGIN_CALLS, LOGIN_TRACE, SETTINGS, writes};
use std::alloc::Global;
use std::test::*;

// How far a connection is.
#[derive(Clone, Copy)]
enum Phase {
    // Nothing came yet.
    Connected,
    // Alice is let in.
    LoggedIn,
    // And she has the channel 2, which she calls 7.
    Open,
}

const OPEN: &[u8] = b"recv 5a0000000773657373696f6e000000070010000000008000\n";

const OPEN_CALL: &[u8] = b"call channel_open_session 2\n";

const OPEN_TRACE: &[u8] =
    b"input 3\nnotice 2 Ready 1048576 32768\nsend 2 5b00000007000000020020000000008000\n";

impl Phase {
    // The lines that lead to it.
    fn lines(self) -> [&'static [u8]; 3] {
        match self {
            Phase::Connected => [b"", b"", b""],
            Phase::LoggedIn => [SETTINGS, LOGIN, b""],
            Phase::Open => [SETTINGS, LOGIN, OPEN],
        }
    }

    // The callbacks that these lead to.
    fn calls(self) -> [&'static [u8]; 2] {
        match self {
            Phase::Connected => [b"", b""],
            Phase::LoggedIn => [LOGIN_CALLS, b""],
            Phase::Open => [LOGIN_CALLS, OPEN_CALL],
        }
    }

    // The calls of the link that they lead to.
    fn trace(self) -> [&'static [u8]; 2] {
        match self {
            Phase::Connected => [b"", b""],
            Phase::LoggedIn => [LOGIN_TRACE, b""],
            Phase::Open => [LOGIN_TRACE, OPEN_TRACE],
        }
    }
}

// What is given behind the lines of a case.
#[derive(Clone, Copy)]
enum Given {
    // Nothing.
    Nothing,
    // In turn each front of this payload that is neither empty nor whole.
    EachFront(&'static [u8]),
    // This payload, and a byte more.
    AByteMore(&'static [u8]),
}

// Inputs, and what comes of them.
#[derive(Clone, Copy)]
struct Hostile {
    shows: &'static str,
    phase: Phase,
    lines: &'static [u8],
    given: Given,
    status: u8,
    // What is written behind the callbacks of the phase, and behind the calls of its link.
    calls: &'static [u8],
    trace: &'static [u8],
}

const SERVICE: &[u8] = b"\x05\0\0\0\x0cssh-userauth";

const SESSION: &[u8] = b"\x5a\0\0\0\x07session\0\0\0\x07\0\x10\0\0\0\0\x80\0";

const TERMINAL: &[u8] = b"\x62\0\0\0\x02\0\0\0\x07pty-req\x01\0\0\0\x05xterm\0\0\0\x50\0\0\0\x18\
    \0\0\0\0\0\0\0\0\0\0\0\x06\x13\0\0\0\x05\0";

// What is written where a payload does not fit, that comes first, behind a login, and behind an
// open.
const FIRST_REFUSED: &[u8] = b"input 1\nerror Encoding\n";

const THIRD_REFUSED: &[u8] = b"input 3\nerror Encoding\n";

const FOURTH_REFUSED: &[u8] = b"input 4\nerror Encoding\n";

const QUIET: Hostile = Hostile {
    shows: "",
    phase: Phase::LoggedIn,
    lines: b"",
    given: Given::Nothing,
    status: 0,
    calls: b"",
    trace: b"",
};

static CASES: [Hostile; 16] = [
    Hostile {
        shows: "a service request that is cut",
        phase: Phase::Connected,
        given: Given::EachFront(SERVICE),
        status: 1,
        trace: FIRST_REFUSED,
        ..QUIET
    },
    Hostile {
        shows: "an open that is cut",
        given: Given::EachFront(SESSION),
        status: 1,
        trace: THIRD_REFUSED,
        ..QUIET
    },
    Hostile {
        shows: "a request for a terminal that is cut",
        phase: Phase::Open,
        given: Given::EachFront(TERMINAL),
        status: 1,
        trace: FOURTH_REFUSED,
        ..QUIET
    },
    Hostile {
        shows: "a service request with a byte more",
        phase: Phase::Connected,
        given: Given::AByteMore(SERVICE),
        status: 1,
        trace: FIRST_REFUSED,
        ..QUIET
    },
    Hostile {
        shows: "an open with a byte more",
        given: Given::AByteMore(SESSION),
        status: 1,
        trace: THIRD_REFUSED,
        ..QUIET
    },
    Hostile {
        shows: "a request for a terminal with a byte more",
        phase: Phase::Open,
        given: Given::AByteMore(TERMINAL),
        status: 1,
        trace: FOURTH_REFUSED,
        ..QUIET
    },
    Hostile {
        shows: "a confirmation of an open that nobody made",
        lines: b"recv 5b00000009000000000000000000000001\n",
        status: 1,
        trace: b"input 3\nerror Inconsistent\n",
        ..QUIET
    },
    Hostile {
        shows: "a failure of an open that nobody made does nothing",
        lines: b"recv 5c00000009000000010000000000000000\n",
        trace: b"input 3\ninput 4\nok\n",
        ..QUIET
    },
    Hostile {
        shows: "data and a request on no channel, whose rests are not read",
        lines: b"recv 5e0000000900\nrecv 6200000009000000017801ff\n",
        trace: b"input 3\ninput 4\ninput 5\nok\n",
        ..QUIET
    },
    Hostile {
        shows: "a grant without its amount, on no channel",
        lines: b"recv 5d00000009\n",
        status: 1,
        trace: THIRD_REFUSED,
        ..QUIET
    },
    Hostile {
        shows: "an unknown request with a byte more fails, and its rest is not read",
        phase: Phase::Open,
        lines: b"recv 6200000002000000017801ff\n",
        trace: b"input 4\nsend 2 6400000007\ninput 5\nok\n",
        ..QUIET
    },
    Hostile {
        shows: "more responses than a payload can hold",
        phase: Phase::Connected,
        lines: b"\
            answer interactive ask\n\
            recv 050000000c7373682d7573657261757468\n\
            recv 3200000005616c6963650000000e7373682d636f6e6e656374696f6e000000146b6579626f61\
            72642d696e7465726163746976650000000000000000\n\
            recv 3dffffffff\n",
        status: 1,
        calls: b"call authentication_banner\ncall auth_keyboard_interactive 616c696365 - none\n",
        trace: b"\
            input 1\n\
            send - 060000000c7373682d7573657261757468\n\
            input 2\n\
            send - 3c0000000000000000000000000000000100000006436f64653a2000\n\
            input 3\n\
            error Encoding\n",
        ..QUIET
    },
    Hostile {
        shows: "a second close of a channel does nothing",
        phase: Phase::Open,
        lines: b"recv 6100000002\nrecv 6100000002\n",
        calls: b"call channel_close 2\n",
        trace: b"input 4\nnotice 2 Close\nsend 2 6100000007\ninput 5\ninput 6\nok\n",
        ..QUIET
    },
    Hostile {
        shows: "a reply to no global request does nothing",
        lines: b"recv 51ffff\n",
        trace: b"input 3\ninput 4\nok\n",
        ..QUIET
    },
    Hostile {
        shows: "a message of the connection in an exchange of keys that both began",
        phase: Phase::Open,
        lines: b"tick rekey\nrecv 14\nrecv 5000\n",
        status: 1,
        trace: b"input 4\nsend - 14\ninput 5\ninput 6\nerror Inconsistent\n",
        ..QUIET
    },
    Hostile {
        shows: "a request for a service that there is not",
        phase: Phase::Connected,
        lines: b"\
            answer none accept\n\
            recv 050000000c7373682d7573657261757468\n\
            recv 3200000005616c696365000000057373682d78000000046e6f6e65\n",
        status: 1,
        calls: b"call authentication_banner\n",
        trace: b"\
            input 1\n\
            send - 060000000c7373682d7573657261757468\n\
            input 2\n\
            error Inconsistent\n",
        ..QUIET
    },
];

impl Hostile {
    // Whether this comes where so many of these pieces are received behind the lines.
    fn comes_behind(self, alloc: Global, pieces: &[&[u8]], count: usize) -> bool {
        let [settings, login, open] = self.phase.lines();
        let [login_calls, open_call] = self.phase.calls();
        let [login_trace, open_trace] = self.phase.trace();
        let received: &[u8] = if count == 0 { b"" } else { b"recv " };
        let script = [settings, login, open, self.lines, received];
        let written = [
            login_calls,
            open_call,
            self.calls,
            login_trace,
            open_trace,
            self.trace,
        ];
        writes(
            alloc,
            &script,
            &Hex { pieces, count },
            self.status,
            &written,
        )
    }

    fn holds(self, alloc: Global) -> bool {
        match self.given {
            Given::Nothing => self.comes_behind(alloc, &[], 0),
            Given::AByteMore(payload) => {
                self.comes_behind(alloc, &[payload, b"\0"], payload.len() + 1)
            }
            Given::EachFront(payload) => {
                let mut comes = true;
                for count in 1..payload.len() {
                    comes = comes && self.comes_behind(alloc, &[payload], count);
                }
                comes
            }
        }
    }
}

#[test]
fn hostile_inputs(rt: HostRuntime) {
    for case in &CASES {
        assert!(rt; case.holds(rt.alloc()), "{}", case.shows);
    }
    assert!(rt;
        fails_at_each_call(rt.alloc(), &INTERACTIVE),
        "a link fails"
    );
    assert!(rt; reads_fail(rt.alloc(), &INTERACTIVE), "a source fails");
    assert!(rt; writes_fail(rt.alloc(), &INTERACTIVE), "a sink fails");
}
