// Each request of a client: how it is told, read and answered.
use super::{
    FAILURE, NO_ENCODING, OVER, Outcome, SUCCESS, comes_of_bytes, comes_to, length, with_rest,
};
use std::alloc::Global;
use std::test::*;

// A request that has a callback.
#[derive(Clone, Copy)]
struct Known {
    // Its type, and what stands behind its flag.
    name: &'static [u8],
    rest: &'static [u8],
    // How it is told, where it wants no reply and where it wants one.
    notices: [&'static [u8]; 2],
    call: &'static [u8],
    // What goes out where the callback records no answer.
    unanswered: &'static [u8],
}

static KNOWN: [Known; 13] = [
    Known {
        name: b"pty-req",
        rest: b"\
            \0\0\0\x05xterm\0\0\0\x50\0\0\0\x18\0\0\x02\x80\0\0\x01\xe0\
            \0\0\0\x0b\x01\0\0\0\x03\x35\0\0\0\x01\0",
        notices: [
            b"notice 2 RequestPty 0 787465726d 80 24 640 480 1:3,53:1\n",
            b"notice 2 RequestPty 1 787465726d 80 24 640 480 1:3,53:1\n",
        ],
        call: b"call pty_request 2 787465726d 80 24 640 480 1:3,53:1\n",
        unanswered: b"",
    },
    Known {
        name: b"x11-req",
        rest: b"\x01\0\0\0\x12MIT-MAGIC-COOKIE-1\0\0\0\x04beef\0\0\0\x07",
        notices: [
            b"notice 2 RequestX11 0 1 4d49542d4d414749432d434f4f4b49452d31 62656566 7\n",
            b"notice 2 RequestX11 1 1 4d49542d4d414749432d434f4f4b49452d31 62656566 7\n",
        ],
        call: b"call x11_request 2 1 4d49542d4d414749432d434f4f4b49452d31 62656566 7\n",
        unanswered: b"",
    },
    Known {
        name: b"x11-req",
        rest: b"\0\0\0\0\0\0\0\0\0\xff\xff\xff\xff",
        notices: [
            b"notice 2 RequestX11 0 0 - - 4294967295\n",
            b"notice 2 RequestX11 1 0 - - 4294967295\n",
        ],
        call: b"call x11_request 2 0 - - 4294967295\n",
        unanswered: b"",
    },
    Known {
        name: b"env",
        rest: b"\0\0\0\x04LANG\0\0\0\x01C",
        notices: [
            b"notice 2 SetEnv 0 4c414e47 43\n",
            b"notice 2 SetEnv 1 4c414e47 43\n",
        ],
        call: b"call env_request 2 4c414e47 43\n",
        unanswered: b"",
    },
    Known {
        name: b"shell",
        rest: b"",
        notices: [b"notice 2 RequestShell 0\n", b"notice 2 RequestShell 1\n"],
        call: b"call shell_request 2\n",
        unanswered: b"",
    },
    // A command is bytes and need not be text.
    Known {
        name: b"exec",
        rest: b"\0\0\0\x04ls \xff",
        notices: [b"notice 2 Exec 0 6c7320ff\n", b"notice 2 Exec 1 6c7320ff\n"],
        call: b"call exec_request 2 6c7320ff\n",
        unanswered: b"",
    },
    Known {
        name: b"exec",
        rest: b"\0\0\0\0",
        notices: [b"notice 2 Exec 0 -\n", b"notice 2 Exec 1 -\n"],
        call: b"call exec_request 2 -\n",
        unanswered: b"",
    },
    Known {
        name: b"subsystem",
        rest: b"\0\0\0\x04sftp",
        notices: [
            b"notice 2 RequestSubsystem 0 73667470\n",
            b"notice 2 RequestSubsystem 1 73667470\n",
        ],
        call: b"call subsystem_request 2 73667470\n",
        unanswered: b"",
    },
    Known {
        name: b"window-change",
        rest: b"\0\0\0\x84\0\0\0\x2b\0\0\x04\x20\0\0\x02\xb0",
        notices: [
            b"notice 2 WindowChange 132 43 1056 688\n",
            b"notice 2 WindowChange 132 43 1056 688\n",
        ],
        call: b"call window_change_request 2 132 43 1056 688\n",
        unanswered: b"",
    },
    Known {
        name: b"signal",
        rest: b"\0\0\0\x04TERM",
        notices: [b"notice 2 Signal 5445524d\n", b"notice 2 Signal 5445524d\n"],
        call: b"call signal 2 5445524d\n",
        unanswered: b"",
    },
    // A signal that the standard does not name.
    Known {
        name: b"signal",
        rest: b"\0\0\0\x05WINCH",
        notices: [
            b"notice 2 Signal 57494e4348\n",
            b"notice 2 Signal 57494e4348\n",
        ],
        call: b"call signal 2 57494e4348\n",
        unanswered: b"",
    },
    // The agent is granted or not by the answer of its callback alone.
    Known {
        name: b"auth-agent-req@openssh.com",
        rest: b"",
        notices: [b"notice 2 AgentForward 0\n", b"notice 2 AgentForward 1\n"],
        call: b"call agent_request 2\n",
        unanswered: FAILURE,
    },
    // A terminal without modes.
    Known {
        name: b"pty-req",
        rest: b"\0\0\0\0\0\0\0\0\0\0\0\0\0\0\0\0\0\0\0\0\0\0\0\0",
        notices: [
            b"notice 2 RequestPty 0 - 0 0 0 0 -\n",
            b"notice 2 RequestPty 1 - 0 0 0 0 -\n",
        ],
        call: b"call pty_request 2 - 0 0 0 0 -\n",
        unanswered: b"",
    },
];

// The settings, and what goes out under each for a request; none where that is its own.
static ANSWERS: [(&[u8], Option<&[u8]>); 4] = [
    (b"", Some(SUCCESS)),
    (b"answer request success\n", Some(SUCCESS)),
    (b"answer request failure\n", Some(FAILURE)),
    (b"answer request success\nanswer request silent\n", None),
];

// Whether a request is told and answered so under this setting, and without an answer where the
// peer wants none.
fn is_answered(alloc: Global, known: Known, setting: &[u8], frame: &'static [u8]) -> bool {
    let answered = Outcome {
        status: 0,
        calls: [known.call, b"", b""],
        trace: [known.notices[1], frame, OVER],
    };
    let silent = Outcome {
        trace: [known.notices[0], b"", OVER],
        ..answered
    };
    comes_to(
        alloc,
        setting,
        with_rest(known.name, 1, known.rest),
        answered,
    ) && comes_to(alloc, setting, with_rest(known.name, 0, known.rest), silent)
}

// Whether it is so under each setting.
fn is_told(alloc: Global, known: Known) -> bool {
    for (setting, frame) in &ANSWERS {
        if !is_answered(alloc, known, *setting, frame.unwrap_or(known.unanswered)) {
            return false;
        }
    }
    true
}

#[test]
fn requests_are_told_and_answered(rt: HostRuntime) {
    for known in &KNOWN {
        let is_told = is_told(rt.alloc(), *known);
        assert!(rt; is_told, "{}", known.call.escape_ascii());
    }
}

// Whether it fits no more without its last bytes, however many, or with a byte behind it.
fn fits_alone(alloc: Global, known: Known) -> bool {
    let request = with_rest(known.name, 1, known.rest);
    let whole = length(request);
    for count in 1..whole.saturating_add(2) {
        let is_misfit = comes_of_bytes(alloc, b"", request, count, NO_ENCODING);
        if is_misfit == (count == whole) {
            return false;
        }
    }
    true
}

#[test]
fn requests_that_do_not_fit_their_layout(rt: HostRuntime) {
    for known in &KNOWN {
        let fits = fits_alone(rt.alloc(), *known);
        assert!(rt; fits, "{}", known.call.escape_ascii());
    }
}

// Types and what stands behind the flag of requests that are texts, but hold bytes that are none.
static NO_TEXTS: [(&[u8], &[u8]); 6] = [
    (b"sh\xff", b""),
    (
        b"pty-req",
        b"\0\0\0\x01\xff\0\0\0\0\0\0\0\0\0\0\0\0\0\0\0\0\0\0\0\0",
    ),
    (b"x11-req", b"\0\0\0\0\0\0\0\0\x01\xff\0\0\0\0"),
    (b"env", b"\0\0\0\x01a\0\0\0\x01\xff"),
    (b"subsystem", b"\0\0\0\x01\xff"),
    (b"signal", b"\0\0\0\x01\xff"),
];

#[test]
fn requests_whose_texts_are_none(rt: HostRuntime) {
    for (name, rest) in &NO_TEXTS {
        let is_misfit = comes_to(rt.alloc(), b"", with_rest(*name, 1, *rest), NO_ENCODING);
        assert!(rt; is_misfit, "{}", name.escape_ascii());
    }
}

// Types that no callback is for, those of messages to a client among them, and what stands behind.
static UNKNOWN: [(&[u8], &[u8]); 8] = [
    (b"x", b""),
    (b"", b"\xff"),
    (b"eow@openssh.com", b"\0\0"),
    (b"Shell", b""),
    (b"shell ", b""),
    (b"exit-status", b"\0\0\0\0"),
    (b"exit-signal", b"\xff\xff\xff\xff"),
    (b"xon-xoff", b"\x01"),
];

static REFUSED: Outcome<'static> = Outcome {
    status: 0,
    calls: [b"", b"", b""],
    trace: [FAILURE, b"", OVER],
};

static NOTHING: Outcome<'static> = Outcome {
    status: 0,
    calls: [b"", b"", b""],
    trace: [b"", b"", OVER],
};

// Whether it is told to nobody, and refused where the peer wants an answer.
fn is_refused(alloc: Global, name: &[u8], rest: &[u8]) -> bool {
    comes_to(alloc, b"", with_rest(name, 1, rest), REFUSED)
        && comes_to(alloc, b"", with_rest(name, 0, rest), NOTHING)
}

#[test]
fn requests_that_are_not_known(rt: HostRuntime) {
    for (name, rest) in &UNKNOWN {
        let is_refused = is_refused(rt.alloc(), *name, *rest);
        assert!(rt; is_refused, "{}", name.escape_ascii());
    }
}
