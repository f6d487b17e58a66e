// Scripts with an exchange of keys, and what the program writes.
use ssh_scripted::{Case, Row};
use std::test::*;

static BEFORE_LOGIN: [Case; 2] = [
    Case {
        shows: "before the login a tick begins no exchange, and a message of one does nothing",
        script: b"tick rekey\nrecv 16\nrecv 15\n",
        status: 0,
        written: b"input 1\ninput 2\ninput 3\ninput 4\nok\n",
    },
    Case {
        shows: "the peer begins one at any time, and no message of a service comes in it",
        script: b"recv 14\nrecv 050000000c7373682d7573657261757468\n\
            recv 3200000005616c6963650000000e7373682d636f6e6e656374696f6e000000046e6f6e65\n",
        status: 1,
        written: b"\
            call authentication_banner\n\
            input 1\n\
            send - 14\n\
            input 2\n\
            input 3\n\
            error Inconsistent\n",
    },
];

#[test]
fn exchanges_before_a_login(rt: HostRuntime) {
    for case in &BEFORE_LOGIN {
        assert!(rt; case.holds(rt.alloc()), "{}", case.shows);
    }
}

static BEHIND_LOGIN: [Row; 5] = [
    Row {
        shows: "an exchange is due once a user is let in and so much was sent, and not again",
        settings: b"config rekey-write 17\n",
        inputs: b"recv 14\nrecv 15\n",
        status: 0,
        calls: b"",
        trace: b"send - 14\ninput 3\ninput 4\nsend - 15\ninput 5\nok\n",
    },
    Row {
        shows: "the bytes of the input that ends an exchange do not count any more",
        settings: b"config rekey-read 60\n",
        inputs: b"recv 02\nrecv 14\nrecv 15\n",
        status: 0,
        calls: b"",
        trace: b"input 3\ninput 4\nsend - 14\ninput 5\nsend - 15\ninput 6\nok\n",
    },
    Row {
        shows: "an exchange refuses a message that is none of its own, and outside one that does \
            nothing",
        settings: b"",
        inputs: b"recv 16\ntick rekey\nrecv 16\n",
        status: 1,
        calls: b"",
        trace: b"input 3\ninput 4\nsend - 14\ninput 5\nerror Kex\n",
    },
    Row {
        shows: "the peer begins an exchange, and a second begins behind the first",
        settings: b"",
        inputs: b"recv 14\nrecv 15\nrecv 14\nrecv 15\ntick rekey\ntick rekey\n",
        status: 0,
        calls: b"",
        trace: b"\
            input 3\nsend - 14\n\
            input 4\nsend - 15\n\
            input 5\nsend - 14\n\
            input 6\nsend - 15\n\
            input 7\nsend - 14\n\
            input 8\n\
            input 9\nok\n",
    },
    Row {
        shows: "a keepalive is held in an exchange, and goes out behind its last message",
        settings: b"",
        inputs: b"tick rekey\ntick keepalive\nrecv 14\nrecv 15\n",
        status: 0,
        calls: b"",
        trace: b"\
            input 3\nsend - 14\n\
            input 4\n\
            input 5\n\
            input 6\nsend - 15\n\
            send - 50000000156b656570616c697665406f70656e7373682e636f6d01\n\
            input 7\nok\n",
    },
];

#[test]
fn exchanges_behind_a_login(rt: HostRuntime) {
    for row in &BEHIND_LOGIN {
        assert!(rt; row.holds(rt.alloc()), "{}", row.shows);
    }
}

static ON_A_CHANNEL: [Row; 6] = [
    Row {
        shows: "data wait in an exchange, and go out behind its last message",
        settings: b"answer data echo\n",
        inputs: b"\
            recv 5a0000000773657373696f6e000000070010000000008000\n\
            tick rekey\n\
            recv 5e000000020000000161\n\
            recv 14\n\
            recv 15\n",
        status: 0,
        calls: b"call channel_open_session 2\ncall data 2 61\n",
        trace: b"\
            input 3\n\
            notice 2 Ready 1048576 32768\n\
            send 2 5b00000007000000020020000000008000\n\
            input 4\nsend - 14\n\
            input 5\nnotice 2 Data 61\n\
            input 6\n\
            input 7\nsend - 15\nsend 2 5e000000070000000161\n\
            input 8\nok\n",
    },
    Row {
        shows: "behind the peer's KEXINIT no data come",
        settings: b"answer data echo\n",
        inputs: b"\
            recv 5a0000000773657373696f6e000000070010000000008000\n\
            tick rekey\n\
            recv 5e000000020000000161\n\
            recv 14\n\
            recv 5e000000020000000161\n",
        status: 1,
        calls: b"call channel_open_session 2\ncall data 2 61\n",
        trace: b"\
            input 3\n\
            notice 2 Ready 1048576 32768\n\
            send 2 5b00000007000000020020000000008000\n\
            input 4\nsend - 14\n\
            input 5\nnotice 2 Data 61\n\
            input 6\n\
            input 7\nerror Inconsistent\n",
    },
    Row {
        shows: "nor does a global request",
        settings: b"",
        inputs: b"tick rekey\nrecv 14\nrecv 5000\n",
        status: 1,
        calls: b"",
        trace: b"input 3\nsend - 14\ninput 4\ninput 5\nerror Inconsistent\n",
    },
    Row {
        shows: "before the peer's KEXINIT no more come than twice the window",
        settings: b"config window 8\n",
        inputs: b"\
            recv 5a0000000773657373696f6e000000070010000000008000\n\
            tick rekey\n\
            recv 5e000000020000000161\n\
            recv 5e000000020000000161\n",
        status: 1,
        calls: b"call channel_open_session 2\ncall data 2 61\n",
        trace: b"\
            input 3\n\
            notice 2 Ready 1048576 32768\n\
            send 2 5b00000007000000020000000800008000\n\
            input 4\nsend - 14\n\
            input 5\nnotice 2 Data 61\n\
            input 6\nerror Pending\n",
    },
    Row {
        shows: "a grant first lets out what waits, whose frame is held",
        settings: b"answer data echo\n",
        inputs: b"\
            recv 5a0000000773657373696f6e00000007ffffffff00008000\n\
            tick rekey\n\
            recv 5e000000020000000568656c6c6f\n\
            recv 5d0000000200000005\n\
            recv 14\n\
            recv 15\n",
        status: 0,
        calls: b"\
            call channel_open_session 2\n\
            call data 2 68656c6c6f\n\
            call window_adjusted 2 4294967295\n",
        trace: b"\
            input 3\n\
            notice 2 Ready 4294967295 32768\n\
            send 2 5b00000007000000020020000000008000\n\
            input 4\nsend - 14\n\
            input 5\nnotice 2 Data 68656c6c6f\n\
            input 6\nnotice 2 Granted 5\nnotice 2 WindowAdjusted 4294967295\n\
            input 7\n\
            input 8\nsend - 15\nsend 2 5e000000070000000568656c6c6f\n\
            input 9\nok\n",
    },
    Row {
        shows: "a command is set aside while keys are exchanged",
        settings: b"",
        inputs: b"\
            recv 5a0000000773657373696f6e000000070010000000008000\n\
            tick rekey\n\
            data 2 61\n\
            recv 14\n\
            recv 15\n",
        status: 0,
        calls: b"call channel_open_session 2\n",
        trace: b"\
            input 3\n\
            notice 2 Ready 1048576 32768\n\
            send 2 5b00000007000000020020000000008000\n\
            input 4\nsend - 14\n\
            input 5\n\
            input 6\nsend - 15\n\
            input 7\ndone 1 accepted\nsend 2 5e000000070000000161\n\
            input 8\nok\n",
    },
];

#[test]
fn exchanges_beside_a_channel(rt: HostRuntime) {
    for row in &ON_A_CHANNEL {
        assert!(rt; row.holds(rt.alloc()), "{}", row.shows);
    }
}
