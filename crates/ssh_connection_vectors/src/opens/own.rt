// Channels that this side opens: what the peer answers (RFC 4254 section 5.1).
use ssh_scripted::{Case, Row};
use std::test::*;

static OPENS: [Row; 16] = [
    Row {
        shows: "an open has the next number and what a channel takes",
        settings: b"",
        inputs: b"open session\n",
        status: 0,
        calls: b"",
        trace: b"\
            input 3\n\
            done 1 opened 2\n\
            send 2 5a0000000773657373696f6e000000020020000000008000\n\
            input 4\n\
            ok\n",
    },
    Row {
        shows: "a confirmation is told once; nothing waits for a second one",
        settings: b"",
        inputs: b"\
            open session\n\
            recv 5b00000002000000050000040000000100\n\
            recv 5b00000002000000050000040000000100\n",
        status: 1,
        calls: b"call channel_open_confirmation 2 256 1024\n",
        trace: b"\
            input 3\n\
            done 1 opened 2\n\
            send 2 5a0000000773657373696f6e000000020020000000008000\n\
            input 4\n\
            notice 2 Ready 1024 256\n\
            notice 2 Open 2 256 1024\n\
            input 5\n\
            error Inconsistent\n",
    },
    Row {
        shows: "a confirmation alone, and the run goes on",
        settings: b"",
        inputs: b"\
            open session\n\
            recv 5b00000002000000050000040000000100\n",
        status: 0,
        calls: b"call channel_open_confirmation 2 256 1024\n",
        trace: b"\
            input 3\n\
            done 1 opened 2\n\
            send 2 5a0000000773657373696f6e000000020020000000008000\n\
            input 4\n\
            notice 2 Ready 1024 256\n\
            notice 2 Open 2 256 1024\n\
            input 5\n\
            ok\n",
    },
    Row {
        shows: "a failure with a byte too many, where the open waits",
        settings: b"",
        inputs: b"\
            open session\n\
            recv 5c0000000200000001000000000000000000\n",
        status: 1,
        calls: b"",
        trace: b"\
            input 3\n\
            done 1 opened 2\n\
            send 2 5a0000000773657373696f6e000000020020000000008000\n\
            input 4\n\
            error Encoding\n",
    },
    Row {
        shows: "a failure with a byte too many, where the channel is open",
        settings: b"",
        inputs: b"\
            open session\n\
            recv 5b00000002000000050000040000000100\n\
            recv 5c0000000200000001000000000000000000\n",
        status: 1,
        calls: b"call channel_open_confirmation 2 256 1024\n",
        trace: b"\
            input 3\n\
            done 1 opened 2\n\
            send 2 5a0000000773657373696f6e000000020020000000008000\n\
            input 4\n\
            notice 2 Ready 1024 256\n\
            notice 2 Open 2 256 1024\n\
            input 5\n\
            error Encoding\n",
    },
    Row {
        shows: "no failure comes for a channel that is open",
        settings: b"",
        inputs: b"\
            open session\n\
            recv 5b00000002000000050000040000000100\n\
            recv 5c00000002000000010000000000000000\n",
        status: 1,
        calls: b"call channel_open_confirmation 2 256 1024\n",
        trace: b"\
            input 3\n\
            done 1 opened 2\n\
            send 2 5a0000000773657373696f6e000000020020000000008000\n\
            input 4\n\
            notice 2 Ready 1024 256\n\
            notice 2 Open 2 256 1024\n\
            input 5\n\
            error Inconsistent\n",
    },
    Row {
        shows: "after a failure the channel is gone, and its number is not drawn again",
        settings: b"",
        inputs: b"\
            open session\n\
            recv 5c00000002000000010000000000000000\n\
            data 2 61\n\
            recv 5c00000002000000010000000000000000\n\
            open session\n",
        status: 0,
        calls: b"",
        trace: b"\
            input 3\n\
            done 1 opened 2\n\
            send 2 5a0000000773657373696f6e000000020020000000008000\n\
            input 4\n\
            notice 2 OpenFailure 1\n\
            input 5\n\
            done 2 refused UnknownChannel\n\
            input 6\n\
            input 7\n\
            done 3 opened 3\n\
            send 3 5a0000000773657373696f6e000000030020000000008000\n\
            input 8\n\
            ok\n",
    },
    Row {
        shows: "a failure is told by its code, and as 1 where no reason has its code",
        settings: b"",
        inputs: b"\
            open session\n\
            open session\n\
            open session\n\
            open session\n\
            open session\n\
            recv 5c0000000200000002000000086e6f20726f75746500000002656e\n\
            recv 5c00000003000000030000000000000000\n\
            recv 5c00000004000000040000000466756c6c00000002656e\n\
            recv 5c00000005000000000000000000000000\n\
            recv 5c000000060000000900000005746972656400000002656e\n",
        status: 0,
        calls: b"",
        trace: b"\
            input 3\n\
            done 1 opened 2\n\
            send 2 5a0000000773657373696f6e000000020020000000008000\n\
            input 4\n\
            done 2 opened 3\n\
            send 3 5a0000000773657373696f6e000000030020000000008000\n\
            input 5\n\
            done 3 opened 4\n\
            send 4 5a0000000773657373696f6e000000040020000000008000\n\
            input 6\n\
            done 4 opened 5\n\
            send 5 5a0000000773657373696f6e000000050020000000008000\n\
            input 7\n\
            done 5 opened 6\n\
            send 6 5a0000000773657373696f6e000000060020000000008000\n\
            input 8\n\
            notice 2 OpenFailure 2\n\
            input 9\n\
            notice 3 OpenFailure 3\n\
            input 10\n\
            notice 4 OpenFailure 4\n\
            input 11\n\
            notice 5 OpenFailure 1\n\
            input 12\n\
            notice 6 OpenFailure 1\n\
            input 13\n\
            ok\n",
    },
    Row {
        shows: "until the peer answers nothing is sent on the channel, and nothing comes in on it",
        settings: b"",
        inputs: b"\
            open session\n\
            data 2 61\n\
            ext 2 1 61\n\
            eof 2\n\
            close 2\n\
            recv 5d0000000200000005\n\
            recv 5e000000020000000161\n\
            recv 5f00000002000000010000000161\n\
            recv 6000000002\n\
            recv 6100000002\n\
            recv 5b00000002000000050000040000000100\n",
        status: 0,
        calls: b"call channel_open_confirmation 2 256 1024\n",
        trace: b"\
            input 3\n\
            done 1 opened 2\n\
            send 2 5a0000000773657373696f6e000000020020000000008000\n\
            input 4\n\
            done 2 refused NotConfirmed\n\
            input 5\n\
            done 3 refused NotConfirmed\n\
            input 6\n\
            done 4 refused NotConfirmed\n\
            input 7\n\
            done 5 refused NotConfirmed\n\
            input 8\n\
            input 9\n\
            input 10\n\
            input 11\n\
            input 12\n\
            input 13\n\
            notice 2 Ready 1024 256\n\
            notice 2 Open 2 256 1024\n\
            input 14\n\
            ok\n",
    },
    Row {
        shows: "a failure for no channel does nothing; no confirmation comes for one",
        settings: b"",
        inputs: b"\
            recv 5c00000009000000010000000000000000\n\
            recv 5b00000009000000000000000000000001\n",
        status: 1,
        calls: b"",
        trace: b"\
            input 3\n\
            input 4\n\
            error Inconsistent\n",
    },
    Row {
        shows: "a confirmation of an open of the peer, which waits for its answer here",
        settings: b"answer open hold\n",
        inputs: b"\
            recv 5a0000000773657373696f6e000000070010000000008000\n\
            recv 5b00000002000000050000040000000100\n",
        status: 1,
        calls: b"call channel_open_session 2\n",
        trace: b"\
            input 3\n\
            input 4\n\
            error Inconsistent\n",
    },
    Row {
        shows: "a confirmation without its last byte",
        settings: b"",
        inputs: b"\
            open session\n\
            recv 5b000000020000000500000400000001\n",
        status: 1,
        calls: b"",
        trace: b"\
            input 3\n\
            done 1 opened 2\n\
            send 2 5a0000000773657373696f6e000000020020000000008000\n\
            input 4\n\
            error Encoding\n",
    },
    Row {
        shows: "a confirmation with a byte too many",
        settings: b"",
        inputs: b"\
            open session\n\
            recv 5b0000000200000005000004000000010000\n",
        status: 1,
        calls: b"",
        trace: b"\
            input 3\n\
            done 1 opened 2\n\
            send 2 5a0000000773657373696f6e000000020020000000008000\n\
            input 4\n\
            error Encoding\n",
    },
    Row {
        shows: "a confirmation whose packets have no bytes",
        settings: b"",
        inputs: b"\
            open session\n\
            recv 5b00000002000000050000040000000000\n",
        status: 1,
        calls: b"",
        trace: b"\
            input 3\n\
            done 1 opened 2\n\
            send 2 5a0000000773657373696f6e000000020020000000008000\n\
            input 4\n\
            error Inconsistent\n",
    },
    Row {
        shows: "both sides draw from the same numbers",
        settings: b"",
        inputs: b"\
            recv 5a0000000773657373696f6e000000070010000000008000\n\
            open session\n\
            recv 5a0000000773657373696f6e000000070010000000008000\n\
            open session\n",
        status: 0,
        calls: b"\
            call channel_open_session 2\n\
            call channel_open_session 4\n",
        trace: b"\
            input 3\n\
            notice 2 Ready 1048576 32768\n\
            send 2 5b00000007000000020020000000008000\n\
            input 4\n\
            done 1 opened 3\n\
            send 3 5a0000000773657373696f6e000000030020000000008000\n\
            input 5\n\
            notice 4 Ready 1048576 32768\n\
            send 4 5b00000007000000040020000000008000\n\
            input 6\n\
            done 2 opened 5\n\
            send 5 5a0000000773657373696f6e000000050020000000008000\n\
            input 7\n\
            ok\n",
    },
    Row {
        shows: "opens are confirmed in any order",
        settings: b"",
        inputs: b"\
            open session\n\
            open session\n\
            recv 5b00000003000000050000040000000100\n\
            recv 5b00000002000000050000000300008000\n\
            data 3 61\n\
            data 2 62\n",
        status: 0,
        calls: b"\
            call channel_open_confirmation 3 256 1024\n\
            call channel_open_confirmation 2 32768 3\n",
        trace: b"\
            input 3\n\
            done 1 opened 2\n\
            send 2 5a0000000773657373696f6e000000020020000000008000\n\
            input 4\n\
            done 2 opened 3\n\
            send 3 5a0000000773657373696f6e000000030020000000008000\n\
            input 5\n\
            notice 3 Ready 1024 256\n\
            notice 3 Open 3 256 1024\n\
            input 6\n\
            notice 2 Ready 3 32768\n\
            notice 2 Open 2 32768 3\n\
            input 7\n\
            done 3 accepted\n\
            send 3 5e000000050000000161\n\
            input 8\n\
            done 4 accepted\n\
            send 2 5e000000050000000162\n\
            input 9\n\
            ok\n",
    },
];

#[test]
fn opens_of_this_side(rt: HostRuntime) {
    for row in &OPENS {
        assert!(rt; row.holds(rt.alloc()), "{}", row.shows);
    }
}

static BEFORE_LOGIN: Case = Case {
    shows: "nobody opens a channel before a user is let in",
    script: b"\
        answer none accept\n\
        open session\n\
        recv 050000000c7373682d7573657261757468\n\
        open session\n\
        recv 3200000005616c6963650000000e7373682d636f6e6e656374696f6e000000046e6f6e65\n\
        open session\n",
    status: 0,
    written: b"\
        call authentication_banner\n\
        call auth_none 616c696365\n\
        call auth_succeeded\n\
        input 1\n\
        done 1 refused NotAuthenticated\n\
        input 2\n\
        send - 060000000c7373682d7573657261757468\n\
        input 3\n\
        done 2 refused NotAuthenticated\n\
        input 4\n\
        send - 34\n\
        input 5\n\
        done 3 opened 2\n\
        send 2 5a0000000773657373696f6e000000020020000000008000\n\
        input 6\n\
        ok\n",
};

#[test]
fn nobody_opens_a_channel_before_a_user_is_let_in(rt: HostRuntime) {
    assert!(rt; BEFORE_LOGIN.holds(rt.alloc()), "{}", BEFORE_LOGIN.shows);
}
