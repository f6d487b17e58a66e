// Scripts of one session channel that the peer opens, and what the program writes for them.
use ssh_scripted::{Case, Row};
use std::test::*;

static CHANNELS: [Row; 10] = [
    Row {
        shows: "peer number 7: the open is accepted",
        settings: b"",
        inputs: b"recv 5a0000000773657373696f6e000000070010000000008000\n",
        status: 0,
        calls: b"call channel_open_session 2\n",
        trace: b"\
            input 3\n\
            notice 2 Ready 1048576 32768\n\
            send 2 5b00000007000000020020000000008000\n\
            input 4\nok\n",
    },
    Row {
        shows: "\
            peer number 44 and a window of 3: the rest of the data waits for a grant, and the two \
            commands behind it are set aside",
        settings: b"",
        inputs: b"\
            recv 5a0000000773657373696f6e0000002c0000000300008000\n\
            data 2 68656c6c6f\n\
            eof 2\n\
            close 2\n",
        status: 0,
        calls: b"call channel_open_session 2\n",
        trace: b"\
            input 3\n\
            notice 2 Ready 3 32768\n\
            send 2 5b0000002c000000020020000000008000\n\
            input 4\n\
            done 1 accepted\n\
            send 2 5e0000002c0000000368656c\n\
            input 5\nok\n",
    },
    Row {
        shows: "a grant lets out the rest of the data, and the commands behind them",
        settings: b"",
        inputs: b"\
            recv 5a0000000773657373696f6e0000002c0000000300008000\n\
            data 2 68656c6c6f\n\
            eof 2\n\
            close 2\n\
            recv 5d0000000200000002\n",
        status: 0,
        calls: b"call channel_open_session 2\ncall window_adjusted 2 0\n",
        trace: b"\
            input 3\n\
            notice 2 Ready 3 32768\n\
            send 2 5b0000002c000000020020000000008000\n\
            input 4\n\
            done 1 accepted\n\
            send 2 5e0000002c0000000368656c\n\
            input 5\n\
            notice 2 Granted 2\n\
            notice 2 WindowAdjusted 0\n\
            send 2 5e0000002c000000026c6f\n\
            input 6\n\
            done 2 accepted\n\
            send 2 600000002c\n\
            input 7\n\
            done 3 accepted\n\
            send 2 610000002c\n\
            input 8\nok\n",
    },
    Row {
        shows: "a grant that no data wait for",
        settings: b"",
        inputs: b"\
            recv 5a0000000773657373696f6e0000002c0000000300008000\n\
            recv 5d0000000200000005\n\
            recv 5d0000000900000005\n",
        status: 0,
        calls: b"call channel_open_session 2\ncall window_adjusted 2 8\n",
        trace: b"\
            input 3\n\
            notice 2 Ready 3 32768\n\
            send 2 5b0000002c000000020020000000008000\n\
            input 4\n\
            notice 2 Granted 5\n\
            notice 2 WindowAdjusted 8\n\
            input 5\n\
            input 6\nok\n",
    },
    Row {
        shows: "an answer to an open passes the commands that were set aside before it",
        settings: b"",
        inputs: b"\
            recv 5a0000000773657373696f6e0000002c0000000300008000\n\
            data 2 68656c6c6f\n\
            eof 2\n\
            accept 2\n\
            recv 5d0000000200000002\n",
        status: 0,
        calls: b"call channel_open_session 2\ncall window_adjusted 2 0\n",
        trace: b"\
            input 3\n\
            notice 2 Ready 3 32768\n\
            send 2 5b0000002c000000020020000000008000\n\
            input 4\n\
            done 1 accepted\n\
            send 2 5e0000002c0000000368656c\n\
            input 5\n\
            done 3 refused UnknownOpen\n\
            input 6\n\
            notice 2 Granted 2\n\
            notice 2 WindowAdjusted 0\n\
            send 2 5e0000002c000000026c6f\n\
            input 7\n\
            done 2 accepted\n\
            send 2 600000002c\n\
            input 8\nok\n",
    },
    Row {
        shows: "nothing is sent after an end of file",
        settings: b"",
        inputs: b"\
            recv 5a0000000773657373696f6e000000070010000000008000\n\
            data 2 61\n\
            eof 2\n\
            data 2 62\n\
            eof 2\n\
            close 2\n\
            close 2\n",
        status: 0,
        calls: b"call channel_open_session 2\n",
        trace: b"\
            input 3\n\
            notice 2 Ready 1048576 32768\n\
            send 2 5b00000007000000020020000000008000\n\
            input 4\n\
            done 1 accepted\n\
            send 2 5e000000070000000161\n\
            input 5\n\
            done 2 accepted\n\
            send 2 6000000007\n\
            input 6\n\
            done 3 refused SendingEnded\n\
            input 7\n\
            done 4 refused SendingEnded\n\
            input 8\n\
            done 5 accepted\n\
            send 2 6100000007\n\
            input 9\n\
            done 6 refused UnknownChannel\n\
            input 10\nok\n",
    },
    Row {
        shows: "the peer ends its data and closes, and the next open has a number of its own",
        settings: b"",
        inputs: b"\
            recv 5a0000000773657373696f6e000000070010000000008000\n\
            recv 6000000002\n\
            recv 6100000002\n\
            recv 5a0000000773657373696f6e000000070010000000008000\n",
        status: 0,
        calls: b"\
            call channel_open_session 2\n\
            call channel_eof 2\n\
            call channel_close 2\n\
            call channel_open_session 3\n",
        trace: b"\
            input 3\n\
            notice 2 Ready 1048576 32768\n\
            send 2 5b00000007000000020020000000008000\n\
            input 4\n\
            notice 2 Eof\n\
            input 5\n\
            notice 2 Close\n\
            send 2 6100000007\n\
            input 6\n\
            notice 3 Ready 1048576 32768\n\
            send 3 5b00000007000000030020000000008000\n\
            input 7\nok\n",
    },
    Row {
        shows: "an open that is answered by a line, and once",
        settings: b"answer open accept\nanswer open hold\n",
        inputs: b"\
            recv 5a0000000773657373696f6e000000070010000000008000\n\
            data 2 61\n\
            accept 2\n\
            reject 2 1\n",
        status: 0,
        calls: b"call channel_open_session 2\n",
        trace: b"\
            input 3\n\
            input 4\n\
            done 1 refused UnknownChannel\n\
            input 5\n\
            notice 2 Ready 1048576 32768\n\
            done 2 accepted\n\
            send 2 5b00000007000000020020000000008000\n\
            input 6\n\
            done 3 refused UnknownOpen\n\
            input 7\nok\n",
    },
    Row {
        shows: "an open that is refused by a line, and not accepted after it",
        settings: b"answer open hold\n",
        inputs: b"\
            recv 5a0000000773657373696f6e000000070010000000008000\n\
            reject 2 4\n\
            accept 2\n",
        status: 0,
        calls: b"call channel_open_session 2\n",
        trace: b"\
            input 3\n\
            input 4\n\
            done 1 accepted\n\
            send 2 5c0000000700000004000000117265736f757263652073686f727461676500000002656e\n\
            input 5\n\
            done 2 refused UnknownOpen\n\
            input 6\nok\n",
    },
    Row {
        shows: "an open that the callback refuses",
        settings: b"answer open reject\n",
        inputs: b"recv 5a0000000773657373696f6e000000070010000000008000\naccept 2\n",
        status: 0,
        calls: b"call channel_open_session 2\n",
        trace: b"\
            input 3\n\
            send 2 5c00000007000000010000001b61646d696e6973747261746976656c792070726f68696269\
            74656400000002656e\n\
            input 4\n\
            done 1 refused UnknownOpen\n\
            input 5\nok\n",
    },
];

#[test]
fn one_session_channel(rt: HostRuntime) {
    for row in &CHANNELS {
        assert!(rt; row.holds(rt.alloc()), "{}", row.shows);
    }
}

static NO_CHANNEL: Case = Case {
    shows: "commands before any channel are refused",
    script: b"data 9 61\neof 2\nclose 4294967295\nat 5\naccept 2\nreject 2 4\ndata 2 -\n",
    status: 0,
    written: b"\
        input 1\n\
        done 1 refused UnknownChannel\n\
        input 2\n\
        done 2 refused UnknownChannel\n\
        input 3\n\
        done 3 refused UnknownChannel\n\
        input 4\n\
        done 4 refused UnknownOpen\n\
        input 5\n\
        done 5 refused UnknownOpen\n\
        input 6\n\
        done 6 refused UnknownChannel\n\
        input 7\nok\n",
};

#[test]
fn commands_before_any_channel(rt: HostRuntime) {
    assert!(rt; NO_CHANNEL.holds(rt.alloc()), "{}", NO_CHANNEL.shows);
}
