// Replies to requests (RFC 4254 section 5.4): one for each request that wants one, in the order of
// the requests.
use ssh_scripted::Row;
use std::test::*;

static REPLIES: [Row; 15] = [
    Row {
        shows: "a reply by a command is sent once",
        settings: b"answer request silent\n",
        inputs: b"\
            recv 5a0000000773657373696f6e000000070010000000008000\n\
            recv 6200000002000000057368656c6c01\n\
            success 2\n\
            success 2\n\
            failure 2\n",
        status: 0,
        calls: b"\
            call channel_open_session 2\n\
            call shell_request 2\n",
        trace: b"\
            input 3\n\
            notice 2 Ready 1048576 32768\n\
            send 2 5b00000007000000020020000000008000\n\
            input 4\n\
            notice 2 RequestShell 1\n\
            input 5\n\
            done 1 accepted\n\
            send 2 6300000007\n\
            input 6\n\
            done 2 accepted\n\
            input 7\n\
            done 3 accepted\n\
            input 8\n\
            ok\n",
    },
    Row {
        shows: "a refusal by a command is sent once",
        settings: b"answer request silent\n",
        inputs: b"\
            recv 5a0000000773657373696f6e000000070010000000008000\n\
            recv 6200000002000000057368656c6c01\n\
            failure 2\n\
            failure 2\n\
            success 2\n",
        status: 0,
        calls: b"\
            call channel_open_session 2\n\
            call shell_request 2\n",
        trace: b"\
            input 3\n\
            notice 2 Ready 1048576 32768\n\
            send 2 5b00000007000000020020000000008000\n\
            input 4\n\
            notice 2 RequestShell 1\n\
            input 5\n\
            done 1 accepted\n\
            send 2 6400000007\n\
            input 6\n\
            done 2 accepted\n\
            input 7\n\
            done 3 accepted\n\
            input 8\n\
            ok\n",
    },
    Row {
        shows: "behind the reply of the callback none is sent by a command",
        settings: b"",
        inputs: b"\
            recv 5a0000000773657373696f6e000000070010000000008000\n\
            recv 6200000002000000057368656c6c01\n\
            success 2\n\
            failure 2\n",
        status: 0,
        calls: b"\
            call channel_open_session 2\n\
            call shell_request 2\n",
        trace: b"\
            input 3\n\
            notice 2 Ready 1048576 32768\n\
            send 2 5b00000007000000020020000000008000\n\
            input 4\n\
            notice 2 RequestShell 1\n\
            send 2 6300000007\n\
            input 5\n\
            done 1 accepted\n\
            input 6\n\
            done 2 accepted\n\
            input 7\n\
            ok\n",
    },
    Row {
        shows: "no reply is sent where none is wanted, and none before any request",
        settings: b"answer request silent\n",
        inputs: b"\
            recv 5a0000000773657373696f6e000000070010000000008000\n\
            success 2\n\
            recv 62000000020000000d77696e646f772d6368616e676500000000840000002b0000000000000000\n\
            success 2\n\
            failure 2\n",
        status: 0,
        calls: b"\
            call channel_open_session 2\n\
            call window_change_request 2 132 43 0 0\n",
        trace: b"\
            input 3\n\
            notice 2 Ready 1048576 32768\n\
            send 2 5b00000007000000020020000000008000\n\
            input 4\n\
            done 1 accepted\n\
            input 5\n\
            notice 2 WindowChange 132 43 0 0\n\
            input 6\n\
            done 2 accepted\n\
            input 7\n\
            done 3 accepted\n\
            input 8\n\
            ok\n",
    },
    Row {
        shows: "a later request that wants no reply leaves the one that waits for its own",
        settings: b"answer request silent\n",
        inputs: b"\
            recv 5a0000000773657373696f6e000000070010000000008000\n\
            recv 6200000002000000057368656c6c01\n\
            recv 62000000020000000d77696e646f772d6368616e676500000000840000002b0000000000000000\n\
            success 2\n",
        status: 0,
        calls: b"\
            call channel_open_session 2\n\
            call shell_request 2\n\
            call window_change_request 2 132 43 0 0\n",
        trace: b"\
            input 3\n\
            notice 2 Ready 1048576 32768\n\
            send 2 5b00000007000000020020000000008000\n\
            input 4\n\
            notice 2 RequestShell 1\n\
            input 5\n\
            notice 2 WindowChange 132 43 0 0\n\
            input 6\n\
            done 1 accepted\n\
            send 2 6300000007\n\
            input 7\n\
            ok\n",
    },
    Row {
        shows: "two requests that wait are replied to one by one, the first one first",
        settings: b"answer request silent\n",
        inputs: b"\
            recv 5a0000000773657373696f6e000000070010000000008000\n\
            recv 620000000200000003656e760100000001410000000162\n\
            recv 6200000002000000057368656c6c01\n\
            success 2\n\
            failure 2\n\
            success 2\n",
        status: 0,
        calls: b"\
            call channel_open_session 2\n\
            call env_request 2 41 62\n\
            call shell_request 2\n",
        trace: b"\
            input 3\n\
            notice 2 Ready 1048576 32768\n\
            send 2 5b00000007000000020020000000008000\n\
            input 4\n\
            notice 2 SetEnv 1 41 62\n\
            input 5\n\
            notice 2 RequestShell 1\n\
            input 6\n\
            done 1 accepted\n\
            send 2 6300000007\n\
            input 7\n\
            done 2 accepted\n\
            send 2 6400000007\n\
            input 8\n\
            done 3 accepted\n\
            input 9\n\
            ok\n",
    },
    Row {
        shows: "the refusal of an unknown request waits for the reply before it",
        settings: b"answer request silent\n",
        inputs: b"\
            recv 5a0000000773657373696f6e000000070010000000008000\n\
            recv 6200000002000000057368656c6c01\n\
            recv 6200000002000000017801\n\
            success 2\n",
        status: 0,
        calls: b"\
            call channel_open_session 2\n\
            call shell_request 2\n",
        trace: b"\
            input 3\n\
            notice 2 Ready 1048576 32768\n\
            send 2 5b00000007000000020020000000008000\n\
            input 4\n\
            notice 2 RequestShell 1\n\
            input 5\n\
            input 6\n\
            done 1 accepted\n\
            send 2 6300000007\n\
            send 2 6400000007\n\
            input 7\n\
            ok\n",
    },
    Row {
        shows: "an unknown request that wants no reply changes nothing",
        settings: b"answer request silent\n",
        inputs: b"\
            recv 5a0000000773657373696f6e000000070010000000008000\n\
            recv 6200000002000000057368656c6c01\n\
            recv 6200000002000000017800\n\
            success 2\n",
        status: 0,
        calls: b"\
            call channel_open_session 2\n\
            call shell_request 2\n",
        trace: b"\
            input 3\n\
            notice 2 Ready 1048576 32768\n\
            send 2 5b00000007000000020020000000008000\n\
            input 4\n\
            notice 2 RequestShell 1\n\
            input 5\n\
            input 6\n\
            done 1 accepted\n\
            send 2 6300000007\n\
            input 7\n\
            ok\n",
    },
    Row {
        shows: "the answer about the agent waits for the reply before it",
        settings: b"answer request silent\n",
        inputs: b"\
            recv 5a0000000773657373696f6e000000070010000000008000\n\
            recv 6200000002000000057368656c6c01\n\
            recv 62000000020000001a617574682d6167656e742d726571406f70656e7373682e636f6d01\n\
            failure 2\n",
        status: 0,
        calls: b"\
            call channel_open_session 2\n\
            call shell_request 2\n\
            call agent_request 2\n",
        trace: b"\
            input 3\n\
            notice 2 Ready 1048576 32768\n\
            send 2 5b00000007000000020020000000008000\n\
            input 4\n\
            notice 2 RequestShell 1\n\
            input 5\n\
            notice 2 AgentForward 1\n\
            input 6\n\
            done 1 accepted\n\
            send 2 6400000007\n\
            send 2 6400000007\n\
            input 7\n\
            ok\n",
    },
    Row {
        shows: "on a channel that closes the replies that are owed are dropped",
        settings: b"answer request silent\n",
        inputs: b"\
            recv 5a0000000773657373696f6e000000070010000000008000\n\
            recv 6200000002000000057368656c6c01\n\
            recv 6200000002000000017801\n\
            recv 6100000002\n\
            success 2\n",
        status: 0,
        calls: b"\
            call channel_open_session 2\n\
            call shell_request 2\n\
            call channel_close 2\n",
        trace: b"\
            input 3\n\
            notice 2 Ready 1048576 32768\n\
            send 2 5b00000007000000020020000000008000\n\
            input 4\n\
            notice 2 RequestShell 1\n\
            input 5\n\
            input 6\n\
            notice 2 Close\n\
            send 2 6100000007\n\
            input 7\n\
            done 1 refused UnknownChannel\n\
            input 8\n\
            ok\n",
    },
    Row {
        shows: "any flag but 0 wants a reply",
        settings: b"",
        inputs: b"\
            recv 5a0000000773657373696f6e000000070010000000008000\n\
            recv 6200000002000000057368656c6cff\n",
        status: 0,
        calls: b"\
            call channel_open_session 2\n\
            call shell_request 2\n",
        trace: b"\
            input 3\n\
            notice 2 Ready 1048576 32768\n\
            send 2 5b00000007000000020020000000008000\n\
            input 4\n\
            notice 2 RequestShell 1\n\
            send 2 6300000007\n\
            input 5\n\
            ok\n",
    },
    Row {
        shows: "each channel has a reply of its own",
        settings: b"answer request silent\n",
        inputs: b"\
            recv 5a0000000773657373696f6e000000070010000000008000\n\
            recv 5a0000000773657373696f6e000000080010000000008000\n\
            recv 6200000002000000057368656c6c01\n\
            recv 6200000003000000057368656c6c01\n\
            success 3\n\
            success 3\n\
            failure 2\n",
        status: 0,
        calls: b"\
            call channel_open_session 2\n\
            call channel_open_session 3\n\
            call shell_request 2\n\
            call shell_request 3\n",
        trace: b"\
            input 3\n\
            notice 2 Ready 1048576 32768\n\
            send 2 5b00000007000000020020000000008000\n\
            input 4\n\
            notice 3 Ready 1048576 32768\n\
            send 3 5b00000008000000030020000000008000\n\
            input 5\n\
            notice 2 RequestShell 1\n\
            input 6\n\
            notice 3 RequestShell 1\n\
            input 7\n\
            done 1 accepted\n\
            send 3 6300000008\n\
            input 8\n\
            done 2 accepted\n\
            input 9\n\
            done 3 accepted\n\
            send 2 6400000007\n\
            input 10\n\
            ok\n",
    },
    Row {
        shows: "a reply waits for no window, and stands behind what was sent",
        settings: b"answer request success\n",
        inputs: b"\
            recv 5a0000000773657373696f6e000000070000000300008000\n\
            data 2 68656c6c6f\n\
            recv 6200000002000000057368656c6c01\n\
            recv 5d0000000200000002\n",
        status: 0,
        calls: b"\
            call channel_open_session 2\n\
            call shell_request 2\n\
            call window_adjusted 2 0\n",
        trace: b"\
            input 3\n\
            notice 2 Ready 3 32768\n\
            send 2 5b00000007000000020020000000008000\n\
            input 4\n\
            done 1 accepted\n\
            send 2 5e000000070000000368656c\n\
            input 5\n\
            notice 2 RequestShell 1\n\
            send 2 6300000007\n\
            input 6\n\
            notice 2 Granted 2\n\
            notice 2 WindowAdjusted 0\n\
            send 2 5e00000007000000026c6f\n\
            input 7\n\
            ok\n",
    },
    Row {
        shows: "a reply is sent behind an end of file of this side",
        settings: b"answer request silent\n",
        inputs: b"\
            recv 5a0000000773657373696f6e000000070010000000008000\n\
            recv 6200000002000000057368656c6c01\n\
            eof 2\n\
            success 2\n",
        status: 0,
        calls: b"\
            call channel_open_session 2\n\
            call shell_request 2\n",
        trace: b"\
            input 3\n\
            notice 2 Ready 1048576 32768\n\
            send 2 5b00000007000000020020000000008000\n\
            input 4\n\
            notice 2 RequestShell 1\n\
            input 5\n\
            done 1 accepted\n\
            send 2 6000000007\n\
            input 6\n\
            done 2 accepted\n\
            send 2 6300000007\n\
            input 7\n\
            ok\n",
    },
    Row {
        shows: "a request behind an end of file of the peer is served",
        settings: b"",
        inputs: b"\
            recv 5a0000000773657373696f6e000000070010000000008000\n\
            recv 6000000002\n\
            recv 6200000002000000057368656c6c01\n",
        status: 0,
        calls: b"\
            call channel_open_session 2\n\
            call channel_eof 2\n\
            call shell_request 2\n",
        trace: b"\
            input 3\n\
            notice 2 Ready 1048576 32768\n\
            send 2 5b00000007000000020020000000008000\n\
            input 4\n\
            notice 2 Eof\n\
            input 5\n\
            notice 2 RequestShell 1\n\
            send 2 6300000007\n\
            input 6\n\
            ok\n",
    },
];

#[test]
fn replies_to_requests(rt: HostRuntime) {
    for row in &REPLIES {
        assert!(rt; row.holds(rt.alloc()), "{}", row.shows);
    }
}
