// Requests on numbers that are no channel, or not one yet.
use ssh_scripted::Row;
use std::test::*;

static ELSEWHERE: [Row; 5] = [
    Row {
        shows: "on no channel nothing behind the flag is read, and no command goes there",
        settings: b"",
        inputs: b"\
            recv 6200000009000000077074792d72657101ff\n\
            success 9\n\
            failure 9\n\
            status 9 0\n\
            recv 5a0000000773657373696f6e000000070010000000008000\n\
            recv 6100000002\n\
            recv 6200000002000000057368656c6c01ff\n\
            success 2\n",
        status: 0,
        calls: b"\
            call channel_open_session 2\n\
            call channel_close 2\n",
        trace: b"\
            input 3\n\
            input 4\n\
            done 1 refused UnknownChannel\n\
            input 5\n\
            done 2 refused UnknownChannel\n\
            input 6\n\
            done 3 refused UnknownChannel\n\
            input 7\n\
            notice 2 Ready 1048576 32768\n\
            send 2 5b00000007000000020020000000008000\n\
            input 8\n\
            notice 2 Close\n\
            send 2 6100000007\n\
            input 9\n\
            input 10\n\
            done 4 refused UnknownChannel\n\
            input 11\n\
            ok\n",
    },
    Row {
        shows: "an open of the peer that waits is no channel yet",
        settings: b"answer open hold\n",
        inputs: b"\
            recv 5a0000000773657373696f6e000000070010000000008000\n\
            recv 6200000002000000057368656c6c01ff\n\
            success 2\n\
            accept 2\n\
            success 2\n",
        status: 0,
        calls: b"call channel_open_session 2\n",
        trace: b"\
            input 3\n\
            input 4\n\
            input 5\n\
            done 1 refused UnknownChannel\n\
            input 6\n\
            notice 2 Ready 1048576 32768\n\
            done 2 accepted\n\
            send 2 5b00000007000000020020000000008000\n\
            input 7\n\
            done 3 accepted\n\
            input 8\n\
            ok\n",
    },
    Row {
        shows: "on a channel of this side that waits a request is told to nobody, and owed no reply",
        settings: b"",
        inputs: b"\
            open session\n\
            recv 6200000002000000057368656c6c01ff\n\
            success 2\n\
            failure 2\n\
            status 2 0\n\
            recv 5b00000002000000050000040000000100\n\
            success 2\n",
        status: 0,
        calls: b"call channel_open_confirmation 2 256 1024\n",
        trace: b"\
            input 3\n\
            done 1 opened 2\n\
            send 2 5a0000000773657373696f6e000000020020000000008000\n\
            input 4\n\
            input 5\n\
            done 2 refused NotConfirmed\n\
            input 6\n\
            done 3 refused NotConfirmed\n\
            input 7\n\
            done 4 refused NotConfirmed\n\
            input 8\n\
            notice 2 Ready 1024 256\n\
            notice 2 Open 2 256 1024\n\
            input 9\n\
            done 5 accepted\n\
            input 10\n\
            ok\n",
    },
    Row {
        shows: "on no channel too a request without its flag does not fit",
        settings: b"",
        inputs: b"recv 6200000009000000057368656c6c\n",
        status: 1,
        calls: b"",
        trace: b"\
            input 3\n\
            error Encoding\n",
    },
    Row {
        shows: "on no channel too a type is a text",
        settings: b"",
        inputs: b"recv 620000000900000001ff01\n",
        status: 1,
        calls: b"",
        trace: b"\
            input 3\n\
            error Encoding\n",
    },
];

#[test]
fn requests_on_no_channel(rt: HostRuntime) {
    for row in &ELSEWHERE {
        assert!(rt; row.holds(rt.alloc()), "{}", row.shows);
    }
}
