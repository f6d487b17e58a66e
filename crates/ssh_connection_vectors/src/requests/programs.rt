// Programs that a client asks for, from their first request to their end (RFC 4254 section 6).
use ssh_scripted::{INTERACTIVE, Row};
use std::test::*;

static PROGRAMS: [Row; 3] = [
    Row {
        shows: "a terminal whose mode has a code of none (RFC 4254 section 6.2)",
        settings: b"",
        inputs: b"\
            recv 5a0000000773657373696f6e000000070010000000008000\n\
            recv 6200000002000000077074792d7265710100000005787465726d00000050000000180000000000000\
            00000000006130000000500\n",
        status: 0,
        calls: b"\
            call channel_open_session 2\n\
            call pty_request 2 787465726d 80 24 0 0 0:0\n",
        trace: b"\
            input 3\n\
            notice 2 Ready 1048576 32768\n\
            send 2 5b00000007000000020020000000008000\n\
            input 4\n\
            notice 2 RequestPty 1 787465726d 80 24 0 0 0:0\n\
            send 2 6300000007\n\
            input 5\n\
            ok\n",
    },
    Row {
        shows: "exit statuses are sent as they are, to the end of the channel, and not behind it",
        settings: b"",
        inputs: b"\
            recv 5a0000000773657373696f6e000000070010000000008000\n\
            status 2 0\n\
            status 2 4294967295\n\
            eof 2\n\
            status 2 1\n\
            close 2\n\
            status 2 0\n",
        status: 0,
        calls: b"call channel_open_session 2\n",
        trace: b"\
            input 3\n\
            notice 2 Ready 1048576 32768\n\
            send 2 5b00000007000000020020000000008000\n\
            input 4\n\
            done 1 accepted\n\
            send 2 62000000070000000b657869742d7374617475730000000000\n\
            input 5\n\
            done 2 accepted\n\
            send 2 62000000070000000b657869742d73746174757300ffffffff\n\
            input 6\n\
            done 3 accepted\n\
            send 2 6000000007\n\
            input 7\n\
            done 4 accepted\n\
            send 2 62000000070000000b657869742d7374617475730000000001\n\
            input 8\n\
            done 5 accepted\n\
            send 2 6100000007\n\
            input 9\n\
            done 6 refused UnknownChannel\n\
            input 10\n\
            ok\n",
    },
    Row {
        shows: "a program is run, and data go both ways until it ends",
        settings: b"answer request success\n",
        inputs: b"\
            recv 5a0000000773657373696f6e000000000010000000004000\n\
            recv 620000000200000004657865630100000003636174\n\
            recv 5e000000020000000568656c6c6f\n\
            data 2 68656c6c6f\n\
            ext 2 1 6f6f7073\n\
            recv 6000000002\n\
            status 2 0\n\
            eof 2\n\
            close 2\n\
            recv 6100000002\n",
        status: 0,
        calls: b"\
            call channel_open_session 2\n\
            call exec_request 2 636174\n\
            call data 2 68656c6c6f\n\
            call channel_eof 2\n",
        trace: b"\
            input 3\n\
            notice 2 Ready 1048576 16384\n\
            send 2 5b00000000000000020020000000008000\n\
            input 4\n\
            notice 2 Exec 1 636174\n\
            send 2 6300000000\n\
            input 5\n\
            notice 2 Data 68656c6c6f\n\
            input 6\n\
            done 1 accepted\n\
            send 2 5e000000000000000568656c6c6f\n\
            input 7\n\
            done 2 accepted\n\
            send 2 5f0000000000000001000000046f6f7073\n\
            input 8\n\
            notice 2 Eof\n\
            input 9\n\
            done 3 accepted\n\
            send 2 62000000000000000b657869742d7374617475730000000000\n\
            input 10\n\
            done 4 accepted\n\
            send 2 6000000000\n\
            input 11\n\
            done 5 accepted\n\
            send 2 6100000000\n\
            input 12\n\
            input 13\n\
            ok\n",
    },
];

#[test]
fn programs_on_a_channel(rt: HostRuntime) {
    for row in &PROGRAMS {
        assert!(rt; row.holds(rt.alloc()), "{}", row.shows);
    }
}

#[test]
fn an_interactive_session(rt: HostRuntime) {
    assert!(rt; INTERACTIVE.holds(rt.alloc()), "{}", INTERACTIVE.shows);
}
