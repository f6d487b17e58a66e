// Data and closes on channels that this side opens.
use ssh_scripted::Row;
use std::test::*;

static TRANSFERS: [Row; 5] = [
    Row {
        shows: "data go both ways; the CLOSE of the peer behind that of this side does nothing",
        settings: b"",
        inputs: b"\
            open session\n\
            recv 5b00000002000000050000040000000100\n\
            data 2 68656c6c6f\n\
            ext 2 1 6f6f7073\n\
            recv 5e00000002000000026869\n\
            recv 5f0000000200000001000000026f68\n\
            eof 2\n\
            data 2 61\n\
            close 2\n\
            recv 6100000002\n",
        status: 0,
        calls: b"\
            call channel_open_confirmation 2 256 1024\n\
            call data 2 6869\n\
            call extended_data 2 1 6f68\n",
        trace: b"\
            input 3\n\
            done 1 opened 2\n\
            send 2 5a0000000773657373696f6e000000020020000000008000\n\
            input 4\n\
            notice 2 Ready 1024 256\n\
            notice 2 Open 2 256 1024\n\
            input 5\n\
            done 2 accepted\n\
            send 2 5e000000050000000568656c6c6f\n\
            input 6\n\
            done 3 accepted\n\
            send 2 5f0000000500000001000000046f6f7073\n\
            input 7\n\
            notice 2 Data 6869\n\
            input 8\n\
            notice 2 ExtendedData 6f68 1\n\
            input 9\n\
            done 4 accepted\n\
            send 2 6000000005\n\
            input 10\n\
            done 5 refused SendingEnded\n\
            input 11\n\
            done 6 accepted\n\
            send 2 6100000005\n\
            input 12\n\
            input 13\n\
            ok\n",
    },
    Row {
        shows: "data wait for the window of the confirmation; the CLOSE of the peer drops them",
        settings: b"",
        inputs: b"\
            open session\n\
            recv 5b00000002000000050000000300000100\n\
            data 2 68656c6c6f776f726c64\n\
            recv 5d0000000200000002\n\
            recv 6000000002\n\
            recv 6100000002\n\
            data 2 61\n",
        status: 0,
        calls: b"\
            call channel_open_confirmation 2 256 3\n\
            call window_adjusted 2 0\n\
            call channel_eof 2\n\
            call channel_close 2\n",
        trace: b"\
            input 3\n\
            done 1 opened 2\n\
            send 2 5a0000000773657373696f6e000000020020000000008000\n\
            input 4\n\
            notice 2 Ready 3 256\n\
            notice 2 Open 2 256 3\n\
            input 5\n\
            done 2 accepted\n\
            send 2 5e000000050000000368656c\n\
            input 6\n\
            notice 2 Granted 2\n\
            notice 2 WindowAdjusted 0\n\
            send 2 5e00000005000000026c6f\n\
            input 7\n\
            notice 2 Eof\n\
            input 8\n\
            notice 2 Close\n\
            send 2 6100000005\n\
            input 9\n\
            done 3 refused UnknownChannel\n\
            input 10\n\
            ok\n",
    },
    Row {
        shows: "a message of data has at most as many bytes as the confirmation says",
        settings: b"",
        inputs: b"\
            open session\n\
            recv 5b00000002000000050000040000000004\n\
            data 2 6162636465666768696a\n",
        status: 0,
        calls: b"call channel_open_confirmation 2 4 1024\n",
        trace: b"\
            input 3\n\
            done 1 opened 2\n\
            send 2 5a0000000773657373696f6e000000020020000000008000\n\
            input 4\n\
            notice 2 Ready 1024 4\n\
            notice 2 Open 2 4 1024\n\
            input 5\n\
            done 2 accepted\n\
            send 2 5e000000050000000461626364\n\
            send 2 5e000000050000000465666768\n\
            send 2 5e0000000500000002696a\n\
            input 6\n\
            ok\n",
    },
    Row {
        shows: "an open says what this side takes, and its room is filled up again",
        settings: b"\
            config window 8\n\
            config packet 16\n",
        inputs: b"\
            open session\n\
            recv 5b00000002000000050000040000000100\n\
            recv 5e000000020000000568656c6c6f\n",
        status: 0,
        calls: b"\
            call channel_open_confirmation 2 256 1024\n\
            call adjust_window 2 8\n\
            call data 2 68656c6c6f\n",
        trace: b"\
            input 3\n\
            done 1 opened 2\n\
            send 2 5a0000000773657373696f6e000000020000000800000010\n\
            input 4\n\
            notice 2 Ready 1024 256\n\
            notice 2 Open 2 256 1024\n\
            input 5\n\
            notice 2 Data 68656c6c6f\n\
            send 2 5d0000000500000005\n\
            input 6\n\
            ok\n",
    },
    Row {
        shows: "data that come in are sent back on a channel of this side too",
        settings: b"answer data echo\n",
        inputs: b"\
            open session\n\
            recv 5b00000002000000050000040000000100\n\
            recv 5e00000002000000026869\n",
        status: 0,
        calls: b"\
            call channel_open_confirmation 2 256 1024\n\
            call data 2 6869\n",
        trace: b"\
            input 3\n\
            done 1 opened 2\n\
            send 2 5a0000000773657373696f6e000000020020000000008000\n\
            input 4\n\
            notice 2 Ready 1024 256\n\
            notice 2 Open 2 256 1024\n\
            input 5\n\
            notice 2 Data 6869\n\
            send 2 5e00000005000000026869\n\
            input 6\n\
            ok\n",
    },
];

#[test]
fn data_on_channels_of_this_side(rt: HostRuntime) {
    for row in &TRANSFERS {
        assert!(rt; row.holds(rt.alloc()), "{}", row.shows);
    }
}
