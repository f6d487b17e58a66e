// Scripts with global requests, ticks and the end of a connection, and what the program writes.
use ssh_scripted::{Case, Row};
use std::test::*;

static BEFORE_LOGIN: [Case; 4] = [
    Case {
        shows: "the second tick ends the run where one may go unanswered",
        script: b"config keepalive 1\ntick keepalive\ntick keepalive\n",
        status: 1,
        written: b"\
            input 1\n\
            send - 50000000156b656570616c697665406f70656e7373682e636f6d01\n\
            input 2\n\
            error KeepaliveTimeout\n",
    },
    Case {
        shows: "a tick for too long a silence ends the run",
        script: b"tick inactivity\n",
        status: 1,
        written: b"input 1\nerror InactivityTimeout\n",
    },
    Case {
        shows: "the connection is ended before anything else",
        script: b"disconnect 11 627965\nrecv 050000000c7373682d7573657261757468\n",
        status: 0,
        written: b"\
            input 1\n\
            done 1 accepted\n\
            send - 010000000b0000000362796500000000\n\
            ok\n",
    },
    Case {
        shows: "a tick before the login asks, and its reply has nothing behind its number",
        script: b"\
            answer none accept\n\
            forward 61 0 5\n\
            tick keepalive\n\
            recv 050000000c7373682d7573657261757468\n\
            recv 3200000005616c6963650000000e7373682d636f6e6e656374696f6e000000046e6f6e65\n\
            recv 52\n\
            recv 5200\n",
        status: 1,
        written: b"\
            call authentication_banner\n\
            call auth_none 616c696365\n\
            call auth_succeeded\n\
            input 1\n\
            done 1 refused NotAuthenticated\n\
            input 2\n\
            send - 50000000156b656570616c697665406f70656e7373682e636f6d01\n\
            input 3\n\
            send - 060000000c7373682d7573657261757468\n\
            input 4\n\
            send - 34\n\
            input 5\n\
            input 6\n\
            error Encoding\n",
    },
];

#[test]
fn scripts_without_a_login_or_before_it(rt: HostRuntime) {
    for case in &BEFORE_LOGIN {
        assert!(rt; case.holds(rt.alloc()), "{}", case.shows);
    }
}

static BEHIND_LOGIN: [Row; 6] = [
    Row {
        shows: "the port is told where the peer left it to this side",
        settings: b"answer forward yes 4022\n",
        inputs: b"\
            recv 500000000d74637069702d666f72776172640100000002616100000000\n\
            recv 500000000d74637069702d666f72776172640100000002616100000016\n",
        status: 0,
        calls: b"call tcpip_forward 6161 0\ncall tcpip_forward 6161 22\n",
        trace: b"\
            input 3\n\
            send - 5100000fb6\n\
            input 4\n\
            send - 51\n\
            input 5\n\
            ok\n",
    },
    Row {
        shows: "each request to forward, or no longer, is granted where the script says so",
        settings: b"answer forward no\nanswer forward yes 0\n",
        inputs: b"\
            recv 500000000d74637069702d666f72776172640100000002616100000000\n\
            recv 500000001463616e63656c2d74637069702d666f72776172640100000002616100000016\n\
            recv 500000001f73747265616d6c6f63616c2d666f7277617264406f70656e7373682e636f6d01\
            000000022f61\n\
            recv 500000002663616e63656c2d73747265616d6c6f63616c2d666f7277617264406f70656e\
            7373682e636f6d01000000022f61\n\
            recv 500000002663616e63656c2d73747265616d6c6f63616c2d666f7277617264406f70656e\
            7373682e636f6d00000000022f61\n",
        status: 0,
        calls: b"\
            call tcpip_forward 6161 0\n\
            call cancel_tcpip_forward 6161 22\n\
            call streamlocal_forward 2f61\n\
            call cancel_streamlocal_forward 2f61\n\
            call cancel_streamlocal_forward 2f61\n",
        trace: b"\
            input 3\n\
            send - 51\n\
            input 4\n\
            send - 51\n\
            input 5\n\
            send - 51\n\
            input 6\n\
            send - 51\n\
            input 7\n\
            input 8\n\
            ok\n",
    },
    Row {
        shows: "each is denied where it says nothing, and so is one that is not known",
        settings: b"",
        inputs: b"\
            recv 500000000d74637069702d666f72776172640100000002616100000000\n\
            recv 500000001463616e63656c2d74637069702d666f72776172640100000002616100000016\n\
            recv 500000001f73747265616d6c6f63616c2d666f7277617264406f70656e7373682e636f6d01\
            000000022f61\n\
            recv 500000002663616e63656c2d73747265616d6c6f63616c2d666f7277617264406f70656e\
            7373682e636f6d01000000022f61\n\
            recv 50000000017801ff\n",
        status: 0,
        calls: b"\
            call tcpip_forward 6161 0\n\
            call cancel_tcpip_forward 6161 22\n\
            call streamlocal_forward 2f61\n\
            call cancel_streamlocal_forward 2f61\n",
        trace: b"\
            input 3\n\
            send - 52\n\
            input 4\n\
            send - 52\n\
            input 5\n\
            send - 52\n\
            input 6\n\
            send - 52\n\
            input 7\n\
            send - 52\n\
            input 8\n\
            ok\n",
    },
    Row {
        shows: "replies come in the order of the requests, and one more does nothing",
        settings: b"",
        inputs: b"\
            tick keepalive\n\
            forward 61 0 5\n\
            recv 51\n\
            recv 5100000fb6\n\
            recv 51\n",
        status: 0,
        calls: b"",
        trace: b"\
            input 3\n\
            send - 50000000156b656570616c697665406f70656e7373682e636f6d01\n\
            input 4\n\
            done 1 accepted\n\
            send - 500000000d74637069702d666f727761726401000000016100000000\n\
            input 5\n\
            input 6\n\
            notice - Forwarded 5 4022\n\
            input 7\n\
            input 8\n\
            ok\n",
    },
    Row {
        shows: "a success that tells what is no port counts as a refusal",
        settings: b"",
        inputs: b"\
            forward 61 0 5\n\
            forward - 4294967295 18446744073709551615\n\
            recv 51000fb6\n\
            recv 52\n",
        status: 0,
        calls: b"",
        trace: b"\
            input 3\n\
            done 1 accepted\n\
            send - 500000000d74637069702d666f727761726401000000016100000000\n\
            input 4\n\
            done 2 accepted\n\
            send - 500000000d74637069702d666f72776172640100000000ffffffff\n\
            input 5\n\
            notice - Forwarded 5 denied\n\
            input 6\n\
            notice - Forwarded 18446744073709551615 denied\n\
            input 7\n\
            ok\n",
    },
    Row {
        shows: "data that wait keep the end of the connection waiting",
        settings: b"",
        inputs: b"\
            recv 5a0000000773657373696f6e000000070000000300008000\n\
            data 2 68656c6c6f\n\
            disconnect 1 -\n\
            tick keepalive\n\
            recv 5d0000000200000002\n\
            recv 5d0000000200000002\n",
        status: 0,
        calls: b"\
            call channel_open_session 2\n\
            call window_adjusted 2 0\n",
        trace: b"\
            input 3\n\
            notice 2 Ready 3 32768\n\
            send 2 5b00000007000000020020000000008000\n\
            input 4\n\
            done 1 accepted\n\
            send 2 5e000000070000000368656c\n\
            input 5\n\
            send - 50000000156b656570616c697665406f70656e7373682e636f6d01\n\
            input 6\n\
            notice 2 Granted 2\n\
            notice 2 WindowAdjusted 0\n\
            send 2 5e00000007000000026c6f\n\
            input 7\n\
            done 2 accepted\n\
            send - 01000000010000000000000000\n\
            ok\n",
    },
];

#[test]
fn scripts_behind_a_login(rt: HostRuntime) {
    for row in &BEHIND_LOGIN {
        assert!(rt; row.holds(rt.alloc()), "{}", row.shows);
    }
}
