// The word `gateway`: who reaches which host, and what the program writes of it.
use ssh_scripted::{Case, Outcome, comes_to};
use std::alloc::Global;
use std::test::*;

static CONNECTIONS: [Case; 6] = [
    Case {
        shows: "an open to a host that no line allows is refused",
        script: b"\
            answer none accept\n\
            recv 050000000c7373682d7573657261757468\n\
            recv 3200000005616c6963650000000e7373682d636f6e6e656374696f6e000000046e6f6e65\n\
            recv 5a0000000c6469726563742d74637069700000000700100000000080000000000831302e302e302e31\
            000000500000000000000000\n",
        status: 0,
        written: b"\
            input 1\n\
            send - 060000000c7373682d7573657261757468\n\
            input 2\n\
            send - 34\n\
            input 3\n\
            done 1 accepted\n\
            send 2 5c00000007000000010000001b61646d696e6973747261746976656c792070726f68696269746564\
            00000002656e\n\
            input 4\n\
            ok\n",
    },
    Case {
        shows: "data go both ways, and the target's end of file to the peer",
        script: b"\
            answer none accept\n\
            allow 31302e302e302e31 80\n\
            target 31302e302e302e31 80 6f6b\n\
            recv 050000000c7373682d7573657261757468\n\
            recv 3200000005616c6963650000000e7373682d636f6e6e656374696f6e000000046e6f6e65\n\
            recv 5a0000000c6469726563742d74637069700000000700100000000080000000000831302e302e302e31\
            000000500000000000000000\n\
            recv 5e00000002000000026869\n",
        status: 0,
        written: b"\
            input 1\n\
            send - 060000000c7373682d7573657261757468\n\
            input 2\n\
            send - 34\n\
            input 3\n\
            notice 2 Ready 1048576 32768\n\
            done 1 accepted\n\
            send 2 5b00000007000000020020000000008000\n\
            done 2 accepted\n\
            send 2 5e00000007000000026f6b\n\
            done 3 accepted\n\
            send 2 6000000007\n\
            input 4\n\
            notice 2 Data 6869\n\
            input 5\n\
            target 1 31302e302e302e31 80 6869\n\
            ok\n",
    },
    Case {
        shows: "a host that is allowed and cannot be reached has no line",
        script: b"\
            # commands never come\n\
            allow 31302e302e302e31 80\n\
            target 31302e302e302e31 81 -\n\
            answer none accept\n\
            recv 050000000c7373682d7573657261757468\n\
            data 2 78\n\
            recv 3200000005616c6963650000000e7373682d636f6e6e656374696f6e000000046e6f6e65\n\
            recv 5a0000000c6469726563742d74637069700000000700100000000080000000000831302e302e302e31\
            000000500000000000000000",
        status: 0,
        written: b"\
            input 1\n\
            send - 060000000c7373682d7573657261757468\n\
            input 2\n\
            send - 34\n\
            input 3\n\
            done 1 accepted\n\
            send 2 5c00000007000000020000000e636f6e6e656374206661696c656400000002656e\n\
            input 4\n\
            ok\n",
    },
    Case {
        shows: "a turn more than may be",
        script: b"inputs 1\nrecv 050000000c7373682d7573657261757468\n",
        status: 1,
        written: b"input 1\nsend - 060000000c7373682d7573657261757468\nerror TurnLimit\n",
    },
    Case {
        shows: "a handler of authentication that fails",
        script: b"\
            answer none fail\n\
            recv 050000000c7373682d7573657261757468\n\
            recv 3200000005616c6963650000000e7373682d636f6e6e656374696f6e000000046e6f6e65\n",
        status: 1,
        written: b"input 1\nsend - 060000000c7373682d7573657261757468\ninput 2\nerror Run\n",
    },
    Case {
        shows: "a peer that says nothing",
        script: b"",
        status: 0,
        written: b"input 1\nok\n",
    },
];

static BAD_LINES: [&[u8]; 18] = [
    b"allow",
    b"allow 31",
    b"allow 31 ",
    b"allow 31 x",
    b"allow  31 80",
    b"allow 31 80 1",
    b"allow 3 80",
    b"allow ff 80",
    b"allow 31 080",
    b"allow 31 4294967296",
    b"Allow 31 80",
    b"target 31 80",
    b"target 31 80 6",
    b"target ff 80 61",
    b"target 31 80 61 62",
    b"target 31 4294967296 61",
    b"a open",
    b"recv 0",
];

// Whether this is written by the program, asked by this word, where reads of these numbers fail.
fn is_told(alloc: Global, words: &[&str], case: &Case, failing: &[u64]) -> bool {
    let outcome = Outcome {
        status: case.status,
        written: case.written,
    };
    comes_to(alloc, words, case.script, (failing, &[]), outcome)
}

#[test]
fn a_gateway_connects_where_it_may(rt: HostRuntime) {
    for case in &CONNECTIONS {
        assert!(rt;
            is_told(rt.alloc(), &["gateway"], case, &[]),
            "{}",
            case.shows
        );
    }
}

// Whether this alone is written for a line that is bad by this word.
fn is_bad(alloc: Global, words: &[&str], script: &'static [u8], written: &'static [u8]) -> bool {
    let case = Case {
        shows: "",
        script,
        status: 2,
        written,
    };
    is_told(alloc, words, &case, &[])
}

#[test]
fn bad_lines_of_a_gateway(rt: HostRuntime) {
    for (place, line) in BAD_LINES.iter().enumerate() {
        assert!(rt;
            is_bad(rt.alloc(), &["gateway"], *line, b"bad line 1\n"),
            "{place}"
        );
    }
    assert!(rt;
        is_bad(
            rt.alloc(),
            &["gateway"],
            b"at 1\nallow 31 80\n",
            b"bad line 2\n"
        )
    );
}

#[test]
fn lines_of_a_gateway_are_bad_elsewhere(rt: HostRuntime) {
    let allow = b"allow 31 80\n";
    assert!(rt; is_bad(rt.alloc(), &["run"], allow, b"bad line 1\n"));
    assert!(rt; is_bad(rt.alloc(), &["sftp"], allow, b"bad line 1\n"));
    assert!(rt; is_bad(rt.alloc(), &["ends", "3", "100"], allow, b"bad line 1\n"));
}

static UNREAD: Case = Case {
    shows: "a source that fails",
    script: b"allow 31 80\n",
    status: 3,
    written: b"read fault\n",
};

#[test]
fn a_source_of_a_gateways_script_that_fails_is_told(rt: HostRuntime) {
    assert!(rt; is_told(rt.alloc(), &["gateway"], &UNREAD, &[1]));
}
