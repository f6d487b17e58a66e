// The word `sftp`: what a client sends a file server, and what the program writes for it.
use ssh_scripted::{Case, Outcome, comes_to};
use std::alloc::Global;
use std::test::*;

static TALKS: [Case; 10] = [
    Case {
        shows: "a client that sends nothing",
        script: b"# nothing comes\n\n",
        status: 0,
        written: b"ok\n",
    },
    Case {
        shows: "the version, and a length of 0",
        script: b"recv 000000050100000003\nrecv 00000000\n",
        status: 1,
        written: b"send 000000050200000003\nerror BadLength\n",
    },
    Case {
        shows: "a file is made, written and asked for its size",
        script: b"\
            recv 000000050100000003\n\
            recv 000000130300000001000000022f610000001a00000000\n\
            recv 0000001b060000000200000004000000010000000000000000000000026869\n\
            recv 0000000b1100000003000000022f61\n",
        status: 0,
        written: b"\
            send 000000050200000003\n\
            send 0000000d66000000010000000400000001\n\
            send 00000013650000000200000000000000026f6b00000000\n\
            send 000000116900000003000000010000000000000002\nok\n",
    },
    Case {
        shows: "a line for each piece that completes packets, and none for others",
        script: b"\
            recv 00\n\
            recv 0000050100000003000000\n\
            recv -\n\
            recv 0b1100000003000000022f61\n",
        status: 0,
        written: b"\
            send 000000050200000003\n\
            send 0000001d6500000003000000020000000c6e6f20737563682066696c6500000000\nok\n",
    },
    Case {
        shows: "answers stand before the fault of their piece, and no line is served behind it",
        script: b"recv 000000050100000003ffffffff\nrecv 000000050100000003\n",
        status: 1,
        written: b"send 000000050200000003\nerror BadLength\n",
    },
    Case {
        shows: "a packet without an id",
        script: b"recv 0000000411000000\n",
        status: 1,
        written: b"error NoId\n",
    },
    Case {
        shows: "an end inside a packet; the last line needs no end",
        script: b"recv 00000005010000000300",
        status: 1,
        written: b"send 000000050200000003\nerror Cut\n",
    },
    Case {
        shows: "a setting of a session",
        script: b"recv 000000050100000003\ninputs 3\n",
        status: 2,
        written: b"bad line 2\n",
    },
    Case {
        shows: "another input of a session",
        script: b"\nend\n",
        status: 2,
        written: b"bad line 2\n",
    },
    Case {
        shows: "half a byte",
        script: b"recv 0\n",
        status: 2,
        written: b"bad line 1\n",
    },
];

// Whether the program writes this for the word `sftp`, where reads of these numbers fail.
fn is_served(alloc: Global, case: &Case, failing: &[u64]) -> bool {
    let outcome = Outcome {
        status: case.status,
        written: case.written,
    };
    comes_to(alloc, &["sftp"], case.script, (failing, &[]), outcome)
}

#[test]
fn the_lines_of_a_client_are_answered_by_a_file_server(rt: HostRuntime) {
    for case in &TALKS {
        assert!(rt; is_served(rt.alloc(), case, &[]), "{}", case.shows);
    }
}

static UNREAD: Case = Case {
    shows: "a source that fails",
    script: b"recv 000000050100000003\n",
    status: 3,
    written: b"read fault\n",
};

#[test]
fn a_source_of_a_file_server_that_fails_is_told(rt: HostRuntime) {
    assert!(rt; is_served(rt.alloc(), &UNREAD, &[1]));
}
