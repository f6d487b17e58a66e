// Opens of the peer that end the run: the handler hears nothing of them.
use ssh_scripted::Row;
use std::alloc::Global;
use std::test::*;

// What is wrong with an open, and its line.
type Misfit = (&'static str, &'static [u8]);

static MISFITS: [Misfit; 15] = [
    (
        "session without its last byte",
        b"\
        recv 5a0000000773657373696f6e0000000700100000000080\n",
    ),
    (
        "session with a byte too many",
        b"\
        recv 5a0000000773657373696f6e00000007001000000000800000\n",
    ),
    (
        "x11 without its last byte",
        b"\
        recv 5a000000037831310000000700100000000080000000000c3139322e3136382e372e3338000017\n",
    ),
    (
        "x11 with a byte too many",
        b"\
        recv 5a000000037831310000000700100000000080000000000c3139322e3136382e372e33380000177a00\n",
    ),
    (
        "direct-tcpip without its last byte",
        b"\
        recv 5a0000000c6469726563742d74637069700000000700100000000080000000000b6578616d706c652e6f72\
        67000001bb000000093139322e302e322e370000c3\n",
    ),
    (
        "direct-tcpip with a byte too many",
        b"\
        recv 5a0000000c6469726563742d74637069700000000700100000000080000000000b6578616d706c652e6f72\
        67000001bb000000093139322e302e322e370000c35000\n",
    ),
    (
        "forwarded-tcpip without its last byte",
        b"\
        recv 5a0000000f666f727761726465642d74637069700000000700100000000080000000000b6578616d706c65\
        2e6f7267000001bb000000093139322e302e322e370000c3\n",
    ),
    (
        "forwarded-tcpip with a byte too many",
        b"\
        recv 5a0000000f666f727761726465642d74637069700000000700100000000080000000000b6578616d706c65\
        2e6f7267000001bb000000093139322e302e322e370000c35000\n",
    ),
    (
        "direct-streamlocal without its last byte",
        b"\
        recv 5a0000001e6469726563742d73747265616d6c6f63616c406f70656e7373682e636f6d0000000700100000\
        000080000000000d2f72756e2f6170702e736f636b00000000000000\n",
    ),
    (
        "direct-streamlocal with a byte too many",
        b"\
        recv 5a0000001e6469726563742d73747265616d6c6f63616c406f70656e7373682e636f6d0000000700100000\
        000080000000000d2f72756e2f6170702e736f636b000000000000000000\n",
    ),
    (
        "forwarded-streamlocal without its last byte",
        b"\
        recv 5a00000021666f727761726465642d73747265616d6c6f63616c406f70656e7373682e636f6d0000000700\
        100000000080000000000d2f72756e2f6170702e736f636b000000\n",
    ),
    (
        "forwarded-streamlocal with a byte too many",
        b"\
        recv 5a00000021666f727761726465642d73747265616d6c6f63616c406f70656e7373682e636f6d0000000700\
        100000000080000000000d2f72756e2f6170702e736f636b0000000000\n",
    ),
    (
        "auth-agent without its last byte",
        b"\
        recv 5a00000016617574682d6167656e74406f70656e7373682e636f6d0000000700100000000080\n",
    ),
    (
        "auth-agent with a byte too many",
        b"\
        recv 5a00000016617574682d6167656e74406f70656e7373682e636f6d00000007001000000000800000\n",
    ),
    (
        "a host that is no text in UTF-8",
        b"\
        recv 5a0000000c6469726563742d746370697000000007001000000000800000000001ff000001bb0000000931\
        39322e302e322e370000c350\n",
    ),
];

// A packet size of 0 would never let data through.
static WITHOUT_PACKETS: [Misfit; 8] = [
    (
        "session",
        b"\
        recv 5a0000000773657373696f6e000000070010000000000000\n",
    ),
    (
        "x11",
        b"\
        recv 5a000000037831310000000700100000000000000000000c3139322e3136382e372e33380000177a\n",
    ),
    (
        "direct-tcpip",
        b"\
        recv 5a0000000c6469726563742d74637069700000000700100000000000000000000b6578616d706c652e6f72\
        67000001bb000000093139322e302e322e370000c350\n",
    ),
    (
        "forwarded-tcpip",
        b"\
        recv 5a0000000f666f727761726465642d74637069700000000700100000000000000000000b6578616d706c65\
        2e6f7267000001bb000000093139322e302e322e370000c350\n",
    ),
    (
        "direct-streamlocal",
        b"\
        recv 5a0000001e6469726563742d73747265616d6c6f63616c406f70656e7373682e636f6d0000000700100000\
        000000000000000d2f72756e2f6170702e736f636b0000000000000000\n",
    ),
    (
        "forwarded-streamlocal",
        b"\
        recv 5a00000021666f727761726465642d73747265616d6c6f63616c406f70656e7373682e636f6d0000000700\
        100000000000000000000d2f72756e2f6170702e736f636b00000000\n",
    ),
    (
        "auth-agent",
        b"\
        recv 5a00000016617574682d6167656e74406f70656e7373682e636f6d000000070010000000000000\n",
    ),
    (
        "an unknown type",
        b"\
        recv 5a0000000178000000070010000000000000\n",
    ),
];

// Whether the run ends at this open by the error that the trace has, without a callback.
fn ends(alloc: Global, inputs: &'static [u8], trace: &'static [u8]) -> bool {
    let row = Row {
        shows: "",
        settings: b"",
        inputs,
        status: 1,
        calls: b"",
        trace,
    };
    row.holds(alloc)
}

#[test]
fn opens_that_do_not_fit_their_layout(rt: HostRuntime) {
    for (shows, open) in &MISFITS {
        let ended = ends(rt.alloc(), *open, b"input 3\nerror Encoding\n");
        assert!(rt; ended, "{shows}");
    }
}

#[test]
fn opens_whose_packets_have_no_bytes(rt: HostRuntime) {
    for (shows, open) in &WITHOUT_PACKETS {
        let ended = ends(rt.alloc(), *open, b"input 3\nerror Inconsistent\n");
        assert!(rt; ended, "{shows}");
    }
}
