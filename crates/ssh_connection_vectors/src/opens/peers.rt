// Channels of each type that the peer opens.
use ssh_scripted::Row;
use std::test::*;

static OPENS: [Row; 11] = [
    Row {
        shows: "a connection to a host (RFC 4254 section 7.2)",
        settings: b"",
        inputs: b"\
            recv 5a0000000c6469726563742d74637069700000000700100000000080000000000b6578616d706c652e\
            6f7267000001bb000000093139322e302e322e370000c350\n",
        status: 0,
        calls: b"\
            call channel_open_direct_tcpip 2 6578616d706c652e6f7267 443 3139322e302e322e37 50000\n",
        trace: b"\
            input 3\n\
            notice 2 Ready 1048576 32768\n\
            send 2 5b00000007000000020020000000008000\n\
            input 4\n\
            ok\n",
    },
    Row {
        shows: "a connection that came to a forwarded port (RFC 4254 section 7.2)",
        settings: b"",
        inputs: b"\
            recv 5a0000000f666f727761726465642d74637069700000000700100000000080000000000b6578616d70\
            6c652e6f7267000001bb000000093139322e302e322e370000c350\n",
        status: 0,
        calls: b"\
            call channel_open_forwarded_tcpip 2 6578616d706c652e6f7267 443 3139322e302e322e3\
            7 50000\n",
        trace: b"\
            input 3\n\
            notice 2 Ready 1048576 32768\n\
            send 2 5b00000007000000020020000000008000\n\
            input 4\n\
            ok\n",
    },
    Row {
        shows: "a connection to an X server (RFC 4254 section 6.3.2)",
        settings: b"",
        inputs: b"\
            recv 5a000000037831310000000700100000000080000000000c3139322e3136382e372e333800\
            00177a\n",
        status: 0,
        calls: b"call channel_open_x11 2 3139322e3136382e372e3338 6010\n",
        trace: b"\
            input 3\n\
            notice 2 Ready 1048576 32768\n\
            send 2 5b00000007000000020020000000008000\n\
            input 4\n\
            ok\n",
    },
    Row {
        shows: "a connection to a socket (OpenSSH PROTOCOL section 2.4)",
        settings: b"",
        inputs: b"\
            recv 5a0000001e6469726563742d73747265616d6c6f63616c406f70656e7373682e636f6d000000070010\
            0000000080000000000d2f72756e2f6170702e736f636b0000000000000000\n",
        status: 0,
        calls: b"call channel_open_direct_streamlocal 2 2f72756e2f6170702e736f636b\n",
        trace: b"\
            input 3\n\
            notice 2 Ready 1048576 32768\n\
            send 2 5b00000007000000020020000000008000\n\
            input 4\n\
            ok\n",
    },
    Row {
        shows: "empty texts and the largest ports are handed on as they are",
        settings: b"",
        inputs: b"\
            recv 5a0000000c6469726563742d746370697000000007001000000000800000000000ffffffff00000000\
            ffffffff\n",
        status: 0,
        calls: b"call channel_open_direct_tcpip 2 - 4294967295 - 4294967295\n",
        trace: b"\
            input 3\n\
            notice 2 Ready 1048576 32768\n\
            send 2 5b00000007000000020020000000008000\n\
            input 4\n\
            ok\n",
    },
    Row {
        shows: "each of the five types may be refused",
        settings: b"answer open reject\n",
        inputs: b"\
            recv 5a0000000c6469726563742d74637069700000000700100000000080000000000b6578616d706c652e\
            6f7267000001bb000000093139322e302e322e370000c350\n\
            recv 5a0000000f666f727761726465642d74637069700000000700100000000080000000000b6578616d70\
            6c652e6f7267000001bb000000093139322e302e322e370000c350\n\
            recv 5a000000037831310000000700100000000080000000000c3139322e3136382e372e33380000177a\n\
            recv 5a0000001e6469726563742d73747265616d6c6f63616c406f70656e7373682e636f6d000000070010\
            0000000080000000000d2f72756e2f6170702e736f636b0000000000000000\n\
            recv 5a0000000773657373696f6e000000070010000000008000\n",
        status: 0,
        calls: b"\
            call channel_open_direct_tcpip 2 6578616d706c652e6f7267 443 3139322e302e322e37 50000\n\
            call channel_open_forwarded_tcpip 3 6578616d706c652e6f7267 443 3139322e302e322e3\
            7 50000\n\
            call channel_open_x11 4 3139322e3136382e372e3338 6010\n\
            call channel_open_direct_streamlocal 5 2f72756e2f6170702e736f636b\n\
            call channel_open_session 6\n",
        trace: b"\
            input 3\n\
            send 2 5c00000007000000010000001b61646d696e6973747261746976656c792070726f68696269746564\
            00000002656e\n\
            input 4\n\
            send 3 5c00000007000000010000001b61646d696e6973747261746976656c792070726f68696269746564\
            00000002656e\n\
            input 5\n\
            send 4 5c00000007000000010000001b61646d696e6973747261746976656c792070726f68696269746564\
            00000002656e\n\
            input 6\n\
            send 5 5c00000007000000010000001b61646d696e6973747261746976656c792070726f68696269746564\
            00000002656e\n\
            input 7\n\
            send 6 5c00000007000000010000001b61646d696e6973747261746976656c792070726f68696269746564\
            00000002656e\n\
            input 8\n\
            ok\n",
    },
    Row {
        shows: "each of the five types may be answered later, in any order",
        settings: b"answer open hold\n",
        inputs: b"\
            recv 5a0000000c6469726563742d74637069700000000700100000000080000000000b6578616d706c652e\
            6f7267000001bb000000093139322e302e322e370000c350\n\
            recv 5a0000000f666f727761726465642d74637069700000000700100000000080000000000b6578616d70\
            6c652e6f7267000001bb000000093139322e302e322e370000c350\n\
            recv 5a000000037831310000000700100000000080000000000c3139322e3136382e372e33380000177a\n\
            recv 5a0000001e6469726563742d73747265616d6c6f63616c406f70656e7373682e636f6d000000070010\
            0000000080000000000d2f72756e2f6170702e736f636b0000000000000000\n\
            recv 5a0000000773657373696f6e000000070010000000008000\n\
            accept 6\n\
            reject 5 2\n\
            accept 4\n\
            reject 3 3\n\
            accept 2\n",
        status: 0,
        calls: b"\
            call channel_open_direct_tcpip 2 6578616d706c652e6f7267 443 3139322e302e322e37 50000\n\
            call channel_open_forwarded_tcpip 3 6578616d706c652e6f7267 443 3139322e302e322e3\
            7 50000\n\
            call channel_open_x11 4 3139322e3136382e372e3338 6010\n\
            call channel_open_direct_streamlocal 5 2f72756e2f6170702e736f636b\n\
            call channel_open_session 6\n",
        trace: b"\
            input 3\n\
            input 4\n\
            input 5\n\
            input 6\n\
            input 7\n\
            input 8\n\
            notice 6 Ready 1048576 32768\n\
            done 1 accepted\n\
            send 6 5b00000007000000060020000000008000\n\
            input 9\n\
            done 2 accepted\n\
            send 5 5c00000007000000020000000e636f6e6e656374206661696c656400000002656e\n\
            input 10\n\
            notice 4 Ready 1048576 32768\n\
            done 3 accepted\n\
            send 4 5b00000007000000040020000000008000\n\
            input 11\n\
            done 4 accepted\n\
            send 3 5c000000070000000300000014756e6b6e6f776e206368616e6e656c207479706500000002656e\n\
            input 12\n\
            notice 2 Ready 1048576 32768\n\
            done 5 accepted\n\
            send 2 5b00000007000000020020000000008000\n\
            input 13\n\
            ok\n",
    },
    Row {
        shows: "types that are not served have one answer each, and use a number up",
        settings: b"",
        inputs: b"\
            recv 5a00000021666f727761726465642d73747265616d6c6f63616c406f70656e7373682e636f6d000000\
            0700100000000080000000000d2f72756e2f6170702e736f636b00000000\n\
            recv 5a00000016617574682d6167656e74406f70656e7373682e636f6d000000070010000000008000\n\
            recv 5a0000000178000000070010000000008000\n\
            recv 5a0000000773657373696f6e000000070010000000008000\n",
        status: 0,
        calls: b"call channel_open_session 5\n",
        trace: b"\
            input 3\n\
            send 2 5c000000070000000100000018556e737570706f72746564206368616e6e656c2074797065000000\
            02656e\n\
            input 4\n\
            send 3 5c000000070000000100000018556e737570706f72746564206368616e6e656c2074797065000000\
            02656e\n\
            input 5\n\
            send 4 5c000000070000000300000014556e6b6e6f776e206368616e6e656c207479706500000002656e\n\
            input 6\n\
            notice 5 Ready 1048576 32768\n\
            send 5 5b00000007000000050020000000008000\n\
            input 7\n\
            ok\n",
    },
    Row {
        shows: "of an unknown type nothing behind the packet size is read",
        settings: b"",
        inputs: b"\
            recv 5a00000013756e6b6e6f776e406578616d706c652e636f6d000000070010000000008000ff00ff\n",
        status: 0,
        calls: b"",
        trace: b"\
            input 3\n\
            send 2 5c000000070000000300000014556e6b6e6f776e206368616e6e656c207479706500000002656e\n\
            input 4\n\
            ok\n",
    },
    Row {
        shows: "\
            once the peer gave up opening sessions one is refused, and other channels are not \
            (OpenSSH PROTOCOL section 2.2)",
        settings: b"",
        inputs: b"\
            recv 500000001c6e6f2d6d6f72652d73657373696f6e73406f70656e7373682e636f6d00\n\
            recv 5a0000000773657373696f6e000000070010000000008000\n\
            recv 500000001c6e6f2d6d6f72652d73657373696f6e73406f70656e7373682e636f6d01\n\
            recv 5a000000037831310000000700100000000080000000000c3139322e3136382e372e333800\
            00177a\n",
        status: 0,
        calls: b"call channel_open_x11 3 3139322e3136382e372e3338 6010\n",
        trace: b"\
            input 3\n\
            input 4\n\
            send 2 5c0000000700000001000000104e6f206d6f72652073657373696f6e7300000002656e\n\
            input 5\n\
            send - 51\n\
            input 6\n\
            notice 3 Ready 1048576 32768\n\
            send 3 5b00000007000000030020000000008000\n\
            input 7\n\
            ok\n",
    },
    Row {
        shows: "behind the flag of giving up sessions nothing stands",
        settings: b"",
        inputs: b"\
            recv 500000001c6e6f2d6d6f72652d73657373696f6e73406f70656e7373682e636f6d0000\n",
        status: 1,
        calls: b"",
        trace: b"\
            input 3\n\
            error Encoding\n",
    },
];

#[test]
fn opens_of_the_peer(rt: HostRuntime) {
    for row in &OPENS {
        assert!(rt; row.holds(rt.alloc()), "{}", row.shows);
    }
}
