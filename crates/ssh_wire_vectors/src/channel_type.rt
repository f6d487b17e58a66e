// The ends of forwarded connections (RFC 4254 section 7.2, OpenSSH PROTOCOL section 2.4).
use ssh_wire::{Reader, StreamLocalChannelInfo, TcpChannelInfo, WireError};
use std::alloc::Global;
use std::test::*;

const SHORT: Result<bool, WireError> = Err(WireError::Short);

const NOT_UTF8: Result<bool, WireError> = Err(WireError::NotUtf8);

fn first(bytes: &[u8], count: usize) -> &[u8] {
    bytes.split_at(count.min(bytes.len())).0
}

// Two addresses with their ports, and a byte more.
const ADDRESSES: &[u8] = b"\0\0\0\x03far\0\0\0\x50\0\0\0\x04here\0\0\x01\0\xff";

fn is_wanted(info: &TcpChannelInfo) -> bool {
    let ports = (info.port_to_connect, info.originator_port);
    info.host_to_connect.as_str() == "far"
        && info.originator_address.as_str() == "here"
        && ports == (80, 256)
}

// Whether they are what is wanted, or why nothing is read, and how many bytes are read.
fn addresses(alloc: Global, bytes: &[u8]) -> (Result<bool, WireError>, usize) {
    let mut r = Reader::new(bytes);
    let read = TcpChannelInfo::decode(alloc, &mut r);
    let told = match &read {
        Ok(info) => Ok(is_wanted(info)),
        Err(why) => Err(*why),
    };
    drop(read);
    (told, r.position())
}

#[test]
fn two_addresses_with_their_ports_are_read_and_no_more(rt: HostRuntime) {
    let alloc = rt.alloc();
    assert!(rt; addresses(alloc, ADDRESSES) == (Ok(true), 23));
    assert!(rt; addresses(alloc, b"\0\0\0\x01\xff") == (NOT_UTF8, 0));
    for count in 0..23 {
        assert!(rt;
            addresses(alloc, first(ADDRESSES, count)) == (SHORT, 0),
            "{count} bytes"
        );
    }
}

// A path, and four bytes more.
const PATH: &[u8] = b"\0\0\0\x02/s\0\0\0\0";

fn path(alloc: Global, bytes: &[u8]) -> (Result<bool, WireError>, usize) {
    let mut r = Reader::new(bytes);
    let read = StreamLocalChannelInfo::decode(alloc, &mut r);
    let told = match &read {
        Ok(info) => Ok(info.socket_path.as_str() == "/s"),
        Err(why) => Err(*why),
    };
    drop(read);
    (told, r.position())
}

#[test]
fn the_path_of_a_socket_is_read_and_no_more(rt: HostRuntime) {
    let alloc = rt.alloc();
    assert!(rt; path(alloc, PATH) == (Ok(true), 6));
    assert!(rt; path(alloc, b"\0\0\0\x02/\xff") == (NOT_UTF8, 0));
    for count in 0..6 {
        assert!(rt;
            path(alloc, first(PATH, count)) == (SHORT, 0),
            "{count} bytes"
        );
    }
}
