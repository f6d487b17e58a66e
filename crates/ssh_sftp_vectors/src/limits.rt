// What is refused for its size or number, with nothing lost.
use crate::talk::Talk;
use ssh_sftp::SftpError;
use ssh_wire::put_bytes;
use std::alloc::Global;
use std::test::*;

const INIT: &[u8] = b"\x01\0\0\0\x03";

// OPEN of /a to read, write and create.
const OPEN: &[u8] = b"\x03\0\0\0\x07\0\0\0\x02/a\0\0\0\x0b\0\0\0\0";

const OK: &[u8] = b"e\0\0\0\x07\0\0\0\0\0\0\0\x02ok\0\0\0\0";

const FAILURE: &[u8] = b"e\0\0\0\x07\0\0\0\x04\0\0\0\x07failure\0\0\0\0";

// Asks the same so often.
fn ask_often(talk: &mut Talk, packet: &[u8], times: usize) -> Result<(), SftpError> {
    for _ in 0..times {
        talk.ask(packet, 1000)?;
    }
    Ok(())
}

// What is asked after 256 OPENs, and what is told.
const HANDLES: [(&[u8], &[u8]); 5] = [
    (OPEN, FAILURE),
    (b"\x04\0\0\0\x07\0\0\0\x04\0\0\0\x05", OK),
    (OPEN, b"f\0\0\0\x07\0\0\0\x04\0\0\x01\x01"),
    (OPEN, FAILURE),
    // FSTAT by the last handle before.
    (
        b"\x08\0\0\0\x07\0\0\0\x04\0\0\x01\0",
        b"i\0\0\0\x07\0\0\0\x01\0\0\0\0\0\0\0\0",
    ),
];

// Whether all rows are answered as they say.
fn are_told(talk: &mut Talk, rows: &[(&[u8], &[u8])]) -> Result<bool, SftpError> {
    for (packet, answer) in rows {
        talk.ask(packet, 1000)?;
        if !talk.tells(answer) {
            return Ok(false);
        }
    }
    Ok(true)
}

#[test]
fn a_handle_more_than_256_is_refused_until_one_is_closed(rt: HostRuntime) {
    let mut talk = Talk::new(rt.alloc());
    assert!(rt; talk.ask(INIT, 1000) == Ok(()));
    assert!(rt; ask_often(&mut talk, OPEN, 256) == Ok(()));
    assert!(rt; talk.tells(b"f\0\0\0\x07\0\0\0\x04\0\0\x01\0"));
    assert!(rt; are_told(&mut talk, &HANDLES) == Ok(true));
}

// WRITEs up to and past 2^24 bytes, and what stands then.
const SIZES: [(&[u8], &[u8]); 6] = [
    (OPEN, b"f\0\0\0\x07\0\0\0\x04\0\0\0\x01"),
    // "ab" at 2^24 - 2: up to the last byte.
    (
        b"\x06\0\0\0\x07\0\0\0\x04\0\0\0\x01\0\0\0\0\0\xff\xff\xfe\0\0\0\x02ab",
        OK,
    ),
    // "cd" at 2^24 - 1: one byte too many.
    (
        b"\x06\0\0\0\x07\0\0\0\x04\0\0\0\x01\0\0\0\0\0\xff\xff\xff\0\0\0\x02cd",
        FAILURE,
    ),
    // "cd" at 2^64 - 1.
    (
        b"\x06\0\0\0\x07\0\0\0\x04\0\0\0\x01\xff\xff\xff\xff\xff\xff\xff\xff\0\0\0\x02cd",
        FAILURE,
    ),
    // FSTAT: 2^24 bytes.
    (
        b"\x08\0\0\0\x07\0\0\0\x04\0\0\0\x01",
        b"i\0\0\0\x07\0\0\0\x01\0\0\0\0\x01\0\0\0",
    ),
    // READ of 16 bytes at 2^24 - 3: a zero and "ab".
    (
        b"\x05\0\0\0\x07\0\0\0\x04\0\0\0\x01\0\0\0\0\0\xff\xff\xfd\0\0\0\x10",
        b"g\0\0\0\x07\0\0\0\x03\0ab",
    ),
];

#[test]
fn a_write_past_16_mebibytes_is_refused_and_changes_nothing(rt: HostRuntime) {
    let mut talk = Talk::new(rt.alloc());
    assert!(rt; talk.ask(INIT, 1000) == Ok(()));
    assert!(rt; are_told(&mut talk, &SIZES) == Ok(true));
}

// The handle, the offset 0 and the length of a WRITE that fills a packet of 262144 bytes.
const LARGEST: &[u8] = b"\x06\0\0\0\x07\0\0\0\x04\0\0\0\x01\0\0\0\0\0\0\0\0";

const LARGEST_DATA: usize = 262144 - 21 - 4;

fn largest(alloc: Global, packet: &mut Vec<u8>) -> Result<(), SftpError> {
    packet.extend_from_slice(LARGEST)?;
    let mut data = Vec::new(alloc);
    let filled = data.resize(LARGEST_DATA, 0x61);
    let put = put_bytes(packet, &data);
    drop(data);
    filled?;
    put?;
    Ok(())
}

// After it: the size, and 65536 bytes of 100000 that are asked for.
fn is_read(talk: &mut Talk) -> Result<bool, SftpError> {
    talk.ask(b"\x08\0\0\0\x07\0\0\0\x04\0\0\0\x01", 1000)?;
    let sized = talk.tells(b"i\0\0\0\x07\0\0\0\x01\0\0\0\0\0\x03\xff\xe7");
    talk.ask(
        b"\x05\0\0\0\x07\0\0\0\x04\0\0\0\x01\0\0\0\0\0\0\0\x01\0\x01\x86\xa0",
        1000,
    )?;
    Ok(sized && talk.out().len() == 4 + 1 + 4 + 4 + 65536)
}

#[test]
fn a_packet_of_262144_bytes_is_taken_and_a_read_gives_65536(rt: HostRuntime) {
    let mut talk = Talk::new(rt.alloc());
    assert!(rt; talk.ask(INIT, 1000) == Ok(()));
    assert!(rt; talk.ask(OPEN, 1000) == Ok(()));
    let mut packet = Vec::new(rt.alloc());
    assert!(rt; largest(rt.alloc(), &mut packet) == Ok(()));
    assert!(rt; talk.ask(&packet, 4096) == Ok(()));
    assert!(rt; talk.tells(OK));
    assert!(rt; is_read(&mut talk) == Ok(true));
}
