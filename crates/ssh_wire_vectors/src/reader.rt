// The fields of messages (RFC 4251 section 5).
use ssh_wire::{Reader, WireError, put_bytes, put_text, put_u8, put_u32, put_u64};
use std::alloc::Global;
use std::test::*;

// The first two are the examples of RFC 4251 section 5.
const WRITTEN: &[u8] =
    b"\x29\xb7\xf4\xaa\0\0\0\x07testing\x5a\x01\x02\x03\x04\x05\x06\x07\x08\0\0\0\x02\xff\0";

fn put(out: &mut Vec<u8>) -> Result<(), WireError> {
    put_u32(out, 699921578)?;
    put_text(out, "testing")?;
    put_u8(out, 90)?;
    put_u64(out, 0x0102030405060708)?;
    put_bytes(out, b"\xff\0")
}

fn are_read(r: &mut Reader<'_>) -> bool {
    r.u32() == Ok(699921578)
        && r.text() == Ok("testing")
        && r.u8() == Ok(90)
        && r.u64() == Ok(0x0102030405060708)
}

// Whether the last field is no text, a refusal moves nothing, and bytes end what was written.
fn is_end(r: &mut Reader<'_>) -> bool {
    r.ahead().rest() == b"\0\0\0\x02\xff\0".as_slice()
        && r.text() == Err(WireError::NotUtf8)
        && r.end() == Err(WireError::Trailing { left: 6 })
        && r.bytes() == Ok(b"\xff\0".as_slice())
        && r.position() == WRITTEN.len()
        && r.end() == Ok(())
}

fn is_written(alloc: Global) -> bool {
    let mut out = Vec::new(alloc);
    put(&mut out) == Ok(()) && out.as_slice() == WRITTEN
}

#[test]
fn a_written_field_is_read_again(rt: HostRuntime) {
    assert!(rt; is_written(rt.alloc()));
    let mut r = Reader::new(WRITTEN);
    assert!(rt; are_read(&mut r) && is_end(&mut r));
}

fn refusals() -> [Option<WireError>; 5] {
    [
        Reader::new(b"").u8().err(),
        Reader::new(b"\0\0\0").u32().err(),
        Reader::new(b"\0\0\0\0\0\0\0").u64().err(),
        Reader::new(b"\0\0\0\x02a").bytes().err(),
        Reader::new(b"\0\0\0\x02\xff").text().err(),
    ]
}

#[test]
fn a_field_that_is_cut_short_is_refused(rt: HostRuntime) {
    assert!(rt; refusals() == [Some(WireError::Short); 5]);
}
