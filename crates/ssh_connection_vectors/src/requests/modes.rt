// The modes of a terminal (RFC 4254 section 8).
use super::{INCONSISTENT, Outcome, Request, comes_to};
use std::alloc::{AllocError, Global};
use std::test::*;

// Whether this comes of a request for a terminal with these modes.
fn comes_of_modes(alloc: Global, modes: &[u8], wanted: Outcome<'_>) -> bool {
    let length = u32::try_from(modes.len()).unwrap_or(0).to_be_bytes();
    let request = Request {
        name: b"pty-req",
        flag: 1,
        rest: [
            b"\0\0\0\x05xterm\0\0\0\x50\0\0\0\x18\0\0\0\0\0\0\0\0",
            &length,
            modes,
        ],
    };
    comes_to(alloc, b"", request, wanted)
}

// Whether the callback is told these modes.
fn are_told(alloc: Global, modes: &[u8], told: &[u8]) -> bool {
    let wanted = Outcome {
        status: 0,
        calls: [b"call pty_request 2 787465726d 80 24 0 0 ", told, b"\n"],
        trace: [
            b"notice 2 RequestPty 1 787465726d 80 24 0 0 ",
            told,
            b"\nsend 2 6300000007\ninput 5\nok\n",
        ],
    };
    comes_of_modes(alloc, modes, wanted)
}

// Modes, and how they are told.
static MODES: [(&[u8], &[u8]); 7] = [
    (b"", b"-"),
    (b"\0", b"-"),
    // A code of no mode counts as 0 without a value, and the list goes on.
    (b"\x13\0\0\0\x05\0", b"0:0"),
    (b"\xff\0\0\0\x05\x01\0\0\0\x03\0", b"0:0,1:3"),
    // The end of the string ends the list too.
    (b"\x01\0\0\0\x03", b"1:3"),
    // A mode may come twice, in any order, with any value.
    (
        b"\x81\xff\xff\xff\xff\x80\0\0\x96\0\x81\0\0\0\0\0",
        b"129:4294967295,128:38400,129:0",
    ),
    (b"\x5d\0\0\0\x01", b"93:1"),
];

#[test]
fn modes_are_told_in_order(rt: HostRuntime) {
    for (modes, told) in &MODES {
        assert!(rt;
            are_told(rt.alloc(), *modes, *told),
            "{}",
            told.escape_ascii()
        );
    }
}

// Modes that break off within a value, or go on behind their end.
static BAD_MODES: [&[u8]; 7] = [
    b"\0\0",
    b"\0\x01\0\0\0\x03",
    b"\x01",
    b"\x01\0\0\0",
    b"\x13\0\0\0",
    b"\x01\0\0\0\x03\x35",
    b"\x01\0\0\0\x03\0\0",
];

#[test]
fn modes_that_do_not_end(rt: HostRuntime) {
    for (place, modes) in BAD_MODES.iter().enumerate() {
        assert!(rt; comes_of_modes(rt.alloc(), *modes, INCONSISTENT), "{place}");
    }
}

// So many times the piece, and then the end.
fn repeated(alloc: Global, piece: &[u8], count: usize, end: &[u8]) -> Result<Vec<u8>, AllocError> {
    let mut whole = piece.repeat(alloc, count)?;
    whole.extend_from_slice(end)?;
    Ok(whole)
}

// Whether a terminal may have 130 modes, with this behind them, and not one more.
fn is_most(alloc: Global, end: &[u8]) -> Result<bool, AllocError> {
    let told = repeated(alloc, b"1:3,", 129, b"1:3")?;
    let modes = repeated(alloc, b"\x01\0\0\0\x03", 130, end)?;
    let may_be = are_told(alloc, modes.as_slice(), told.as_slice());
    let modes = repeated(alloc, b"\x01\0\0\0\x03", 131, end)?;
    Ok(comes_of_modes(alloc, modes.as_slice(), INCONSISTENT) && may_be)
}

#[test]
fn a_terminal_has_at_most_130_modes(rt: HostRuntime) {
    assert!(rt; is_most(rt.alloc(), b"") == Ok(true));
    assert!(rt; is_most(rt.alloc(), b"\0") == Ok(true));
}
