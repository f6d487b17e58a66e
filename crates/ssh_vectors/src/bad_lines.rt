// Lines that are no lines of a script.
use ssh_scene::{BadLine, LineFault, bad_line};
use ssh_scripted::{Outcome, comes_to};
use std::alloc::Global;
use std::test::*;

static BAD_LINES: [&[u8]; 113] = [
    b"recv",
    b"recv ",
    b"recv 0",
    b"recv 0g",
    b"recv 00 ",
    b"recv  00",
    b"recv\t00",
    b" ",
    b"end ",
    b"End",
    b"inputs 01",
    b"inputs +1",
    b"inputs 18446744073709551616",
    b"config accept 1",
    b"answer none",
    b"answer none hold",
    b"answer banner accept",
    b"at -1\r",
    b"banner",
    b"banner ",
    b"banner 6",
    b"banner ff",
    b"banner 68 69",
    b"answer interactive",
    b"answer interactive Ask",
    b"answer interactive ask ",
    b"answer password ask",
    b"data 2",
    b"data 2 ",
    b"data  61",
    b"data 2 6",
    b"data 4294967296 61",
    b"data 02 61",
    b"data x 61",
    b"eof",
    b"eof ",
    b"eof 2 ",
    b"eof 4294967296",
    b"close -1",
    b"close 2 2",
    b"open",
    b"open ",
    b"open  session",
    b"open session ",
    b"open session 2",
    b"open Session",
    b"open x11",
    b"accept",
    b"accept 2 1",
    b"reject 2",
    b"reject 2 0",
    b"reject 2 5",
    b"answer open fail",
    b"answer request",
    b"answer request ",
    b"answer request accept",
    b"answer request Success",
    b"answer request silent 2",
    b"success",
    b"success ",
    b"success 02",
    b"success 4294967296",
    b"success 2 1",
    b"failure",
    b"failure -1",
    b"failure 2 1",
    b"status",
    b"status 2",
    b"status 2 ",
    b"status 2 01",
    b"status 2 4294967296",
    b"status 4294967296 0",
    b"status 2 -1",
    b"status 2 0 0",
    b"config keepalive",
    b"config keepalive 01",
    b"config keepalive 18446744073709551616",
    b"answer forward",
    b"answer forward yes",
    b"answer forward Yes 1",
    b"answer forward yes 4294967296",
    b"answer forward no 1",
    b"forward",
    b"forward 61",
    b"forward 61 0",
    b"forward 61 0 5 6",
    b"forward 61 4294967296 5",
    b"forward 61 0 18446744073709551616",
    b"forward 6 0 5",
    b"forward ff 0 5",
    b"disconnect",
    b"disconnect 11",
    b"disconnect 0 61",
    b"disconnect 16 61",
    b"disconnect 11 ff",
    b"disconnect 11 61 62",
    b"tick",
    b"tick ",
    b"tick Keepalive",
    b"tick silence",
    b"tick inactivity 1",
    b"sign",
    b"\
        sign 0000000b7373682d6564323535313900000020111111111111111111111111111111111111111111\
        1111111111111111111111",
    b"\
        sign 0000000b7373682d6564323535313900000020111111111111111111111111111111111111111111\
        1111111111111111111111 ssh-ed25519 00",
    b"\
        sign 0000000b7373682d6564323535313900000020111111111111111111111111111111111111111111\
        1111111111111111111111 ssh-ed25519 00 11 22",
    b"\
        sign 0000000b7373682d6564323535313900000020111111111111111111111111111111111111111111\
        1111111111111111111111 ssh-ed25519-cert-v01@openssh.com 00 11",
    b"\
        sign 0000000b7373682d6564323535313900000020111111111111111111111111111111111111111111\
        1111111111111111111111 ssh-dss 00 11",
    b"\
        sign 0000000b7373682d6564323535313900000020111111111111111111111111111111111111111111\
        111111111111111111111100 ssh-ed25519 00 11",
    b"sign - ssh-ed25519 00 11",
    b"\
        sign 0000000b7373682d6564323535313900000020111111111111111111111111111111111111111111\
        1111111111111111111111 ssh-ed25519  00",
    b"answer publickey",
    b"answer offered hold",
    b"answer certificate Accept",
];

// Whether this alone is written for the script, which has a bad line.
fn is_bad(alloc: Global, script: &[u8], written: &[u8]) -> bool {
    comes_to(
        alloc,
        &["run"],
        script,
        (&[], &[]),
        Outcome { status: 2, written },
    )
}

#[test]
fn bad_lines(rt: HostRuntime) {
    for (place, line) in BAD_LINES.iter().enumerate() {
        assert!(rt; is_bad(rt.alloc(), *line, b"bad line 1\n"), "{place}");
    }
}

#[test]
fn a_bad_line_behind_another(rt: HostRuntime) {
    assert!(rt; is_bad(rt.alloc(), b"at 5\nbanner 68690a\n", b"bad line 2\n"));
}

// Scripts, the number of the first bad line, and why it is bad.
static FAULTS: [(&[u8], u64, LineFault); 19] = [
    (b"recieve 00", 1, LineFault::UnknownWord),
    (b"config colour 1", 1, LineFault::UnknownWord),
    (b"tick silence", 1, LineFault::UnknownWord),
    (b"answer none hold", 1, LineFault::UnknownWord),
    (b"sign - ssh-ed25519 00 11", 1, LineFault::Key),
    (b"recv", 1, LineFault::WordCount),
    (b"recv  00", 1, LineFault::WordCount),
    (b"recv 00 ", 1, LineFault::WordCount),
    (b"end 1", 1, LineFault::WordCount),
    (b"inputs 01", 1, LineFault::Number),
    (b"config window 4294967296", 1, LineFault::Number),
    (b"answer forward yes 4294967296", 1, LineFault::Number),
    (b"at 1\nreject 2 5", 2, LineFault::Number),
    (b"at 1\n\ndisconnect 16 61\nrecv", 3, LineFault::Number),
    (b"recv 0g", 1, LineFault::Hex),
    (b"data 2 6", 1, LineFault::Hex),
    (b"banner ff", 1, LineFault::Text),
    (b"\xff", 1, LineFault::NotText),
    (b"at 1\ninputs 5", 2, LineFault::SettingAfterInput),
];

// Whether the first bad line of this script is told so; without memory it is not.
fn is_told(alloc: Global, script: &[u8], number: u64, fault: LineFault) -> bool {
    bad_line(alloc, script) == Ok(Some(BadLine { number, fault }))
}

#[test]
fn a_bad_line_is_told_with_its_fault(rt: HostRuntime) {
    for (script, number, fault) in &FAULTS {
        assert!(rt; is_told(rt.alloc(), *script, *number, *fault));
    }
    assert!(rt; bad_line(rt.alloc(), b"at 1\nend\n") == Ok(None));
}
