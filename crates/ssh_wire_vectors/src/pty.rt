// The modes of a terminal: their codes (RFC 4254 section 8, RFC 8160), and lists of them in order.
use ssh_wire::{Modes, Pty, WireError};
use std::test::*;

static CODES: [(&str, u8, Option<Pty>); 20] = [
    ("the end of the modes is no mode", 0, None),
    ("the first special character", 1, Some(Pty::VINTR)),
    ("the last special character", 18, Some(Pty::VDISCARD)),
    ("no mode follows the characters", 19, None),
    ("no mode precedes those of input", 29, None),
    ("the first mode of input", 30, Some(Pty::IGNPAR)),
    ("the mode of RFC 8160", 42, Some(Pty::IUTF8)),
    ("no mode follows those of input", 43, None),
    ("the first local mode", 50, Some(Pty::ISIG)),
    ("a local mode", 53, Some(Pty::ECHO)),
    ("the last local mode", 62, Some(Pty::PENDIN)),
    ("the first mode of output", 70, Some(Pty::OPOST)),
    ("the last mode of output", 75, Some(Pty::ONLRET)),
    ("the first control mode", 90, Some(Pty::CS7)),
    ("the last control mode", 93, Some(Pty::PARODD)),
    ("no mode precedes the speeds", 127, None),
    ("the speed of input", 128, Some(Pty::TTY_OP_ISPEED)),
    ("the speed of output", 129, Some(Pty::TTY_OP_OSPEED)),
    ("no mode follows the speeds", 130, None),
    ("the last code", 255, None),
];

#[test]
fn a_code_gives_the_mode_that_the_standard_gives_it(rt: HostRuntime) {
    for (shows, code, wanted) in &CODES {
        assert!(rt; Pty::from_u8(*code) == *wanted, "{shows}");
    }
}

static MODES: [(Pty, u32); 3] = [(Pty::ECHO, 1), (Pty::ECHO, 0), (Pty::TTY_OP_END, 0)];

fn is_copied(modes: &Modes) -> Result<bool, WireError> {
    Ok(modes.copy()?.as_slice() == MODES.as_slice())
}

#[test]
fn modes_are_kept_and_copied_in_order(rt: HostRuntime) {
    let mut modes = Modes::new(rt.alloc());
    for mode in &MODES {
        assert!(rt; modes.push(*mode) == Ok(()));
    }
    assert!(rt; modes.as_slice() == MODES.as_slice());
    assert!(rt; is_copied(&modes) == Ok(true));
}
