// The names of signals (RFC 4254 section 6.10).
use ssh_wire::{Sig, Text, WireError};
use std::alloc::Global;
use std::test::*;

const SIGNALS: [(&str, Sig); 13] = [
    ("ABRT", Sig::ABRT),
    ("ALRM", Sig::ALRM),
    ("FPE", Sig::FPE),
    ("HUP", Sig::HUP),
    ("ILL", Sig::ILL),
    ("INT", Sig::INT),
    ("KILL", Sig::KILL),
    ("PIPE", Sig::PIPE),
    ("QUIT", Sig::QUIT),
    ("SEGV", Sig::SEGV),
    ("TERM", Sig::TERM),
    ("USR1", Sig::USR1),
    ("USR2", Sig::USR2),
];

fn is_this<T: PartialEq + Drop>(one: T, other: &T) -> bool {
    one == *other
}

// Whether the signal is read by this name, has it, and is copied.
fn is_named(alloc: Global, name: &str, wanted: &Sig) -> Result<bool, WireError> {
    let is_read = is_this(Sig::from_name(alloc, name)?, wanted);
    let is_copied = is_this(wanted.copy()?, wanted);
    Ok(is_read && is_copied && wanted.name() == name)
}

#[test]
fn a_name_of_the_standard_gives_its_signal(rt: HostRuntime) {
    for (name, wanted) in &SIGNALS {
        assert!(rt; is_named(rt.alloc(), name, wanted) == Ok(true), "{name}");
    }
}

static OTHERS: [&str; 4] = ["SIGHUP", "hup", "WINCH@example.com", ""];

fn is_own(alloc: Global, name: &str) -> Result<bool, WireError> {
    let wanted = Sig::Custom(Text::new(alloc, name)?);
    let is_named = is_named(alloc, name, &wanted);
    drop(wanted);
    is_named
}

#[test]
fn any_other_name_is_a_signal_of_its_own(rt: HostRuntime) {
    for name in &OTHERS {
        assert!(rt; is_own(rt.alloc(), *name) == Ok(true), "{name}");
    }
}
