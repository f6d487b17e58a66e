// Runs of the service, of authentication and of their end: scripts, and what the program writes.
ghost use Rattle.std.specs.Prelude.{None};

use ssh_scripted::{Case, Outcome, comes_to};
use std::alloc::{AllocError, Global};
use std::test::*;

// The request for the service ssh-userauth.
const SERVICE: &[u8] = b"recv 050000000c7373682d7573657261757468\n";

static RUNS: [Case; 16] = [
    Case {
        shows: "a request for the service ssh-userauth; the last line needs no end",
        script: b"recv 050000000c7373682d7573657261757468",
        status: 0,
        written: b"\
            call authentication_banner\n\
            input 1\n\
            send - 060000000c7373682d7573657261757468\n\
            input 2\nok\n",
    },
    Case {
        shows: "a byte after the service",
        script: b"recv 050000000c7373682d757365726175746800\n",
        status: 1,
        written: b"input 1\nerror Encoding\n",
    },
    Case {
        shows: "a user is let in by method none",
        script: b"\
            answer none accept\n\
            recv 050000000c7373682d7573657261757468\n\
            recv 3200000005616c6963650000000e7373682d636f6e6e656374696f6e000000046e6f6e65\n",
        status: 0,
        written: b"\
            call authentication_banner\n\
            call auth_none 616c696365\n\
            call auth_succeeded\n\
            input 1\n\
            send - 060000000c7373682d7573657261757468\n\
            input 2\n\
            send - 34\n\
            input 3\nok\n",
    },
    Case {
        shows: "a first request of method none has a hold of its own, from its moment on",
        script: b"\
            config reject-initial 10\n\
            at 5000\n\
            recv 050000000c7373682d7573657261757468\n\
            recv 3200000005616c6963650000000e7373682d636f6e6e656374696f6e000000046e6f6e65\n",
        status: 0,
        written: b"\
            call authentication_banner\n\
            call auth_none 616c696365\n\
            input 1\n\
            send - 060000000c7373682d7573657261757468\n\
            input 2\n\
            send - 330000003170617373776f72642c7075626c69636b65792c686f737462617365642c6b6579\
            626f6172642d696e74657261637469766500 hold 5010\n\
            input 3\nok\n",
    },
    Case {
        shows: "\
            none by alice, a wrong password of hers, and none by bob, who has all methods again",
        script: b"\
            recv 050000000c7373682d7573657261757468\n\
            recv 3200000005616c6963650000000e7373682d636f6e6e656374696f6e000000046e6f6e65\n\
            recv 3200000005616c6963650000000e7373682d636f6e6e656374696f6e0000000870617373776f\
            7264000000000577726f6e67\n\
            recv 3200000003626f620000000e7373682d636f6e6e656374696f6e000000046e6f6e65\n",
        status: 0,
        written: b"\
            call authentication_banner\n\
            call auth_none 616c696365\n\
            call auth_password 616c696365 77726f6e67\n\
            call auth_none 626f62\n\
            input 1\n\
            send - 060000000c7373682d7573657261757468\n\
            input 2\n\
            send - 330000003170617373776f72642c7075626c69636b65792c686f737462617365642c6b6579\
            626f6172642d696e74657261637469766500 hold 1000\n\
            input 3\n\
            send - 33000000287075626c69636b65792c686f737462617365642c6b6579626f6172642d696e74\
            657261637469766500 hold 1000\n\
            input 4\n\
            send - 330000003170617373776f72642c7075626c69636b65792c686f737462617365642c6b6579\
            626f6172642d696e74657261637469766500 hold 1000\n\
            input 5\nok\n",
    },
    Case {
        shows: "after three rejections a fourth request meets a cap of three",
        script: b"\
            config attempts 3\n\
            recv 050000000c7373682d7573657261757468\n\
            recv 3200000005616c6963650000000e7373682d636f6e6e656374696f6e000000046e6f6e65\n\
            recv 3200000005616c6963650000000e7373682d636f6e6e656374696f6e0000000870617373776f\
            7264000000000577726f6e67\n\
            recv 3200000003626f620000000e7373682d636f6e6e656374696f6e000000046e6f6e65\n\
            recv 32\n",
        status: 0,
        written: b"\
            call authentication_banner\n\
            call auth_none 616c696365\n\
            call auth_password 616c696365 77726f6e67\n\
            call auth_none 626f62\n\
            input 1\n\
            send - 060000000c7373682d7573657261757468\n\
            input 2\n\
            send - 330000003170617373776f72642c7075626c69636b65792c686f737462617365642c6b6579\
            626f6172642d696e74657261637469766500 hold 1000\n\
            input 3\n\
            send - 33000000287075626c69636b65792c686f737462617365642c6b6579626f6172642d696e74\
            657261637469766500 hold 1000\n\
            input 4\n\
            send - 330000003170617373776f72642c7075626c69636b65792c686f737462617365642c6b6579\
            626f6172642d696e74657261637469766500 hold 1000\n\
            input 5\n\
            send - 010000000e00000020546f6f206d616e792061757468656e7469636174696f6e2061747465\
            6d70747300000000\n\
            ok\n",
    },
    Case {
        shows: "after three rejections a fourth request is read under a cap of four",
        script: b"\
            config attempts 4\n\
            recv 050000000c7373682d7573657261757468\n\
            recv 3200000005616c6963650000000e7373682d636f6e6e656374696f6e000000046e6f6e65\n\
            recv 3200000005616c6963650000000e7373682d636f6e6e656374696f6e0000000870617373776f\
            7264000000000577726f6e67\n\
            recv 3200000003626f620000000e7373682d636f6e6e656374696f6e000000046e6f6e65\n\
            recv 32\n",
        status: 1,
        written: b"\
            call authentication_banner\n\
            call auth_none 616c696365\n\
            call auth_password 616c696365 77726f6e67\n\
            call auth_none 626f62\n\
            input 1\n\
            send - 060000000c7373682d7573657261757468\n\
            input 2\n\
            send - 330000003170617373776f72642c7075626c69636b65792c686f737462617365642c6b6579\
            626f6172642d696e74657261637469766500 hold 1000\n\
            input 3\n\
            send - 33000000287075626c69636b65792c686f737462617365642c6b6579626f6172642d696e74\
            657261637469766500 hold 1000\n\
            input 4\n\
            send - 330000003170617373776f72642c7075626c69636b65792c686f737462617365642c6b6579\
            626f6172642d696e74657261637469766500 hold 1000\n\
            input 5\nerror Encoding\n",
    },
    Case {
        shows: "a change of password is refused unheard, and the password that follows is served",
        script: b"\
            config reject 0\n\
            answer password accept\n\
            recv 050000000c7373682d7573657261757468\n\
            recv 3200000005616c6963650000000e7373682d636f6e6e656374696f6e0000000870617373776f\
            726401000000036f6c64000000036e6577\n\
            recv 3200000005616c6963650000000e7373682d636f6e6e656374696f6e0000000870617373776f\
            726400000000057269676874\n",
        status: 0,
        written: b"\
            call authentication_banner\n\
            call auth_password 616c696365 7269676874\n\
            call auth_succeeded\n\
            input 1\n\
            send - 060000000c7373682d7573657261757468\n\
            input 2\n\
            send - 330000002d6e6f6e652c7075626c69636b65792c686f737462617365642c6b6579626f6172\
            642d696e74657261637469766500 hold 0\n\
            input 3\n\
            send - 34\n\
            input 4\nok\n",
    },
    Case {
        shows: "a method that no server has takes none away",
        script: b"\
            config reject 5\n\
            answer password fail\n\
            recv 050000000c7373682d7573657261757468\n\
            at 7\n\
            recv 3200000005616c6963650000000e7373682d636f6e6e656374696f6e00000003677373\n\
            recv 3200000005616c6963650000000e7373682d636f6e6e656374696f6e0000000870617373776f\
            726400000000057269676874\n",
        status: 1,
        written: b"\
            call authentication_banner\n\
            call auth_password 616c696365 7269676874\n\
            input 1\n\
            send - 060000000c7373682d7573657261757468\n\
            input 2\n\
            send - 33000000366e6f6e652c70617373776f72642c7075626c69636b65792c686f737462617365\
            642c6b6579626f6172642d696e74657261637469766500 hold 12\n\
            input 3\nerror Handler\n",
    },
    Case {
        shows: "another service than ssh-connection",
        script: b"\
            recv 050000000c7373682d7573657261757468\n\
            recv 3200000005616c6963650000000c7373682d7573657261757468000000046e6f6e65\n",
        status: 1,
        written: b"\
            call authentication_banner\n\
            input 1\n\
            send - 060000000c7373682d7573657261757468\n\
            input 2\nerror Inconsistent\n",
    },
    Case {
        shows: "a byte after the password",
        script: b"\
            recv 050000000c7373682d7573657261757468\n\
            recv 3200000005616c6963650000000e7373682d636f6e6e656374696f6e0000000870617373776f\
            72640000000005726967687400\n",
        status: 1,
        written: b"\
            call authentication_banner\n\
            input 1\n\
            send - 060000000c7373682d7573657261757468\n\
            input 2\nerror Encoding\n",
    },
    Case {
        shows: "no input is asked for past the limit",
        script: b"inputs 1\nrecv 050000000c7373682d7573657261757468\n",
        status: 1,
        written: b"\
            call authentication_banner\n\
            input 1\n\
            send - 060000000c7373682d7573657261757468\n\
            error InputLimit\n",
    },
    Case {
        shows: "the last limit counts; with 0 none is asked for",
        script: b"inputs 1\ninputs 0\nrecv 050000000c7373682d7573657261757468\n",
        status: 1,
        written: b"error InputLimit\n",
    },
    Case {
        shows: "the handler fails where it is asked for a banner",
        script: b"answer banner fail\nrecv 050000000c7373682d7573657261757468\n",
        status: 1,
        written: b"call authentication_banner\ninput 1\nerror Handler\n",
    },
    Case {
        shows: "the handler fails at a request of method none",
        script: b"\
            answer none fail\n\
            recv 050000000c7373682d7573657261757468\n\
            recv 3200000005616c6963650000000e7373682d636f6e6e656374696f6e000000046e6f6e65\n",
        status: 1,
        written: b"\
            call authentication_banner\n\
            call auth_none 616c696365\n\
            input 1\n\
            send - 060000000c7373682d7573657261757468\n\
            input 2\nerror Handler\n",
    },
    Case {
        shows: "comments of any bytes, empty lines, hex in both cases, and lines behind the end",
        script: b"# any bytes: \xff\n\nsession -\nsession 00FFa0\nrecv -\nend\nat 7\nrecv 01\n",
        status: 0,
        written: b"input 1\ninput 2\nok\n",
    },
];

#[test]
fn runs(rt: HostRuntime) {
    for case in &RUNS {
        assert!(rt; case.holds(rt.alloc()), "{}", case.shows);
    }
}

// A wrong password of alice.
const WRONG_PASSWORD: &[u8] = b"\
    recv 3200000005616c6963650000000e7373682d636f6e6e656374696f6e0000000870617373776f726400000000\
    0577726f6e67\n";

const TOLD_WRONG: &[u8] = b"call auth_password 616c696365 77726f6e67\n";

// The refusal that is written for it, and the beginning of the next line.
const REFUSED: &[u8] = b"\
    \n\
    send - 330000002d6e6f6e652c7075626c69636b65792c686f737462617365642c6b6579626f6172642d696e7465\
    7261637469766500 hold 1000\n\
    input ";

const TOO_MANY: &[u8] = b"\
    \n\
    send - 010000000e00000020546f6f206d616e792061757468656e7469636174696f6e20617474656d7074730000\
    0000\n\
    ok\n";

// A run with this script ends so, and has written this.
fn runs_to(alloc: Global, script: &[u8], status: u8, written: &[u8]) -> bool {
    comes_to(
        alloc,
        &["run"],
        script,
        (&[], &[]),
        Outcome { status, written },
    )
}

// A number, and what is written behind it.
fn add_numbered(
    alloc: Global,
    written: &mut Vec<u8>,
    number: u64,
    rest: &[u8],
) -> Result<(), AllocError> {
    let digits = number.to_string(alloc)?;
    written.extend_from_slice(digits.as_bytes())?;
    written.extend_from_slice(rest)
}

// What is written where a peer sends wrong passwords, of which so many are read, and the next ends
// the run.
fn add_refusals(alloc: Global, written: &mut Vec<u8>, read: usize) -> Result<(), AllocError> {
    written.extend_from_slice(b"call authentication_banner\n")?;
    for _ in 0..read {
        written.extend_from_slice(TOLD_WRONG)?;
    }
    written.extend_from_slice(b"input 1\nsend - 060000000c7373682d7573657261757468\ninput ")?;
    let mut number: u64 = 2;
    for _ in 0..read {
        add_numbered(alloc, written, number, REFUSED)?;
        number = number.saturating_add(1);
    }
    add_numbered(alloc, written, number, TOO_MANY)
}

// The cap in the settings, and how many wrong passwords are read under it.
static CAPS: [(&[u8], usize); 3] = [
    (b"", 10),
    (b"config attempts 1\n", 1),
    (b"config attempts 3\n", 3),
];

// Eleven wrong passwords, behind this setting.
fn add_wrong_passwords(script: &mut Vec<u8>, setting: &[u8]) -> Result<(), AllocError> {
    script.extend_from_slice(setting)?;
    script.extend_from_slice(SERVICE)?;
    for _ in 0..11 {
        script.extend_from_slice(WRONG_PASSWORD)?;
    }
    Ok(())
}

// Whether so many wrong passwords are read under this setting.
fn are_read(alloc: Global, setting: &[u8], read: usize) -> bool {
    let mut script = Vec::new(alloc);
    let is_script = add_wrong_passwords(&mut script, setting) == Ok(());
    let mut written = Vec::new(alloc);
    let is_written = add_refusals(alloc, &mut written, read) == Ok(());
    is_script && is_written && runs_to(alloc, script.as_slice(), 0, written.as_slice())
}

#[test]
fn too_many_attempts(rt: HostRuntime) {
    for (setting, read) in &CAPS {
        assert!(rt; are_read(rt.alloc(), *setting, *read), "{read}");
    }
}

static LATE_SETTING: Case = Case {
    shows: "the first bad line is told: a setting behind an input line",
    script: b"inputs 5\n# no input\n\nat 1\ninputs 5\nbad too\n",
    status: 2,
    written: b"bad line 5\n",
};

#[test]
fn a_setting_after_an_input_line(rt: HostRuntime) {
    assert!(rt; LATE_SETTING.holds(rt.alloc()), "{}", LATE_SETTING.shows);
}

// The reads and the writes that fail, the status, and what is written.
static FAULTS: [(&[u64], &[u64], u8, &[u8]); 3] = [
    (&[1], &[], 3, b"read fault\n"),
    (&[2], &[], 3, b"read fault\n"),
    (&[], &[1], 4, b""),
];

#[test]
fn failing_sources_and_sinks(rt: HostRuntime) {
    for (reads, writes, status, written) in &FAULTS {
        let outcome = Outcome {
            status: *status,
            written: *written,
        };
        let failing = (*reads, *writes);
        assert!(rt; comes_to(rt.alloc(), &["run"], SERVICE, failing, outcome));
    }
}

// Whether a comment of 2^24 bytes is read, and one of a byte more is not.
fn is_longest(alloc: Global) -> Result<bool, AllocError> {
    let mut script = b"#".repeat(alloc, 16_777_216)?;
    let is_read = runs_to(alloc, script.as_slice(), 0, b"input 1\nok\n");
    script.extend_from_slice(b"#")?;
    Ok(runs_to(alloc, script.as_slice(), 2, b"script too long\n") && is_read)
}

#[test]
fn a_script_that_is_too_long(rt: HostRuntime) {
    assert!(rt; is_longest(rt.alloc()) == Ok(true));
}
