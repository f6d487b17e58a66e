// What each request is answered: bodies that fit their layouts, that are too short and too long,
// and handles that are not open. All rows go to one server, in order; each has the id 7.
use crate::talk::Talk;
use std::test::*;

const OK: &[u8] = b"e\0\0\0\x07\0\0\0\0\0\0\0\x02ok\0\0\0\0";

const EOF: &[u8] = b"e\0\0\0\x07\0\0\0\x01\0\0\0\x03eof\0\0\0\0";

const MISSING: &[u8] = b"e\0\0\0\x07\0\0\0\x02\0\0\0\x0cno such file\0\0\0\0";

const FAILURE: &[u8] = b"e\0\0\0\x07\0\0\0\x04\0\0\0\x07failure\0\0\0\0";

const BAD: &[u8] = b"e\0\0\0\x07\0\0\0\x05\0\0\0\x0bbad message\0\0\0\0";

const UNSUPPORTED: &[u8] = b"e\0\0\0\x07\0\0\0\x08\0\0\0\x0bunsupported\0\0\0\0";

// What is asked, the packet that asks it, and the packet that answers it.
type Row = (&'static str, &'static [u8], &'static [u8]);

// Before INIT nothing is asked; what follows its version are extensions.
const BEGINNINGS: [Row; 4] = [
    ("a request before INIT", b"\x11\0\0\0\x07\0\0\0\x02/a", BAD),
    ("an unknown type before INIT", b"c\0\0\0\x07", BAD),
    ("INIT", b"\x01\0\0\0\x03", b"\x02\0\0\0\x03"),
    (
        "INIT of another version, with an extension",
        b"\x01\0\0\0\x06\0\0\0\x01x\0\0\0\x01y",
        b"\x02\0\0\0\x03",
    ),
];

// OPEN: a path, flags and attributes (section 6.3).
const OPENS: [Row; 11] = [
    (
        "a file that is not there",
        b"\x03\0\0\0\x07\0\0\0\x02/a\0\0\0\x01\0\0\0\0",
        MISSING,
    ),
    (
        "a file that is made",
        b"\x03\0\0\0\x07\0\0\0\x02/a\0\0\0\x1b\0\0\0\0",
        b"f\0\0\0\x07\0\0\0\x04\0\0\0\x01",
    ),
    (
        "a path without a slash, with all attributes",
        b"\x03\0\0\0\x07\0\0\0\x01a\0\0\0\x01\
\x80\0\0\x0f\0\0\0\0\0\0\0\x09\0\0\0\x01\0\0\0\x02\
\0\0\x01\xa4\0\0\0\x03\0\0\0\x04\0\0\0\x01\0\0\0\x01k\0\0\0\x01v",
        b"f\0\0\0\x07\0\0\0\x04\0\0\0\x02",
    ),
    (
        "to append",
        b"\x03\0\0\0\x07\0\0\0\x02/a\0\0\0\x06\0\0\0\0",
        b"f\0\0\0\x07\0\0\0\x04\0\0\0\x03",
    ),
    (
        "neither to read nor to write",
        b"\x03\0\0\0\x07\0\0\0\x02/a\0\0\0\x08\0\0\0\0",
        FAILURE,
    ),
    (
        "the root",
        b"\x03\0\0\0\x07\0\0\0\x01.\0\0\0\x09\0\0\0\0",
        FAILURE,
    ),
    (
        "a file that has to be new",
        b"\x03\0\0\0\x07\0\0\0\x02/a\0\0\0*\0\0\0\0",
        FAILURE,
    ),
    (
        "no attributes at all",
        b"\x03\0\0\0\x07\0\0\0\x02/a\0\0\0\x01",
        BAD,
    ),
    (
        "a size of seven bytes",
        b"\x03\0\0\0\x07\0\0\0\x02/a\0\0\0\x01\0\0\0\x01\0\0\0\0\0\0\0",
        BAD,
    ),
    (
        "one pair of two",
        b"\x03\0\0\0\x07\0\0\0\x02/a\0\0\0\x01\x80\0\0\0\0\0\0\x02\0\0\0\x01k\0\0\0\x01v",
        BAD,
    ),
    (
        "a byte after the attributes",
        b"\x03\0\0\0\x07\0\0\0\x02/a\0\0\0\x01\0\0\0\0\0",
        BAD,
    ),
];

// WRITE: a handle, an offset and bytes (section 6.4).
const WRITES: [Row; 9] = [
    (
        "at the front",
        b"\x06\0\0\0\x07\0\0\0\x04\0\0\0\x01\0\0\0\0\0\0\0\0\0\0\0\x02hi",
        OK,
    ),
    (
        "behind the end",
        b"\x06\0\0\0\x07\0\0\0\x04\0\0\0\x01\0\0\0\0\0\0\0\x04\0\0\0\x01!",
        OK,
    ),
    (
        "to append, whatever the offset",
        b"\x06\0\0\0\x07\0\0\0\x04\0\0\0\x03\0\0\0\0\0\0\0\0\0\0\0\x01x",
        OK,
    ),
    (
        "nothing, far behind the end",
        b"\x06\0\0\0\x07\0\0\0\x04\0\0\0\x01\xff\xff\xff\xff\xff\xff\xff\xff\0\0\0\0",
        OK,
    ),
    (
        "by a handle to read",
        b"\x06\0\0\0\x07\0\0\0\x04\0\0\0\x02\0\0\0\0\0\0\0\0\0\0\0\x02no",
        FAILURE,
    ),
    (
        "an unknown handle",
        b"\x06\0\0\0\x07\0\0\0\x04\0\0\0\x04\0\0\0\0\0\0\0\0\0\0\0\x02no",
        FAILURE,
    ),
    (
        "a handle of three bytes",
        b"\x06\0\0\0\x07\0\0\0\x03\0\0\0\0\0\0\0\0\0\0\0\0\0\0\x02no",
        FAILURE,
    ),
    (
        "bytes that are cut short",
        b"\x06\0\0\0\x07\0\0\0\x04\0\0\0\x01\0\0\0\0\0\0\0\0\0\0\0\x03no",
        BAD,
    ),
    (
        "a byte after the bytes",
        b"\x06\0\0\0\x07\0\0\0\x04\0\0\0\x01\0\0\0\0\0\0\0\0\0\0\0\x02no\0",
        BAD,
    ),
];

// READ: a handle, an offset and a length (section 6.4).
const READS: [Row; 7] = [
    (
        "all",
        b"\x05\0\0\0\x07\0\0\0\x04\0\0\0\x02\0\0\0\0\0\0\0\0\0\0\0\x10",
        b"g\0\0\0\x07\0\0\0\x06hi\0\0!x",
    ),
    (
        "a part",
        b"\x05\0\0\0\x07\0\0\0\x04\0\0\0\x01\0\0\0\0\0\0\0\x01\0\0\0\x02",
        b"g\0\0\0\x07\0\0\0\x02i\0",
    ),
    (
        "at the end",
        b"\x05\0\0\0\x07\0\0\0\x04\0\0\0\x02\0\0\0\0\0\0\0\x06\0\0\0\x01",
        EOF,
    ),
    (
        "by a handle to write",
        b"\x05\0\0\0\x07\0\0\0\x04\0\0\0\x03\0\0\0\0\0\0\0\0\0\0\0\x01",
        FAILURE,
    ),
    (
        "an unknown handle",
        b"\x05\0\0\0\x07\0\0\0\x04\0\0\0\0\0\0\0\0\0\0\0\0\0\0\0\x01",
        FAILURE,
    ),
    (
        "a length of three bytes",
        b"\x05\0\0\0\x07\0\0\0\x04\0\0\0\x02\0\0\0\0\0\0\0\0\0\0\x01",
        BAD,
    ),
    (
        "a byte after the length",
        b"\x05\0\0\0\x07\0\0\0\x04\0\0\0\x02\0\0\0\0\0\0\0\0\0\0\0\x01\0",
        BAD,
    ),
];

// STAT, LSTAT and FSTAT (section 6.8).
const STATS: [Row; 12] = [
    (
        "STAT",
        b"\x11\0\0\0\x07\0\0\0\x02/a",
        b"i\0\0\0\x07\0\0\0\x01\0\0\0\0\0\0\0\x06",
    ),
    (
        "STAT of a path without a slash",
        b"\x11\0\0\0\x07\0\0\0\x01a",
        b"i\0\0\0\x07\0\0\0\x01\0\0\0\0\0\0\0\x06",
    ),
    (
        "STAT of a file that is not there",
        b"\x11\0\0\0\x07\0\0\0\x02/b",
        MISSING,
    ),
    (
        "STAT with a path that is cut short",
        b"\x11\0\0\0\x07\0\0\0\x03/a",
        BAD,
    ),
    (
        "STAT with a byte after the path",
        b"\x11\0\0\0\x07\0\0\0\x02/a\0",
        BAD,
    ),
    (
        "LSTAT",
        b"\x07\0\0\0\x07\0\0\0\x02/a",
        b"i\0\0\0\x07\0\0\0\x01\0\0\0\0\0\0\0\x06",
    ),
    ("LSTAT with no path", b"\x07\0\0\0\x07", BAD),
    (
        "LSTAT with a byte after the path",
        b"\x07\0\0\0\x07\0\0\0\x02/a\0",
        BAD,
    ),
    (
        "FSTAT",
        b"\x08\0\0\0\x07\0\0\0\x04\0\0\0\x03",
        b"i\0\0\0\x07\0\0\0\x01\0\0\0\0\0\0\0\x06",
    ),
    (
        "FSTAT of an unknown handle",
        b"\x08\0\0\0\x07\0\0\0\x011",
        FAILURE,
    ),
    ("FSTAT with no handle", b"\x08\0\0\0\x07", BAD),
    (
        "FSTAT with a byte after the handle",
        b"\x08\0\0\0\x07\0\0\0\x04\0\0\0\x01\0",
        BAD,
    ),
];

// REALPATH: only a slash is put in front (section 6.11).
const PATHS: [Row; 6] = [
    (
        "nothing",
        b"\x10\0\0\0\x07\0\0\0\0",
        b"h\0\0\0\x07\0\0\0\x01\0\0\0\x01/\0\0\0\x01/\0\0\0\0",
    ),
    (
        "here",
        b"\x10\0\0\0\x07\0\0\0\x01.",
        b"h\0\0\0\x07\0\0\0\x01\0\0\0\x01/\0\0\0\x01/\0\0\0\0",
    ),
    (
        "no slash",
        b"\x10\0\0\0\x07\0\0\0\x01b",
        b"h\0\0\0\x07\0\0\0\x01\0\0\0\x02/b\0\0\0\x02/b\0\0\0\0",
    ),
    (
        "a slash",
        b"\x10\0\0\0\x07\0\0\0\x07/b/../c",
        b"h\0\0\0\x07\0\0\0\x01\0\0\0\x07/b/../c\0\0\0\x07/b/../c\0\0\0\0",
    ),
    (
        "a path that is cut short",
        b"\x10\0\0\0\x07\0\0\0\x02b",
        BAD,
    ),
    ("a byte after the path", b"\x10\0\0\0\x07\0\0\0\x01b\0", BAD),
];

// RENAME: the old path and the new one (section 6.5).
const RENAMES: [Row; 8] = [
    (
        "a file that is not there",
        b"\x12\0\0\0\x07\0\0\0\x02/c\0\0\0\x02/b",
        MISSING,
    ),
    (
        "onto a file",
        b"\x12\0\0\0\x07\0\0\0\x02/a\0\0\0\x01a",
        FAILURE,
    ),
    (
        "to a path that is free",
        b"\x12\0\0\0\x07\0\0\0\x02/a\0\0\0\x01b",
        OK,
    ),
    (
        "READ by a handle of the old path",
        b"\x05\0\0\0\x07\0\0\0\x04\0\0\0\x02\0\0\0\0\0\0\0\0\0\0\0\x01",
        MISSING,
    ),
    (
        "STAT of the old path",
        b"\x11\0\0\0\x07\0\0\0\x02/a",
        MISSING,
    ),
    (
        "STAT of the new path",
        b"\x11\0\0\0\x07\0\0\0\x02/b",
        b"i\0\0\0\x07\0\0\0\x01\0\0\0\0\0\0\0\x06",
    ),
    ("one path alone", b"\x12\0\0\0\x07\0\0\0\x02/b", BAD),
    (
        "a byte after the paths",
        b"\x12\0\0\0\x07\0\0\0\x02/b\0\0\0\x02/a\0",
        BAD,
    ),
];

// REMOVE (section 6.5).
const REMOVALS: [Row; 5] = [
    (
        "a file that is not there",
        b"\x0d\0\0\0\x07\0\0\0\x02/a",
        MISSING,
    ),
    (
        "a path that is cut short",
        b"\x0d\0\0\0\x07\0\0\0\x03/b",
        BAD,
    ),
    (
        "a byte after the path",
        b"\x0d\0\0\0\x07\0\0\0\x02/b\0",
        BAD,
    ),
    ("a file", b"\x0d\0\0\0\x07\0\0\0\x02/b", OK),
    ("STAT of it", b"\x11\0\0\0\x07\0\0\0\x02/b", MISSING),
];

// CLOSE, which does not ask for the file (section 6.3).
const CLOSES: [Row; 7] = [
    (
        "a handle whose file is gone",
        b"\x04\0\0\0\x07\0\0\0\x04\0\0\0\x02",
        OK,
    ),
    (
        "the same again",
        b"\x04\0\0\0\x07\0\0\0\x04\0\0\0\x02",
        FAILURE,
    ),
    (
        "READ by it",
        b"\x05\0\0\0\x07\0\0\0\x04\0\0\0\x02\0\0\0\0\0\0\0\0\0\0\0\x01",
        FAILURE,
    ),
    ("an unknown handle", b"\x04\0\0\0\x07\0\0\0\0", FAILURE),
    (
        "a handle that is cut short",
        b"\x04\0\0\0\x07\0\0\0\x04\0\0\0",
        BAD,
    ),
    (
        "a byte after the handle",
        b"\x04\0\0\0\x07\0\0\0\x04\0\0\0\x01\0",
        BAD,
    ),
    (
        "OPEN after it, which gives the next number",
        b"\x03\0\0\0\x07\0\0\0\x02/a\0\0\0\x09\0\0\0\0",
        b"f\0\0\0\x07\0\0\0\x04\0\0\0\x04",
    ),
];

// Other types: attributes that are set, directories, links, extensions.
const OTHERS: [Row; 12] = [
    ("SETSTAT", b"\x09\0\0\0\x07", UNSUPPORTED),
    ("FSETSTAT", b"\x0a\0\0\0\x07", UNSUPPORTED),
    ("OPENDIR", b"\x0b\0\0\0\x07", UNSUPPORTED),
    ("READDIR", b"\x0c\0\0\0\x07", UNSUPPORTED),
    ("MKDIR", b"\x0e\0\0\0\x07", UNSUPPORTED),
    ("RMDIR", b"\x0f\0\0\0\x07", UNSUPPORTED),
    ("READLINK", b"\x13\0\0\0\x07", UNSUPPORTED),
    ("SYMLINK", b"\x14\0\0\0\x07", UNSUPPORTED),
    ("EXTENDED", b"\xc8\0\0\0\x07", UNSUPPORTED),
    ("VERSION", b"\x02\0\0\0\x07", UNSUPPORTED),
    ("no type", b"\0\0\0\0\x07", UNSUPPORTED),
    ("the last", b"\xff\0\0\0\x07", UNSUPPORTED),
];

// The first row that is not answered so, where the packets come in pieces of so many bytes.
fn wrong_row(talk: &mut Talk, rows: &[Row], size: usize) -> Option<&'static str> {
    for (name, packet, told) in rows {
        if talk.ask(packet, size) != Ok(()) || !talk.tells(told) {
            return Some(name);
        }
    }
    None
}

fn wrong(talk: &mut Talk, size: usize) -> Option<&'static str> {
    let tables: [&[Row]; 10] = [
        &BEGINNINGS,
        &OPENS,
        &WRITES,
        &READS,
        &STATS,
        &PATHS,
        &RENAMES,
        &REMOVALS,
        &CLOSES,
        &OTHERS,
    ];
    for rows in tables {
        if let Some(name) = wrong_row(talk, rows, size) {
            return Some(name);
        }
    }
    None
}

#[test]
fn each_request_is_answered_as_its_row_says(rt: HostRuntime) {
    let mut talk = Talk::new(rt.alloc());
    assert!(rt; wrong(&mut talk, 1000) == None);
    assert!(rt; talk.end() == Ok(()));
}

#[test]
fn pieces_of_one_and_of_five_bytes_are_answered_so_too(rt: HostRuntime) {
    let mut talk = Talk::new(rt.alloc());
    assert!(rt; wrong(&mut talk, 1) == None);
    let mut other = Talk::new(rt.alloc());
    assert!(rt; wrong(&mut other, 5) == None);
}
