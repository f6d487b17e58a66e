// Streams as a client sends them, and where they are refused.
use crate::talk::Talk;
use ssh_sftp::SftpError;
use std::test::*;

const BEGINS: &[u8] = b"\0\0\0\x05\x01\0\0\0\x03";

const HAS_BEGUN: &[u8] = b"\0\0\0\x05\x02\0\0\0\x03";

// OPEN of /a to write, create and truncate; WRITE of "hi" at its front; STAT.
const WORKS: &[u8] = b"\0\0\0\x13\x03\0\0\0\x01\0\0\0\x02/a\0\0\0\x1a\0\0\0\0\
\0\0\0\x1b\x06\0\0\0\x02\0\0\0\x04\0\0\0\x01\0\0\0\0\0\0\0\0\0\0\0\x02hi\
\0\0\0\x0b\x11\0\0\0\x03\0\0\0\x02/a";

const HAS_WORKED: &[u8] = b"\0\0\0\x0df\0\0\0\x01\0\0\0\x04\0\0\0\x01\
\0\0\0\x13e\0\0\0\x02\0\0\0\0\0\0\0\x02ok\0\0\0\0\
\0\0\0\x11i\0\0\0\x03\0\0\0\x01\0\0\0\0\0\0\0\x02";

// Whether both streams are answered so, in pieces of so many bytes.
fn is_answered(talk: &mut Talk, size: usize) -> Result<bool, SftpError> {
    talk.send(BEGINS, size)?;
    let begun = talk.out() == HAS_BEGUN;
    talk.send(WORKS, size)?;
    Ok(begun && talk.out() == HAS_WORKED)
}

#[test]
fn however_a_stream_is_cut_its_answers_are_the_same(rt: HostRuntime) {
    for size in [1, 2, 3, 4, 7, 23, 1000] {
        let mut talk = Talk::new(rt.alloc());
        assert!(rt;
            is_answered(&mut talk, size) == Ok(true),
            "pieces of {size}"
        );
        assert!(rt; talk.end() == Ok(()));
    }
}

// What a stream is answered, and whether its answers are those to INIT; then what a later piece is
// answered, and the end.
type Refusal = (Result<(), SftpError>, bool, Result<(), SftpError>, bool);

fn refusal(talk: &mut Talk, bytes: &[u8], size: usize) -> Refusal {
    let sent = talk.send(bytes, size);
    let told = talk.out() == HAS_BEGUN;
    let later = talk.send(b"\0", 1);
    (
        sent,
        told,
        later,
        talk.end() == Err(SftpError::Failed) && talk.failed(),
    )
}

fn refused(why: SftpError) -> Refusal {
    (Err(why), true, Err(SftpError::Failed), true)
}

// A stream, and why it is refused after INIT.
const FAULTS: [(&[u8], SftpError); 5] = [
    (
        b"\0\0\0\x05\x01\0\0\0\x03\0\0\0\0",
        SftpError::BadLength { length: 0 },
    ),
    (
        b"\0\0\0\x05\x01\0\0\0\x03\0\x04\0\x01",
        SftpError::BadLength { length: 262145 },
    ),
    (
        b"\0\0\0\x05\x01\0\0\0\x03\xff\xff\xff\xff\x05",
        SftpError::BadLength { length: 4294967295 },
    ),
    (
        b"\0\0\0\x05\x01\0\0\0\x03\0\0\0\x04\x11\0\0\0",
        SftpError::NoId,
    ),
    (b"\0\0\0\x05\x01\0\0\0\x03\0\0\0\x01\x01", SftpError::NoId),
];

#[test]
fn a_fault_is_refused_behind_the_answers_before_it(rt: HostRuntime) {
    for (bytes, why) in FAULTS {
        for size in [1, 3, 1000] {
            let mut talk = Talk::new(rt.alloc());
            assert!(rt; refusal(&mut talk, bytes, size) == refused(why));
        }
    }
}

// How much of a packet came where a stream ends.
fn left(talk: &mut Talk, bytes: &[u8]) -> Result<usize, SftpError> {
    talk.send(bytes, 1)?;
    match talk.end() {
        Err(SftpError::Cut { left }) => Ok(left),
        Ok(()) => Ok(0),
        Err(why) => Err(why),
    }
}

#[test]
fn an_end_inside_a_packet_is_told(rt: HostRuntime) {
    for (bytes, count) in [
        (&b"\0"[..], 1),
        (b"\0\0\0\x05", 4),
        (b"\0\0\0\x05\x01\0\0\0", 8),
        (b"\0\0\0\x05\x01\0\0\0\x03", 0),
        (b"\0\0\0\x04\x01\0\0", 7),
    ] {
        let mut talk = Talk::new(rt.alloc());
        assert!(rt; left(&mut talk, bytes) == Ok(count));
    }
}
