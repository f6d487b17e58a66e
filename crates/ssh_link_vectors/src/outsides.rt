// The outsides in memory by example, and the standard edge once.
use crate::values::{are_equal, filled, is_copy};
use bytes::Bytes;
use ssh_link::{
    Calls, ChannelOpenHandle, Command, CommandOutcome, Frame, Input, InputKind, Inputs, IoFailed,
    Link, LinkFault, MemoryLink, MemorySink, MemorySource, Notice, Refusal, Sink, Source, StdSink,
    StdSource, TraceEntry,
};
use ssh_wire::{ChannelId, WireError};
use std::alloc::Global;
use std::fmt::Display;
use std::io;
use std::test::*;

const CHANNEL: ChannelId = ChannelId(2);

fn push_calls(calls: &mut Calls, numbers: &[u64]) -> Result<(), WireError> {
    for number in numbers {
        calls.push(*number)?;
    }
    Ok(())
}

fn calls(alloc: Global, numbers: &[u64]) -> Result<Calls, WireError> {
    let mut calls = Calls::new(alloc);
    let done = push_calls(&mut calls, numbers);
    filled(calls, done)
}

// A frame and its payload, whose bytes stand on the heap.
fn frame(alloc: Global) -> Result<Frame, WireError> {
    Ok(sent(Bytes::copy_from_slice(alloc, b"\x5b")?))
}

fn sent(payload: Bytes) -> Frame {
    Frame::new(payload, Some(1010), Some(CHANNEL))
}

fn ready(window: u32) -> Notice {
    Notice::Ready {
        channel: CHANNEL,
        window,
        packet: 32_768,
    }
}

// An input, by its moment, and its payload or its ticket.
#[derive(Clone, Copy)]
enum Given {
    Payload(u64, &'static [u8]),
    Command(u64, u64),
    Reply(u64, u64),
    End(u64),
}

fn payload(moment: u64, bytes: Bytes) -> Input {
    let kind = InputKind::Payload(bytes);
    Input { moment, kind }
}

fn input(given: Given) -> Input {
    let (moment, kind) = match given {
        Given::Payload(moment, bytes) => return payload(moment, Bytes::from_static(bytes)),
        Given::Command(moment, ticket) => (
            moment,
            InputKind::Command(ticket, Command::Eof { channel: CHANNEL }),
        ),
        Given::Reply(moment, ticket) => (
            moment,
            InputKind::OpenReply(ticket, ChannelOpenHandle::new(CHANNEL).accept()),
        ),
        Given::End(moment) => (moment, InputKind::End),
    };
    Input { moment, kind }
}

// The input, the bytes of a payload standing on the heap.
fn input_on_heap(alloc: Global, given: Given) -> Result<Input, WireError> {
    match given {
        Given::Payload(moment, bytes) => {
            Ok(payload(moment, Bytes::copy_from_slice(alloc, bytes)?))
        }
        _ => Ok(input(given)),
    }
}

fn push_inputs(alloc: Global, inputs: &mut Inputs, rows: &[Given]) -> Result<(), WireError> {
    for row in rows {
        inputs.push(input_on_heap(alloc, *row)?)?;
    }
    Ok(())
}

fn inputs(alloc: Global, rows: &[Given]) -> Result<Inputs, WireError> {
    let mut inputs = Inputs::new(alloc);
    let done = push_inputs(alloc, &mut inputs, rows);
    filled(inputs, done)
}

// What is asked for, commands and replies, and what comes; none stands for a failure.
type Answer = (bool, bool, Option<Given>);

// Whether the link answers so.
fn answers(link: &mut MemoryLink, answer: Answer) -> bool {
    let (commands, replies, given) = answer;
    let wanted = match given {
        Some(given) => Ok(input(given)),
        None => Err(LinkFault::Failed),
    };
    are_equal(link.next(commands, replies), wanted)
}

// A link of these inputs, which fails at these calls, and perhaps ends at a moment of its own.
#[derive(Clone, Copy)]
struct Row {
    shows: &'static str,
    inputs: &'static [Given],
    fails: &'static [u64],
    end: Option<u64>,
    answers: &'static [Answer],
}

fn link(
    alloc: Global,
    given: &[Given],
    fails: &[u64],
    end: Option<u64>,
) -> Result<MemoryLink, WireError> {
    let fails = calls(alloc, fails)?;
    let inputs = inputs(alloc, given)?;
    match end {
        Some(end) => MemoryLink::ending_at(alloc, inputs, end, fails),
        None => MemoryLink::new(alloc, inputs, fails),
    }
}

// Whether the link answers as the row says, and as many calls were made and failed.
fn gives(alloc: Global, row: Row) -> Result<bool, WireError> {
    let mut link = link(alloc, row.inputs, row.fails, row.end)?;
    let mut is_so = true;
    for answer in row.answers {
        is_so = answers(&mut link, *answer) && is_so;
    }
    let counts = (link.calls(), link.faults());
    Ok(is_so && counts == (row.answers.len() as u64, row.fails.len() as u64))
}

static LINKS: [Row; 4] = [
    Row {
        shows: "a link gives its inputs and then the end, and fails where it is to",
        inputs: &[Given::Payload(10, b"\x05"), Given::Payload(20, b"\x32")],
        fails: &[1, 3],
        end: None,
        answers: &[
            (true, false, None),
            (true, false, Some(Given::Payload(10, b"\x05"))),
            (true, false, None),
            (true, false, Some(Given::Payload(20, b"\x32"))),
            (true, false, Some(Given::End(20))),
            (true, false, Some(Given::End(20))),
        ],
    },
    Row {
        shows: "the end comes at a moment of its own",
        inputs: &[Given::Command(10, 1)],
        fails: &[],
        end: Some(30),
        answers: &[
            (true, true, Some(Given::Command(10, 1))),
            (true, true, Some(Given::End(30))),
        ],
    },
    Row {
        shows: "with no input the end comes at once",
        inputs: &[],
        fails: &[2],
        end: None,
        answers: &[(true, true, Some(Given::End(0))), (true, true, None)],
    },
    Row {
        shows: "what is not asked for waits, and replies pass commands",
        inputs: &[
            Given::Command(10, 1),
            Given::Payload(20, b"\x5e"),
            Given::Command(30, 2),
            Given::Reply(40, 3),
            Given::Payload(50, b"\x60"),
            Given::Command(60, 4),
            Given::Reply(70, 5),
        ],
        fails: &[3],
        end: None,
        answers: &[
            (false, false, Some(Given::Payload(20, b"\x5e"))),
            (false, false, Some(Given::Payload(50, b"\x60"))),
            (true, true, None),
            (true, true, Some(Given::Reply(40, 3))),
            (true, true, Some(Given::Command(10, 1))),
            (false, true, Some(Given::Reply(70, 5))),
            (false, true, Some(Given::End(70))),
            (true, true, Some(Given::Command(30, 2))),
            (true, false, Some(Given::Command(60, 4))),
            (true, true, Some(Given::End(70))),
        ],
    },
];

#[test]
fn a_link_gives_what_is_asked_for_and_then_the_end(rt: HostRuntime) {
    for row in &LINKS {
        assert!(rt; gives(rt.alloc(), *row) == Ok(true), "{}", row.shows);
    }
}

// Whether these calls were finished, and no others.
fn tells_the_finished(trace: &[TraceEntry]) -> bool {
    let told = [
        TraceEntry::Took {
            commands: false,
            replies: true,
            input: input(Given::Reply(10, 7)),
        },
        TraceEntry::Noticed(ready(256)),
        TraceEntry::Answered(7, CommandOutcome::Accepted),
        TraceEntry::Sent(sent(Bytes::from_static(b"\x5b"))),
    ];
    trace == told.as_slice()
}

// What is answered to calls behind the first.
fn answered(alloc: Global, link: &mut MemoryLink) -> Result<[bool; 5], WireError> {
    let frame = frame(alloc)?;
    let refused = CommandOutcome::Refused(Refusal::UnknownOpen);
    let failed = Err(LinkFault::Failed);
    Ok([
        link.notice(ready(256)) == Ok(()),
        link.notice(ready(512)) == failed,
        link.answer(7, CommandOutcome::Accepted) == Ok(()),
        link.answer(8, refused) == failed,
        link.send(frame) == Ok(()),
    ])
}

#[test]
fn a_link_tells_its_finished_calls_and_no_others(rt: HostRuntime) -> Result<(), Fail> {
    let mut link = link(rt.alloc(), &[Given::Reply(10, 7)], &[3, 5], None)?;
    assert!(rt; answers(&mut link, (false, true, Some(Given::Reply(10, 7)))));
    assert!(rt; answered(rt.alloc(), &mut link) == Ok([true; 5]));
    assert!(rt; tells_the_finished(link.trace()));
    assert!(rt; (link.calls(), link.faults()) == (6, 2));
    for entry in link.trace() {
        assert!(rt; is_copy(entry.copy(), entry) == Ok(true));
    }
    Ok(())
}

// What each read answers, and the buffer after it.
static READS: [(Result<usize, IoFailed>, [u8; 3]); 5] = [
    (Ok(3), *b"abc"),
    (Err(IoFailed), *b"..."),
    (Ok(3), *b"def"),
    (Ok(1), *b"g.."),
    (Ok(0), *b"..."),
];

fn read(source: &mut MemorySource) -> (Result<usize, IoFailed>, [u8; 3]) {
    let mut buf = *b"...";
    let answer = source.read(&mut buf);
    (answer, buf)
}

#[test]
fn a_source_reads_as_much_as_fits_and_fails_where_it_is_to(rt: HostRuntime) -> Result<(), Fail> {
    let fails = calls(rt.alloc(), &[2])?;
    let bytes = Bytes::copy_from_slice(rt.alloc(), b"abcdefg")?;
    let mut source = MemorySource::new(bytes, fails);
    for wanted in &READS {
        assert!(rt; read(&mut source) == *wanted);
    }
    Ok(())
}

static WRITES: [(&[u8], Result<usize, IoFailed>); 4] = [
    (b"lost", Err(IoFailed)),
    (b"ab", Ok(2)),
    (b"lost", Err(IoFailed)),
    (b"cde", Ok(3)),
];

#[test]
fn a_sink_holds_what_was_written_and_fails_where_it_is_to(rt: HostRuntime) -> Result<(), Fail> {
    let mut sink = MemorySink::new(rt.alloc(), calls(rt.alloc(), &[1, 3])?);
    for (piece, answer) in &WRITES {
        assert!(rt; sink.write(*piece) == *answer);
    }
    assert!(rt; sink.bytes() == b"abcde".as_slice());
    Ok(())
}

#[test]
fn the_standard_edge_reads_and_writes(rt: HostRuntime) -> Result<(), Fail> {
    let mut source = StdSource::new(b"abc".as_slice());
    let mut buf = [0u8; 2];
    assert!(rt; source.read(&mut buf) == Ok(2));
    assert!(rt; buf == *b"ab");
    assert!(rt; source.read(&mut buf) == Ok(1));
    assert!(rt; source.read(&mut buf) == Ok(0));
    let mut sink = StdSink::new(io::writer(&rt));
    assert!(rt; sink.write(b"edge\n").is_ok());
    Ok(())
}

fn says<T: Display>(alloc: Global, fault: &T, wanted: &str) -> bool {
    match fault.to_string(alloc) {
        Ok(said) => said.as_str() == wanted,
        Err(_) => false,
    }
}

#[test]
fn a_fault_says_what_failed(rt: HostRuntime) {
    let alloc = rt.alloc();
    assert!(rt;
        says(alloc, &LinkFault::Failed, "the link failed")
            && says(alloc, &LinkFault::NoMemory, "no memory")
            && says(alloc, &IoFailed, "a read or a write failed")
    );
}
