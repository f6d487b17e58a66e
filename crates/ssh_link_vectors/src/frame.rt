// A frame has a head and a body, cut by its payload alone, and equals each one of the same payload, hold and channel.
use crate::values::{are_equal, equals};
use bytes::Bytes;
use ssh_link::Frame;
use ssh_wire::{ChannelId, WireError};
use std::alloc::Global;
use std::test::*;

const OWN: ChannelId = ChannelId(2);

// CHANNEL_DATA with "hello" for the peer's channel 7.
const DATA: &[u8] = b"\x5e\0\0\0\x07\0\0\0\x05hello";

// CHANNEL_EXTENDED_DATA with code 1 and "no" for it.
const EXTENDED: &[u8] = b"\x5f\0\0\0\x07\0\0\0\x01\0\0\0\x02no";

// CHANNEL_EOF for it.
const EOF: &[u8] = b"\x60\0\0\0\x07";

// How a frame of this side's channel is made.
#[derive(Clone, Copy)]
enum Made {
    Whole(&'static [u8]),
    Hello,
    Hella,
    ExtendedNo,
    ShortEof,
    Empty,
}

fn frame(alloc: Global, made: Made) -> Result<Frame, WireError> {
    Ok(match made {
        Made::Whole(payload) => {
            Frame::new(Bytes::copy_from_slice(alloc, payload)?, None, Some(OWN))
        }
        Made::Hello => Frame::data(OWN, 7, Bytes::copy_from_slice(alloc, b"hello")?),
        Made::Hella => Frame::data(OWN, 7, Bytes::copy_from_slice(alloc, b"hella")?),
        Made::ExtendedNo => Frame::extended(OWN, 7, 1, Bytes::copy_from_slice(alloc, b"no")?),
        Made::ShortEof => Frame::short(b"\x60\0\0\0\x07", None, Some(OWN)),
        Made::Empty => Frame::short(b"", None, Some(OWN)),
    })
}

// Whether the frame has this head and this body, and may go out at once on this side's channel.
fn has_parts(alloc: Global, made: Made, head: &[u8], body: &[u8]) -> Result<bool, WireError> {
    let frame = frame(alloc, made)?;
    let goes_out = (frame.hold_until(), frame.channel()) == (None, Some(OWN));
    let are_parts = (frame.head(), frame.body()) == (head, body);
    Ok(are_parts && frame.parts() == (head, body) && goes_out)
}

// Of each way to make a frame: the head, and the body.
static PARTS: [(Made, &[u8], &[u8]); 7] = [
    (Made::Whole(DATA), b"\x5e\0\0\0\x07\0\0\0\x05", b"hello"),
    (
        Made::Whole(EXTENDED),
        b"\x5f\0\0\0\x07\0\0\0\x01\0\0\0\x02",
        b"no",
    ),
    (
        Made::Whole(b"\x04 a message to show"),
        b"\x04 a message t",
        b"o show",
    ),
    (Made::Hello, b"\x5e\0\0\0\x07\0\0\0\x05", b"hello"),
    (
        Made::ExtendedNo,
        b"\x5f\0\0\0\x07\0\0\0\x01\0\0\0\x02",
        b"no",
    ),
    (Made::ShortEof, EOF, b""),
    (Made::Empty, b"", b""),
];

#[test]
fn a_frame_has_a_head_and_shares_its_body(rt: HostRuntime) {
    for (made, head, body) in &PARTS {
        assert!(rt; has_parts(rt.alloc(), *made, *head, *body) == Ok(true));
    }
}

fn is_copied(alloc: Global, made: Made) -> Result<bool, WireError> {
    let frame = frame(alloc, made)?;
    let copy = frame.copy();
    equals(frame, copy)
}

// Whether the one equals the other where that is wanted, and equals its copy.
fn is_so(alloc: Global, one: Made, other: Made, wanted: bool) -> Result<bool, WireError> {
    let are_equal = equals(frame(alloc, one)?, frame(alloc, other))?;
    Ok(is_copied(alloc, one)? && are_equal == wanted)
}

static PAIRS: [(&str, Made, Made, bool); 6] = [
    ("data", Made::Whole(DATA), Made::Hello, true),
    (
        "extended data",
        Made::ExtendedNo,
        Made::Whole(EXTENDED),
        true,
    ),
    ("a short payload", Made::ShortEof, Made::Whole(EOF), true),
    ("another last byte", Made::Hello, Made::Hella, false),
    (
        "another first byte",
        Made::Whole(b"\x61\0\0\0\x07"),
        Made::ShortEof,
        false,
    ),
    (
        "one byte more",
        Made::Whole(b"\x60\0\0\0\x07\0"),
        Made::ShortEof,
        false,
    ),
];

#[test]
fn frames_are_equal_however_they_were_made(rt: HostRuntime) {
    for (shows, one, other, wanted) in &PAIRS {
        let is_so = is_so(rt.alloc(), *one, *other, *wanted);
        assert!(rt; is_so == Ok(true), "{shows}");
    }
}

fn equals_held(hold_until: Option<u64>, channel: Option<ChannelId>) -> bool {
    let held = Frame::short(EOF, Some(9), None);
    are_equal(held, Frame::short(EOF, hold_until, channel))
}

#[test]
fn a_hold_and_a_channel_count_too(rt: HostRuntime) {
    assert!(rt; equals_held(Some(9), None));
    assert!(rt; !equals_held(None, None) && !equals_held(Some(9), Some(OWN)));
}
