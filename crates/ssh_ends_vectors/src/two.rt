// Two ends, and what passes between them.
use bytes::Bytes;
use ssh_channels::FrameSink;
use ssh_ends::{End, EndError};
use ssh_wire::ChannelId;
use std::alloc::Global;
use std::test::*;

const CHANNEL: ChannelId = ChannelId(2);

// All that one end has to say is taken by the other, and what this delivers is added to the text.
fn passes(alloc: Global, from: &mut End, to: &mut End, text: &mut Vec<u8>) -> Result<(), EndError> {
    let mut sink = FrameSink::new(alloc);
    from.out(&mut sink)?;
    for frame in sink.into_vec() {
        let (head, body) = frame.parts();
        let mut payload = Vec::new(alloc);
        payload.extend_from_slice(head)?;
        payload.extend_from_slice(body)?;
        if let Some(delivered) = to.take(payload.as_slice())? {
            text.extend_from_slice(delivered.bytes.as_slice())?;
            text.push(b'|')?;
        }
    }
    Ok(())
}

// One end opens a channel, and the other accepts it.
fn opened(alloc: Global, window: u32) -> Result<(End, End), EndError> {
    let (mut near, mut far) = (End::new(alloc, window, 100), End::new(alloc, window, 100));
    let mut none = Vec::new(alloc);
    near.open()?;
    passes(alloc, &mut near, &mut far, &mut none)?;
    passes(alloc, &mut far, &mut near, &mut none)?;
    Ok((near, far))
}

// Five bytes go over a window of three: what it does not take waits until it is filled again.
fn refilled(alloc: Global) -> Result<Vec<u8>, EndError> {
    let (mut near, mut far) = opened(alloc, 3)?;
    let mut text = Vec::new(alloc);
    near.data(CHANNEL, None, Bytes::from_static(b"hello"))?;
    passes(alloc, &mut near, &mut far, &mut text)?;
    passes(alloc, &mut far, &mut near, &mut text)?;
    passes(alloc, &mut near, &mut far, &mut text)?;
    Ok(text)
}

#[test]
fn data_that_find_no_window_wait_for_it(rt: HostRuntime) {
    assert!(rt; refilled(rt.alloc()).is_ok_and(|text| text.as_slice() == b"hel|lo|".as_slice()));
}

// Data that meet a closed channel are passed over.
fn closed(alloc: Global) -> Result<Vec<u8>, EndError> {
    let (mut near, mut far) = opened(alloc, 3)?;
    let mut text = Vec::new(alloc);
    near.data(CHANNEL, None, Bytes::from_static(b"x"))?;
    far.close(CHANNEL)?;
    passes(alloc, &mut near, &mut far, &mut text)?;
    Ok(text)
}

#[test]
fn data_on_a_closed_channel_are_passed_over(rt: HostRuntime) {
    assert!(rt; closed(rt.alloc()).is_ok_and(|text| text.is_empty()));
}

// What an end answers to payloads that it does not expect.
static UNEXPECTED: [&[u8]; 6] = [
    b"",
    b"\x05\0\0\0\x0cssh-userauth",
    b"\x5a\0\0\0\x07session\0\0\0\0\0\0\0\x03\0\0\0\0",
    b"\x5b\0\0\0\x02\0\0\0\x02\0\0\0\x03\0\0\0\x64",
    b"\x5d\0\0\0\x02\0\0\0",
    b"\x61\0\0\0\x02\0",
];

#[test]
fn payloads_that_are_not_expected(rt: HostRuntime) {
    for payload in &UNEXPECTED {
        let mut end = End::new(rt.alloc(), 3, 100);
        assert!(rt; end.take(payload).is_err_and(|e| e == EndError::Unexpected));
    }
}
