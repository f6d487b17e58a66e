// The responses of a round of keyboard-interactive, as a handler is given them.
use bytes::Bytes;
use ssh_auth::{Response, copied_response};
use ssh_wire::{Blobs, WireError};
use std::test::*;

// Whether these are copies of the texts, in their order.
fn are_copies(copied: &[Bytes], texts: &[&[u8]]) -> bool {
    for (copy, text) in copied.iter().zip(texts) {
        if copy.as_slice() != *text {
            return false;
        }
    }
    copied.len() == texts.len()
}

// Whether responses were copied just where they were given, as they were given.
fn is_kept(copied: Result<Option<Blobs>, WireError>, given: Option<&[&[u8]]>) -> bool {
    let is_kept = match (&copied, given) {
        (Ok(Some(blobs)), Some(texts)) => are_copies(blobs.as_slice(), texts),
        (Ok(None), None) => true,
        _ => false,
    };
    drop(copied);
    is_kept
}

#[test]
fn responses_are_kept_as_they_were_given(rt: HostRuntime) {
    let rows: [(&str, Option<&[&[u8]]>); 4] = [
        ("nothing was prompted for yet", None),
        ("no response to no prompt", Some(&[])),
        ("an empty response is one", Some(&[b""])),
        (
            "responses in their order",
            Some(&[b"secret", b"", b"123456"]),
        ),
    ];
    for (shows, given) in rows {
        let copied = copied_response(rt.alloc(), given.map(Response::new));
        assert!(rt; is_kept(copied, given), "{shows}");
    }
}
