// Steps and errors of GSS-API are equal where all of their fields are.
use crate::values::are_equal;
use bytes::Bytes;
use ssh_auth::{GssapiError, GssapiStep};
use ssh_wire::{Text, WireError};
use std::alloc::Global;
use std::test::*;

// What a step is made of.
#[derive(Clone, Copy)]
enum Parts {
    Continue(&'static [u8]),
    Complete(Option<&'static [u8]>, Option<&'static [u8]>),
}

fn token(bytes: Option<&'static [u8]>) -> Option<Bytes> {
    match bytes {
        Some(bytes) => Some(Bytes::from_static(bytes)),
        None => None,
    }
}

fn step(parts: Parts) -> GssapiStep {
    match parts {
        Parts::Continue(bytes) => GssapiStep::Continue {
            token: Bytes::from_static(bytes),
        },
        Parts::Complete(last, mic) => GssapiStep::Complete {
            token: token(last),
            mic: token(mic),
        },
    }
}

const STEPS: [(&str, Parts); 7] = [
    ("a token for the peer", Parts::Continue(b"one")),
    ("another token for the peer", Parts::Continue(b"two")),
    ("an end with nothing to send", Parts::Complete(None, None)),
    (
        "an end with a last token",
        Parts::Complete(Some(b"one"), None),
    ),
    (
        "an end with an empty last token",
        Parts::Complete(Some(b""), None),
    ),
    (
        "an end with a check of the request",
        Parts::Complete(None, Some(b"one")),
    ),
    (
        "an end with both",
        Parts::Complete(Some(b"one"), Some(b"mic")),
    ),
];

#[test]
fn steps_are_equal_where_their_fields_are(rt: HostRuntime) {
    for (place, (shows, parts)) in STEPS.iter().enumerate() {
        for (other, (against, others)) in STEPS.iter().enumerate() {
            let is_so = are_equal(step(*parts), step(*others)) == (place == other);
            assert!(rt; is_so, "{shows}, and {against}");
        }
    }
}

fn status(major_status: u32, minor_status: u32, message: Text) -> GssapiError {
    GssapiError::Status {
        major_status,
        minor_status,
        message,
    }
}

// What a status is, its two codes and its message.
type Status = (&'static str, u32, u32, &'static str);

const STATUSES: [Status; 4] = [
    ("a status with its message", 1, 2, "no credentials"),
    ("another error of the GSS-API", 3, 2, "no credentials"),
    ("another code of the mechanism", 1, 3, "no credentials"),
    ("another message", 1, 2, "expired"),
];

fn are_equal_statuses(alloc: Global, one: Status, other: Status) -> Result<bool, WireError> {
    let text = Text::new(alloc, one.3)?;
    let message = Text::new(alloc, other.3)?;
    Ok(are_equal(
        status(one.1, one.2, text),
        status(other.1, other.2, message),
    ))
}

#[test]
fn statuses_are_equal_where_their_fields_are(rt: HostRuntime) {
    for (place, one) in STATUSES.iter().enumerate() {
        for (other, against) in STATUSES.iter().enumerate() {
            let are_equal = are_equal_statuses(rt.alloc(), *one, *against);
            assert!(rt;
                are_equal == Ok(place == other),
                "{}, and {}",
                one.0,
                against.0
            );
        }
    }
}

fn error_token(bytes: &'static [u8]) -> GssapiError {
    GssapiError::ErrorToken(Bytes::from_static(bytes))
}

#[test]
fn tokens_that_tell_of_an_error_are_equal_where_they_are(rt: HostRuntime) -> Result<(), Fail> {
    let message = Text::new(rt.alloc(), "one")?;
    assert!(rt; !are_equal(error_token(b"one"), status(1, 2, message)));
    assert!(rt; are_equal(error_token(b"one"), error_token(b"one")));
    assert!(rt; !are_equal(error_token(b"one"), error_token(b"two")));
    Ok(())
}
