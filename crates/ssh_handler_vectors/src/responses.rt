// Prompts are passed on as they are, and responses are told as they came.
use crate::failing::{Failing, prompt};
use crate::told::Call;
use crate::users::{Verdict, is_told, spent};
use ssh_auth::{AuthHandler, Response};
use ssh_handler::Recorded;
use ssh_wire::Blobs;
use std::alloc::Global;
use std::test::Fail;

const CALLBACK: &str = "auth_keyboard_interactive";

fn are_same(told: &Blobs, sent: &[&[u8]]) -> bool {
    let told = told.as_slice();
    let mut are_same = told.len() == sent.len();
    for (blob, response) in told.iter().zip(sent) {
        are_same = blob.as_slice() == *response && are_same;
    }
    are_same
}

// Whether the call has these responses, none before the prompts.
fn has_responses(call: &Call, sent: Option<&[&[u8]]>) -> bool {
    match (call, sent) {
        (
            Call::AuthKeyboardInteractive {
                response: Some(told),
                ..
            },
            Some(sent),
        ) => { are_same(told, sent) }
        (Call::AuthKeyboardInteractive { response: None, .. }, None) => true,
        _ => false,
    }
}

// Whether the first request is answered by the prompts of the inner handler.
fn are_prompts_passed_on(alloc: Global) -> Result<bool, Fail> {
    let expected = prompt(alloc)?;
    let mut handler = Recorded::new(alloc, Failing { alloc });
    let answer = handler.auth_keyboard_interactive("anna", "pam", None);
    let is_same = matches!(&answer, Ok(auth) if *auth == expected);
    drop(answer);
    drop(expected);
    let is_told = matches!(handler.calls(), [call]
        if has_responses(call, None) && is_told(call, CALLBACK, "anna", Verdict::Prompted));
    drop(handler);
    Ok(is_same && is_told)
}

// Whether these responses are told, and answered so.
fn are_told(alloc: Global, texts: &[&[u8]], expected: Verdict) -> bool {
    let mut handler = Recorded::new(alloc, Failing { alloc });
    let response = Some(Response::new(&*texts));
    let answer = spent(handler.auth_keyboard_interactive("anna", "pam", response));
    answer == expected
        && matches!(handler.calls(), [call]
            if has_responses(call, Some(texts)) && is_told(call, CALLBACK, "anna", expected))
}

static RESPONSES: [(&str, &[&[u8]], Verdict); 3] = [
    ("the right one", &[b"1234"], Verdict::Accepted),
    ("one too many", &[b"1234", b""], Verdict::Refused),
    ("none", &[], Verdict::Refused),
];

#[test]
fn prompts_and_responses(rt: HostRuntime) -> Result<(), Fail> {
    assert!(rt; are_prompts_passed_on(rt.alloc())?);
    for (shows, texts, expected) in &RESPONSES {
        assert!(rt; are_told(rt.alloc(), *texts, *expected), "{shows}");
    }
    Ok(())
}
