// The callbacks of authentication are passed on and told, and those that are not written let nobody
// in.
use crate::accepting::Accepting;
use crate::failing::{Failed, Failing, prompt};
use crate::told::{Call, Error};
use bytes::Bytes;
use ssh_auth::{Auth, AuthHandler, PublicKeyOffer, Response, Unwritten, VerifiedPublicKey};
use ssh_handler::{RecordError, Recorded};
use ssh_keys::{Algorithm, CertType, Certificate, PublicKey, Signature};
use ssh_wire::Text;
use std::alloc::Global;
use std::test::Fail;

/// What a request is answered.
#[derive(Clone, Copy, PartialEq, Eq)]
pub(crate) enum Verdict {
    Accepted,
    // It names no methods, and nothing was right.
    Refused,
    Prompted,
    Fails,
    Otherwise,
}

fn verdict_of<E>(answer: &Result<Auth, E>) -> Verdict {
    match answer {
        Ok(Auth::Accept) => Verdict::Accepted,
        Ok(
            Auth::Reject {
                proceed_with_methods: None,
                partial_success: false,
            },
        ) => Verdict::Refused,
        Ok(Auth::Partial { .. }) => Verdict::Prompted,
        Ok(_) => Verdict::Otherwise,
        Err(_) => Verdict::Fails,
    }
}

/// The verdict of an answer that is done with.
pub(crate) fn spent<E: Drop>(answer: Result<Auth, E>) -> Verdict {
    let verdict = verdict_of(&answer);
    drop(answer);
    verdict
}

// A key of these bytes.
fn key(bytes: &'static [u8]) -> PublicKey {
    PublicKey::Ed25519 {
        key: Bytes::from_static(bytes),
    }
}

// A certificate without a limit, for everyone.
fn certificate(alloc: Global) -> Result<Certificate, Fail> {
    let key_id = Text::new(alloc, "anna")?;
    let name = Text::new(alloc, "ssh-ed25519")?;
    Ok(Certificate {
        nonce: Bytes::from_static(b"nonce"),
        public_key: key(b"certified"),
        serial: 1,
        cert_type: CertType::User,
        key_id,
        valid_principals: Bytes::new(),
        valid_after: 0,
        valid_before: u64::MAX,
        critical_options: Bytes::new(),
        extensions: Bytes::new(),
        reserved: Bytes::new(),
        signature_key: key(b"signer"),
        signature: Signature {
            name,
            blob: Bytes::from_static(b"signature"),
        },
        signed: Bytes::from_static(b"signed"),
    })
}

// What it answers to each way in which anna asks to be let in.
fn verdicts<H: AuthHandler>(
    handler: &mut H,
    public_key: &PublicKey,
    certificate: &Certificate,
) -> [Verdict; 6]
where
    H::Error: Drop,
{
    let algorithm = Algorithm::Ed25519;
    let offer = PublicKeyOffer {
        public_key,
        algorithm,
    };
    let verified = VerifiedPublicKey {
        public_key,
        algorithm,
    };
    [
        spent(handler.auth_none("anna")),
        spent(handler.auth_password("anna", "please")),
        spent(handler.auth_publickey_offered("anna", offer)),
        spent(handler.auth_publickey("anna", verified)),
        spent(handler.auth_openssh_certificate("anna", certificate)),
        spent(handler.auth_keyboard_interactive("anna", "", None)),
    ]
}

// The callback, its user and its answer.
fn asked(call: &Call) -> Option<(&'static str, &str, &Result<Auth, Error>)> {
    let (callback, user, answer) = match call {
        Call::AuthNone { user, answer } => ("auth_none", user, answer),
        Call::AuthPassword { user, answer, .. } => ("auth_password", user, answer),
        Call::AuthPublickeyOffered { user, answer, .. } => ("auth_publickey_offered", user, answer),
        Call::AuthPublickey { user, answer, .. } => ("auth_publickey", user, answer),
        Call::AuthOpensshCertificate { user, answer, .. } => {
            ("auth_openssh_certificate", user, answer)
        }
        Call::AuthKeyboardInteractive { user, answer, .. } => {
            ("auth_keyboard_interactive", user, answer)
        }
        _ => return None,
    };
    Some((callback, user.as_str(), answer))
}

// Whether it is no failure of another callback.
fn is_own(answer: &Result<Auth, Error>, callback: &'static str) -> bool {
    match answer {
        Ok(_) => true,
        Err(e) => *e == RecordError::Inner(Failed(callback, 0)),
    }
}

/// Whether a request by this callback is told, with its user and its verdict.
pub(crate) fn is_told(call: &Call, callback: &'static str, user: &str, expected: Verdict) -> bool {
    match asked(call) {
        Some((name, by, answer)) => {
            let is_named = name == callback && by == user;
            is_named && verdict_of(answer) == expected && is_own(answer, callback)
        }
        None => false,
    }
}

// The verdicts where no callback is written: nobody is let in, but a key that is offered may sign.
static UNWRITTEN: [(&str, Verdict); 6] = [
    ("auth_none", Verdict::Refused),
    ("auth_password", Verdict::Refused),
    ("auth_publickey_offered", Verdict::Accepted),
    ("auth_publickey", Verdict::Refused),
    ("auth_openssh_certificate", Verdict::Refused),
    ("auth_keyboard_interactive", Verdict::Refused),
];

// The verdicts of a handler that writes each.
static WRITTEN: [(&str, Verdict); 6] = [
    ("auth_none", Verdict::Accepted),
    ("auth_password", Verdict::Fails),
    ("auth_publickey_offered", Verdict::Fails),
    ("auth_publickey", Verdict::Fails),
    ("auth_openssh_certificate", Verdict::Fails),
    ("auth_keyboard_interactive", Verdict::Prompted),
];

// Whether anna's requests are told so.
fn are_told(calls: &[Call], expected: &[(&'static str, Verdict); 6]) -> bool {
    let mut are_told = calls.len() == expected.len();
    for (call, (callback, verdict)) in calls.iter().zip(expected) {
        are_told = is_told(call, *callback, "anna", *verdict) && are_told;
    }
    are_told
}

// Whether anna's requests were answered so.
fn are_answered(answers: &[Verdict; 6], expected: &[(&'static str, Verdict); 6]) -> bool {
    let mut are_answered = true;
    for (answer, (_, verdict)) in answers.iter().zip(expected) {
        are_answered = *answer == *verdict && are_answered;
    }
    are_answered
}

fn lets_nobody_in(alloc: Global, public_key: &PublicKey, certificate: &Certificate) -> bool {
    let mut handler = Recorded::new(alloc, Accepting);
    let answers = verdicts(&mut handler, public_key, certificate);
    let are_told = are_told(handler.calls(), &UNWRITTEN);
    drop(handler);
    are_told && are_answered(&answers, &UNWRITTEN)
}

fn passes_on(alloc: Global, public_key: &PublicKey, certificate: &Certificate) -> bool {
    let mut handler = Recorded::new(alloc, Failing { alloc });
    let answers = verdicts(&mut handler, public_key, certificate);
    let are_told = are_told(handler.calls(), &WRITTEN);
    drop(handler);
    are_told && are_answered(&answers, &WRITTEN)
}

#[test]
fn requests_are_passed_on_and_told(rt: HostRuntime) -> Result<(), Fail> {
    let alloc = rt.alloc();
    let certificate = certificate(alloc)?;
    let public_key = key(b"anna's");
    let lets_nobody_in = lets_nobody_in(alloc, &public_key, &certificate);
    let passes_on = passes_on(alloc, &public_key, &certificate);
    drop(public_key);
    drop(certificate);
    assert!(rt; lets_nobody_in);
    assert!(rt; passes_on);
    Ok(())
}

// Whether a call asks for the banner, and there is none, or it fails so.
fn is_banner(call: &Call, failure: Option<Error>) -> bool {
    match call {
        Call::AuthenticationBanner { answer: Ok(None) } => failure.is_none(),
        Call::AuthenticationBanner { answer: Err(e) } => failure == Some(*e),
        _ => false,
    }
}

// Whether such a call alone is told.
fn is_greeted(calls: &[Call], failure: Option<Error>) -> bool {
    matches!(calls, [call] if is_banner(call, failure))
}

// There is no banner where none is written.
fn has_no_banner(alloc: Global) -> bool {
    let mut handler = Recorded::new(alloc, Accepting);
    let answer = handler.authentication_banner();
    let is_none = matches!(&answer, Ok(None));
    drop(answer);
    let is_told = is_greeted(handler.calls(), None);
    drop(handler);
    is_none && is_told
}

fn fails_to_greet(alloc: Global) -> bool {
    let mut handler = Recorded::new(alloc, Failing { alloc });
    let answer = handler.authentication_banner();
    let failure = RecordError::Inner(Failed("authentication_banner", 0));
    let fails = matches!(&answer, Err(e) if *e == failure);
    drop(answer);
    let is_told = is_greeted(handler.calls(), Some(failure));
    drop(handler);
    fails && is_told
}

// Whether another user is told by his name, behind anna.
fn are_told_apart(alloc: Global) -> bool {
    let mut handler = Recorded::new(alloc, Failing { alloc });
    let anna = spent(handler.auth_none("anna"));
    let bert = spent(handler.auth_none("bert"));
    let are_told = matches!(handler.calls(), [one, other]
        if is_told(one, "auth_none", "anna", Verdict::Accepted)
            && is_told(other, "auth_none", "bert", Verdict::Refused));
    drop(handler);
    are_told && anna == Verdict::Accepted && bert == Verdict::Refused
}

// A call that was not told ends the telling, and the next one is passed on all the same.
fn is_passed_on_untold(alloc: Global) -> bool {
    let mut handler = Recorded::new(alloc, Failing { alloc });
    let untold = handler.untold(Unwritten::new());
    let anna = spent(handler.auth_none("anna"));
    drop(handler);
    untold == Err(RecordError::Untold) && anna == Verdict::Accepted
}

#[test]
fn banners_and_users(rt: HostRuntime) {
    let alloc = rt.alloc();
    assert!(rt; has_no_banner(alloc));
    assert!(rt; fails_to_greet(alloc));
    assert!(rt; are_told_apart(alloc));
    assert!(rt; is_passed_on_untold(alloc));
}
