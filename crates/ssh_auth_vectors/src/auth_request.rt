// The state of authentication between requests (RFC 4252 section 5).
use crate::values::are_equal;
use bytes::Bytes;
use ssh_auth::{AuthRequest, CurrentRequest, Method};
use ssh_keys::{CertType, Certificate, HashAlg, PublicKey, Signature};
use ssh_wire::{Blobs, MethodKind, MethodSet, Text, WireError};
use std::alloc::Global;
use std::test::*;

fn key() -> PublicKey {
    PublicKey::Ed25519 {
        key: Bytes::from_static(b"a key of a user"),
    }
}

fn certificate(alloc: Global) -> Result<Certificate, Fail> {
    let key_id = Text::new(alloc, "ada's laptop")?;
    let name = Text::new(alloc, "ssh-ed25519")?;
    Ok(Certificate {
        nonce: Bytes::from_static(b"nonce"),
        public_key: key(),
        serial: 1,
        cert_type: CertType::User,
        key_id,
        valid_principals: Bytes::new(),
        valid_after: 0,
        valid_before: u64::MAX,
        critical_options: Bytes::new(),
        extensions: Bytes::new(),
        reserved: Bytes::new(),
        signature_key: key(),
        signature: Signature {
            name,
            blob: Bytes::from_static(b"a signature"),
        },
        signed: Bytes::new(),
    })
}

// The name of a user and that of a service, or of a round and what it is about.
type Pair = (&'static str, &'static str);

// The fields, with the submethods of the prompts that were begun, and the name of any other round.
#[derive(Clone, Copy, PartialEq)]
struct Fields<'a> {
    methods: MethodSet,
    partial_success: bool,
    round: Option<(&'static str, &'a str)>,
    rejection_count: usize,
    principal: Option<(&'a str, &'a str)>,
    initial: MethodSet,
}

fn fields_of(auth: &AuthRequest) -> Fields<'_> {
    let round = match &auth.current {
        Some(CurrentRequest::KeyboardInteractive { submethods }) => {
            Some(("prompts", submethods.as_str()))
        }
        Some(CurrentRequest::GssapiWithMic) => Some(("GSS-API", "")),
        Some(CurrentRequest::PublicKey { algo, .. }) => Some(("a key", algo.as_str())),
        None => None,
    };
    Fields {
        methods: auth.methods,
        partial_success: auth.partial_success,
        round,
        rejection_count: auth.rejection_count,
        principal: auth.principal(),
        initial: auth.initial_methods(),
    }
}

// Whether a client that would go on with this method begins with all methods and this round.
fn begins(method: Method, round: Option<Pair>) -> bool {
    let all = MethodSet::client_supported();
    let wanted = Fields {
        methods: all,
        partial_success: false,
        round,
        rejection_count: 0,
        principal: None,
        initial: all,
    };
    let begun = AuthRequest::new(&method);
    let is_wanted = matches!(&begun, Ok(auth) if fields_of(auth) == wanted);
    drop(begun);
    drop(method);
    is_wanted
}

#[test]
fn a_client_begins_with_all_methods_and_no_round(rt: HostRuntime) -> Result<(), Fail> {
    let alloc = rt.alloc();
    assert!(rt;
        begins(Method::None, None),
        "the method none begins nothing"
    );
    let password = Text::new(alloc, "secret")?;
    assert!(rt;
        begins(Method::Password { password }, None),
        "a password begins nothing"
    );
    let hash_alg = None;
    assert!(rt;
        begins(
            Method::FuturePublicKey {
                key: key(),
                hash_alg
            },
            None
        ),
        "a key begins nothing"
    );
    let cert = certificate(alloc)?;
    let hash_alg = Some(HashAlg::Sha512);
    assert!(rt;
        begins(Method::FutureCertificate { cert, hash_alg }, None),
        "a certificate begins nothing"
    );
    Ok(())
}

#[test]
fn a_client_that_is_prompted_or_goes_by_gss_api_begins(rt: HostRuntime) -> Result<(), Fail> {
    let alloc = rt.alloc();
    for (shows, names) in [
        ("prompts begin with their submethods", "pam,otp"),
        ("prompts without submethods begin too", ""),
    ] {
        let submethods = Text::new(alloc, names)?;
        let method = Method::KeyboardInteractive { submethods };
        assert!(rt; begins(method, Some(("prompts", names))), "{shows}");
    }
    let mechanism_oids = Blobs::new(alloc);
    let method = Method::GssapiWithMic { mechanism_oids };
    assert!(rt; begins(method, Some(("GSS-API", ""))), "GSS-API begins");
    Ok(())
}

// Whether a server with these methods begins with them, and with no round and nobody bound.
fn serves(methods: MethodSet) -> bool {
    let wanted = Fields {
        methods,
        partial_success: false,
        round: None,
        rejection_count: 0,
        principal: None,
        initial: methods,
    };
    let begun = AuthRequest::server(methods);
    let is_wanted = fields_of(&begun) == wanted;
    drop(begun);
    is_wanted
}

#[test]
fn a_server_begins_with_its_methods_and_nobody_bound(rt: HostRuntime) {
    let rows: [(&str, &[MethodKind]); 3] = [
        ("no method", &[]),
        ("one method", &[MethodKind::Password]),
        (
            "methods in the order given",
            &[MethodKind::PublicKey, MethodKind::None],
        ),
    ];
    for (shows, kinds) in rows {
        let methods = MethodSet::from_slice(kinds);
        assert!(rt; serves(methods), "{shows}");
        let one = AuthRequest::server(methods);
        assert!(rt; are_equal(one, AuthRequest::server(methods)), "{shows}");
    }
}

// Brings a server to where some requests by this user for this service leave it, if any.
fn serve(alloc: Global, auth: &mut AuthRequest, pair: Option<Pair>) -> Result<(), WireError> {
    let submethods = Text::new(alloc, "pam")?;
    if let Some((user, service)) = pair {
        auth.bind_or_reset_principal(alloc, user, service)?;
    }
    auth.methods = MethodSet::from_slice(&[MethodKind::Password]);
    auth.partial_success = true;
    auth.current = Some(CurrentRequest::KeyboardInteractive { submethods });
    auth.rejection_count = 3;
    Ok(())
}

// Whether the next request, by this pair, begins anew just where that differs from the bound one.
fn goes_on(
    alloc: Global,
    auth: &mut AuthRequest,
    bound: Option<Pair>,
    named: Pair,
    differs: bool,
) -> bool {
    let before = fields_of(auth);
    let was_bound = before.principal == bound;
    let (methods, initial) = (before.methods, before.initial);
    let answer = auth.bind_or_reset_principal(alloc, named.0, named.1);
    let wanted = Fields {
        methods: if differs { initial } else { methods },
        partial_success: !differs,
        round: if differs {
            None
        } else {
            Some(("prompts", "pam"))
        },
        rejection_count: 3,
        principal: Some(named),
        initial,
    };
    let is_wanted = fields_of(auth) == wanted;
    was_bound && answer == Ok(differs) && is_wanted
}

fn is_so(alloc: Global, bound: Option<Pair>, named: Pair, differs: bool) -> bool {
    let methods = [MethodKind::PublicKey, MethodKind::Password];
    let mut auth = AuthRequest::server(MethodSet::from_slice(&methods));
    let is_served = serve(alloc, &mut auth, bound) == Ok(());
    let goes_on = goes_on(alloc, &mut auth, bound, named, differs);
    drop(auth);
    is_served && goes_on
}

const ADA: Pair = ("ada", "ssh-connection");

// The pair that was bound, the one that the next request names, and whether they differ.
const PAIRS: [(&str, Option<Pair>, Pair, bool); 9] = [
    ("the first request binds its pair", None, ADA, true),
    ("the same pair changes nothing", Some(ADA), ADA, false),
    ("another user", Some(ADA), ("bob", "ssh-connection"), true),
    ("another service", Some(ADA), ("ada", "ssh-userauth"), true),
    (
        "case tells users apart",
        Some(ADA),
        ("Ada", "ssh-connection"),
        true,
    ),
    (
        "a user's name is compared whole",
        Some(ADA),
        ("ad", "ssh-connection"),
        true,
    ),
    (
        "a pair is not its two names joined",
        Some(("ad", "a")),
        ("a", "da"),
        true,
    ),
    (
        "empty names are nobody's until they are bound",
        None,
        ("", ""),
        true,
    ),
    (
        "empty names are bound like others",
        Some(("", "")),
        ("", ""),
        false,
    ),
];

#[test]
fn another_user_or_service_begins_anew(rt: HostRuntime) {
    for (shows, bound, named, differs) in PAIRS {
        assert!(rt; is_so(rt.alloc(), bound, named, differs), "{shows}");
    }
}
