// What a request or a response asks, told without serving it (RFC 4252, RFC 4256).
use crate::keys::vectors;
use bytes::Bytes;
use ssh_auth::{
    Asked, AskedMethod, AuthRequest, CurrentRequest, asked_by_request, asked_by_response,
};
use ssh_keys::{PublicKeyOrCertificate, TableVerifier};
use ssh_wire::message::{USERAUTH_INFO_RESPONSE, USERAUTH_REQUEST};
use ssh_wire::{MethodSet, Text, WireError, put_bytes};
use std::alloc::Global;
use std::test::*;

const SESSION_ID: &[u8] = b"id";

// What is wanted to be told of alice: the method; for a key its algorithm; and then the password, the
// submethods, the blob of the key, or the message and the signature.
struct Wanted {
    method: &'static str,
    name: &'static str,
    first: &'static [u8],
    second: &'static [u8],
}

fn is_method(method: &AskedMethod<'_>, wanted: &Wanted) -> bool {
    match method {
        AskedMethod::None => wanted.method == "none",
        AskedMethod::Password { password } => {
            wanted.method == "password" && password.as_bytes() == wanted.first
        }
        AskedMethod::Probe { offer } => {
            wanted.method == "probe"
                && offer.algorithm.as_str() == wanted.name
                && offer.blob == wanted.first
        }
        AskedMethod::Signed {
            offer,
            probed,
            message,
            signature,
        } => {
            wanted.method == "signed"
                && !*probed
                && offer.algorithm.as_str() == wanted.name
                && message.as_slice() == wanted.first
                && signature.as_slice() == wanted.second
        }
        AskedMethod::KeyboardInteractive {
            submethods,
            responses: None,
        } => wanted.method == "prompts" && submethods.as_bytes() == wanted.first,
        AskedMethod::KeyboardInteractive {
            submethods,
            responses: Some(responses),
        } => {
            wanted.method == "responses"
                && submethods.as_bytes() == wanted.first
                && responses.as_slice().last().copied() == Some(wanted.second)
        }
    }
}

// Whether just this is told.
fn is_told(asked: &Result<Option<Asked<'_>>, WireError>, wanted: &Option<Wanted>) -> bool {
    match (asked, wanted) {
        (Ok(Some(asked)), Some(wanted)) => {
            asked.user == "alice"
                && asked.service == "ssh-connection"
                && is_method(&asked.method, wanted)
        }
        (Ok(None), None) => true,
        _ => false,
    }
}

struct Row {
    shows: &'static str,
    payload: &'static [u8],
    told: Option<Wanted>,
}

static REQUESTS: [Row; 12] = [
    Row {
        shows: "the method none",
        payload: b"\x32\0\0\0\x05alice\0\0\0\x0essh-connection\0\0\0\x04none",
        told: Some(Wanted {
            method: "none",
            name: "",
            first: b"",
            second: b"",
        }),
    },
    Row {
        shows: "bytes follow the method none",
        payload: b"\x32\0\0\0\x05alice\0\0\0\x0essh-connection\0\0\0\x04none\0",
        told: None,
    },
    Row {
        shows: "another service",
        payload: b"\x32\0\0\0\x05alice\0\0\0\x04sftp\0\0\0\x04none",
        told: None,
    },
    Row {
        shows: "a request that is cut short",
        payload: b"\x32\0\0\0\x05alice\0\0\0\x0essh-connection\0\0\0\x04non",
        told: None,
    },
    Row {
        shows: "a password",
        payload: b"\x32\0\0\0\x05alice\0\0\0\x0essh-connection\0\0\0\x08password\0\0\0\0\x06secret",
        told: Some(Wanted {
            method: "password",
            name: "",
            first: b"secret",
            second: b"",
        }),
    },
    Row {
        shows: "a change of a password",
        payload: b"\x32\0\0\0\x05alice\0\0\0\x0essh-connection\0\0\0\x08password\
            \x01\0\0\0\x06secret\0\0\0\x03new",
        told: None,
    },
    Row {
        shows: "prompts",
        payload: b"\x32\0\0\0\x05alice\0\0\0\x0essh-connection\0\0\0\x14keyboard-interactive\
            \0\0\0\0\0\0\0\x03pam",
        told: Some(Wanted {
            method: "prompts",
            name: "",
            first: b"pam",
            second: b"",
        }),
    },
    Row {
        shows: "a method that the server does not have",
        payload: b"\x32\0\0\0\x05alice\0\0\0\x0essh-connection\0\0\0\x09hostbased",
        told: None,
    },
    Row {
        shows: "a probe",
        payload: b"\x32\0\0\0\x05alice\0\0\0\x0essh-connection\0\0\0\x09publickey\
            \0\0\0\0\x0bssh-ed25519\0\0\0\x17\0\0\0\x0bssh-ed25519\0\0\0\x04key1",
        told: Some(Wanted {
            method: "probe",
            name: "ssh-ed25519",
            first: b"\0\0\0\x0bssh-ed25519\0\0\0\x04key1",
            second: b"",
        }),
    },
    Row {
        shows: "an algorithm without a known name",
        payload: b"\x32\0\0\0\x05alice\0\0\0\x0essh-connection\0\0\0\x09publickey\
            \0\0\0\0\x07ssh-dss\0\0\0\x17\0\0\0\x0bssh-ed25519\0\0\0\x04key1",
        told: None,
    },
    Row {
        shows: "a signature, over the session id and the request before it",
        payload: b"\x32\0\0\0\x05alice\0\0\0\x0essh-connection\0\0\0\x09publickey\
            \x01\0\0\0\x0bssh-ed25519\0\0\0\x17\0\0\0\x0bssh-ed25519\0\0\0\x04key1\
            \0\0\0\x17\0\0\0\x0bssh-ed25519\0\0\0\x04sign",
        told: Some(Wanted {
            method: "signed",
            name: "ssh-ed25519",
            first: b"\0\0\0\x02id\x32\0\0\0\x05alice\0\0\0\x0essh-connection\0\0\0\x09publickey\
            \x01\0\0\0\x0bssh-ed25519\0\0\0\x17\0\0\0\x0bssh-ed25519\0\0\0\x04key1",
            second: b"sign",
        }),
    },
    Row {
        shows: "a signature of another name",
        payload: b"\x32\0\0\0\x05alice\0\0\0\x0essh-connection\0\0\0\x09publickey\
            \x01\0\0\0\x0bssh-ed25519\0\0\0\x17\0\0\0\x0bssh-ed25519\0\0\0\x04key1\
            \0\0\0\x13\0\0\0\x07ssh-rsa\0\0\0\x04sign",
        told: None,
    },
];

// Whether this is told of a request in this state, at this moment.
fn tells(
    alloc: Global,
    auth: &AuthRequest,
    moment: u64,
    payload: &[u8],
    wanted: &Option<Wanted>,
) -> bool {
    let Some(number) = payload.first() else {
        return false;
    };
    let number = *number;
    if number != USERAUTH_REQUEST {
        return false;
    }
    let asked = asked_by_request::<TableVerifier>(alloc, auth, SESSION_ID, moment, payload);
    let is_told = is_told(&asked, wanted);
    drop(asked);
    is_told
}

fn requests_are_told(alloc: Global) -> bool {
    let auth = AuthRequest::server(MethodSet::server_supported());
    let mut are_told = true;
    for row in &REQUESTS {
        are_told = are_told && tells(alloc, &auth, 0, row.payload, &row.told);
    }
    drop(auth);
    are_told
}

#[test]
fn a_request_is_told_with_what_it_asks(rt: HostRuntime) {
    assert!(rt; requests_are_told(rt.alloc()));
}

static RESPONSES: [Row; 3] = [
    Row {
        shows: "responses",
        payload: b"\x3d\0\0\0\x02\0\0\0\0\0\0\0\x06123456",
        told: Some(Wanted {
            method: "responses",
            name: "",
            first: b"pam",
            second: b"123456",
        }),
    },
    Row {
        shows: "fewer responses than are announced",
        payload: b"\x3d\0\0\0\x02\0\0\0\x06123456",
        told: None,
    },
    Row {
        shows: "bytes behind the responses",
        payload: b"\x3d\0\0\0\x01\0\0\0\x06123456\0",
        told: None,
    },
];

// The state in which alice is in this round, or why there is none.
fn in_round(alloc: Global, round: CurrentRequest) -> Result<AuthRequest, WireError> {
    let mut auth = AuthRequest::server(MethodSet::server_supported());
    let bound = auth.bind_or_reset_principal(alloc, "alice", "ssh-connection");
    auth.current = Some(round);
    match bound {
        Ok(_) => Ok(auth),
        Err(e) => {
            drop(auth);
            Err(e)
        }
    }
}

// Whether this is told of a response in this state.
fn responds<'a>(
    alloc: Global,
    auth: &'a AuthRequest,
    payload: &'a [u8],
    wanted: &Option<Wanted>,
) -> bool {
    let Some(number) = payload.first() else {
        return false;
    };
    let number = *number;
    if number != USERAUTH_INFO_RESPONSE {
        return false;
    }
    let asked = asked_by_response(alloc, auth, payload);
    let is_told = is_told(&asked, wanted);
    drop(asked);
    is_told
}

fn responses_are_told(alloc: Global, prompted: &AuthRequest, idle: &AuthRequest) -> bool {
    let mut are_told = true;
    for row in &RESPONSES {
        let is_told = responds(alloc, prompted, row.payload, &row.told);
        let is_silent = responds(alloc, idle, row.payload, &None);
        are_told = are_told && is_told && is_silent;
    }
    are_told
}

fn responses_to_prompts(alloc: Global) -> Result<bool, WireError> {
    let submethods = Text::new(alloc, "pam")?;
    let prompted = in_round(alloc, CurrentRequest::KeyboardInteractive { submethods })?;
    let idle = AuthRequest::server(MethodSet::server_supported());
    let are_told = responses_are_told(alloc, &prompted, &idle);
    drop(prompted);
    drop(idle);
    Ok(are_told)
}

#[test]
fn a_response_is_told_where_prompts_wait(rt: HostRuntime) {
    assert!(rt; responses_to_prompts(rt.alloc()) == Ok(true));
}

// Whether a signature is told as one of a key that was probed.
fn is_probed(alloc: Global, auth: &AuthRequest, payload: &[u8]) -> bool {
    let Some(number) = payload.first() else {
        return false;
    };
    let number = *number;
    if number != USERAUTH_REQUEST {
        return false;
    }
    let asked = asked_by_request::<TableVerifier>(alloc, auth, SESSION_ID, 0, payload);
    let is_probed = match &asked {
        Ok(Some(asked)) => match &asked.method {
            AskedMethod::Signed { probed, .. } => *probed,
            _ => false,
        },
        _ => false,
    };
    drop(asked);
    is_probed
}

const BOBS: &[u8] = b"\x32\0\0\0\x03bob\0\0\0\x0essh-connection\0\0\0\x09publickey\
    \x01\0\0\0\x0bssh-ed25519\0\0\0\x17\0\0\0\x0bssh-ed25519\0\0\0\x04key1\
    \0\0\0\x17\0\0\0\x0bssh-ed25519\0\0\0\x04sign";

fn probes_count(alloc: Global) -> Result<bool, WireError> {
    let algo = Text::new(alloc, "ssh-ed25519")?;
    let key = Bytes::from_static(b"\0\0\0\x0bssh-ed25519\0\0\0\x04key1");
    let round = CurrentRequest::PublicKey {
        key,
        algo,
        sent_pk_ok: true,
    };
    let probed = in_round(alloc, round)?;
    let hers = is_probed(alloc, &probed, REQUESTS[10].payload);
    let his = is_probed(alloc, &probed, BOBS);
    drop(probed);
    Ok(hers && !his)
}

#[test]
fn a_probe_counts_for_the_user_who_made_it(rt: HostRuntime) {
    assert!(rt; probes_count(rt.alloc()) == Ok(true));
}

// A probe of the certificate of the vectors.
fn certificate_offered(alloc: Global) -> Result<Bytes, Fail> {
    let certificate = hex::decode(alloc, vectors::ED25519_CERTIFICATE)?;
    let mut payload = Vec::new(alloc);
    payload.extend_from_slice(
        b"\x32\0\0\0\x05alice\0\0\0\x0essh-connection\0\0\0\x09publickey\
        \0\0\0\0\x20ssh-ed25519-cert-v01@openssh.com",
    )?;
    put_bytes(&mut payload, certificate.as_slice())?;
    Ok(Bytes::from_vec(payload)?)
}

// Whether a probe of a certificate is told at this moment.
fn is_certificate(alloc: Global, auth: &AuthRequest, moment: u64, payload: &[u8]) -> bool {
    let Some(number) = payload.first() else {
        return false;
    };
    let number = *number;
    if number != USERAUTH_REQUEST {
        return false;
    }
    let asked = asked_by_request::<TableVerifier>(alloc, auth, SESSION_ID, moment, payload);
    let is_certificate = match &asked {
        Ok(Some(asked)) => match &asked.method {
            AskedMethod::Probe { offer } => match &offer.key {
                PublicKeyOrCertificate::Certificate(certificate) => certificate.serial == 1,
                PublicKeyOrCertificate::PublicKey { .. } => false,
            },
            _ => false,
        },
        _ => false,
    };
    drop(asked);
    is_certificate
}

// Moments around the time in which the certificate holds, and whether it is told then.
const TIMES: [(u64, bool); 4] = [
    (1704067199999, false),
    (1704067200000, true),
    (1893456000000, true),
    (1893456000001, false),
];

#[test]
fn a_certificate_is_told_in_its_time(rt: HostRuntime) -> Result<(), Fail> {
    let auth = AuthRequest::server(MethodSet::server_supported());
    let payload = certificate_offered(rt.alloc())?;
    for (moment, is_told) in TIMES {
        assert!(rt;
            is_certificate(rt.alloc(), &auth, moment, payload.as_slice()) == is_told,
            "{moment}"
        );
    }
    Ok(())
}
