// What OpenSSH makes is read as what it says, and written as it was.
pub(crate) mod vectors;

use crate::values::is_this;
use bytes::Bytes;
use ssh_keys::{
    Algorithm, CertType, Certificate, EcdsaCurve, HashAlg, KeyError, PublicKey,
    PublicKeyOrCertificate, Signature, TableVerifier,
};
use ssh_wire::{Reader, Text};
use std::alloc::Global;
use std::test::*;

fn unhex(alloc: Global, digits: &str) -> Result<Bytes, Fail> {
    Ok(Bytes::from_vec(hex::decode(alloc, digits)?)?)
}

// The parts of a key: of an RSA key there is one.
#[derive(Clone, Copy)]
enum Parts {
    Ed25519(&'static [u8]),
    Ecdsa(EcdsaCurve, &'static [u8]),
    Rsa,
}

fn key_of(parts: Parts) -> PublicKey {
    match parts {
        Parts::Ed25519(key) => PublicKey::Ed25519 {
            key: Bytes::from_static(key),
        },
        Parts::Ecdsa(curve, point) => PublicKey::Ecdsa {
            curve,
            point: Bytes::from_static(point),
        },
        Parts::Rsa => PublicKey::Rsa {
            e: Bytes::from_static(vectors::RSA_E),
            n: Bytes::from_static(vectors::RSA_N),
        },
    }
}

// A key by its parts, its blob, and a certificate of it with what is that certificate's own.
#[derive(Clone, Copy)]
struct Row {
    key: Parts,
    blob: &'static str,
    certificate: &'static str,
    serial: u64,
    nonce: &'static [u8],
    signature: &'static [u8],
}

const ROWS: [Row; 5] = [
    Row {
        key: Parts::Ed25519(vectors::ED25519_KEY),
        blob: vectors::ED25519_BLOB,
        certificate: vectors::ED25519_CERTIFICATE,
        serial: 1,
        nonce: vectors::ED25519_NONCE,
        signature: vectors::ED25519_SIGNED_BY_CA,
    },
    Row {
        key: Parts::Ecdsa(EcdsaCurve::NistP256, vectors::P256_POINT),
        blob: vectors::P256_BLOB,
        certificate: vectors::P256_CERTIFICATE,
        serial: 2,
        nonce: vectors::P256_NONCE,
        signature: vectors::P256_SIGNED_BY_CA,
    },
    Row {
        key: Parts::Ecdsa(EcdsaCurve::NistP384, vectors::P384_POINT),
        blob: vectors::P384_BLOB,
        certificate: vectors::P384_CERTIFICATE,
        serial: 3,
        nonce: vectors::P384_NONCE,
        signature: vectors::P384_SIGNED_BY_CA,
    },
    Row {
        key: Parts::Ecdsa(EcdsaCurve::NistP521, vectors::P521_POINT),
        blob: vectors::P521_BLOB,
        certificate: vectors::P521_CERTIFICATE,
        serial: 4,
        nonce: vectors::P521_NONCE,
        signature: vectors::P521_SIGNED_BY_CA,
    },
    Row {
        key: Parts::Rsa,
        blob: vectors::RSA_BLOB,
        certificate: vectors::RSA_CERTIFICATE,
        serial: 5,
        nonce: vectors::RSA_NONCE,
        signature: vectors::RSA_SIGNED_BY_CA,
    },
];

// Whether the row's blob is its key, and the key is copied, and written as the blob.
fn is_key(alloc: Global, row: Row) -> Result<bool, Fail> {
    let blob = unhex(alloc, row.blob)?;
    let key = key_of(row.key);
    let is_key = is_this(PublicKey::decode(alloc, blob.as_slice()), &key)
        && is_this(key.copy(), &key)
        && is_this(key.blob(alloc), &blob);
    drop(key);
    drop(blob);
    Ok(is_key)
}

#[test]
fn a_key_is_read_as_its_parts_and_written_as_its_blob(rt: HostRuntime) -> Result<(), Fail> {
    for row in ROWS {
        assert!(rt; is_key(rt.alloc(), row)?, "{}", row.blob);
    }
    Ok(())
}

fn signature_of(alloc: Global, name: &str, blob: Bytes) -> Result<Signature, Fail> {
    Ok(Signature {
        name: Text::new(alloc, name)?,
        blob,
    })
}

// What ssh-keygen was told to certify, of a blob: a user's key, from 2024-01-01 to 2030-01-01.
fn certified(alloc: Global, row: Row, blob: &[u8]) -> Result<Certificate, Fail> {
    let key_id = Text::new(alloc, "id")?;
    let signature = signature_of(alloc, "ssh-ed25519", Bytes::from_static(row.signature))?;
    // After the signed part come the length of the signature, and its 83 bytes.
    let (signed, _) = blob.split_at(blob.len().saturating_sub(87));
    let signed = Bytes::copy_from_slice(alloc, signed)?;
    Ok(Certificate {
        nonce: Bytes::from_static(row.nonce),
        public_key: key_of(row.key),
        serial: row.serial,
        cert_type: CertType::User,
        key_id,
        valid_principals: Bytes::from_static(b"\0\0\0\x05alice"),
        valid_after: 1704067200,
        valid_before: 1893456000,
        critical_options: Bytes::new(),
        extensions: Bytes::from_static(vectors::EXTENSIONS),
        reserved: Bytes::new(),
        signature_key: key_of(Parts::Ed25519(vectors::CA_KEY)),
        signature,
        signed,
    })
}

fn is_certificate(alloc: Global, row: Row) -> Result<bool, Fail> {
    let blob = unhex(alloc, row.certificate)?;
    let wanted = certified(alloc, row, blob.as_slice())?;
    let is_certificate = is_this(Certificate::decode(alloc, blob.as_slice()), &wanted)
        && is_this(wanted.copy(), &wanted);
    drop(wanted);
    Ok(is_certificate)
}

#[test]
fn a_certificate_says_what_was_certified(rt: HostRuntime) -> Result<(), Fail> {
    for row in ROWS {
        assert!(rt; is_certificate(rt.alloc(), row)?, "{}", row.certificate);
    }
    Ok(())
}

fn decoded(alloc: Global, digits: &str) -> Result<Certificate, Fail> {
    let blob = unhex(alloc, digits)?;
    Ok(Certificate::decode(alloc, blob.as_slice())?)
}

// Lets the verifier accept this certificate's signature.
fn accept(table: &mut TableVerifier, certificate: &Certificate) -> Result<(), KeyError> {
    let signed = certificate.signed.clone()?;
    let signature = certificate.signature.blob.clone()?;
    let key = certificate.signature_key.copy()?;
    table.add(key, Algorithm::Ed25519, signed, signature)
}

const LATE: Result<(), KeyError> = Err(KeyError::Time);

// From, up to, a moment in milliseconds, and the answer.
const MOMENTS: [(u64, u64, u64, Result<(), KeyError>); 8] = [
    (1704067200, 1893456000, 1704067199999, LATE),
    (1704067200, 1893456000, 1704067200000, Ok(())),
    (1704067200, 1893456000, 1893456000000, Ok(())),
    (1704067200, 1893456000, 1893456000001, LATE),
    (0, 10, 10000, Ok(())),
    (0, 10, 10001, LATE),
    (0, u64::MAX, 0, Ok(())),
    (0, u64::MAX, u64::MAX, Ok(())),
];

#[test]
fn a_certificate_holds_from_its_first_second_to_its_last(rt: HostRuntime) -> Result<(), Fail> {
    let mut certificate = decoded(rt.alloc(), vectors::ED25519_CERTIFICATE)?;
    let mut table = TableVerifier::new(rt.alloc());
    assert!(rt; accept(&mut table, &certificate) == Ok(()));
    for (valid_after, valid_before, moment, answer) in MOMENTS {
        certificate.valid_after = valid_after;
        certificate.valid_before = valid_before;
        assert!(rt; certificate.check(moment, &table) == answer, "{moment}");
    }
    Ok(())
}

#[test]
fn a_certificate_whose_signature_is_not_accepted_is_refused(rt: HostRuntime) -> Result<(), Fail> {
    let certificate = decoded(rt.alloc(), vectors::ED25519_CERTIFICATE)?;
    let empty = TableVerifier::new(rt.alloc());
    let answer = certificate.check(1704067200000, &empty);
    assert!(rt; answer == Err(KeyError::CertificateValidation));
    Ok(())
}

// The name of the algorithm, and how many bytes of the signature's own come last.
const SIGNATURES: [(&str, &str, usize); 5] = [
    (vectors::ED25519_SIGNATURE, "ssh-ed25519", 64),
    (vectors::P256_SIGNATURE, "ecdsa-sha2-nistp256", 74),
    (vectors::P384_SIGNATURE, "ecdsa-sha2-nistp384", 105),
    (vectors::P521_SIGNATURE, "ecdsa-sha2-nistp521", 140),
    (vectors::RSA_SIGNATURE, "rsa-sha2-512", 128),
];

// Whether these bytes are such a signature to their end, and it is copied.
fn is_signature(alloc: Global, bytes: &[u8], name: &str, length: usize) -> Result<bool, Fail> {
    let (_, own) = bytes.split_at(bytes.len().saturating_sub(length));
    let wanted = signature_of(alloc, name, Bytes::copy_from_slice(alloc, own)?)?;
    let mut r = Reader::new(bytes);
    let is_read = is_this(Signature::decode(alloc, &mut r), &wanted);
    let is_copied = is_this(wanted.copy(), &wanted);
    Ok(is_read && is_copied && r.end() == Ok(()))
}

#[test]
fn a_signature_is_read_to_its_end(rt: HostRuntime) -> Result<(), Fail> {
    for (digits, name, length) in SIGNATURES {
        let bytes = unhex(rt.alloc(), digits)?;
        assert!(rt;
            is_signature(rt.alloc(), bytes.as_slice(), name, length)?,
            "{name}"
        );
    }
    Ok(())
}

// What an offer shows: the hash that its name says, whether it is a certificate, and whether its
// key is this one.
fn shown(offer: &PublicKeyOrCertificate, key: &PublicKey) -> (Option<HashAlg>, bool, bool) {
    let hash = match offer {
        PublicKeyOrCertificate::PublicKey { hash_alg, .. } => *hash_alg,
        PublicKeyOrCertificate::Certificate(_) => None,
    };
    let is_certificate = offer.certificate().is_some();
    (hash, is_certificate, *offer.public_key() == *key)
}

// What an offer by this name shows beside the key of these parts.
fn offered(
    alloc: Global,
    name: &str,
    digits: &str,
    parts: Parts,
) -> Result<(Option<HashAlg>, bool, bool), Fail> {
    let blob = unhex(alloc, digits)?;
    let offer = PublicKeyOrCertificate::decode(alloc, name, blob.as_slice())?;
    let key = key_of(parts);
    let shown = shown(&offer, &key);
    drop(offer);
    drop(key);
    Ok(shown)
}

#[test]
fn a_plain_key_is_offered_with_the_hash_of_the_name(rt: HostRuntime) -> Result<(), Fail> {
    let shown = offered(rt.alloc(), "rsa-sha2-256", vectors::RSA_BLOB, Parts::Rsa)?;
    assert!(rt; shown == (Some(HashAlg::Sha256), false, true));
    Ok(())
}

#[test]
fn a_certificate_is_offered_by_the_name_of_certificates(rt: HostRuntime) -> Result<(), Fail> {
    let key = Parts::Ecdsa(EcdsaCurve::NistP256, vectors::P256_POINT);
    let name = "ecdsa-sha2-nistp256-cert-v01@openssh.com";
    let shown = offered(rt.alloc(), name, vectors::P256_CERTIFICATE, key)?;
    assert!(rt; shown == (None, true, true));
    Ok(())
}

fn refusal(alloc: Global, name: &str, digits: &str) -> Result<Option<KeyError>, Fail> {
    let blob = unhex(alloc, digits)?;
    Ok(PublicKeyOrCertificate::decode(alloc, name, blob.as_slice()).err())
}

const REFUSED: [(&str, &str, KeyError); 6] = [
    ("ssh-dss", vectors::ED25519_BLOB, KeyError::Unknown),
    (
        "ssh-rsa-cert-v01@openssh.com",
        vectors::RSA_BLOB,
        KeyError::Unknown,
    ),
    ("ssh-rsa", vectors::RSA_CERTIFICATE, KeyError::Unknown),
    (
        "ssh-ed25519",
        "0000000b7373682d65643235353139000000030102",
        KeyError::Blob,
    ),
    // The curve of another type, and a byte after the last field.
    (
        "ecdsa-sha2-nistp256",
        "0000001365636473612d736861322d6e69737470323536000000086e697374703338340000000101",
        KeyError::Blob,
    ),
    (
        "ssh-ed25519",
        "0000000b7373682d65643235353139000000020102ff",
        KeyError::Blob,
    ),
];

#[test]
fn an_offer_that_does_not_fit_is_refused(rt: HostRuntime) -> Result<(), Fail> {
    for (algorithm, digits, error) in REFUSED {
        assert!(rt;
            refusal(rt.alloc(), algorithm, digits)? == Some(error),
            "{algorithm}"
        );
    }
    Ok(())
}

// An algorithm, its name for plain keys, and its name for certificates.
const NAMES: [(Algorithm, &str, &str); 7] = [
    (
        Algorithm::Ed25519,
        "ssh-ed25519",
        "ssh-ed25519-cert-v01@openssh.com",
    ),
    (
        Algorithm::Ecdsa {
            curve: EcdsaCurve::NistP256,
        },
        "ecdsa-sha2-nistp256",
        "ecdsa-sha2-nistp256-cert-v01@openssh.com",
    ),
    (
        Algorithm::Ecdsa {
            curve: EcdsaCurve::NistP384,
        },
        "ecdsa-sha2-nistp384",
        "ecdsa-sha2-nistp384-cert-v01@openssh.com",
    ),
    (
        Algorithm::Ecdsa {
            curve: EcdsaCurve::NistP521,
        },
        "ecdsa-sha2-nistp521",
        "ecdsa-sha2-nistp521-cert-v01@openssh.com",
    ),
    (
        Algorithm::Rsa { hash: None },
        "ssh-rsa",
        "ssh-rsa-cert-v01@openssh.com",
    ),
    (
        Algorithm::Rsa {
            hash: Some(HashAlg::Sha256),
        },
        "rsa-sha2-256",
        "rsa-sha2-256-cert-v01@openssh.com",
    ),
    (
        Algorithm::Rsa {
            hash: Some(HashAlg::Sha512),
        },
        "rsa-sha2-512",
        "rsa-sha2-512-cert-v01@openssh.com",
    ),
];

#[test]
fn an_algorithm_has_the_names_of_the_standards(rt: HostRuntime) {
    for (algorithm, plain, certificate) in NAMES {
        assert!(rt; algorithm.as_str() == plain);
        assert!(rt; Algorithm::new(plain) == Some(algorithm));
        assert!(rt; Algorithm::new_certificate(certificate) == Some(algorithm));
    }
    assert!(rt; Algorithm::new("ssh-dss") == None);
}
