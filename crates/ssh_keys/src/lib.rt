//! Public keys, certificates and signatures of SSH: what their blobs say (RFC 4253 section 6.6,
//! RFC 5656, RFC 8332, RFC 8709, OpenSSH's PROTOCOL.certkeys), and whether a certificate's time and
//! its own signature hold.
//!
//! What the crates above rely on: a blob is read exactly as its layout says, a refusal is of
//! exactly one kind, and a check of a certificate passes exactly where its time and its signature
//! do.
#![tactic(auto)]

mod algorithm;
mod certificate;
mod check;
mod error;
mod key_or_certificate;
mod key_type;
mod public_key;
mod signature;
mod table_verifier;
mod terms;
mod verifier;

pub use algorithm::{Algorithm, EcdsaCurve, HashAlg};
pub use certificate::Certificate;
pub use error::KeyError;
pub use key_or_certificate::PublicKeyOrCertificate;
pub use public_key::PublicKey;
pub use signature::Signature;
pub use table_verifier::{AcceptedSignature, TableVerifier};
pub use terms::CertType;
pub use verifier::Verifier;
