// Keys as a handler is asked about them.
use ssh_keys::{Algorithm, PublicKey};

/// A key that a client offers, before it has shown that the key is its own (RFC 4252 section 7).
#[derive(Clone, Copy, Debug)]
pub struct PublicKeyOffer<'a> {
    /// The key; for a certificate, the one that is certified.
    pub public_key: &'a PublicKey,
    /// The algorithm by which it would sign.
    pub algorithm: Algorithm,
}

/// A key that has signed the request: the verifier accepted its signature.
#[derive(Clone, Copy, Debug)]
pub struct VerifiedPublicKey<'a> {
    /// The key.
    pub public_key: &'a PublicKey,
    /// The algorithm by which it signed.
    pub algorithm: Algorithm,
}
