// The methods by which a client asks to be authenticated.
use ssh_keys::{Certificate, HashAlg, PublicKey};
use ssh_wire::{Blobs, Text};

/// A method by which a client asks to be authenticated, with what it asks with.
#[derive(Drop)]
pub enum Method {
    /// No proof at all (RFC 4252 section 5.2).
    None,
    /// A password (RFC 4252 section 8).
    Password {
        /// The password.
        password: Text,
    },
    /// A key whose signature is made later (RFC 4252 section 7).
    FuturePublicKey {
        /// The key that is offered.
        key: PublicKey,
        /// The hash that an RSA signature names.
        hash_alg: Option<HashAlg>,
    },
    /// A certificate whose key's signature is made later (OpenSSH PROTOCOL.certkeys).
    FutureCertificate {
        /// The certificate that is offered.
        cert: Certificate,
        /// The hash that an RSA signature names.
        hash_alg: Option<HashAlg>,
    },
    /// Prompts and responses (RFC 4256).
    KeyboardInteractive {
        /// The submethods that the client would like, joined by commas.
        submethods: Text,
    },
    /// GSS-API (RFC 4462).
    GssapiWithMic {
        /// The mechanisms that the client has, each as an object identifier.
        mechanism_oids: Blobs,
    },
}
