// The algorithms that sign, and their names.
ghost use Rattle.std.specs.Prelude.{◌≡◌, MatchOption};
ghost use Rattle.ssh_keys.specs.Algorithms.{curve_name, algorithm_name, certificate_name};
ghost use Rattle.ssh_keys.specs.Algorithms.{NamesNone};

/// An algorithm of signatures.
#[derive(Clone, Copy, Debug, PartialEq, Eq)]
pub enum Algorithm {
    /// Edwards-curve signatures (RFC 8709).
    Ed25519,
    /// Elliptic curve signatures (RFC 5656).
    Ecdsa {
        /// The curve of its keys.
        curve: EcdsaCurve,
    },
    /// RSA signatures: with SHA-1 where no hash is named (RFC 4253 section 6.6, RFC 8332).
    Rsa {
        /// The hash that is named.
        hash: Option<HashAlg>,
    },
}

/// A curve of elliptic curve keys (RFC 5656 section 10.1).
#[derive(Clone, Copy, Debug, PartialEq, Eq)]
pub enum EcdsaCurve {
    /// The curve `nistp256`.
    NistP256,
    /// The curve `nistp384`.
    NistP384,
    /// The curve `nistp521`.
    NistP521,
}

/// A hash that an RSA signature names (RFC 8332 section 3).
#[derive(Clone, Copy, Debug, PartialEq, Eq)]
pub enum HashAlg {
    /// SHA-256: the name `rsa-sha2-256`.
    Sha256,
    /// SHA-512: the name `rsa-sha2-512`.
    Sha512,
}

impl EcdsaCurve {
    /// The curve's identifier (RFC 5656 section 10.1).
    pub fn as_str(self) -> &'static str
        ensures { result.now ≡ curve_name self }
    {
        match self {
            EcdsaCurve::NistP256 => "nistp256",
            EcdsaCurve::NistP384 => "nistp384",
            EcdsaCurve::NistP521 => "nistp521",
        }
    }
}

impl Algorithm {
    /// The algorithm of this name. There is none exactly where no algorithm has the name.
    pub fn new(name: &str) -> Option<Algorithm>
        ensures { MatchOption result (NamesNone algorithm_name name.now)
            (λ algorithm. algorithm_name algorithm ≡ name.now) }
    {
        match name {
            "ssh-ed25519" => Some(Algorithm::Ed25519),
            "ecdsa-sha2-nistp256" => Some(Algorithm::Ecdsa {
                curve: EcdsaCurve::NistP256,
            }),
            "ecdsa-sha2-nistp384" => Some(Algorithm::Ecdsa {
                curve: EcdsaCurve::NistP384,
            }),
            "ecdsa-sha2-nistp521" => Some(Algorithm::Ecdsa {
                curve: EcdsaCurve::NistP521,
            }),
            "ssh-rsa" => Some(Algorithm::Rsa { hash: None }),
            "rsa-sha2-256" => Some(Algorithm::Rsa {
                hash: Some(HashAlg::Sha256),
            }),
            "rsa-sha2-512" => Some(Algorithm::Rsa {
                hash: Some(HashAlg::Sha512),
            }),
            _ => None,
        }
    }

    /// The algorithm whose certificates have this name (OpenSSH PROTOCOL.certkeys). There is none
    /// exactly where no algorithm's certificates have the name.
    pub fn new_certificate(name: &str) -> Option<Algorithm>
        ensures { MatchOption result (NamesNone certificate_name name.now)
            (λ algorithm. certificate_name algorithm ≡ name.now) }
    {
        match name {
            "ssh-ed25519-cert-v01@openssh.com" => Some(Algorithm::Ed25519),
            "ecdsa-sha2-nistp256-cert-v01@openssh.com" => Some(Algorithm::Ecdsa {
                curve: EcdsaCurve::NistP256,
            }),
            "ecdsa-sha2-nistp384-cert-v01@openssh.com" => Some(Algorithm::Ecdsa {
                curve: EcdsaCurve::NistP384,
            }),
            "ecdsa-sha2-nistp521-cert-v01@openssh.com" => Some(Algorithm::Ecdsa {
                curve: EcdsaCurve::NistP521,
            }),
            "ssh-rsa-cert-v01@openssh.com" => Some(Algorithm::Rsa { hash: None }),
            "rsa-sha2-256-cert-v01@openssh.com" => Some(Algorithm::Rsa {
                hash: Some(HashAlg::Sha256),
            }),
            "rsa-sha2-512-cert-v01@openssh.com" => Some(Algorithm::Rsa {
                hash: Some(HashAlg::Sha512),
            }),
            _ => None,
        }
    }

    /// The algorithm's name for keys and signatures.
    pub fn as_str(self) -> &'static str
        ensures { result.now ≡ algorithm_name self }
    {
        match self {
            Algorithm::Ed25519 => "ssh-ed25519",
            Algorithm::Ecdsa {
                curve: EcdsaCurve::NistP256,
            } => "ecdsa-sha2-nistp256",
            Algorithm::Ecdsa {
                curve: EcdsaCurve::NistP384,
            } => "ecdsa-sha2-nistp384",
            Algorithm::Ecdsa {
                curve: EcdsaCurve::NistP521,
            } => "ecdsa-sha2-nistp521",
            Algorithm::Rsa { hash: None } => "ssh-rsa",
            Algorithm::Rsa {
                hash: Some(HashAlg::Sha256),
            } => "rsa-sha2-256",
            Algorithm::Rsa {
                hash: Some(HashAlg::Sha512),
            } => "rsa-sha2-512",
        }
    }
}
