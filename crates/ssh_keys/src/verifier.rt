// The check of a signature, which is the outside's.
ghost use Rattle.std.specs.Prelude.{◌↔◌, ℕ, List, IsTrue};
ghost use Rattle.ssh_keys.specs.declared.algorithm.Algorithm.{Algorithm};
ghost use Rattle.ssh_keys.specs.declared.public_key.PublicKey.{PublicKey};

use crate::{Algorithm, PublicKey};

/// Whoever can tell whether a signature is a key's: the cryptography that this project does not
/// have. What is wrong with a key, an algorithm or a signature is refused here or nowhere: reading
/// a blob takes its strings as they are.
pub trait Verifier {
    /// The signatures that are accepted: of a key, by an algorithm, of a message.
    ghost accepts: { Self → PublicKey → Algorithm → List ℕ → List ℕ → Type 0 };

    /// Whether this is the key's signature of the message by this algorithm (RFC 4253 section
    /// 6.6, RFC 5656 section 3.1.2, RFC 8332 section 3, RFC 8709 section 6).
    ///
    /// The key and the algorithm need not belong together: a request, or a certificate's
    /// signature, names the algorithm beside the key, and nothing compares that name with the
    /// key's type. A verifier has to refuse
    /// - an algorithm that is not the key's: of another kind of key, or of another curve;
    /// - a key that is none: an Ed25519 key that is not 32 bytes long, a point that is not on its
    ///   curve, an exponent or a modulus that is no number of RSA, or too small a one;
    /// - a signature of another form than the algorithm's, or with bytes after it. Its length and
    ///   its name, which stand before it on the wire, are taken off;
    /// - `Rsa { hash: None }`, the algorithm `ssh-rsa`, unless SHA-1 is to be trusted still (RFC
    ///   8332 section 1).
    fn verify(
        &self,
        key: &PublicKey,
        algorithm: Algorithm,
        message: &[u8],
        signature: &[u8],
    ) -> bool
        ensures { IsTrue result ↔ accepts self.now key.now algorithm message.now signature.now };
}
