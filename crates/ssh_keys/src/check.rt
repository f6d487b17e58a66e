// Whether a certificate's time and its own signature hold.
ghost use Rattle.std.specs.Prelude.{◌≡◌, ◌⊎◌, ◌↔◌, IsTrue, IsOk, IfErr, IsErrOf};
ghost use Rattle.ssh_keys.specs.Checks.{IsEarly, IsLate, IsOutOfTime, IsSigned};
ghost use Rattle.ssh_keys.specs.declared.error.KeyError.TheVariants.{CertificateValidation, Time};

use crate::{Algorithm, Certificate, KeyError, Verifier};

/// No second is the last one (OpenSSH PROTOCOL.certkeys).
const FOREVER: u64 = u64::MAX;

const MILLISECONDS_PER_SECOND: u128 = 1000;

impl Certificate {
    /// Checks the time of a decoded certificate at this moment, in milliseconds since 1970, and its
    /// own signature. `Time` exactly where the moment is not in its time; and
    /// `CertificateValidation` exactly where it is, and the signature's name is not known or the
    /// verifier refuses the signature. No other error. The certificate's type, its principals, its
    /// critical options and whether its signature key is one to trust are for the caller to check.
    pub fn check<V: Verifier>(&self, moment: u64, verifier: &V) -> Result<(), KeyError>
        ensures ok { IsOk result ↔ ((IsOutOfTime self.now moment → ⊥)
            × IsSigned (V.accepts verifier.now) self.now) }
        ensures time { IsErrOf result KeyError.Time ↔ IsOutOfTime self.now moment }
        ensures validation { IsErrOf result KeyError.CertificateValidation
            ↔ ((IsOutOfTime self.now moment → ⊥)
            × (IsSigned (V.accepts verifier.now) self.now → ⊥)) }
        ensures errors { IfErr result (λ e. (e ≡ Time) ⊎ (e ≡ CertificateValidation)) }
    {
        if self.is_early(moment) {
            return Err(KeyError::Time);
        }
        if self.is_late(moment) {
            return Err(KeyError::Time);
        }
        if self.is_signed(verifier) {
            Ok(())
        } else {
            Err(KeyError::CertificateValidation)
        }
    }

    /// Whether the moment is before the certificate's first second.
    fn is_early(&self, moment: u64) -> bool
        ensures { IsTrue result ↔ IsEarly self.now moment }
    {
        let first = u128::from(self.valid_after) * MILLISECONDS_PER_SECOND;
        self.valid_after != 0 && u128::from(moment) < first
    }

    /// Whether the moment is past the first millisecond of `valid_before`.
    fn is_late(&self, moment: u64) -> bool
        ensures { IsTrue result ↔ IsLate self.now moment }
    {
        let last = u128::from(self.valid_before) * MILLISECONDS_PER_SECOND;
        self.valid_before != FOREVER && last < u128::from(moment)
    }

    /// Whether the verifier accepts the signature of the signed part.
    fn is_signed<V: Verifier>(&self, verifier: &V) -> bool
        ensures { IsTrue result ↔ IsSigned (V.accepts verifier.now) self.now }
    {
        match Algorithm::new(self.signature.name.as_str()) {
            Some(algorithm) => verifier.verify(
                &self.signature_key,
                algorithm,
                self.signed.as_slice(),
                self.signature.blob.as_slice(),
            ),
            None => false,
        }
    }
}
