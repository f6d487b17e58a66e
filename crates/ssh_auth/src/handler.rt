// The callbacks that authenticate.
ghost use Rattle.std.specs.Prelude.{◌≡◌, List, Option, None, Result};
ghost use Rattle.ssh_link.specs.Told.{Tells, IsUntold};
ghost use Rattle.ssh_auth.specs.declared.call.Call.{Call};
ghost use Rattle.ssh_auth.specs.declared.call.Call.TheVariants.{AuthenticationBanner, AuthNone};
ghost use Rattle.ssh_auth.specs.declared.call.Call.TheVariants.{AuthPassword, AuthPublickeyOffered};
ghost use Rattle.ssh_auth.specs.declared.call.Call.TheVariants.{AuthPublickey};
ghost use Rattle.ssh_auth.specs.declared.call.Call.TheVariants.{AuthOpensshCertificate};
ghost use Rattle.ssh_auth.specs.declared.call.Call.TheVariants.{AuthKeyboardInteractive};

use crate::{Auth, PublicKeyOffer, Response, VerifiedPublicKey};
use ssh_keys::Certificate;
use ssh_wire::Text;

/// Shows that a callback was not written by its handler. The bodies of the callbacks make one;
/// nobody else has a use for it.
#[derive(Clone, Copy, Debug)]
pub struct Unwritten {
    kept: (),
}

impl Unwritten {
    /// For the body of a callback that a handler did not write.
    pub fn new() -> Unwritten {
        Unwritten { kept: () }
    }
}

/// What a server answers to requests of authentication. A handler that tells its calls goes on
/// telling them, unless one answered an error. An error of a callback ends the session's run.
pub trait AuthHandler {
    /// Why a callback cannot go on.
    type Error: Drop;

    /// The calls so far in order, where the handler tells them.
    ghost told: { Self → Option (List (Call Self.Error)) } = { λ _. None };

    /// Called by each body that the handler did not write. A handler that tells no calls answers Ok
    /// to have such a body answered; one that tells them cannot tell this one, and has to answer an
    /// error and stop telling.
    fn untold(&mut self, by: Unwritten) -> Result<(), Self::Error>
        ensures { IsUntold (told self.old) (told self.new) result };

    /// The banner that is shown to the user before authentication (RFC 4252 section 5.4): none
    /// where it is not written.
    fn authentication_banner(&mut self) -> Result<Option<Text>, Self::Error>
        ensures { Tells (told self.old) (told self.new) result (AuthenticationBanner result) }
    {
        self.untold(Unwritten::new())?;
        Ok(None)
    }

    /// A user asks to be let in by method none (RFC 4252 section 5.2): refused where it is not
    /// written.
    fn auth_none(&mut self, user: &str) -> Result<Auth, Self::Error>
        ensures { Tells (told self.old) (told self.new) result (AuthNone user.now result) }
    {
        self.untold(Unwritten::new())?;
        Ok(Auth::reject())
    }

    /// A user asks to be let in by a password (RFC 4252 section 8): refused where it is not
    /// written.
    fn auth_password(&mut self, user: &str, password: &str) -> Result<Auth, Self::Error>
        ensures { Tells (told self.old) (told self.new) result
            (AuthPassword user.now password.now result) }
    {
        self.untold(Unwritten::new())?;
        Ok(Auth::reject())
    }

    /// A user offers a key (RFC 4252 section 7), in a probe, or in a signed request whose key was
    /// not accepted in the probe before it; which of the two it is, is not told. The key may sign
    /// where this is not written. Nobody is let in by the answer, whatever it is.
    ///
    /// The answer to a probe counts whole. Of the answer to a signed request it only counts whether
    /// it is
    /// `Auth::Accept`, and then the signature is verified; else the request is refused, and neither
    /// the
    /// methods nor the flag of an `Auth::Reject` are used.
    ///
    /// The algorithm is the one that the request names, and the key is what its blob holds, or what
    /// its certificate certifies. The two need not belong together, as an RSA key and
    /// `ssh-ed25519`: whoever minds it refuses them here, or leaves it to the verifier. So it is
    /// with an algorithm that is not to be used any more, as `ssh-rsa`, which signs by SHA-1.
    fn auth_publickey_offered(
        &mut self,
        user: &str,
        offer: PublicKeyOffer<'_>,
    ) -> Result<Auth, Self::Error>
        ensures { Tells (told self.old) (told self.new) result
            (AuthPublickeyOffered user.now offer.entry.public_key.now offer.entry.algorithm
            result) }
    {
        self.untold(Unwritten::new())?;
        Ok(Auth::Accept)
    }

    /// A user asks to be let in by a key, and the verifier accepted its signature of the request
    /// (RFC 4252 section 7): refused where it is not written.
    fn auth_publickey(
        &mut self,
        user: &str,
        key: VerifiedPublicKey<'_>,
    ) -> Result<Auth, Self::Error>
        ensures { Tells (told self.old) (told self.new) result
            (AuthPublickey user.now key.entry.public_key.now key.entry.algorithm result) }
    {
        self.untold(Unwritten::new())?;
        Ok(Auth::reject())
    }

    /// A user asks to be let in by a certificate (OpenSSH PROTOCOL.certkeys): this moment is in its
    /// time, and the verifier accepted its own signature and the one of the request. Its type, its
    /// principals, its critical options and whether its signature key is one to trust are for the
    /// handler to check. Refused where it is not written.
    ///
    /// It is told neither the algorithm by which the certified key signed the request nor the
    /// moment: whoever refuses an algorithm does so in `auth_publickey_offered`, or in the
    /// verifier. A certificate is never handed to `auth_publickey` by the key that it certifies.
    fn auth_openssh_certificate(
        &mut self,
        user: &str,
        certificate: &Certificate,
    ) -> Result<Auth, Self::Error>
        ensures { Tells (told self.old) (told self.new) result
            (AuthOpensshCertificate user.now certificate.now result) }
    {
        self.untold(Unwritten::new())?;
        Ok(Auth::reject())
    }

    /// A user asks to be let in by prompts, with no response yet, or responds to those of the last
    /// answer, which was `Auth::Partial` (RFC 4256). `submethods` are those that the user would
    /// like, joined by commas. Refused where it is not written.
    fn auth_keyboard_interactive(
        &mut self,
        user: &str,
        submethods: &str,
        response: Option<Response<'_>>,
    ) -> Result<Auth, Self::Error>
        ensures { Tells (told self.old) (told self.new) result
            (AuthKeyboardInteractive user.now submethods.now response.entry result) }
    {
        self.untold(Unwritten::new())?;
        Ok(Auth::reject())
    }
}
