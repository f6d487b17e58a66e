// What a payload asks of a user, told before it is taken.
ghost use Rattle.std.specs.Prelude.{◌≡◌, IfOk, IfErr, IfSome};
ghost use Rattle.ssh_wire.specs.declared.error.WireError.TheVariants.{NoMemory};
ghost use Rattle.ssh_rules.specs.World.{World};
ghost use Rattle.ssh_session.specs.Serve.{Refines};
ghost use Rattle.ssh_embed.specs.Asking.{AsksAsTold, ShownBy, Shows, Vouches};

use crate::Connection;
use ssh_auth::{Asked, AskedMethod, asked_by_request, asked_by_response};
use ssh_keys::{AcceptedSignature, TableVerifier};
use ssh_session::EncryptedState;
use ssh_wire::WireError;
use ssh_wire::message::{USERAUTH_INFO_RESPONSE, USERAUTH_REQUEST};

impl Connection {
    /// What this payload asks of a user, were it the next input, at this moment: who asks to be let
    /// in, and by what; None where no handler is asked. What it tells is what taking the payload
    /// asks, whichever signatures are vouched for. `NoMemory` is the only error.
    pub fn question<'a>(
        &'a self,
        moment: u64,
        payload: &'a [u8],
    ) -> Result<Option<Asked<'a>>, WireError>
        ensures asks { (w : World) → Refines self.now.session w →
            IfOk result (AsksAsTold w moment payload.now) }
        ensures memory { IfErr result (λ e. e ≡ NoMemory) }
    {
        let EncryptedState::WaitingAuthRequest(auth) = self.session.state() else {
            return Ok(None);
        };
        let id = self.session.session_id();
        match payload.first() {
            Some(&USERAUTH_REQUEST) => {
                asked_by_request::<TableVerifier>(self.alloc, auth, id, moment, payload)
            }
            Some(&USERAUTH_INFO_RESPONSE) => asked_by_response(self.alloc, auth, payload),
            _ => Ok(None),
        }
    }

    /// For the next input alone, the owner vouches for the signature that this payload shows, which
    /// it has checked: that of the key that the question tells, by its algorithm, of its message.
    /// Whether the payload shows one. A certificate's own signature is not vouched for, so nobody
    /// is let in by a certificate. `NoMemory` is the only error, and then nothing has changed.
    pub fn vouch(&mut self, moment: u64, payload: &[u8]) -> Result<bool, WireError>
        ensures vouches { Vouches moment payload.now self.old self.new result }
        ensures memory { IfErr result (λ e. e ≡ NoMemory) }
    {
        let Some(shown) = self.shown(moment, payload)? else {
            return Ok(false);
        };
        let AcceptedSignature {
            key,
            algorithm,
            message,
            signature,
        } = shown;
        match self.verifier.add(key, algorithm, message, signature) {
            Ok(()) => Ok(true),
            Err(_) => Err(WireError::NoMemory),
        }
    }

    /// The signature that this payload shows, with what it is to be a signature of.
    fn shown(&self, moment: u64, payload: &[u8]) -> Result<Option<AcceptedSignature>, WireError>
        ensures ok { IfOk result (λ shown. IfSome shown (Shows self.now moment payload.now)) }
        ensures memory { IfErr result (λ e. e ≡ NoMemory) }
    {
        let Some(asked) = self.question(moment, payload)? else {
            return Ok(None);
        };
        let shown = signature_in(&asked.method);
        drop(asked);
        shown
    }
}

/// The signature of a request by a key, with what it is to be a signature of.
fn signature_in(method: &AskedMethod<'_>) -> Result<Option<AcceptedSignature>, WireError>
    ensures ok { IfOk result (λ shown. IfSome shown (ShownBy method.now)) }
    ensures memory { IfErr result (λ e. e ≡ NoMemory) }
{
    let AskedMethod::Signed {
        offer,
        message,
        signature,
        ..
    } = method
    else {
        return Ok(None);
    };
    let message = message.clone()?;
    let signature = signature.clone()?;
    Ok(Some(AcceptedSignature {
        key: offer.key.public_key().copy()?,
        algorithm: offer.algorithm,
        message,
        signature,
    }))
}
