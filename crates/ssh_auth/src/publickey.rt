// Requests by a key or a certificate.
ghost use Rattle.std.specs.Prelude.{◌≡◌, ◌↔◌, ◌<◌, ◌^◌, ◌++◌, length, true, Bool, IsTrue, Option};
ghost use Rattle.ssh_wire.specs.Field.{string};
ghost use Rattle.ssh_link.specs.Told.{Tells};
ghost use Rattle.ssh_keys.specs.Offers.{offered_key};
ghost use Rattle.ssh_auth.specs.declared.auth.Auth.TheVariants.{Accept};
ghost use Rattle.ssh_auth.specs.declared.call.Call.TheVariants.{AuthPublickeyOffered};
ghost use Rattle.ssh_auth.specs.declared.question.Admission.TheVariants as by;
ghost use Rattle.ssh_auth.specs.declared.question.Question.TheVariants.{Admits};
ghost use Rattle.ssh_auth.specs.Plan.{Finish, Ask};
ghost use Rattle.ssh_auth.specs.Publickey.{Offers, IsAnswer};
ghost use Rattle.ssh_auth.specs.Requested.{SaysPublickey, Probe_method, Signed_method};
ghost use Rattle.ssh_auth.specs.Verdict.{method_verdict, signed as signed_plan, proof, after_proof};
ghost use Rattle.ssh_auth.specs.Read.{circumstances, all_fields, IsWhole};
ghost use Rattle.ssh_auth.specs.Serve.{CarriesOut, CarriesOutMethod};

use crate::key_request::{
    Offer, OfferFields, SignedRequest, is_accepted, read_offer, read_offer_fields, read_signature,
};
use crate::reply::{answer_offer, answer_proof, refuse};
use crate::request::{Request, read_none};
use crate::{
    Auth, AuthError, AuthHandler, AuthRequest, AuthStep, PublicKeyOffer, VerifiedPublicKey,
};
use ssh_keys::{Algorithm, Certificate, PublicKey, PublicKeyOrCertificate, Verifier};
use std::alloc::Global;

/// A request of method publickey (RFC 4252 section 7). A key that cannot be used is refused with no
/// call, and the request is read no further.
pub(crate) fn serve_publickey<H: AuthHandler, V: Verifier>(
    alloc: Global,
    auth: &mut AuthRequest,
    handler: &mut H,
    verifier: &V,
    request: &Request<'_>,
) -> Result<AuthStep, AuthError<H::Error>>
    requires { IsWhole request.now }
    ensures { CarriesOutMethod (SaysPublickey (circumstances (V.accepts verifier.now) request.now)
        (all_fields request.now) request.now.fields.now)
        auth.old request.now.user.now (H.told handler.old) (H.told handler.new) auth.new result }
{
    let asked = read_offer_fields(request.fields)?;
    match read_offer(alloc, verifier, request.moment, asked.name, asked.blob) {
        Ok(offered) => {
            let Some(offer) = &offered else {
                drop(offered);
                return Ok(refuse(alloc, auth)?);
            };
            let served = go_on_with_offer(alloc, auth, handler, verifier, request, asked, offer);
            drop(offered);
            served
        }
        Err(e) => Err(AuthError::from(e)),
    }
}

/// A key or a certificate that can be used: its probe, or a request that it has signed.
fn go_on_with_offer<H: AuthHandler, V: Verifier>(
    alloc: Global,
    auth: &mut AuthRequest,
    handler: &mut H,
    verifier: &V,
    request: &Request<'_>,
    asked: OfferFields<'_>,
    offer: &Offer<'_>,
) -> Result<AuthStep, AuthError<H::Error>>
    requires whole { IsWhole request.now }
    requires offered { Offers (circumstances (V.accepts verifier.now) request.now) asked.signed
        offer.now request.now.fields.now asked.rest.now }
    ensures { CarriesOutMethod (SaysPublickey (circumstances (V.accepts verifier.now) request.now)
        (all_fields request.now) request.now.fields.now)
        auth.old request.now.user.now (H.told handler.old) (H.told handler.new) auth.new result }
{
    if asked.signed {
        return read_signed(alloc, auth, handler, verifier, request, asked.rest, offer);
    }
    read_none(asked.rest)?;
    ask_probe(alloc, auth, handler, request.user, offer)
}

/// Asks whether the user may sign with the key.
fn ask_offered<H: AuthHandler>(
    handler: &mut H,
    user: &str,
    offer: &Offer<'_>,
) -> Result<Auth, H::Error>
    ensures { Tells (H.told handler.old) (H.told handler.new) result
        (AuthPublickeyOffered user.now (offered_key offer.now.key) offer.now.algorithm result) }
{
    handler.auth_publickey_offered(
        user,
        PublicKeyOffer {
            public_key: offer.key.public_key(),
            algorithm: offer.algorithm,
        },
    )
}

/// A probe: whether the key may sign (RFC 4252 section 7).
fn ask_probe<H: AuthHandler>(
    alloc: Global,
    auth: &mut AuthRequest,
    handler: &mut H,
    user: &str,
    offer: &Offer<'_>,
) -> Result<AuthStep, AuthError<H::Error>>
    ensures { CarriesOut (method_verdict auth.old user.now (Probe_method offer.now))
        (H.told handler.old) (H.told handler.new) auth.new result }
{
    match ask_offered(handler, user, offer) {
        Ok(verdict) => {
            let answered = answer_offer(alloc, auth, offer, &verdict);
            drop(verdict);
            Ok(answered?)
        }
        Err(e) => Err(AuthError::Handler(e)),
    }
}

/// A request that ends in a signature.
fn read_signed<H: AuthHandler, V: Verifier>(
    alloc: Global,
    auth: &mut AuthRequest,
    handler: &mut H,
    verifier: &V,
    request: &Request<'_>,
    rest: &[u8],
    offer: &Offer<'_>,
) -> Result<AuthStep, AuthError<H::Error>>
    requires whole { IsWhole request.now }
    requires offered { Offers (circumstances (V.accepts verifier.now) request.now) true offer.now
        request.now.fields.now rest.now }
    ensures { CarriesOutMethod (SaysPublickey (circumstances (V.accepts verifier.now) request.now)
        (all_fields request.now) request.now.fields.now)
        auth.old request.now.user.now (H.told handler.old) (H.told handler.new) auth.new result }
{
    let signature = match read_signature(alloc, rest) {
        Ok(signature) => signature,
        Err(e) => return Err(e),
    };
    if signature.name.as_str() != offer.algorithm.as_str() {
        drop(signature);
        return Ok(refuse(alloc, auth)?);
    }
    let signed = SignedRequest {
        session_id: request.session_id,
        unsigned: &request.payload[..request.payload.len() - rest.len()],
        signature,
    };
    let served = permit_signed(alloc, auth, handler, verifier, request.user, offer, &signed);
    drop(signed);
    served
}

/// Whether the answer on a key lets it sign.
fn lets_sign(answer: Auth) -> bool
    ensures { IsTrue result ↔ (answer ≡ Accept) }
{
    let lets = matches!(answer, Auth::Accept);
    drop(answer);
    lets
}

/// A request that is signed by the algorithm that it names. A key without its probe is asked about
/// first.
fn permit_signed<H: AuthHandler, V: Verifier>(
    alloc: Global,
    auth: &mut AuthRequest,
    handler: &mut H,
    verifier: &V,
    user: &str,
    offer: &Offer<'_>,
    signed: &SignedRequest<'_>,
) -> Result<AuthStep, AuthError<H::Error>>
    requires { length signed.now.session_id.now < 2 ^ 32 }
    ensures { (accepted : Option Bool) × IsAnswer (V.accepts verifier.now)
        (offered_key offer.now.key) offer.now.algorithm
        (string signed.now.session_id.now ++ signed.now.unsigned.now) signed.now.signature.blob
        accepted
        × CarriesOut (method_verdict auth.old user.now (Signed_method offer.now accepted))
        (H.told handler.old) (H.told handler.new) auth.new result }
{
    if auth.is_probed(offer.name, offer.blob) {
        return verify_signed(alloc, auth, handler, verifier, user, offer, signed);
    }
    match ask_offered(handler, user, offer) {
        Ok(verdict) => {
            if !lets_sign(verdict) {
                return Ok(refuse(alloc, auth)?);
            }
            verify_signed(alloc, auth, handler, verifier, user, offer, signed)
        }
        Err(e) => Err(AuthError::Handler(e)),
    }
}

/// A key that may sign: the handler is asked where the verifier accepts its signature.
fn verify_signed<H: AuthHandler, V: Verifier>(
    alloc: Global,
    auth: &mut AuthRequest,
    handler: &mut H,
    verifier: &V,
    user: &str,
    offer: &Offer<'_>,
    signed: &SignedRequest<'_>,
) -> Result<AuthStep, AuthError<H::Error>>
    requires { length signed.now.session_id.now < 2 ^ 32 }
    ensures { (accepted : Option Bool) × IsAnswer (V.accepts verifier.now)
        (offered_key offer.now.key) offer.now.algorithm
        (string signed.now.session_id.now ++ signed.now.unsigned.now) signed.now.signature.blob
        accepted
        × CarriesOut (signed_plan auth.old user.now offer.now accepted) (H.told handler.old)
        (H.told handler.new) auth.new result }
{
    if !is_accepted(alloc, verifier, offer, signed)? {
        return Ok(refuse(alloc, auth)?);
    }
    let_in(alloc, auth, handler, user, offer)
}

/// A key or a certificate whose signature the verifier accepted.
fn let_in<H: AuthHandler>(
    alloc: Global,
    auth: &mut AuthRequest,
    handler: &mut H,
    user: &str,
    offer: &Offer<'_>,
) -> Result<AuthStep, AuthError<H::Error>>
    ensures { CarriesOut (proof auth.old user.now offer.now.key offer.now.algorithm)
        (H.told handler.old) (H.told handler.new) auth.new result }
{
    match &offer.key {
        PublicKeyOrCertificate::PublicKey { key, .. } => {
            let_in_by_key(alloc, auth, handler, user, key, offer.algorithm)
        }
        PublicKeyOrCertificate::Certificate(certificate) => {
            let_in_by_certificate(alloc, auth, handler, user, certificate)
        }
    }
}

/// A key whose signature the verifier accepted.
fn let_in_by_key<H: AuthHandler>(
    alloc: Global,
    auth: &mut AuthRequest,
    handler: &mut H,
    user: &str,
    public_key: &PublicKey,
    algorithm: Algorithm,
) -> Result<AuthStep, AuthError<H::Error>>
    ensures { CarriesOut (Ask (Admits (by.Publickey user.now public_key.now algorithm))
        (λ answer. Finish (after_proof auth.old answer))) (H.told handler.old) (H.told handler.new)
        auth.new result }
{
    let key = VerifiedPublicKey {
        public_key,
        algorithm,
    };
    match handler.auth_publickey(user, key) {
        Ok(verdict) => {
            let answered = answer_proof(alloc, auth, &verdict);
            drop(verdict);
            Ok(answered?)
        }
        Err(e) => Err(AuthError::Handler(e)),
    }
}

/// A certificate whose key's signature the verifier accepted.
fn let_in_by_certificate<H: AuthHandler>(
    alloc: Global,
    auth: &mut AuthRequest,
    handler: &mut H,
    user: &str,
    certificate: &Certificate,
) -> Result<AuthStep, AuthError<H::Error>>
    ensures { CarriesOut (Ask (Admits (by.OpensshCertificate user.now certificate.now))
        (λ answer. Finish (after_proof auth.old answer))) (H.told handler.old) (H.told handler.new)
        auth.new result }
{
    match handler.auth_openssh_certificate(user, certificate) {
        Ok(verdict) => {
            let answered = answer_proof(alloc, auth, &verdict);
            drop(verdict);
            Ok(answered?)
        }
        Err(e) => Err(AuthError::Handler(e)),
    }
}
