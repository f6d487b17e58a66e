// The fields of a request by a key or a certificate, one after another.
ghost use Rattle.std.specs.Prelude.{◌≡◌, ◌⊎◌, ◌↔◌, ◌<◌, ◌^◌, [], ◌++◌, length, IsTrue, IfOk};
ghost use Rattle.std.specs.Prelude.{IfErr, MatchOption, MatchResult};
ghost use Rattle.ssh_wire.specs.Field.{SpellsAll, MisfitsAll, MisfitsWhole, string};
ghost use Rattle.ssh_wire.specs.declared.error.WireError.TheVariants.{NoMemory as NoWireMemory};
ghost use Rattle.ssh_keys.specs.Algorithms.{algorithm_name, certificate_name, NamesNone};
ghost use Rattle.ssh_keys.specs.Offers.{FailsOffer, offered_key};
ghost use Rattle.ssh_keys.specs.Signatures.{EndsInSignature};
ghost use Rattle.ssh_keys.specs.declared.error.KeyError.TheVariants.{Blob, NoMemory};
ghost use Rattle.ssh_auth.specs.Publickey.{IsOffered, IsUsable, OffersNothing, offer_fields};
ghost use Rattle.ssh_auth.specs.Read.{SignatureFails};

use crate::AuthError;
use ssh_keys::{Algorithm, KeyError, PublicKeyOrCertificate, Signature, Verifier};
use ssh_wire::{Reader, WireError, put_bytes};
use std::alloc::Global;
use std::marker::Model;

/// The fields that each request of method publickey begins with (RFC 4252 section 7), and what
/// follows them.
#[derive(Clone, Copy)]
pub(crate) struct OfferFields<'a> {
    /// Whether a signature follows.
    pub signed: bool,
    /// The name of the algorithm.
    pub name: &'a str,
    /// The blob of the key or the certificate.
    pub blob: &'a [u8],
    /// The signature field, unread, and whatever follows it.
    pub rest: &'a [u8],
}

/// A key or a certificate that a request offers (RFC 4252 section 7).
#[derive(Drop)]
pub struct Offer<'a> {
    /// The name of the algorithm, as it stands in the request.
    pub name: &'a str,
    /// The blob, as it stands in the request.
    pub blob: &'a [u8],
    /// The key or the certificate that the blob holds.
    pub key: PublicKeyOrCertificate,
    /// The algorithm that has to sign.
    pub algorithm: Algorithm,
}

impl<'a> Model for Offer<'a> {
    ghost use Rattle.ssh_auth.specs.Publickey.{Offer};

    ghost Value = { Offer };

    ghost view = { λ offer. record {
      name = offer.name.now;
      blob = offer.blob.now;
      key =
          offer.key;
      algorithm = offer.algorithm;
    } };
}

/// The signature that ends a request, and what it covers.
#[derive(Drop)]
pub(crate) struct SignedRequest<'a> {
    /// The session id of the key exchange (RFC 4253 section 7.2).
    pub session_id: &'a [u8],
    /// The payload up to the signature.
    pub unsigned: &'a [u8],
    /// The signature in the request.
    pub signature: Signature,
}

/// The fields that each request of method publickey begins with (RFC 4252 section 7).
pub(crate) fn read_offer_fields(fields: &[u8]) -> Result<OfferFields<'_>, WireError>
    ensures { MatchResult result
        (λ asked. SpellsAll offer_fields (asked.signed, (asked.name.now, (asked.blob.now, tt)))
        fields.now asked.rest.now)
        (λ why. MisfitsAll offer_fields fields.now why) }
{
    let mut reader = Reader::new(fields);
    let signed = reader.u8()? != 0;
    let name = reader.text()?;
    let blob = reader.bytes()?;
    let rest = reader.rest();
    Ok(OfferFields {
        signed,
        name,
        blob,
        rest,
    })
}

/// The algorithm of this name, or whose certificates have it.
fn algorithm_named(name: &str) -> Option<Algorithm>
    ensures { MatchOption result
        (NamesNone algorithm_name name.now × NamesNone certificate_name name.now)
        (λ algorithm. (algorithm_name algorithm ≡ name.now)
        ⊎ (certificate_name algorithm ≡ name.now)) }
{
    match Algorithm::new(name) {
        Some(algorithm) => Some(algorithm),
        None => Algorithm::new_certificate(name),
    }
}

/// Whether the key can be used at this moment: a certificate has to hold.
fn is_usable<V: Verifier>(verifier: &V, moment: u64, key: &PublicKeyOrCertificate) -> bool
    ensures { IsTrue result ↔ IsUsable (V.accepts verifier.now) moment key.now }
{
    match key {
        PublicKeyOrCertificate::PublicKey { .. } => true,
        PublicKeyOrCertificate::Certificate(certificate) => {
            certificate.check(moment, verifier).is_ok()
        }
    }
}

/// The key or the certificate that is offered; none where it cannot be used at this moment.
/// `Blob` exactly where it does not fit its layout, and no other error but `NoMemory`.
pub(crate) fn read_offer<'a, V: Verifier>(
    alloc: Global,
    verifier: &V,
    moment: u64,
    name: &'a str,
    blob: &'a [u8],
) -> Result<Option<Offer<'a>>, KeyError>
    ensures ok { IfOk result (λ offered. MatchOption offered
        (OffersNothing (V.accepts verifier.now) moment name.now blob.now)
        (λ offer. (offer.name ≡ name.now) × (offer.blob ≡ blob.now) × IsOffered offer
        × IsUsable (V.accepts verifier.now) moment offer.key)) }
    ensures refused { IfErr result (λ e. (e ≡ NoMemory)
        ⊎ ((e ≡ Blob) × FailsOffer name.now blob.now Blob)) }
{
    let Some(algorithm) = algorithm_named(name) else {
        return Ok(None);
    };
    match PublicKeyOrCertificate::decode(alloc, name, blob) {
        Ok(key) => {
            let usable = is_usable(verifier, moment, &key);
            let offer = Offer {
                name,
                blob,
                key,
                algorithm,
            };
            Ok(usable.then_some(offer))
        }
        Err(KeyError::NoMemory) => Err(KeyError::NoMemory),
        Err(KeyError::Blob) => Err(KeyError::Blob),
        Err(KeyError::Unknown | KeyError::CertificateValidation | KeyError::Time) => Ok(None),
    }
}

/// The signature that ends a request: its field holds it and nothing else, and is the last.
pub(crate) fn read_signature<E>(alloc: Global, fields: &[u8]) -> Result<Signature, AuthError<E>>
    ensures { MatchResult result (λ signature. EndsInSignature signature fields.now)
        (SignatureFails fields.now) }
{
    let mut reader = Reader::new(fields);
    let field = reader.bytes()?;
    let mut inside = Reader::new(field);
    let signature = Signature::decode(alloc, &mut inside)?;
    match both_end(&inside, &reader) {
        Ok(()) => Ok(signature),
        Err(e) => {
            drop(signature);
            Err(AuthError::from(e))
        }
    }
}

/// Ok exactly where nothing is left in either, the inner one first.
fn both_end(inner: &Reader<'_>, outer: &Reader<'_>) -> Result<(), WireError>
    ensures { MatchResult result (λ _. (inner.now.left ≡ []) × (outer.now.left ≡ []))
        (λ why. MisfitsWhole [] inner.now.left why
        ⊎ ((inner.now.left ≡ []) × MisfitsWhole [] outer.now.left why)) }
{
    inner.end()?;
    outer.end()
}

/// What the signature of a request covers: the session id, and the payload up to the signature
/// (RFC 4252 section 7).
pub(crate) fn signed_message(
    alloc: Global,
    session_id: &[u8],
    unsigned: &[u8],
) -> Result<Vec<u8>, WireError>
    requires { length session_id.now < 2 ^ 32 }
    ensures ok { IfOk result (λ message. message.items ≡ string session_id.now ++ unsigned.now) }
    ensures memory { IfErr result (λ e. e ≡ NoWireMemory) }
{
    let mut message = Vec::new(alloc);
    put_bytes(&mut message, session_id)?;
    message.extend_from_slice(unsigned)?;
    Ok(message)
}

/// Whether the verifier accepts the signature of a request by this key.
pub(crate) fn is_accepted<V: Verifier>(
    alloc: Global,
    verifier: &V,
    offer: &Offer<'_>,
    signed: &SignedRequest<'_>,
) -> Result<bool, WireError>
    requires { length signed.now.session_id.now < 2 ^ 32 }
    ensures ok { IfOk result (λ yes. IsTrue yes ↔ V.accepts verifier.now (offered_key offer.now.key)
        offer.now.algorithm
        (string signed.now.session_id.now ++ signed.now.unsigned.now) signed.now.signature.blob) }
    ensures memory { IfErr result (λ e. e ≡ NoWireMemory) }
{
    let message = signed_message(alloc, signed.session_id, signed.unsigned)?;
    Ok(verifier.verify(
        offer.key.public_key(),
        offer.algorithm,
        message.as_slice(),
        signed.signature.blob.as_slice(),
    ))
}
