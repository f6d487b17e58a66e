// What a request or a response asks, told without serving it.
ghost use Rattle.std.specs.Prelude.{◌≡◌, ◌≢◌, ◌↔◌, ◌<◌, ◌≤◌, ◌^◌, ◌-◌, ◌++◌, ℕ, List, length, take, drop};
ghost use Rattle.std.specs.Prelude.{IsTrue, IfOk, IfErr, MatchOption};
ghost use Rattle.ssh_wire.specs.Field.{SpellsAll, string};
ghost use Rattle.ssh_wire.specs.declared.error.WireError.TheVariants.{NoMemory};
ghost use Rattle.ssh_keys.specs.declared.signature.Signature.{Signature};
ghost use Rattle.ssh_keys.specs.Algorithms.{algorithm_name};
ghost use Rattle.ssh_keys.specs.Signatures.{EndsInSignature};
ghost use Rattle.ssh_wire.specs.Messages.{userauth_request};
ghost use Rattle.ssh_wire.specs.Messages.{userauth_info_response};
ghost use Rattle.ssh_auth.specs.Asked.{TellsRequest, TellsResponse, TellsMethod, TellsPlain};
ghost use Rattle.ssh_auth.specs.Asked.{RequestAsksAsTold, ResponseAsksAsTold};
ghost use Rattle.ssh_auth.specs.Asked.{IsSilent, CanBeUsed};
ghost use Rattle.ssh_auth.specs.Publickey.{IsOffered, offer_fields};
ghost use Rattle.ssh_auth.specs.Read.{circumstances, all_fields, IsWhole};
ghost use Rattle.ssh_auth.specs.Requested.{SaysMethod, SaysNone, SaysPassword, SaysPublickey};
ghost use Rattle.ssh_auth.specs.Requested.{SaysInteractive, Method, named_by};
ghost use Rattle.ssh_auth.specs.Serve.{IsNumbered};

use crate::interactive::{read_interactive, read_responses};
use crate::key_request::{
    Offer, OfferFields, SignedRequest, read_offer, read_offer_fields, read_signature,
    signed_message,
};
use crate::request::{PasswordRequest, Request, read_none, read_password, read_request_head};
use crate::{AuthError, AuthRequest};
use bytes::Bytes;
use ssh_keys::{Algorithm, KeyError, PublicKey, Verifier};
use ssh_wire::{WireError, fields_of};
use std::alloc::Global;

/// What a USERAUTH_REQUEST (RFC 4252 section 5) or a USERAUTH_INFO_RESPONSE (RFC 4256 section 3.4)
/// asks of a handler and a verifier.
#[derive(Drop)]
pub struct Asked<'a> {
    /// The user's name.
    pub user: &'a str,
    /// The service that is to start once the user is authenticated.
    pub service: &'a str,
    /// By what the user asks to be let in.
    pub method: AskedMethod<'a>,
}

/// By what a user asks to be let in, with what the answer depends on.
#[derive(Drop)]
pub enum AskedMethod<'a> {
    /// By method none (RFC 4252 section 5.2).
    None,
    /// By a password (RFC 4252 section 8).
    Password {
        /// The password.
        password: &'a str,
    },
    /// A probe: whether a key may sign (RFC 4252 section 7).
    Probe {
        /// The key, or the certificate.
        offer: Offer<'a>,
    },
    /// By a key or a certificate, with a signature (RFC 4252 section 7). The verifier is asked
    /// whether it is that of the offered key, by the algorithm of the offer.
    Signed {
        /// The key, or the certificate.
        offer: Offer<'a>,
        /// Whether a probe of it was answered by PK_OK just before, so that the handler is not
        /// asked first whether it may sign.
        probed: bool,
        /// What the signature has to cover: the session id, and the request up to the signature.
        message: Bytes,
        /// The signature's own bytes.
        signature: Bytes,
    },
    /// By prompts, or what to prompt for (RFC 4256).
    KeyboardInteractive {
        /// The submethods that the user would like, joined by commas.
        submethods: &'a str,
        /// The responses to the last prompts, in order; none before the first prompts.
        responses: Option<Vec<&'a [u8]>>,
    },
}

/// Accepts every signature: what a verifier says is left to whoever is told what it is asked.
struct Trusting;

impl Verifier for Trusting {
    ghost accepts = { λ _ _ _ _ _. Unit {0} };

    fn verify(&self, _: &PublicKey, _: Algorithm, _: &[u8], _: &[u8]) -> bool {
        true
    }
}

/// What `serve_request` asks of its handler and its verifier, in this state, for this
/// USERAUTH_REQUEST, which is not served. No verifier is called: what is told holds for each of the
/// type `V`. None where the handler is asked nothing, whatever the verifier says: the request is
/// refused, or it cannot be read.
///
/// A certificate is told where its time holds. About its own signature the verifier is asked first,
/// with its `signature_key`, the algorithm that its `signature` names, and its `signed` bytes; where
/// that is refused the handler is asked nothing. `NoMemory` is the only error.
pub fn asked_by_request<'a, V: Verifier>(
    alloc: Global,
    auth: &AuthRequest,
    session_id: &'a [u8],
    moment: u64,
    payload: &'a [u8],
) -> Result<Option<Asked<'a>>, WireError>
    requires session_id { length session_id.now < 2 ^ 32 }
    requires numbered { IsNumbered userauth_request.number payload.now }
    ensures asked { IfOk result (λ asked. (verifier : V) → TellsRequest
        (record { accepts = V.accepts verifier; session_id = session_id.now; moment = moment })
        auth.now (drop 1 payload.now) asked) }
    ensures serving { IfOk result (λ asked. (verifier : V) → RequestAsksAsTold
        (record { accepts = V.accepts verifier; session_id = session_id.now; moment = moment })
        auth.now (drop 1 payload.now) asked) }
    ensures memory { IfErr result (λ e. e ≡ NoMemory) }
{
    let Ok(head) = read_request_head(fields_of(payload)) else {
        return Ok(None);
    };
    if head.service != "ssh-connection" {
        return Ok(None);
    }
    let request = Request {
        session_id,
        moment,
        payload,
        user: head.user,
        fields: head.rest,
    };
    match asked_by_method::<V>(alloc, auth, head.method, &request)? {
        Some(method) => Ok(Some(Asked {
            user: head.user,
            service: head.service,
            method,
        })),
        None => Ok(None),
    }
}

/// What `serve_response` asks, in this state, of its handler for this USERAUTH_INFO_RESPONSE, which
/// is not served. None where it asks nothing: no prompts wait, or it cannot be read. `NoMemory` is
/// the only error.
pub fn asked_by_response<'a>(
    alloc: Global,
    auth: &'a AuthRequest,
    payload: &'a [u8],
) -> Result<Option<Asked<'a>>, WireError>
    requires numbered { IsNumbered userauth_info_response.number payload.now }
    ensures asked { IfOk result (λ asked. TellsResponse auth.now (drop 1 payload.now) asked) }
    ensures serving { IfOk result (λ asked. ResponseAsksAsTold auth.now (drop 1 payload.now) asked) }
    ensures memory { IfErr result (λ e. e ≡ NoMemory) }
{
    let Some((user, submethods)) = auth.prompt() else {
        return Ok(None);
    };
    let Some((_, service)) = auth.principal() else {
        return Ok(None);
    };
    match read_responses(alloc, fields_of(payload)) {
        Ok(responses) => Ok(Some(Asked {
            user,
            service,
            method: AskedMethod::KeyboardInteractive {
                submethods,
                responses: Some(responses),
            },
        })),
        Err(e) => {
            if is_memory(e) {
                return Err(e);
            }
            Ok(None)
        }
    }
}

/// Whether it is want of memory.
fn is_memory(why: WireError) -> bool
    ensures { IsTrue result ↔ (why ≡ NoMemory) }
{
    matches!(why, WireError::NoMemory)
}

/// What a request by the method of this name asks, for the service `ssh-connection`.
fn asked_by_method<'a, V: Verifier>(
    alloc: Global,
    auth: &AuthRequest,
    name: &str,
    request: &Request<'a>,
) -> Result<Option<AskedMethod<'a>>, WireError>
    requires { IsWhole request.now }
    ensures ok { IfOk result (λ asked. (verifier : V) → TellsMethod
        (circumstances (V.accepts verifier) request.now) auth.now
        (SaysMethod (circumstances (V.accepts verifier) request.now) (all_fields request.now)
        (named_by name.now) request.now.fields.now) request.now.user.now asked) }
    ensures memory { IfErr result (λ e. e ≡ NoMemory) }
{
    if name == "none" {
        return Ok(asked_by_none(request.fields));
    }
    if name == "password" {
        return Ok(asked_by_password(request.fields));
    }
    if name == "publickey" {
        return asked_by_key::<V>(alloc, auth, request);
    }
    if name == "keyboard-interactive" {
        return Ok(asked_by_prompts(request.fields));
    }
    Ok(None)
}

/// What a request of method none asks.
fn asked_by_none(fields: &[u8]) -> Option<AskedMethod<'_>>
    ensures { MatchOption result ((method : Method) → SaysNone fields.now method → IsSilent method)
        (TellsPlain (SaysNone fields.now)) }
{
    match read_none(fields) {
        Ok(()) => Some(AskedMethod::None),
        Err(_) => None,
    }
}

/// What a request of method password asks: nothing where the password is to be changed.
fn asked_by_password(fields: &[u8]) -> Option<AskedMethod<'_>>
    ensures { MatchOption result ((method : Method) → SaysPassword fields.now method → IsSilent method)
        (TellsPlain (SaysPassword fields.now)) }
{
    match read_password(fields) {
        Ok(PasswordRequest::Password { password }) => Some(AskedMethod::Password { password }),
        Ok(PasswordRequest::Change { .. }) | Err(_) => None,
    }
}

/// What a request of method keyboard-interactive asks.
fn asked_by_prompts(fields: &[u8]) -> Option<AskedMethod<'_>>
    ensures { MatchOption result ((method : Method) → SaysInteractive fields.now method → IsSilent method)
        (TellsPlain (SaysInteractive fields.now)) }
{
    match read_interactive(fields) {
        Ok(submethods) => Some(AskedMethod::KeyboardInteractive {
            submethods,
            responses: None,
        }),
        Err(_) => None,
    }
}

/// What a request by a key or a certificate asks.
fn asked_by_key<'a, V: Verifier>(
    alloc: Global,
    auth: &AuthRequest,
    request: &Request<'a>,
) -> Result<Option<AskedMethod<'a>>, WireError>
    requires { IsWhole request.now }
    ensures ok { IfOk result (λ asked. (verifier : V) → TellsMethod
        (circumstances (V.accepts verifier) request.now) auth.now
        (SaysPublickey (circumstances (V.accepts verifier) request.now) (all_fields request.now)
        request.now.fields.now) request.now.user.now asked) }
    ensures memory { IfErr result (λ e. e ≡ NoMemory) }
{
    let Ok(asked) = read_offer_fields(request.fields) else {
        return Ok(None);
    };
    match read_offer(alloc, &Trusting, request.moment, asked.name, asked.blob) {
        Ok(Some(offer)) => asked_by_offer::<V>(alloc, auth, request, asked, offer),
        Ok(None) => Ok(None),
        Err(KeyError::Blob) => Ok(None),
        // Every other error is want of memory.
        Err(_) => Err(WireError::NoMemory),
    }
}

/// What a request asks that offers this key or certificate.
fn asked_by_offer<'a, V: Verifier>(
    alloc: Global,
    auth: &AuthRequest,
    request: &Request<'a>,
    asked: OfferFields<'a>,
    offer: Offer<'a>,
) -> Result<Option<AskedMethod<'a>>, WireError>
    requires whole { IsWhole request.now }
    requires offered { SpellsAll offer_fields
        (asked.signed, (asked.name.now, (asked.blob.now, tt))) request.now.fields.now
        asked.rest.now }
    requires names { (offer.name ≡ asked.name.now) × (offer.blob ≡ asked.blob.now)
        × IsOffered offer }
    requires usable { CanBeUsed request.now.moment offer.key }
    ensures ok { IfOk result (λ asked. (verifier : V) → TellsMethod
        (circumstances (V.accepts verifier) request.now) auth.now
        (SaysPublickey (circumstances (V.accepts verifier) request.now) (all_fields request.now)
        request.now.fields.now) request.now.user.now asked) }
    ensures memory { IfErr result (λ e. e ≡ NoMemory) }
{
    if !asked.signed {
        return match read_none(asked.rest) {
            Ok(()) => Ok(Some(AskedMethod::Probe { offer })),
            Err(_) => {
                drop(offer);
                Ok(None)
            }
        };
    }
    let probed = auth.was_probed(request.user, "ssh-connection", offer.name, offer.blob);
    match message_and_signature(alloc, request, asked.rest, offer.algorithm) {
        Ok(Some((message, signature))) => Ok(Some(AskedMethod::Signed {
            offer,
            probed,
            message,
            signature,
        })),
        Ok(None) => {
            drop(offer);
            Ok(None)
        }
        Err(e) => {
            drop(offer);
            Err(e)
        }
    }
}

/// The message that a request signs by this algorithm, and its signature. None where it ends in no
/// signature of this algorithm.
fn message_and_signature(
    alloc: Global,
    request: &Request<'_>,
    rest: &[u8],
    algorithm: Algorithm,
) -> Result<Option<(Bytes, Bytes)>, WireError>
    requires { (length request.now.session_id.now < 2 ^ 32)
        × (length rest.now ≤ length request.now.payload.now) }
    ensures ok { IfOk result (λ signed. MatchOption signed
        ((signature : Signature) → EndsInSignature signature rest.now
        → signature.name ≢ algorithm_name algorithm)
        (λ pair. (signature : Signature) × EndsInSignature signature rest.now
        × (signature.name ≡ algorithm_name algorithm)
        × (pair.0 ≡ string request.now.session_id.now
        ++ take (length request.now.payload.now - length rest.now) request.now.payload.now)
        × (pair.1 ≡ signature.blob))) }
    ensures memory { IfErr result (λ e. e ≡ NoMemory) }
{
    let signature = match read_signature::<()>(alloc, rest) {
        Ok(signature) => signature,
        Err(AuthError::Encoding(_)) => return Ok(None),
        Err(AuthError::Key(_)) => return Ok(None),
        // Every other error is want of memory.
        Err(_) => return Err(WireError::NoMemory),
    };
    if signature.name.as_str() != algorithm.as_str() {
        drop(signature);
        return Ok(None);
    }
    let unsigned = &request.payload[..request.payload.len() - rest.len()];
    match signed_message(alloc, request.session_id, unsigned) {
        Ok(message) => Ok(Some((Bytes::from_vec(message)?, signature.blob))),
        Err(e) => {
            drop(signature);
            Err(e)
        }
    }
}
