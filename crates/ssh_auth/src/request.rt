// One request of authentication, from its payload to its verdict.
ghost use Rattle.std.specs.Prelude.{◌≡◌, ◌<◌, ◌^◌, [], length, drop, MatchResult, IfOk, IfErr};
ghost use Rattle.ssh_wire.specs.declared.error.WireError.TheVariants.{NoMemory};
ghost use Rattle.ssh_wire.specs.Field.{SpellsAll, MisfitsAll, MisfitsWhole};
ghost use Rattle.ssh_wire.specs.Messages.{userauth_request};
ghost use Rattle.ssh_auth.specs.Requested.{Requested, SaysRequest, Unfit_method, head_fields};
ghost use Rattle.ssh_auth.specs.Requested.{SaysNone, SaysPassword};
ghost use Rattle.ssh_auth.specs.Verdict.{Replies, after_method, verdict};
ghost use Rattle.ssh_auth.specs.Proven.{IsProvenCall, AllAdded};
ghost use Rattle.ssh_auth.specs.Serve.{IsNumbered, CarriesOut, CarriesOutMethod};
ghost use Rattle.ssh_auth.specs.Read.{password_method};

use crate::interactive::serve_interactive;
use crate::publickey::serve_publickey;
use crate::reply::{Rejection, is_none, methods_without, refuse, reject, take_away};
use crate::{Auth, AuthError, AuthHandler, AuthRequest, AuthStep, AuthVerdict};
use bytes::Bytes;
use ssh_keys::Verifier;
use ssh_wire::message::USERAUTH_SUCCESS;
use ssh_wire::{MethodKind, Reader, WireError, fields_of};
use std::alloc::Global;

/// A request, once its user is known.
#[derive(Clone, Copy)]
pub(crate) struct Request<'a> {
    /// The session id of the key exchange (RFC 4253 section 7.2).
    pub session_id: &'a [u8],
    /// The time in milliseconds since 1970.
    pub moment: u64,
    /// The whole request.
    pub payload: &'a [u8],
    /// The user's name.
    pub user: &'a str,
    /// The fields of the method, which end the payload.
    pub fields: &'a [u8],
}

/// The fields that each USERAUTH_REQUEST begins with (RFC 4252 section 5), and what follows them.
#[derive(Clone, Copy)]
pub(crate) struct RequestHead<'a> {
    /// The user's name.
    pub user: &'a str,
    /// The service that is to start once the user is authenticated.
    pub service: &'a str,
    /// The name of the method.
    pub method: &'a str,
    /// The fields of the method, unread.
    pub rest: &'a [u8],
}

/// What a request of method password asks for (RFC 4252 section 8).
#[derive(Clone, Copy)]
pub(crate) enum PasswordRequest<'a> {
    /// To be let in by this password.
    Password {
        password: &'a str,
    },
    /// To have it changed to a new one.
    Change {
        password: &'a str,
        new_password: &'a str,
    },
}

/// Serves a USERAUTH_REQUEST (RFC 4252 section 5): makes the calls that it owes, and gives its
/// reply and its verdict. `session_id` is that of the key exchange (RFC 4253 section 7.2),
/// `moment` the time in milliseconds since 1970. Whatever the payload says, a key or a certificate
/// is only asked about to let a user in where it has signed this request. After an error the state
/// is not used again.
pub fn serve_request<H: AuthHandler, V: Verifier>(
    alloc: Global,
    auth: &mut AuthRequest,
    handler: &mut H,
    verifier: &V,
    session_id: &[u8],
    moment: u64,
    payload: &[u8],
) -> Result<AuthStep, AuthError<H::Error>>
    requires session_id { length session_id.now < 2 ^ 32 }
    requires numbered { IsNumbered userauth_request.number payload.now }
    ensures verdict { (said : Requested) × SaysRequest
        (record { accepts = V.accepts verifier.now; session_id = session_id.now; moment = moment })
        (drop 1 payload.now) said
        × CarriesOut (verdict auth.old said) (H.told handler.old) (H.told handler.new) auth.new
        result }
    ensures proven { AllAdded (IsProvenCall (record
        { accepts = V.accepts verifier.now; session_id = session_id.now; moment = moment })
        (drop 1 payload.now))
        (H.told handler.old) (H.told handler.new) }
{
    let head = read_request_head(fields_of(payload))?;
    if head.service != "ssh-connection" {
        return Err(AuthError::Inconsistent);
    }
    auth.bind_or_reset_principal(alloc, head.user, head.service)?;
    auth.partial_success = false;
    let name = head.method;
    if name == "none" {
        return serve_none(alloc, auth, handler, head.user, head.rest);
    }
    if name == "password" {
        return serve_password(alloc, auth, handler, head.user, head.rest);
    }
    if name == "publickey" {
        let request = Request {
            session_id,
            moment,
            payload,
            user: head.user,
            fields: head.rest,
        };
        return serve_publickey(alloc, auth, handler, verifier, &request);
    }
    if name == "keyboard-interactive" {
        return serve_interactive(alloc, auth, handler, head.user, head.rest);
    }
    Ok(refuse(alloc, auth)?)
}

/// A request of method none (RFC 4252 section 5.2): asks whether the user is let in without a
/// proof.
fn serve_none<H: AuthHandler>(
    alloc: Global,
    auth: &mut AuthRequest,
    handler: &mut H,
    user: &str,
    fields: &[u8],
) -> Result<AuthStep, AuthError<H::Error>>
    ensures { CarriesOutMethod (SaysNone fields.now) auth.old user.now (H.told handler.old)
        (H.told handler.new) auth.new result }
{
    read_none(fields)?;
    match handler.auth_none(user) {
        Ok(verdict) => {
            let answered = answer(alloc, auth, MethodKind::None, &verdict);
            drop(verdict);
            Ok(answered?)
        }
        Err(e) => Err(AuthError::Handler(e)),
    }
}

/// A request of method password (RFC 4252 section 8): asks whether the user is let in by it. A
/// change of it is not served: the method is taken away.
fn serve_password<H: AuthHandler>(
    alloc: Global,
    auth: &mut AuthRequest,
    handler: &mut H,
    user: &str,
    fields: &[u8],
) -> Result<AuthStep, AuthError<H::Error>>
    ensures { CarriesOutMethod (SaysPassword fields.now) auth.old user.now (H.told handler.old)
        (H.told handler.new) auth.new result }
{
    let password = match read_password(fields)? {
        PasswordRequest::Password { password } => password,
        PasswordRequest::Change { .. } => {
            return Ok(take_away(alloc, auth, MethodKind::Password)?);
        }
    };
    match handler.auth_password(user, password) {
        Ok(verdict) => {
            let answered = answer(alloc, auth, MethodKind::Password, &verdict);
            drop(verdict);
            Ok(answered?)
        }
        Err(e) => Err(AuthError::Handler(e)),
    }
}

/// What the answer to a request of method none or password means.
fn answer(
    alloc: Global,
    auth: &mut AuthRequest,
    method: MethodKind,
    answer: &Auth,
) -> Result<AuthStep, WireError>
    ensures ok { IfOk result (λ step. after_method auth.old method answer.now
        ≡ Replies step.reply step.verdict auth.new) }
    ensures memory { IfErr result (λ e. e ≡ NoMemory) }
{
    match answer {
        Auth::Accept => Ok(AuthStep {
            reply: Bytes::copy_from_slice(alloc, &[USERAUTH_SUCCESS])?,
            verdict: AuthVerdict::Accepted,
        }),
        Auth::Reject {
            proceed_with_methods,
            partial_success,
        } => {
            let left = methods_without(auth.methods, method);
            let rejection = Rejection {
                none_method: is_none(method),
                methods: proceed_with_methods.unwrap_or(left),
                partial_success: *partial_success,
            };
            reject(alloc, auth, rejection)
        }
        Auth::UnsupportedMethod | Auth::Partial { .. } => take_away(alloc, auth, method),
    }
}

/// The head of a USERAUTH_REQUEST (RFC 4252 section 5).
pub(crate) fn read_request_head(fields: &[u8]) -> Result<RequestHead<'_>, WireError>
    ensures { MatchResult result
        (λ head. SpellsAll head_fields (head.user.now, (head.service.now, (head.method.now, tt)))
        fields.now head.rest.now)
        (λ why. MisfitsAll head_fields fields.now why) }
{
    let mut reader = Reader::new(fields);
    let user = reader.text()?;
    let service = reader.text()?;
    let method = reader.text()?;
    let rest = reader.rest();
    Ok(RequestHead {
        user,
        service,
        method,
        rest,
    })
}

/// The fields of the method none, of which there are none (RFC 4252 section 5.2).
pub(crate) fn read_none(fields: &[u8]) -> Result<(), WireError>
    ensures { MatchResult result (λ _. fields.now ≡ []) (λ why. MisfitsWhole [] fields.now why) }
{
    Reader::new(fields).end()
}

/// The fields of the method password (RFC 4252 section 8).
pub(crate) fn read_password(fields: &[u8]) -> Result<PasswordRequest<'_>, WireError>
    ensures { MatchResult result
        (λ asked. SaysPassword fields.now (password_method asked))
        (λ why. SaysPassword fields.now (Unfit_method why)) }
{
    let mut reader = Reader::new(fields);
    let is_change = reader.u8()? != 0;
    let password = reader.text()?;
    if is_change {
        let new_password = reader.text()?;
        reader.end()?;
        return Ok(PasswordRequest::Change {
            password,
            new_password,
        });
    }
    reader.end()?;
    Ok(PasswordRequest::Password { password })
}
