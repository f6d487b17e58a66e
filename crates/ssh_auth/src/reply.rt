// The replies that are written, and the state after them.
ghost use Rattle.std.specs.Prelude.{◌≡◌, ◌≤◌, ◌<◌, ◌^◌, ◌⊎◌, ◌++◌, [], length, true, OnOk};
ghost use Rattle.std.specs.Prelude.{IfOk, IfErr};
ghost use Rattle.ssh_wire.specs.declared.error.WireError.TheVariants.{NoMemory, TooLong};
ghost use Rattle.ssh_wire.specs.Methods.{without};
ghost use Rattle.ssh_wire.specs.Methods.{names_text};
ghost use Rattle.ssh_auth.specs.Layout.{failure_naming, failure, pk_ok};
ghost use Rattle.ssh_auth.specs.Layout.{prompts_fields, info_request};
ghost use Rattle.ssh_auth.specs.Plan.{Finish};
ghost use Rattle.ssh_auth.specs.Serve.{Concludes};
ghost use Rattle.ssh_auth.specs.Verdict.{Replies, Fails, Encoding, rejected, rejected_naming};
ghost use Rattle.ssh_auth.specs.Verdict.{taken_away, refused, is_none, after_offer};
ghost use Rattle.ssh_auth.specs.Verdict.{after_proof, after_prompts};
ghost use Rattle.ssh_auth.specs.declared.auth.Auth.TheVariants.{Accept};
ghost use Rattle.ssh_auth.specs.declared.auth_request.CurrentRequest.TheVariants.{PublicKey};

use crate::auth_request::count_after_rejection;
use crate::key_request::Offer;
use crate::{Auth, AuthError, AuthRequest, AuthStep, AuthVerdict, CurrentRequest, Prompts};
use bytes::Bytes;
use ssh_wire::message::{
    USERAUTH_FAILURE, USERAUTH_INFO_REQUEST, USERAUTH_PK_OK, USERAUTH_SUCCESS,
};
use ssh_wire::{MethodKind, MethodSet, Text, WireError, put_bytes, put_text, put_u8, put_u32};
use std::alloc::Global;

/// USERAUTH_FAILURE with the methods that can continue (RFC 4252 section 5.1).
fn failure_payload(
    alloc: Global,
    methods: &MethodSet,
    partial_success: bool,
) -> Result<Bytes, WireError>
    ensures ok { IfOk result (λ payload. payload ≡ failure methods.now partial_success) }
    ensures memory { IfErr result (λ e. e ≡ NoMemory) }
{
    let names = names_of(alloc, methods)?;
    let mut payload = Vec::new(alloc);
    let put = put_failure(&mut payload, names.as_str(), partial_success);
    drop(names);
    put?;
    Ok(Bytes::from_vec(payload)?)
}

/// The names of the methods, as they stand on the wire.
fn names_of(alloc: Global, methods: &MethodSet) -> Result<Text, WireError>
    ensures ok { IfOk result (λ names. names ≡ names_text methods.now) }
    ensures short { IfOk result (λ names. length names < 2 ^ 32) }
    ensures memory { IfErr result (λ e. e ≡ NoMemory) }
{
    let names = methods.to_names(alloc)?;
    let text = names.to_text();
    drop(names);
    text
}

/// The fields of USERAUTH_FAILURE. `NoMemory` is the only error.
fn put_failure(out: &mut Vec<u8>, names: &str, partial_success: bool) -> Result<(), WireError>
    requires { length names.now < 2 ^ 32 }
    ensures ok { OnOk result (out.new.items
        ≡ out.old.items ++ failure_naming names.now partial_success) }
    ensures memory { IfErr result (λ e. e ≡ NoMemory) }
{
    put_u8(out, USERAUTH_FAILURE)?;
    put_text(out, names)?;
    put_u8(out, u8::from(partial_success))
}

/// The payload that was written. `TooLong` exactly where it has more than 2^32 - 1 bytes, and no
/// other error but `NoMemory`.
fn fitting(payload: Vec<u8>) -> Result<Bytes, WireError>
    ensures ok { IfOk result (λ bytes. (bytes ≡ payload.items) × (length bytes < 2 ^ 32)) }
    ensures refused { IfErr result (λ e. (e ≡ NoMemory)
        ⊎ ((e ≡ TooLong) × (2 ^ 32 ≤ length payload.items))) }
{
    if u32::try_from(payload.len()).is_err() {
        drop(payload);
        return Err(WireError::TooLong);
    }
    Ok(Bytes::from_vec(payload)?)
}

/// USERAUTH_PK_OK (RFC 4252 section 7). `TooLong` exactly where it has more than 2^32 - 1 bytes,
/// and no other error but `NoMemory`.
fn pk_ok_payload(alloc: Global, name: &str, blob: &[u8]) -> Result<Bytes, WireError>
    ensures ok { IfOk result (λ payload. (payload ≡ pk_ok name.now blob.now)
        × (length payload < 2 ^ 32)) }
    ensures refused { IfErr result (λ e. (e ≡ NoMemory)
        ⊎ ((e ≡ TooLong) × (2 ^ 32 ≤ length (pk_ok name.now blob.now)))) }
{
    let mut payload = Vec::new(alloc);
    match put_pk_ok(&mut payload, name, blob) {
        Ok(()) => fitting(payload),
        Err(e) => {
            drop(payload);
            Err(e)
        }
    }
}

/// The fields of PK_OK. `TooLong` only where they have more than 2^32 - 1 bytes, and no other error
/// but `NoMemory`.
fn put_pk_ok(out: &mut Vec<u8>, name: &str, blob: &[u8]) -> Result<(), WireError>
    ensures ok { OnOk result (out.new.items ≡ out.old.items ++ pk_ok name.now blob.now) }
    ensures refused { IfErr result (λ e. (e ≡ NoMemory)
        ⊎ ((e ≡ TooLong) × (2 ^ 32 ≤ length (pk_ok name.now blob.now)))) }
{
    put_u8(out, USERAUTH_PK_OK)?;
    put_text(out, name)?;
    put_bytes(out, blob)
}

/// What a rejection says, and of what.
#[derive(Clone, Copy)]
pub(crate) struct Rejection {
    /// Whether it is of a request of method none (RFC 4252 section 5.2).
    pub none_method: bool,
    /// The methods that can continue from now on.
    pub methods: MethodSet,
    /// Whether the request was right, and more is needed (RFC 4252 section 5.1).
    pub partial_success: bool,
}

/// A rejection: these methods can continue from now on, and the round is over.
pub(crate) fn reject(
    alloc: Global,
    auth: &mut AuthRequest,
    rejection: Rejection,
) -> Result<AuthStep, WireError>
    ensures ok { IfOk result (λ step. rejected auth.old rejection
        ≡ Replies step.reply step.verdict auth.new) }
    ensures memory { IfErr result (λ e. e ≡ NoMemory) }
{
    let reply = failure_payload(alloc, &rejection.methods, rejection.partial_success)?;
    auth.methods = rejection.methods;
    auth.partial_success = rejection.partial_success;
    auth.current = None;
    auth.rejection_count = count_after_rejection(rejection.partial_success, auth.rejection_count);
    Ok(AuthStep {
        reply,
        verdict: AuthVerdict::Rejected {
            none_method: rejection.none_method,
        },
    })
}

/// A rejection that leaves the methods as they are.
pub(crate) fn refuse(alloc: Global, auth: &mut AuthRequest) -> Result<AuthStep, WireError>
    ensures ok { IfOk result (λ step. refused auth.old ≡ Replies step.reply step.verdict auth.new) }
    ensures memory { IfErr result (λ e. e ≡ NoMemory) }
{
    let rejection = Rejection {
        none_method: false,
        methods: auth.methods,
        partial_success: false,
    };
    reject(alloc, auth, rejection)
}

/// A rejection of a key: the methods that are named replace the others, and none is taken away.
fn refuse_naming(
    alloc: Global,
    auth: &mut AuthRequest,
    named: Option<MethodSet>,
    partial_success: bool,
) -> Result<AuthStep, WireError>
    ensures ok { IfOk result (λ step. rejected_naming auth.old named partial_success
        ≡ Replies step.reply step.verdict auth.new) }
    ensures memory { IfErr result (λ e. e ≡ NoMemory) }
{
    let rejection = Rejection {
        none_method: false,
        methods: named.unwrap_or(auth.methods),
        partial_success,
    };
    reject(alloc, auth, rejection)
}

/// PK_OK: the key may sign, and the round is its probe.
fn permit(alloc: Global, auth: &mut AuthRequest, offer: &Offer<'_>) -> Result<AuthStep, WireError>
    ensures ok { IfOk result (λ step. after_offer auth.old offer.now Accept
        ≡ Replies step.reply step.verdict auth.new) }
    ensures refused { IfErr result (λ e. (e ≡ NoMemory)
        ⊎ ((e ≡ TooLong) × (after_offer auth.old offer.now Accept ≡ Fails (Encoding TooLong)))) }
{
    let reply = pk_ok_payload(alloc, offer.name, offer.blob)?;
    match probe_of(alloc, offer) {
        Ok(probe) => {
            auth.current = Some(probe);
            Ok(AuthStep {
                reply,
                verdict: AuthVerdict::Continued,
            })
        }
        Err(e) => {
            drop(reply);
            Err(e)
        }
    }
}

/// The round of a key that may sign.
fn probe_of(alloc: Global, offer: &Offer<'_>) -> Result<CurrentRequest, WireError>
    ensures ok { IfOk result (λ round. round
        ≡ PublicKey offer.now.blob offer.now.name true) }
    ensures memory { IfErr result (λ e. e ≡ NoMemory) }
{
    let key = Bytes::copy_from_slice(alloc, offer.blob)?;
    match Text::new(alloc, offer.name) {
        Ok(algo) => Ok(CurrentRequest::PublicKey {
            key,
            algo,
            sent_pk_ok: true,
        }),
        Err(e) => {
            drop(key);
            Err(e)
        }
    }
}

/// What the answer on a key that may sign means. Where PK_OK has more than 2^32 - 1 bytes, it is
/// `TooLong`; no other error but `NoMemory`.
pub(crate) fn answer_offer(
    alloc: Global,
    auth: &mut AuthRequest,
    offer: &Offer<'_>,
    answer: &Auth,
) -> Result<AuthStep, WireError>
    ensures ok { IfOk result (λ step. after_offer auth.old offer.now answer.now
        ≡ Replies step.reply step.verdict auth.new) }
    ensures refused { IfErr result (λ e. (e ≡ NoMemory)
        ⊎ ((e ≡ TooLong) × (after_offer auth.old offer.now answer.now
        ≡ Fails (Encoding TooLong)))) }
{
    match answer {
        Auth::Accept => permit(alloc, auth, offer),
        Auth::Reject {
            proceed_with_methods,
            partial_success,
        } => refuse_naming(alloc, auth, *proceed_with_methods, *partial_success),
        Auth::UnsupportedMethod | Auth::Partial { .. } => refuse(alloc, auth),
    }
}

/// What the answer on a key or a certificate that has signed means.
pub(crate) fn answer_proof(
    alloc: Global,
    auth: &mut AuthRequest,
    answer: &Auth,
) -> Result<AuthStep, WireError>
    ensures ok { IfOk result (λ step. after_proof auth.old answer.now
        ≡ Replies step.reply step.verdict auth.new) }
    ensures memory { IfErr result (λ e. e ≡ NoMemory) }
{
    match answer {
        Auth::Accept => Ok(AuthStep {
            reply: Bytes::copy_from_slice(alloc, &[USERAUTH_SUCCESS])?,
            verdict: AuthVerdict::Accepted,
        }),
        Auth::Reject {
            proceed_with_methods,
            partial_success,
        } => refuse_naming(alloc, auth, *proceed_with_methods, *partial_success),
        Auth::UnsupportedMethod | Auth::Partial { .. } => refuse(alloc, auth),
    }
}

/// The methods that can continue without the refused one.
pub(crate) fn methods_without(methods: MethodSet, refused: MethodKind) -> MethodSet
    ensures { result ≡ without refused methods }
{
    let mut left = methods;
    left.remove(refused);
    left
}

/// Whether it is the method none.
pub(crate) fn is_none(method: MethodKind) -> bool
    ensures { result ≡ is_none method }
{
    match method {
        MethodKind::None => true,
        _ => false,
    }
}

/// A rejection of a request of method none or password, which is taken away.
pub(crate) fn take_away(
    alloc: Global,
    auth: &mut AuthRequest,
    method: MethodKind,
) -> Result<AuthStep, WireError>
    ensures ok { IfOk result (λ step. taken_away auth.old method
        ≡ Replies step.reply step.verdict auth.new) }
    ensures memory { IfErr result (λ e. e ≡ NoMemory) }
{
    let rejection = Rejection {
        none_method: is_none(method),
        methods: methods_without(auth.methods, method),
        partial_success: false,
    };
    reject(alloc, auth, rejection)
}

/// How many prompts there are, and then each with its echo flag (RFC 4256 section 3.2). `TooLong`
/// only where that is more than 2^32 - 1 bytes, and no other error but `NoMemory`.
fn put_prompts(out: &mut Vec<u8>, prompts: &[(Text, bool)]) -> Result<(), WireError>
    ensures ok { OnOk result (out.new.items ≡ out.old.items ++ prompts_fields prompts.now) }
    ensures refused { IfErr result (λ e. (e ≡ NoMemory)
        ⊎ ((e ≡ TooLong) × (2 ^ 32 ≤ length (prompts_fields prompts.now)))) }
{
    let Ok(count) = u32::try_from(prompts.len()) else {
        return Err(WireError::TooLong);
    };
    put_u32(out, count)?;
    for (text, echo) in prompts {
        put_text(out, text.as_str())?;
        put_u8(out, u8::from(*echo))?;
    }
    Ok(())
}

/// USERAUTH_INFO_REQUEST (RFC 4256 section 3.2). `TooLong` exactly where it has more than 2^32 - 1
/// bytes, and no other error but `NoMemory`.
fn info_request_payload(
    alloc: Global,
    name: &str,
    instructions: &str,
    prompts: &Prompts,
) -> Result<Bytes, WireError>
    ensures ok { IfOk result (λ payload. (payload ≡ info_request name.now instructions.now
        prompts.now) × (length payload < 2 ^ 32)) }
    ensures refused { IfErr result (λ e. (e ≡ NoMemory)
        ⊎ ((e ≡ TooLong) × (2 ^ 32
        ≤ length (info_request name.now instructions.now prompts.now)))) }
{
    let mut payload = Vec::new(alloc);
    match put_info_request(&mut payload, name, instructions, prompts) {
        Ok(()) => fitting(payload),
        Err(e) => {
            drop(payload);
            Err(e)
        }
    }
}

/// The fields of USERAUTH_INFO_REQUEST. `TooLong` only where they have more than 2^32 - 1 bytes,
/// and no other error but `NoMemory`.
fn put_info_request(
    out: &mut Vec<u8>,
    name: &str,
    instructions: &str,
    prompts: &Prompts,
) -> Result<(), WireError>
    ensures ok { OnOk result (out.new.items
        ≡ out.old.items ++ info_request name.now instructions.now prompts.now) }
    ensures refused { IfErr result (λ e. (e ≡ NoMemory)
        ⊎ ((e ≡ TooLong) × (2 ^ 32
        ≤ length (info_request name.now instructions.now prompts.now)))) }
{
    put_u8(out, USERAUTH_INFO_REQUEST)?;
    put_text(out, name)?;
    put_text(out, instructions)?;
    put_text(out, "")?;
    put_prompts(out, prompts.as_slice())
}

/// What the answer in a round of keyboard-interactive means: prompts keep the round.
pub(crate) fn answer_prompted<E>(
    alloc: Global,
    auth: &mut AuthRequest,
    answer: &Auth,
) -> Result<AuthStep, AuthError<E>>
    ensures { Concludes (Finish (after_prompts auth.old answer.now)) [] auth.new result }
{
    match answer {
        Auth::Accept | Auth::Reject { .. } => Ok(answer_proof(alloc, auth, answer)?),
        Auth::UnsupportedMethod => Err(AuthError::UnsupportedAuthMethod),
        Auth::Partial {
            name,
            instructions,
            prompts,
        } => Ok(AuthStep {
            reply: info_request_payload(alloc, name.as_str(), instructions.as_str(), prompts)?,
            verdict: AuthVerdict::Continued,
        }),
    }
}
