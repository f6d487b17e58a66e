// The calls as they are recorded.
ghost use Rattle.std.specs.Prelude.{◌≡◌, Ok, IfOk};
ghost use Rattle.ssh_auth.specs.declared.call.Call.TheVariants.{AuthenticationBanner, AuthNone};
ghost use Rattle.ssh_auth.specs.declared.call.Call.TheVariants.{AuthPassword, AuthPublickeyOffered};
ghost use Rattle.ssh_auth.specs.declared.call.Call.TheVariants.{AuthPublickey};
ghost use Rattle.ssh_auth.specs.declared.call.Call.TheVariants.{AuthOpensshCertificate};
ghost use Rattle.ssh_auth.specs.declared.call.Call.TheVariants.{AuthKeyboardInteractive};
ghost use Rattle.ssh_handler.specs.Recording.{passed_on};

pub(crate) mod channels;
pub(crate) mod forwards;
pub(crate) mod opens;
pub(crate) mod requests;

use crate::RecordError;
use bytes::Bytes;
use ssh_auth::{Auth, Call, Response, copied_response};
use ssh_keys::{Algorithm, Certificate, PublicKey};
use ssh_wire::{Text, WireError};
use std::alloc::Global;

// Both, or the error of the first that is one. What goes into a call is copied so, since a value
// that is dropped on some ways through a function only is dear to prove.
pub(crate) fn both<A: Drop, B: Drop>(
    first: Result<A, WireError>,
    second: Result<B, WireError>,
) -> Result<(A, B), WireError>
    ensures { IfOk result (λ values. (first ≡ Ok values.0) × (second ≡ Ok values.1)) }
{
    match first {
        Ok(one) => match second {
            Ok(other) => Ok((one, other)),
            Err(e) => {
                drop(one);
                Err(e)
            }
        },
        Err(e) => {
            drop(second);
            Err(e)
        }
    }
}

// A copy of these bytes.
pub(crate) fn copied_bytes(alloc: Global, bytes: &[u8]) -> Result<Bytes, WireError>
    ensures { IfOk result (λ copied. copied ≡ bytes.now) }
{
    Ok(Bytes::copy_from_slice(alloc, bytes)?)
}

// A copy of an answer to a request of authentication, as it is passed on.
fn copied_auth<E: Copy>(
    alloc: Global,
    answer: &Result<Auth, E>,
) -> Result<Result<Auth, RecordError<E>>, WireError>
    ensures { IfOk result (λ copied. copied ≡ passed_on answer.now) }
{
    match answer {
        Ok(auth) => Ok(Ok(auth.copy(alloc)?)),
        Err(e) => Ok(Err(RecordError::Inner(*e))),
    }
}

pub(crate) fn made_authentication_banner<E: Copy>(
    answer: &Result<Option<Text>, E>,
) -> Result<Call<RecordError<E>>, WireError>
    ensures { IfOk result (λ call. call ≡ AuthenticationBanner (passed_on answer.now)) }
{
    let answer = match answer {
        Ok(Some(banner)) => Ok(Some(banner.copy()?)),
        Ok(None) => Ok(None),
        Err(e) => Err(RecordError::Inner(*e)),
    };
    Ok(Call::AuthenticationBanner { answer })
}

pub(crate) fn made_auth_none<E: Copy>(
    alloc: Global,
    user: &str,
    answer: &Result<Auth, E>,
) -> Result<Call<RecordError<E>>, WireError>
    ensures { IfOk result (λ call. call ≡ AuthNone user.now (passed_on answer.now)) }
{
    let (user, answer) = both(Text::new(alloc, user), copied_auth(alloc, answer))?;
    Ok(Call::AuthNone { user, answer })
}

pub(crate) fn made_auth_password<E: Copy>(
    alloc: Global,
    user: &str,
    password: &str,
    answer: &Result<Auth, E>,
) -> Result<Call<RecordError<E>>, WireError>
    ensures { IfOk result (λ call. call ≡ AuthPassword user.now password.now
        (passed_on answer.now)) }
{
    let named = both(Text::new(alloc, user), Text::new(alloc, password));
    let ((user, password), answer) = both(named, copied_auth(alloc, answer))?;
    Ok(Call::AuthPassword {
        user,
        password,
        answer,
    })
}

pub(crate) fn made_auth_publickey_offered<E: Copy>(
    alloc: Global,
    user: &str,
    public_key: &PublicKey,
    algorithm: Algorithm,
    answer: &Result<Auth, E>,
) -> Result<Call<RecordError<E>>, WireError>
    ensures { IfOk result (λ call. call ≡ AuthPublickeyOffered user.now public_key.now algorithm
        (passed_on answer.now)) }
{
    let named = both(Text::new(alloc, user), public_key.copy());
    let ((user, public_key), answer) = both(named, copied_auth(alloc, answer))?;
    Ok(Call::AuthPublickeyOffered {
        user,
        public_key,
        algorithm,
        answer,
    })
}

pub(crate) fn made_auth_publickey<E: Copy>(
    alloc: Global,
    user: &str,
    public_key: &PublicKey,
    algorithm: Algorithm,
    answer: &Result<Auth, E>,
) -> Result<Call<RecordError<E>>, WireError>
    ensures { IfOk result (λ call. call ≡ AuthPublickey user.now public_key.now algorithm
        (passed_on answer.now)) }
{
    let named = both(Text::new(alloc, user), public_key.copy());
    let ((user, public_key), answer) = both(named, copied_auth(alloc, answer))?;
    Ok(Call::AuthPublickey {
        user,
        public_key,
        algorithm,
        answer,
    })
}

pub(crate) fn made_auth_openssh_certificate<E: Copy>(
    alloc: Global,
    user: &str,
    certificate: &Certificate,
    answer: &Result<Auth, E>,
) -> Result<Call<RecordError<E>>, WireError>
    ensures { IfOk result (λ call. call ≡ AuthOpensshCertificate user.now certificate.now
        (passed_on answer.now)) }
{
    let named = both(Text::new(alloc, user), certificate.copy());
    let ((user, certificate), answer) = both(named, copied_auth(alloc, answer))?;
    Ok(Call::AuthOpensshCertificate {
        user,
        certificate,
        answer,
    })
}

pub(crate) fn made_auth_keyboard_interactive<E: Copy>(
    alloc: Global,
    user: &str,
    submethods: &str,
    response: Option<Response<'_>>,
    answer: &Result<Auth, E>,
) -> Result<Call<RecordError<E>>, WireError>
    ensures { IfOk result (λ call. call ≡ AuthKeyboardInteractive user.now submethods.now
        response.entry (passed_on answer.now)) }
{
    let named = both(Text::new(alloc, user), Text::new(alloc, submethods));
    let answered = both(copied_response(alloc, response), copied_auth(alloc, answer));
    let ((user, submethods), (response, answer)) = both(named, answered)?;
    Ok(Call::AuthKeyboardInteractive {
        user,
        submethods,
        response,
        answer,
    })
}
