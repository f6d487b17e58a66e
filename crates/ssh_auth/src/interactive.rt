// Requests by keyboard-interactive, and the responses to prompts.
ghost use Rattle.std.specs.Prelude.{◌≡◌, ◌⊎◌, drop, map, MatchResult};
ghost use Rattle.ssh_wire.specs.Messages.{userauth_info_response};
ghost use Rattle.ssh_wire.specs.declared.error.WireError.TheVariants.{NoMemory};
ghost use Rattle.ssh_auth.specs.Response.{Responded, Responses, Unfit_responses, SaysResponses};
ghost use Rattle.ssh_auth.specs.Requested.{SaysInteractive, Interactive_method, Unfit_method};
ghost use Rattle.ssh_auth.specs.Verdict.{response_verdict};
ghost use Rattle.ssh_auth.specs.Proven.{IsPromptCall, AllAdded};
ghost use Rattle.ssh_auth.specs.Serve.{IsNumbered, CarriesOut, CarriesOutMethod};

use crate::reply::{answer_prompted, refuse};
use crate::{AuthError, AuthHandler, AuthRequest, AuthStep, Response};
use ssh_wire::{Reader, Text, WireError, fields_of};
use std::alloc::Global;

/// A request of method keyboard-interactive (RFC 4256 section 3.1): a round begins, and the handler
/// is asked what to prompt for.
pub(crate) fn serve_interactive<H: AuthHandler>(
    alloc: Global,
    auth: &mut AuthRequest,
    handler: &mut H,
    user: &str,
    fields: &[u8],
) -> Result<AuthStep, AuthError<H::Error>>
    ensures { CarriesOutMethod (SaysInteractive fields.now) auth.old user.now (H.told handler.old)
        (H.told handler.new) auth.new result }
{
    let submethods = read_interactive(fields)?;
    let submethods_kept = Text::new(alloc, submethods)?;
    auth.begin_prompts(submethods_kept);
    match handler.auth_keyboard_interactive(user, submethods, None) {
        Ok(verdict) => {
            let answered = answer_prompted(alloc, auth, &verdict);
            drop(verdict);
            answered
        }
        Err(e) => Err(AuthError::Handler(e)),
    }
}

/// Serves a USERAUTH_INFO_RESPONSE (RFC 4256 section 3.4): makes the call that it owes, and gives
/// its reply and its verdict. Where no prompts wait it is refused, and not read. A response is
/// about prompts alone: no other callback is made. After an error the state is not used again.
pub fn serve_response<H: AuthHandler>(
    alloc: Global,
    auth: &mut AuthRequest,
    handler: &mut H,
    payload: &[u8],
) -> Result<AuthStep, AuthError<H::Error>>
    requires numbered { IsNumbered userauth_info_response.number payload.now }
    ensures verdict { (said : Responded) × SaysResponses (drop 1 payload.now) said
        × CarriesOut (response_verdict auth.old said) (H.told handler.old) (H.told handler.new)
        auth.new result }
    ensures prompts { AllAdded IsPromptCall (H.told handler.old) (H.told handler.new) }
{
    auth.partial_success = false;
    let Some((user, submethods)) = auth.prompt() else {
        return Ok(refuse(alloc, auth)?);
    };
    let responses = read_responses(alloc, fields_of(payload))?;
    let response = Response::new(responses.as_slice());
    let answer = handler.auth_keyboard_interactive(user, submethods, Some(response));
    drop(responses);
    match answer {
        Ok(verdict) => {
            let answered = answer_prompted(alloc, auth, &verdict);
            drop(verdict);
            answered
        }
        Err(e) => Err(AuthError::Handler(e)),
    }
}

/// The submethods of a request of method keyboard-interactive; its language is not looked at (RFC
/// 4256 section 3.1).
pub(crate) fn read_interactive(fields: &[u8]) -> Result<&str, WireError>
    ensures { MatchResult result
        (λ submethods. SaysInteractive fields.now (Interactive_method submethods.now))
        (λ why. SaysInteractive fields.now (Unfit_method why)) }
{
    let mut reader = Reader::new(fields);
    reader.text()?;
    let submethods = reader.text()?;
    reader.end()?;
    Ok(submethods)
}

/// The responses of a USERAUTH_INFO_RESPONSE, as many as it announces (RFC 4256 section 3.4).
pub(crate) fn read_responses(alloc: Global, fields: &[u8]) -> Result<Vec<&[u8]>, WireError>
    ensures { MatchResult result
        (λ responses. SaysResponses fields.now (Responses (map (λ text. text.now) responses.items)))
        (λ why. (why ≡ NoMemory) ⊎ SaysResponses fields.now (Unfit_responses why)) }
{
    let mut reader = Reader::new(fields);
    let count = reader.u32()?;
    let mut responses = Vec::new(alloc);
    for _ in 0..count {
        responses.push(reader.bytes()?)?;
    }
    reader.end()?;
    Ok(responses)
}
