// What a script answers to a user of keyboard-interactive.
ghost use Rattle.std.specs.Prelude.{◌≡◌, [], ◌∷◌, IfOk};
ghost use Rattle.ssh_auth.specs.declared.auth.Auth.TheVariants.{Partial};
ghost use Rattle.ssh_players.specs.Played.{code_prompt, interactive_answer};

use crate::script_handler::{ScriptError, answer_of};
use ssh_auth::{Auth, Prompts};
use ssh_handler::RecordError;
use ssh_scene::InteractiveVerdict;
use ssh_wire::{Text, WireError};
use std::alloc::Global;

/// Asks for a code, which is not shown (RFC 4256 section 3.2).
fn code_prompt(alloc: Global) -> Result<Auth, WireError>
    ensures { IfOk result (λ auth. auth ≡ Partial [] [] (code_prompt ∷ [])) }
{
    let mut prompts = Prompts::new(alloc);
    prompts.push(Text::new(alloc, "Code: ")?, false)?;
    Ok(Auth::Partial {
        name: Text::new(alloc, "")?,
        instructions: Text::new(alloc, "")?,
        prompts,
    })
}

/// The answer of a verdict; the error is that there was no memory for it.
pub(crate) fn interactive_answer_of(
    alloc: Global,
    verdict: InteractiveVerdict,
) -> Result<Result<Auth, RecordError<ScriptError>>, WireError>
    ensures { IfOk result (λ answer. answer ≡ interactive_answer verdict) }
{
    match verdict {
        InteractiveVerdict::Plain(verdict) => Ok(answer_of(verdict)),
        InteractiveVerdict::Unsupported => Ok(Ok(Auth::UnsupportedMethod)),
        InteractiveVerdict::Ask => Ok(Ok(code_prompt(alloc)?)),
    }
}
