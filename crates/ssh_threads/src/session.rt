// A session over any link, which lets alice in and accepts her channels.
ghost use Rattle.std.specs.Prelude.{◌≡◌, false, IfOk};
ghost use Rattle.ssh_link.specs.Faults.{Rose};
ghost use Rattle.ssh_threads.specs.Sessions.{Serves, IsFed};

use crate::choice::unless;
use ssh_link::Link;
use ssh_players::{ScriptHandler, ScriptKex};
use ssh_scene::generated_script;
use ssh_script::status_of;
use ssh_session::run_stream;
use ssh_threads_lines::Outcome;
use std::alloc::{AllocError, Global};

/// Serves a session over the link until an input ends it or an error comes: with the standard
/// settings, a handler that accepts the first request by the method none and every channel of the
/// peer, and an exchange without cryptography. Want of memory, of the run too, is the only error.
pub fn serve_over<L: Link>(alloc: Global, link: &mut L) -> Result<Outcome, AllocError>
    ensures { IfOk result (λ outcome. Serves (Rose (L.faults link.old) (L.faults link.new))
        (L.trace link.old) (L.trace link.new) outcome) }
{
    let Ok(script) = generated_script(alloc, 0) else {
        return Err(AllocError);
    };
    let mut handler = ScriptHandler::new(alloc, script.answers);
    let mut kex = ScriptKex::new(alloc, false);
    let outcome = run_stream(
        alloc,
        &script.config,
        script.session_id.as_slice(),
        &[],
        &mut handler,
        &script.verifier,
        &mut kex,
        link,
        u64::MAX,
    );
    let starved = is_starved(handler.lost, &outcome);
    let Some(kept) = unless(starved, outcome) else {
        return Err(AllocError);
    };
    Ok(kept)
}

/// Whether memory was wanting: for a question of the handler, or in the run.
fn is_starved(lost: bool, outcome: &Outcome) -> bool
    ensures kept { result ≡ false → lost ≡ false }
    ensures fed { result ≡ false → IsFed outcome.now }
{
    if lost {
        return true;
    }
    status_of(outcome).is_none()
}
