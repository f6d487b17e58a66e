// A gateway that a script plays.
ghost use Rattle.std.specs.Prelude.{◌≡◌, ℕ, List, IfOk};
ghost use Rattle.std.specs.String.{string_bytes};
ghost use Rattle.ssh_scene_gateway.specs.GatewayScene.{GatewayScene, gateway_of};
ghost use Rattle.ssh_scene_gateway.specs.Forwarding.{status_of, IsForwarded};

use crate::reading::GatewayScript;
use crate::targets::ScriptTargets;
use crate::telling::tell;
use ssh_gateway::{GatewayError, run_gateway};
use ssh_handler::RecordError;
use ssh_link::PlainKexError;
use ssh_players::{ScriptError, ScriptHandler, ScriptKex, ScriptLink};
use std::alloc::{AllocError, Global};

/// What became of a gateway.
#[derive(Drop)]
pub struct Forwarded {
    /// 0 where an input ended its run, 1 where an error did.
    pub status: u8,
    /// What is written of it.
    pub text: String,
}

/// The status of a gateway; none where memory was wanting.
fn status_of(run: &Result<(), GatewayError<RecordError<ScriptError>, PlainKexError>>) -> Option<u8>
    ensures { result ≡ status_of run.now }
{
    match run {
        Ok(()) => Some(0),
        Err(GatewayError::NoMemory) => None,
        Err(GatewayError::Run(_) | GatewayError::TargetFault | GatewayError::TurnLimit) => Some(1),
    }
}

/// Plays a gateway by a script, and writes what becomes of it: the script answers who is let in,
/// gives what the link gives, and says which hosts may be reached and what their targets give. After
/// as many turns as it allows inputs it stops.
pub fn forward(alloc: Global, script: GatewayScript) -> Result<Forwarded, AllocError>
    ensures { IfOk result (λ done. IsForwarded (gateway_of script) done.status
        (string_bytes done.text)) }
{
    let GatewayScript {
        session,
        policy,
        hosts,
    } = script;
    let Ok(mut link) = ScriptLink::new(alloc, session.inputs, session.moment) else {
        return Err(AllocError);
    };
    let mut handler = ScriptHandler::new(alloc, session.answers);
    let mut kex = ScriptKex::new(alloc, true);
    let mut targets = ScriptTargets::new(alloc, hosts);
    let run = run_gateway(
        alloc,
        &session.config,
        session.session_id.as_slice(),
        &[],
        &mut handler,
        &session.verifier,
        &mut kex,
        &mut link,
        &policy,
        &mut targets,
        session.max_inputs,
    );
    let Some(status) = status_of(&run) else {
        return Err(AllocError);
    };
    if handler.lost || targets.lost {
        return Err(AllocError);
    }
    let text = tell(alloc, link.memory.trace(), &targets.calls, &run)?;
    Ok(Forwarded { status, text })
}

/// A scene has one status and one text.
pub fn one_forwarding()
    ensures once { (scene : GatewayScene) (m n : ℕ) (s t : List ℕ) → IsForwarded scene m s
        → IsForwarded scene n t → (m ≡ n) × (s ≡ t) }
{}
