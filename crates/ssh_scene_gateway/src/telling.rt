// What is written of a gateway.
ghost use Rattle.std.specs.Prelude.{◌≡◌, ◌++◌, codes, flat_map, IfOk, OnOk};
ghost use Rattle.std.specs.Fmt.{decimal};
ghost use Rattle.std.specs.String.{string_bytes};
ghost use Rattle.ssh_gateway.specs.Asked.{written, written_by};
ghost use Rattle.ssh_transcript.specs.Words.{hex_text};
ghost use Rattle.ssh_scene_gateway.specs.Telling.{is_made, target_line, target_lines};
ghost use Rattle.ssh_scene_gateway.specs.Telling.{error_name, ending_line, told_text};

use ssh_gateway::{GatewayError, TargetCall, TargetFault};
use ssh_link::TraceEntry;
use ssh_transcript::{print_hex, print_number, print_trace};
use std::alloc::{AllocError, Global};

/// The bytes that a call wrote to the connection with this number.
fn written_by(call: &TargetCall, id: u64) -> &[u8]
    ensures { result.now ≡ written_by id call.now }
{
    match call {
        TargetCall::Write {
            id: other,
            bytes,
            answer: Ok(()),
        } if *other == id => bytes.as_slice(),
        _ => &[],
    }
}

/// .. and that all of these wrote, in order.
fn written_to(alloc: Global, calls: &[TargetCall], id: u64) -> Result<Vec<u8>, AllocError>
    ensures { IfOk result (λ all. all.items ≡ written id calls.now) }
{
    let mut all = Vec::new(alloc);
    for call in calls {
        all.extend_from_slice(written_by(call, id))?;
    }
    Ok(all)
}

/// A connection as a line: its number, its host and port, and the bytes that were written to it.
fn print_target(
    alloc: Global,
    text: &mut String,
    id: u64,
    host: &str,
    port: u32,
    written: &[u8],
) -> Result<(), AllocError>
    ensures { OnOk result (string_bytes text.new ≡ string_bytes text.old ++ codes "target "
        ++ decimal id ++ codes " " ++ hex_text host.now ++ codes " " ++ decimal port ++ codes " "
        ++ hex_text written.now ++ codes "\n") }
{
    text.push_str("target ")?;
    print_number(alloc, text, id)?;
    text.push_str(" ")?;
    print_hex(alloc, text, host.as_bytes())?;
    text.push_str(" ")?;
    print_number(alloc, text, u64::from(port))?;
    text.push_str(" ")?;
    print_hex(alloc, text, written)?;
    text.push_str("\n")
}

/// Whether a connect made a connection.
fn is_made(answer: &Result<bool, TargetFault>) -> bool
    ensures { result ≡ is_made answer.now }
{
    match answer {
        Ok(made) => *made,
        Err(_) => false,
    }
}

/// The line of a call of these: of a connect that made a connection, and of no other.
fn print_call(
    alloc: Global,
    text: &mut String,
    calls: &[TargetCall],
    call: &TargetCall,
) -> Result<(), AllocError>
    ensures { OnOk result (string_bytes text.new ≡ string_bytes text.old
        ++ target_line calls.now call.now) }
{
    let TargetCall::Connect {
        id,
        host,
        port,
        answer,
    } = call
    else {
        return Ok(());
    };
    if !is_made(answer) {
        return Ok(());
    }
    let written = written_to(alloc, calls, *id)?;
    print_target(alloc, text, *id, host.as_str(), *port, &written)
}

/// A line for each connection that was made.
fn print_targets(alloc: Global, text: &mut String, calls: &[TargetCall]) -> Result<(), AllocError>
    ensures { OnOk result (string_bytes text.new ≡ string_bytes text.old
        ++ target_lines calls.now) }
{
    for call in calls {
        print_call(alloc, text, calls, call)?;
    }
    Ok(())
}

/// How the error of a gateway is named.
fn error_name<HE, KE>(error: &GatewayError<HE, KE>) -> &'static str
    ensures { result.now ≡ error_name error.now }
{
    match error {
        GatewayError::NoMemory => "NoMemory",
        GatewayError::Run(_) => "Run",
        GatewayError::TargetFault => "TargetFault",
        GatewayError::TurnLimit => "TurnLimit",
    }
}

/// The last line, which says how it ended.
fn print_ending<HE, KE>(
    text: &mut String,
    run: &Result<(), GatewayError<HE, KE>>,
) -> Result<(), AllocError>
    ensures { OnOk result (string_bytes text.new ≡ string_bytes text.old ++ ending_line run.now) }
{
    let Err(error) = run else {
        return text.push_str("ok\n");
    };
    text.push_str("error ")?;
    text.push_str(error_name(error))?;
    text.push_str("\n")
}

/// The text of a gateway: a line for each of these calls of the link, then one for each connection,
/// and last how it ended.
pub(crate) fn tell<HE, KE>(
    alloc: Global,
    trace: &[TraceEntry],
    calls: &[TargetCall],
    run: &Result<(), GatewayError<HE, KE>>,
) -> Result<String, AllocError>
    ensures { IfOk result (λ text. string_bytes text
        ≡ told_text trace.now calls.now run.now) }
{
    let mut text = String::new(alloc);
    print_trace(alloc, &mut text, trace)?;
    print_targets(alloc, &mut text, calls)?;
    print_ending(&mut text, run)?;
    Ok(text)
}
