// A whole run, as it is printed.
ghost use Rattle.std.specs.Prelude.{◌≡◌, ◌++◌, flat_map, IfOk, OnOk};
ghost use Rattle.std.specs.String.{string_bytes};
ghost use Rattle.ssh_transcript.specs.CallLines.{question_line};
ghost use Rattle.ssh_transcript.specs.Print.{entry_lines, variant_name, last_line};

use crate::print::print_trace;
use crate::print_call::print_calls;
use ssh_auth::Question;
use ssh_link::TraceEntry;
use ssh_rules::RunError;
use std::alloc::{AllocError, Global};

/// How the error of a run is named.
fn variant_name<HE, KE>(error: &RunError<HE, KE>) -> &'static str
    ensures { result.now ≡ variant_name error.now }
{
    match error {
        RunError::NoMemory => "NoMemory",
        RunError::LinkFault => "LinkFault",
        RunError::InputLimit => "InputLimit",
        RunError::Encoding(_) => "Encoding",
        RunError::Inconsistent => "Inconsistent",
        RunError::Key(_) => "Key",
        RunError::UnsupportedAuthMethod => "UnsupportedAuthMethod",
        RunError::Handler(_) => "Handler",
        RunError::Kex(_) => "Kex",
        RunError::ChannelsFull => "ChannelsFull",
        RunError::KeepaliveTimeout => "KeepaliveTimeout",
        RunError::InactivityTimeout => "InactivityTimeout",
        RunError::Pending => "Pending",
    }
}

/// The last line of a run, which says how it ended.
pub(crate) fn print_last<HE, KE>(
    out: &mut String,
    run: &Result<(), RunError<HE, KE>>,
) -> Result<(), AllocError>
    ensures { OnOk result (string_bytes out.new ≡ string_bytes out.old ++ last_line run.now) }
{
    let Err(error) = run else {
        return out.push_str("ok\n");
    };
    out.push_str("error ")?;
    out.push_str(variant_name(error))?;
    out.push_str("\n")
}

/// The text of a run: a line for each of these callbacks, then one for each of these calls of the
/// link, and last how the run ended.
pub fn print_run<HE, KE>(
    alloc: Global,
    asked: &[Question],
    trace: &[TraceEntry],
    run: &Result<(), RunError<HE, KE>>,
) -> Result<String, AllocError>
    ensures { IfOk result (λ text. string_bytes text ≡ flat_map question_line asked.now
        ++ entry_lines 0 trace.now ++ last_line run.now) }
{
    let mut text = String::new(alloc);
    print_calls(alloc, &mut text, asked)?;
    print_trace(alloc, &mut text, trace)?;
    print_last(&mut text, run)?;
    Ok(text)
}
