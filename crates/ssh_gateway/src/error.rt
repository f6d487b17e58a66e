// Why a gateway stops.
ghost use Rattle.std.specs.Prelude.{◌≡◌, ◌≢◌};
ghost use Rattle.ssh_gateway.specs.Raised.{lowered, link_error, target_error};

use crate::TargetFault;
use ssh_handler::RecordError;
use ssh_link::LinkFault;
use ssh_session::RunError;

/// Why a gateway stopped. `HE` is the error of the handler of authentication, `KE` that of the
/// exchange of keys.
#[derive(Debug, Drop)]
pub enum GatewayError<HE, KE> {
    /// There was no memory.
    NoMemory,
    /// An input was not finished, for this reason; or the link failed where the next one was to
    /// come (`RunError::LinkFault`), and then its count of faults rose.
    Run(RunError<HE, KE>),
    /// A target failed: the count of faults of the targets rose.
    TargetFault,
    /// As many turns as were allowed were finished, and none ended the run.
    TurnLimit,
}

/// The error of an input, by that of the handler of authentication.
pub(crate) fn lowered<E, F>(why: RunError<RecordError<E>, F>) -> GatewayError<E, F>
    ensures is { result ≡ lowered why }
    ensures unlimited { result ≢ GatewayError.TurnLimit }
{
    match why {
        RunError::NoMemory => GatewayError::NoMemory,
        RunError::LinkFault => GatewayError::Run(RunError::LinkFault),
        RunError::InputLimit => GatewayError::Run(RunError::InputLimit),
        RunError::Encoding(field) => GatewayError::Run(RunError::Encoding(field)),
        RunError::Inconsistent => GatewayError::Run(RunError::Inconsistent),
        RunError::Pending => GatewayError::Run(RunError::Pending),
        RunError::Key(key) => GatewayError::Run(RunError::Key(key)),
        RunError::UnsupportedAuthMethod => GatewayError::Run(RunError::UnsupportedAuthMethod),
        RunError::Handler(RecordError::Inner(e)) => GatewayError::Run(RunError::Handler(e)),
        RunError::Handler(_) => GatewayError::NoMemory,
        RunError::Kex(e) => GatewayError::Run(RunError::Kex(e)),
        RunError::ChannelsFull => GatewayError::Run(RunError::ChannelsFull),
        RunError::KeepaliveTimeout => GatewayError::Run(RunError::KeepaliveTimeout),
        RunError::InactivityTimeout => GatewayError::Run(RunError::InactivityTimeout),
    }
}

/// The error where the link gave no input.
pub(crate) fn link_error<E, F>(fault: LinkFault) -> GatewayError<E, F>
    ensures is { result ≡ link_error fault }
    ensures unlimited { result ≢ GatewayError.TurnLimit }
{
    match fault {
        LinkFault::Failed => GatewayError::Run(RunError::LinkFault),
        LinkFault::NoMemory => GatewayError::NoMemory,
    }
}

/// The error where a target did not do what it was asked.
pub(crate) fn target_error<E, F>(fault: TargetFault) -> GatewayError<E, F>
    ensures is { result ≡ target_error fault }
    ensures unlimited { result ≢ GatewayError.TurnLimit }
{
    match fault {
        TargetFault::Failed => GatewayError::TargetFault,
        TargetFault::NoMemory => GatewayError::NoMemory,
    }
}
