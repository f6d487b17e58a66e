// The calls of a handle that ask the peer to forward connections.
ghost use Rattle.std.specs.Prelude.{◌≡◌};
ghost use Rattle.ssh_handles.specs.Parts.{port_of, taken_back_of};

use super::Handle;
use ssh_hub::{HandleError, SlotAnswer};
use ssh_link::Command;
use ssh_wire::Text;
use std::sync::Wait;

impl Handle {
    ghost use Rattle.ssh_handles.specs.Handles.{handle_hub, handle_view, Forwards, TakesBack};

    /// Asks the peer to forward connections to this address (RFC 4254 section 7.1), and waits for
    /// its answer: the port that it listens at. Port 0 leaves it to the peer. `Denied` where the
    /// peer denies it, `Refused` where the session refuses the request, `Ended` where the hub has
    /// ended, and `NoMemory`.
    pub fn forward_tcpip<R: Wait>(
        &mut self,
        rt: &R,
        address: Text,
        port: u32,
    ) -> Result<u32, HandleError>
        ensures hub { handle_hub self.new ≡ handle_hub self.old }
        ensures entries { Forwards address port (handle_view self.old) result
            (handle_view self.new) }
    {
        let caller = &mut self.caller;
        let slot = match caller.lock.slot(rt, &mut caller.seat) {
            Ok(slot) => slot,
            Err(e) => return Err(e),
        };
        let msg = Command::TcpipForward {
            address,
            port,
            reply: Some(slot),
        };
        granted_port(self.caller.answered(rt, slot, msg))
    }

    /// Asks the peer to forward them no longer (RFC 4254 section 7.1), and waits for its answer.
    /// The errors are those of `forward_tcpip`.
    pub fn cancel_forward_tcpip<R: Wait>(
        &mut self,
        rt: &R,
        address: Text,
        port: u32,
    ) -> Result<(), HandleError>
        ensures hub { handle_hub self.new ≡ handle_hub self.old }
        ensures entries { TakesBack address port (handle_view self.old) result
            (handle_view self.new) }
    {
        let caller = &mut self.caller;
        let slot = match caller.lock.slot(rt, &mut caller.seat) {
            Ok(slot) => slot,
            Err(e) => return Err(e),
        };
        let msg = Command::CancelTcpipForward {
            address,
            port,
            reply: Some(slot),
        };
        taken_back(self.caller.answered(rt, slot, msg))
    }
}

// The port that the peer listens at.
fn granted_port(answer: Result<SlotAnswer, HandleError>) -> Result<u32, HandleError>
    ensures { result ≡ port_of answer }
{
    match answer {
        Ok(SlotAnswer::Port(Some(port))) => Ok(port),
        Ok(_) => Err(HandleError::Denied),
        Err(e) => Err(e),
    }
}

// Whether the peer forwards no longer.
fn taken_back(answer: Result<SlotAnswer, HandleError>) -> Result<(), HandleError>
    ensures { result ≡ taken_back_of answer }
{
    match answer {
        Ok(SlotAnswer::Cancelled(true)) => Ok(()),
        Ok(_) => Err(HandleError::Denied),
        Err(e) => Err(e),
    }
}
