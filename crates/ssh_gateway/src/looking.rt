// What the connections have for the peer.
ghost use Rattle.std.specs.Prelude.{◌≡◌, ◌<◌, ◌≤◌, ◌++◌, [], ◌∷◌, true, Err, IfOk, IfErr, IfSome};
ghost use Rattle.std.specs.Prelude.{IsErrOf, length};
ghost use Rattle.ssh_link.specs.Faults.{Rose};
ghost use Rattle.ssh_link.specs.Told.{ToldBy};
ghost use Rattle.ssh_rules.specs.World.{World};
ghost use Rattle.ssh_session.specs.Serve.{Refines};
ghost use Rattle.ssh_gateway.specs.declared.targets.TargetCall.TheVariants.{Read};
ghost use Rattle.ssh_gateway.specs.Choosing.{may_send, most};
ghost use Rattle.ssh_gateway.specs.Doing.{IsTried, IsLooked, FailsLooking};

use crate::switchboard::Connection;
use crate::{Arrived, TargetFault, Targets};
use bytes::Bytes;
use ssh_session::Session;

/// The most bytes that are read of a target at once.
const MOST: usize = 32768;

/// What is to be done for a connection.
#[derive(Drop)]
pub(crate) enum Found {
    /// Its target gave these bytes.
    Bytes(Bytes),
    /// Its target gives no more.
    End,
    /// Both directions have ended.
    Over,
}

/// Reads the target of a connection that may send. None is nothing to be done.
fn try_one<T: Targets>(
    one: Connection,
    session: &Session,
    targets: &mut T,
) -> Result<Option<Found>, TargetFault>
    ensures tried { (w : World) → Refines session.now w →
        IfOk result (IsTried w one (T.told targets.old) (T.told targets.new)) }
    ensures failed { (w : World) → Refines session.now w → IfErr result (λ fault.
        (may_send w one ≡ true) × ToldBy true (T.told targets.old) (T.told targets.new)
        (Read one.id most (Err fault) ∷ [])) }
    ensures cause { IsErrOf result TargetFault.Failed → Rose (T.faults targets.old)
        (T.faults targets.new) }
    ensures later { T.faults targets.old ≤ T.faults targets.new }
{
    if session.can_send(one.channel) {
        return match targets.read(one.id, MOST)? {
            Arrived::Bytes(bytes) => Ok(Some(Found::Bytes(bytes))),
            Arrived::Nothing => Ok(None),
            Arrived::End => Ok(Some(Found::End)),
        };
    }
    if one.peer_ended && one.target_ended {
        Ok(Some(Found::Over))
    } else {
        Ok(None)
    }
}

/// The first connection for which something is to be done, by its place.
pub(crate) fn look<T: Targets>(
    connections: &[Connection],
    session: &Session,
    targets: &mut T,
) -> Result<Option<(usize, Found)>, TargetFault>
    ensures looked { (w : World) → Refines session.now w →
        IfOk result (IsLooked w connections.now (T.told targets.old) (T.told targets.new)) }
    ensures place { IfOk result (λ found. IfSome found (λ at. at.0 < length connections.now)) }
    ensures failed { (w : World) → Refines session.now w → IfErr result (λ fault.
        FailsLooking fault w connections.now (T.told targets.old) (T.told targets.new)) }
    ensures cause { IsErrOf result TargetFault.Failed → Rose (T.faults targets.old)
        (T.faults targets.new) }
    ensures later { T.faults targets.old ≤ T.faults targets.new }
{
    for place in 0..connections.len() {
        match try_one(connections[place], session, targets) {
            Ok(Some(found)) => return Ok(Some((place, found))),
            Ok(None) => {}
            Err(fault) => return Err(fault),
        }
    }
    Ok(None)
}
