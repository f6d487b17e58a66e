// What the peer sent goes to the targets.
ghost use Rattle.std.specs.Prelude.{◌≡◌, ◌≤◌, ◌++◌, IfErr, OnOk, IsErrOf};
ghost use Rattle.ssh_link.specs.Faults.{Rose};
ghost use Rattle.ssh_link.specs.Told.{Adds};
ghost use Rattle.ssh_gateway.specs.Board.{noted, all_noted, due_on, all_due};
ghost use Rattle.ssh_gateway.specs.Doing.{FailsTelling, closed_to};

use crate::switchboard::{Connection, Switchboard, connection_on};
use crate::{TargetFault, Targets};
use ssh_auth::{Happening, Lent, Question};

/// What was asked is told to the target that it concerns, if there is one.
fn tell_target<T: Targets>(
    connections: &[Connection],
    question: &Question,
    targets: &mut T,
) -> Result<(), TargetFault>
    ensures told { OnOk result (Adds (T.told targets.old) (T.told targets.new)
        (due_on question.now connections.now)) }
    ensures failed { IfErr result (λ fault. FailsTelling fault
        (due_on question.now connections.now) (T.told targets.old) (T.told targets.new)) }
    ensures cause { IsErrOf result TargetFault.Failed → Rose (T.faults targets.old)
        (T.faults targets.new) }
    ensures later { T.faults targets.old ≤ T.faults targets.new }
{
    let Question::Lends(Lent::Happened(channel, happening)) = question else {
        return Ok(());
    };
    let Some(one) = connection_on(connections, *channel) else {
        return Ok(());
    };
    match happening {
        Happening::Data { bytes } => targets.write(one.id, bytes.as_slice()),
        Happening::Eof => targets.finish(one.id),
        Happening::Close => targets.close(one.id),
        _ => Ok(()),
    }
}

/// A connection that the gateway itself closed is closed to its target.
fn close_own<T: Targets>(closes: Option<u64>, targets: &mut T) -> Result<(), TargetFault>
    ensures told { OnOk result (Adds (T.told targets.old) (T.told targets.new) (closed_to closes)) }
    ensures failed { IfErr result (λ fault. FailsTelling fault (closed_to closes)
        (T.told targets.old) (T.told targets.new)) }
    ensures cause { IsErrOf result TargetFault.Failed → Rose (T.faults targets.old)
        (T.faults targets.new) }
    ensures later { T.faults targets.old ≤ T.faults targets.new }
{
    match closes {
        Some(id) => targets.close(id),
        None => Ok(()),
    }
}

impl Switchboard {
    /// What was asked is told to its target, and noted.
    fn hear<T: Targets>(&mut self, question: &Question, targets: &mut T) -> Result<(), TargetFault>
        ensures noted { OnOk result (self.new ≡ noted question.now self.old) }
        ensures told { OnOk result (Adds (T.told targets.old) (T.told targets.new)
            (due_on question.now self.old.connections)) }
        ensures failed { IfErr result (λ fault. FailsTelling fault
            (due_on question.now self.old.connections) (T.told targets.old)
            (T.told targets.new)) }
        ensures cause { IsErrOf result TargetFault.Failed → Rose (T.faults targets.old)
            (T.faults targets.new) }
        ensures later { T.faults targets.old ≤ T.faults targets.new }
    {
        match tell_target(self.connections.as_slice(), question, targets) {
            Ok(()) => self.note(question),
            Err(fault) => Err(fault),
        }
    }

    /// All that was asked, in order.
    fn hear_all<T: Targets>(
        &mut self,
        asked: &[Question],
        targets: &mut T,
    ) -> Result<(), TargetFault>
        ensures noted { OnOk result (self.new ≡ all_noted asked.now self.old) }
        ensures told { OnOk result (Adds (T.told targets.old) (T.told targets.new)
            (all_due asked.now self.old)) }
        ensures failed { IfErr result (λ fault. FailsTelling fault
            (all_due asked.now self.old) (T.told targets.old) (T.told targets.new)) }
        ensures cause { IsErrOf result TargetFault.Failed → Rose (T.faults targets.old)
            (T.faults targets.new) }
        ensures later { T.faults targets.old ≤ T.faults targets.new }
    {
        for question in asked {
            match self.hear(question, targets) {
                Ok(()) => {}
                Err(fault) => return Err(fault),
            }
        }
        Ok(())
    }

    /// What a turn closed, and what was asked in it, goes to the targets.
    pub(crate) fn deliver<T: Targets>(
        &mut self,
        closes: Option<u64>,
        asked: &[Question],
        targets: &mut T,
    ) -> Result<(), TargetFault>
        ensures noted { OnOk result (self.new ≡ all_noted asked.now self.old) }
        ensures told { OnOk result (Adds (T.told targets.old) (T.told targets.new)
            (closed_to closes ++ all_due asked.now self.old)) }
        ensures failed { IfErr result (λ fault. FailsTelling fault
            (closed_to closes ++ all_due asked.now self.old) (T.told targets.old)
            (T.told targets.new)) }
        ensures cause { IsErrOf result TargetFault.Failed → Rose (T.faults targets.old)
            (T.faults targets.new) }
        ensures later { T.faults targets.old ≤ T.faults targets.new }
    {
        match close_own(closes, targets) {
            Ok(()) => self.hear_all(asked, targets),
            Err(fault) => Err(fault),
        }
    }
}
