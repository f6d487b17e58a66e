// The decision on an open.
ghost use Rattle.std.specs.Prelude.{◌≡◌, ◌≢◌, ◌<◌, ◌≤◌, ◌+◌, ◌-◌, ◌^◌, [], ◌∷◌, true, false, Some, None, not, Ok, Err};
ghost use Rattle.std.specs.Prelude.{IfOk, IfErr, IsErrOf, OnOk};
ghost use Rattle.std.specs.Option.{option_copied};
ghost use Rattle.ssh_link.specs.Faults.{Rose};
ghost use Rattle.ssh_link.specs.Told.{Adds, ToldBy};
ghost use Rattle.ssh_gateway.specs.declared.targets.TargetCall.TheVariants.{Connect};
ghost use Rattle.ssh_gateway.specs.Choosing.{allows, is_prohibited, connects, rejection, decided};
ghost use Rattle.ssh_rules.specs.World.{World};
ghost use Rattle.ssh_session.specs.Serve.{Refines};
ghost use Rattle.ssh_gateway.specs.Doing.{IsDecided, FailsChoosing, IsNextCount};

use crate::switchboard::{Asking, Connection, Switchboard};
use crate::{Policy, TargetFault, Targets};
use ssh_link::{InputKind, OpenAnswer};
use ssh_session::Session;
use ssh_wire::{ChannelId, ChannelOpenFailure};

/// What becomes of an open of a channel to a host.
#[derive(Clone, Copy, Debug, PartialEq, Eq)]
pub(crate) enum Verdict {
    /// The policy does not allow it.
    Prohibited,
    /// It is allowed, and no connection could be made.
    Unreachable,
    /// A connection was made.
    Granted,
}

impl Verdict {
    /// The answer to the open of this channel (RFC 4254 section 5.1).
    fn answer(self, channel: ChannelId) -> OpenAnswer
        ensures { result ≡ record {
          channel = channel;
          rejection = rejection self;
          texts = None;
        } }
    {
        let rejection = match self {
            Verdict::Prohibited => Some(ChannelOpenFailure::AdministrativelyProhibited),
            Verdict::Unreachable => Some(ChannelOpenFailure::ConnectFailed),
            Verdict::Granted => None,
        };
        OpenAnswer {
            channel,
            rejection,
            texts: None,
        }
    }
}

/// The policy is asked, and the target only where it allows the open.
fn judge<P: Policy, T: Targets>(
    user: Option<&str>,
    asking: &Asking,
    id: u64,
    policy: &P,
    targets: &mut T,
) -> Result<Verdict, TargetFault>
    ensures judged { IfOk result (λ verdict. (is_prohibited verdict
        ≡ not (allows (P.permits policy.now) (option_copied user.entry) asking.now))
        × Adds (T.told targets.old) (T.told targets.new) (connects id asking.now verdict)) }
    ensures failed { IfErr result (λ fault.
        (allows (P.permits policy.now) (option_copied user.entry) asking.now ≡ true)
        × ToldBy true (T.told targets.old) (T.told targets.new)
        (Connect id asking.now.host asking.now.port (Err fault) ∷ [])) }
    ensures cause { IsErrOf result TargetFault.Failed → Rose (T.faults targets.old)
        (T.faults targets.new) }
    ensures later { T.faults targets.old ≤ T.faults targets.new }
{
    let Some(user) = user else {
        return Ok(Verdict::Prohibited);
    };
    let (host, port) = (asking.host.as_str(), asking.port);
    if !policy.allows(user, host, port) {
        return Ok(Verdict::Prohibited);
    }
    if targets.connect(id, host, port)? {
        Ok(Verdict::Granted)
    } else {
        Ok(Verdict::Unreachable)
    }
}

impl Switchboard {
    /// The oldest open is decided so. The only error is want of memory.
    fn settle_open(&mut self, channel: ChannelId, verdict: Verdict) -> Result<(), TargetFault>
        requires id { self.old.last_id < 2 ^ 64 - 1 }
        requires ticket { self.old.last_ticket < 2 ^ 64 - 1 }
        ensures settled { OnOk result (self.new ≡ decided channel verdict self.old) }
        ensures memory { result ≢ Err TargetFault.Failed }
    {
        let _asking = self.undecided.pop_front();
        self.last_ticket += 1;
        if verdict == Verdict::Prohibited {
            return Ok(());
        }
        self.last_id += 1;
        if verdict == Verdict::Unreachable {
            return Ok(());
        }
        let connection = Connection {
            id: self.last_id,
            channel,
            peer_ended: false,
            target_ended: false,
        };
        self.connections
            .push(connection)
            .or(Err(TargetFault::NoMemory))
    }

    /// Decides the oldest open for the user who was let in, where one waits and replies to opens are
    /// wanted, and answers the input that answers it.
    pub(crate) fn decide<P: Policy, T: Targets>(
        &mut self,
        session: &Session,
        policy: &P,
        targets: &mut T,
    ) -> Result<Option<InputKind>, TargetFault>
        requires id { self.old.last_id < 2 ^ 64 - 1 }
        requires ticket { self.old.last_ticket < 2 ^ 64 - 1 }
        ensures decided { (w : World) → Refines session.now w → IfOk result
            (IsDecided (P.permits policy.now) w self.old self.new (T.told targets.old)
            (T.told targets.new)) }
        ensures failed { (w : World) → Refines session.now w → IfErr result (λ fault.
            FailsChoosing fault (P.permits policy.now) w self.old (T.told targets.old)
            (T.told targets.new)) }
        ensures same { result ≡ Ok None → self.new ≡ self.old }
        ensures counts { OnOk result (IsNextCount self.old self.new) }
        ensures cause { IsErrOf result TargetFault.Failed → Rose (T.faults targets.old)
            (T.faults targets.new) }
        ensures later { T.faults targets.old ≤ T.faults targets.new }
    {
        if !session.replies_wanted() {
            return Ok(None);
        }
        let Some(asking) = self.undecided.front() else {
            return Ok(None);
        };
        let channel = asking.channel;
        let id = self.last_id + 1;
        let verdict = match judge(session.user(), asking, id, policy, targets) {
            Ok(verdict) => verdict,
            Err(fault) => return Err(fault),
        };
        match self.settle_open(channel, verdict) {
            Ok(()) => {
                let answer = verdict.answer(channel);
                Ok(Some(InputKind::OpenReply(self.last_ticket, answer)))
            }
            Err(fault) => Err(fault),
        }
    }
}
