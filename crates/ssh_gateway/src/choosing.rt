// The input of a turn.
ghost use Rattle.std.specs.Prelude.{◌≡◌, ◌<◌, ◌≤◌, ◌-◌, ◌^◌, List, [], ◌∷◌, ◌++◌, length, Some, None};
ghost use Rattle.std.specs.Prelude.{IfOk, IfErr, OnOk, OnErr, IsErrOf};
ghost use Rattle.ssh_link.specs.declared.frame.InputKind.TheVariants.{Command as CommandKind};
ghost use Rattle.ssh_link.specs.Faults.{Rose};
ghost use Rattle.ssh_link.specs.Told.{Adds, AddsNothing};
ghost use Rattle.ssh_rules.specs.World.{World};
ghost use Rattle.ssh_session.specs.Serve.{Refines};
ghost use Rattle.ssh_gateway.specs.declared.switchboard.Connection.{Connection as Connected};
ghost use Rattle.ssh_gateway.specs.Choosing.{Permits, IsGiven, to_decide};
ghost use Rattle.ssh_gateway.specs.Doing.{Chooses, FailsChoosing, asks_link, Commands, source_of};
ghost use Rattle.ssh_gateway.specs.Doing.{IsNextCount};

use crate::looking::{Found, look};
use crate::switchboard::Switchboard;
use crate::{Policy, TargetFault, Targets};
use ssh_link::{Command, Input, InputKind, Link, LinkFault};
use ssh_session::Session;

/// What an input is to be.
#[derive(Drop)]
pub(crate) struct Chosen {
    /// The gateway's own; where it is none, the link is asked.
    pub(crate) kind: Option<InputKind>,
    /// The number of the connection that it closes.
    pub(crate) closes: Option<u64>,
}

impl Chosen {
    fn command(ticket: u64, command: Command, closes: Option<u64>) -> Chosen
        ensures { result ≡ record { kind = Some (CommandKind ticket command); closes = closes } }
    {
        Chosen {
            kind: Some(InputKind::Command(ticket, command)),
            closes,
        }
    }

    /// The link is asked.
    fn nothing() -> Chosen
        ensures { result ≡ record { kind = None; closes = None } }
    {
        Chosen {
            kind: None,
            closes: None,
        }
    }
}

impl Switchboard {
    /// Notes what was found of the connection at this place, and makes the command for it.
    fn command(&mut self, place: usize, found: Found) -> Chosen
        requires place { place < length self.old.connections }
        requires ticket { self.old.last_ticket < 2 ^ 64 - 1 }
        ensures noted { (earlier later : List Connected) (one : Connected) →
            self.old.connections ≡ earlier ++ one ∷ later → length earlier ≡ place →
            Commands (source_of earlier one later found) self.old self.new result }
        ensures counts { IsNextCount self.old self.new }
    {
        let one = self.connections[place];
        let channel = one.channel;
        self.last_ticket += 1;
        let ticket = self.last_ticket;
        match found {
            Found::Bytes(bytes) => Chosen::command(ticket, Command::Data { channel, bytes }, None),
            Found::End => {
                self.connections[place].target_ended = true;
                Chosen::command(ticket, Command::Eof { channel }, None)
            }
            Found::Over => {
                self.connections.remove(place);
                Chosen::command(ticket, Command::Close { channel }, Some(one.id))
            }
        }
    }

    /// What the connections have for the peer, where commands are wanted; else the link is asked.
    fn heed<T: Targets>(
        &mut self,
        session: &Session,
        targets: &mut T,
    ) -> Result<Chosen, TargetFault>
        requires ticket { self.old.last_ticket < 2 ^ 64 - 1 }
        ensures chosen { (w : World) (permits : Permits) → Refines session.now w →
            to_decide w self.old ≡ [] → IfOk result (Chooses permits w self.old self.new
            (T.told targets.old) (T.told targets.new)) }
        ensures failed { (w : World) (permits : Permits) → Refines session.now w →
            to_decide w self.old ≡ [] → IfErr result (λ fault.
            FailsChoosing fault permits w self.old (T.told targets.old) (T.told targets.new)) }
        ensures counts { OnOk result (IsNextCount self.old self.new) }
        ensures cause { IsErrOf result TargetFault.Failed → Rose (T.faults targets.old)
            (T.faults targets.new) }
        ensures later { T.faults targets.old ≤ T.faults targets.new }
    {
        if !session.commands_wanted() {
            return Ok(Chosen::nothing());
        }
        match look(self.connections.as_slice(), session, targets) {
            Ok(Some((place, found))) => Ok(self.command(place, found)),
            Ok(None) => Ok(Chosen::nothing()),
            Err(fault) => Err(fault),
        }
    }

    /// What the input of this turn is to be: the answer to the oldest open, what a connection has
    /// for the peer, or what the link gives.
    pub(crate) fn choose<P: Policy, T: Targets>(
        &mut self,
        session: &Session,
        policy: &P,
        targets: &mut T,
    ) -> Result<Chosen, TargetFault>
        requires id { self.old.last_id < 2 ^ 64 - 1 }
        requires ticket { self.old.last_ticket < 2 ^ 64 - 1 }
        ensures chosen { (w : World) → Refines session.now w →
            IfOk result (Chooses (P.permits policy.now) w self.old self.new
            (T.told targets.old) (T.told targets.new)) }
        ensures failed { (w : World) → Refines session.now w → IfErr result (λ fault.
            FailsChoosing fault (P.permits policy.now) w self.old (T.told targets.old)
            (T.told targets.new)) }
        ensures counts { OnOk result (IsNextCount self.old self.new) }
        ensures cause { IsErrOf result TargetFault.Failed → Rose (T.faults targets.old)
            (T.faults targets.new) }
        ensures later { T.faults targets.old ≤ T.faults targets.new }
    {
        match self.decide(session, policy, targets) {
            Ok(Some(kind)) => Ok(Chosen {
                kind: Some(kind),
                closes: None,
            }),
            Ok(None) => self.heed(session, targets),
            Err(fault) => Err(fault),
        }
    }

    /// The input: the one that was chosen, at the moment of the link's last one, or the link's next
    /// one.
    pub(crate) fn give<L: Link>(
        &mut self,
        kind: Option<InputKind>,
        link: &mut L,
    ) -> Result<Input, LinkFault>
        ensures given { IfOk result (λ input. IsGiven kind self.old.moment input) }
        ensures told { IfOk result (λ input. Adds (L.trace link.old) (L.trace link.new)
            (asks_link kind input)) }
        ensures board { IfOk result (λ input. self.new
            ≡ record self.old { moment = input.moment }) }
        ensures asked { OnErr result (kind ≡ None) }
        ensures err { OnErr result (AddsNothing (L.trace link.old) (L.trace link.new)) }
        ensures cause { IsErrOf result LinkFault.Failed → Rose (L.faults link.old)
            (L.faults link.new) }
        ensures later { L.faults link.old ≤ L.faults link.new }
    {
        let Some(kind) = kind else {
            let input = link.next(false, false)?;
            self.moment = input.moment;
            return Ok(input);
        };
        Ok(Input {
            moment: self.moment,
            kind,
        })
    }
}
