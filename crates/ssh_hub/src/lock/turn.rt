// A turn: a seat draws a ticket, looks until it is served, takes the state out, commits its entry,
// gives the state back and passes the turn on.
ghost use Rattle.std.specs.Prelude.{◌≡◌, ◌<◌, [], ◌∷◌, length, None};
ghost use Rattle.ssh_hub.specs.World.{HasRoom};
ghost use Rattle.ssh_hub.specs.Step.{opening};
ghost use Rattle.ssh_hub.specs.History.{IsLegal};
ghost use Rattle.ssh_hub.specs.Rule.{written, drawn_by, HasTurn, AtRest, stays_seated};
ghost use Rattle.ssh_hub.specs.declared.history.Stage.TheVariants.{Idle};
ghost use Rattle.ssh_hub.specs.Words.{IsIdle, IsInside, IsInTurn, IsOfSame, IsSameSeat, Learns};
ghost use Rattle.ssh_hub.specs.Words.{Makes, Stays};
ghost use Rattle.ssh_hub.specs.Words.{hub_seen, held_of, newest_of, OwnsPart};
ghost use Rattle.ssh_hub.specs.Words.{IsAnswered, IsServed, IsFresh};
ghost use Rattle.ssh_hub.specs.Reserved.{reserved_after};

use super::{HubLock, Place};
use crate::hub::Hub;
use crate::rule::{Commit, Draw, Event, Look, Pass};
use std::sync::Wait;

/// The word that says how many tickets were drawn.
const TICKET: usize = 0;

/// The word that says which ticket is served.
const SERVING: usize = 1;

/// The word that says how many entries the history has.
const COUNT: usize = 2;

/// Tickets from here on are not served: the calls that draw them wait for ever.
const LAST: u64 = u64::MAX - 1;

impl HubLock {
    /// Waits for its turn, and takes the hub out. Of no channel the seat has more than the hub
    /// counts as reserved.
    pub(super) fn enter<R: Wait>(&self, rt: &R, place: &mut Place) -> Hub
        requires { IsIdle self.now place.old }
        ensures place { IsOfSame place.old place.new × IsInside place.new }
        ensures learns { Learns place.old.me.0 place.new.me.0 }
        ensures newest { newest_of place.new ≡ newest_of place.old }
        ensures held { held_of place.new ≡ held_of place.old }
        ensures owns { OwnsPart place.new }
        ensures hub { result ≡ hub_seen place.new }
        ensures room { HasRoom result }
        ensures roomy { HasRoom (hub_seen place.new) }
    {
        let shared = &self.table.shared;
        let ticket = shared.fetch_add::<Draw>(place, TICKET, 1);
        for _ in rt.forever() {
            if ticket < LAST {
                let serving = shared.load::<Look>(place, SERVING);
                if serving == ticket {
                    return shared.exchange(place, 0, None).unwrap();
                }
                shared.park(rt, SERVING, (serving % (1 << 32)) as u32);
            }
        }
        unreachable!()
    }

    /// Commits the entry, which the call picks from what it passes, and answers the entry's place
    /// in the history.
    fn commit<E: Event>(&self, place: &mut Place) -> u64
        requires place { IsInTurn self.now place.old }
        requires entry { IsAnswered place.old E.entry }
        ensures place { IsOfSame place.old place.new
            × (place.new.me ≡ (written E.entry place.old.me.0, place.old.me.1))
            × (result ≡ length place.old.me.0.seen) }
        ensures fresh { IsFresh E.entry place.new }
    {
        let at = self.table.shared.fetch_add::<Commit<E>>(place, COUNT, 1);
        self.table.shared.wake_all(COUNT);
        at
    }

    /// Gives the hub back, and passes the turn on.
    pub(super) fn leave(&self, place: &mut Place, hub: Hub)
        requires place { (place.old.table_id ≡ self.now.table.shared.table_id)
            × (0 < place.old.me.0.number)
            × HasTurn place.old.me.0.stage
            × (place.old.me.1 ≡ (0, None) ∷ []) }
        requires hub { hub ≡ hub_seen place.old }
        ensures { IsOfSame place.old place.new × (place.new.me
            ≡ (record place.old.me.0 { stage = Idle }, [])) }
    {
        let shared = &self.table.shared;
        let _none = shared.exchange(place, 0, Some(hub));
        shared.fetch_add::<Pass>(place, SERVING, 1);
        shared.wake_all(SERVING);
    }

    /// Commits the entry, which the call picks from what it passes, and leaves. Answers the entry's
    /// place in the history.
    pub(super) fn finish<E: Event, C, P>(
        &self,
        place: &mut Place,
        mut hub: Hub,
        _call: &C,
        _reply: &P,
    ) -> Option<u64>
        requires legal { IsLegal (opening place.old.me.0.config) place.old.me.0.seen }
        requires place { IsInTurn self.now place.old }
        requires roomy { HasRoom (hub_seen place.old) }
        requires entry { IsServed place.old E.entry hub }
        ensures place { IsOfSame place.old place.new
            × IsSameSeat place.old.me.0 place.new.me.0
            × (place.new.me.0.spare ≡ drawn_by E.entry.call E.entry.reply None) }
        ensures rests { AtRest (stays_seated place.new.me.0, place.new.me.1) }
        ensures newest { result ≡ newest_of place.new }
        ensures held { held_of place.new
            ≡ reserved_after E.entry.call E.entry.reply (held_of place.old) }
        ensures makes { Makes place.old.me.0 E.entry.call E.entry.reply place.new.me.0 }
        ensures fresh { IsFresh E.entry place.new }
    {
        let at = self.commit::<E>(place);
        hub.count_entry();
        self.leave(place, hub);
        Some(at)
    }

    /// Leaves with no entry.
    pub(super) fn give_up(&self, place: &mut Place, hub: Hub)
        requires place { IsInTurn self.now place.old }
        requires hub { hub ≡ hub_seen place.old }
        ensures place { IsOfSame place.old place.new × IsSameSeat place.old.me.0 place.new.me.0
            × AtRest place.new.me }
        ensures newest { newest_of place.new ≡ newest_of place.old }
        ensures held { held_of place.new ≡ held_of place.old }
        ensures stays { Stays place.old.me.0 place.new.me.0 }
    {
        self.leave(place, hub);
    }

    /// Waits until the history has an entry past `place`. It makes no call, and no clause rests on
    /// its return: whoever comes back from it makes a call to learn what stands.
    pub fn pause<R: Wait>(&self, rt: &R, place: u64) {
        let shared = &self.table.shared;
        for _ in rt.forever() {
            let count = shared.peek(COUNT);
            if count > place && count - place > 1 {
                return;
            }
            shared.park(rt, COUNT, (count % (1 << 32)) as u32);
        }
    }
}
