// How a caller is made, makes others, and is given up.
ghost use Rattle.std.specs.Prelude.{◌≡◌, [], IfOk, IfErr, OnErr};
ghost use Rattle.std.specs.Arc.{arc_value};
ghost use Rattle.ssh_hub.specs.Views.{own_reservations};
ghost use Rattle.ssh_hub.specs.Words.{view_of, room_of, IsSeatOf};
ghost use Rattle.ssh_hub.specs.Does.{Does};
ghost use Rattle.ssh_hub.specs.declared.answers.HandleError.TheVariants.{NoMemory};
ghost use Rattle.ssh_handles.specs.Callers.{hub_of, seen_by, IsFresh};
ghost use Rattle.ssh_handles.specs.Parts.{MakesSeat, MakesTwo, MadeNone};

use super::Caller;
use ssh_hub::{HandleError, HubLock, Seat};
use std::sync::{Arc, Wait};

impl Caller {
    pub fn new(lock: Arc<HubLock>, seat: Seat) -> Caller
        requires { IsSeatOf (arc_value lock) seat }
        ensures hub { hub_of result ≡ arc_value lock }
        ensures seat { seen_by result ≡ view_of seat }
        ensures room { room_of result.seat ≡ room_of seat }
    {
        Caller { lock, seat }
    }

    // Another caller on the same hub. `NoMemory` is the only error, and makes no call.
    pub fn twin<R: Wait>(&mut self, rt: &R) -> Result<Caller, HandleError>
        ensures hub { hub_of self.new ≡ hub_of self.old }
        ensures made { IfOk result (λ c. MakesSeat (seen_by self.old) (seen_by self.new)
            (seen_by c)) }
        ensures fresh { IfOk result (λ c. IsFresh (hub_of self.old) c) }
        ensures memory { IfErr result (λ e. e ≡ NoMemory) }
        ensures none { OnErr result (seen_by self.new ≡ seen_by self.old) }
        ensures room { room_of self.new.seat ≡ room_of self.old.seat }
        ensures reserved { own_reservations (seen_by self.new)
            ≡ own_reservations (seen_by self.old) }
    {
        let lock = Arc::try_clone(&self.lock)?;
        match self.lock.split(rt, &mut self.seat) {
            Ok(seat) => Ok(Caller { lock, seat }),
            Err(e) => Err(e),
        }
    }

    // Two callers on the same hub. `NoMemory` is the only error; a seat that was made is joined
    // again.
    pub fn halves<R: Wait>(&mut self, rt: &R) -> Result<(Caller, Caller), HandleError>
        ensures hub { hub_of self.new ≡ hub_of self.old }
        ensures made { IfOk result (λ two. MakesTwo (seen_by self.old) (seen_by self.new)
            (seen_by two.0) (seen_by two.1)) }
        ensures first { IfOk result (λ two. IsFresh (hub_of self.old) two.0) }
        ensures second { IfOk result (λ two. IsFresh (hub_of self.old) two.1) }
        ensures memory { IfErr result (λ e. e ≡ NoMemory) }
        ensures none { OnErr result (MadeNone (seen_by self.old) (seen_by self.new)) }
    {
        let first = match self.twin(rt) {
            Ok(first) => first,
            Err(e) => return Err(e),
        };
        match self.twin(rt) {
            Ok(second) => Ok((first, second)),
            Err(e) => {
                self.join(first);
                Err(e)
            }
        }
    }

    // Joins the seat of another caller into this one's.
    pub fn join(&mut self, other: Caller)
        requires { hub_of other ≡ hub_of self.old }
        ensures hub { hub_of self.new ≡ hub_of self.old }
        ensures none { Does (seen_by self.old) [] (seen_by self.new) }
    {
        let seat = other.into_seat();
        self.lock.join(&mut self.seat, seat);
    }

    pub fn into_seat(self) -> Seat
        ensures seat { IsSeatOf (hub_of self) result }
        ensures view { view_of result ≡ seen_by self }
        ensures room { room_of result ≡ room_of self.seat }
    {
        let Caller { lock, seat } = self;
        drop(lock);
        seat
    }
}
