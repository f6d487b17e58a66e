// The lock: tickets are served in the order in which they were drawn.
ghost use Rattle.std.specs.Prelude.{◌≡◌};
ghost use Rattle.ssh_hub.specs.Rule.{AtRest};
ghost use Rattle.ssh_hub.specs.Step.{opening};
ghost use Rattle.ssh_hub.specs.History.{IsLegal, newest};
ghost use Rattle.ssh_hub.specs.Legality.{IsLegal-prop};
ghost use Rattle.ssh_hub.specs.Views.{own_reservations};

use crate::answers::Config2;
use crate::history::View;
use crate::hub::Hub;
use crate::reservations::Reservations;
use crate::rule::Turns;
use atomic_table::Table;
use std::alloc::Global;

mod channels;
mod lists;
mod meet;
mod outcomes;
mod slots;
mod turn;

pub use meet::crosses;

/// A seat of the lock's table.
type Place = atomic_table::Seat<Option<Hub>, View>;

/// A hub that threads share. Each of its calls is one event of one history, which the seats of the
/// hub know so far as they have seen it.
#[derive(Drop)]
pub struct HubLock {
    alloc: Global,
    table: Table<Option<Hub>, View, Config2, Turns, Global>,
    ghost sized: { (table.shared.table_id.words ≡ 3) × (table.shared.table_id.slots ≡ 1) },
}

/// A caller's pass to one hub. It has a number in the history, and goes with every handle. What it
/// has reserved it keeps in memory of its own.
#[derive(Drop)]
pub struct Seat {
    inner: Place,
    number: u64,
    place: Option<u64>,
    reserved: Reservations,
    ghost rests: { AtRest inner.me },
    ghost numbered: { number ≡ inner.me.0.number },
    ghost placed: { place ≡ newest inner.me.0.number inner.me.0.seen },
    ghost held: { reserved.held ≡ own_reservations inner.me.0 },
    ghost legal: { IsLegal (opening inner.me.0.config) inner.me.0.seen } by { IsLegal-prop
        (opening inner.me.0.config) inner.me.0.seen },
}
