// The rule of the lock's table, and what each kind of step tells. These types are for the proofs
// alone.
ghost use Rattle.ssh_hub.specs.Rule.{Kept, newcomer, drew, looked, compared, committed, passed};
ghost use Rattle.ssh_hub.specs.Rule.{nobody, stays_seated, sits_down, meets};
ghost use Rattle.std.specs.Prelude.{[]};

use crate::answers::Config2;
use crate::history::{Entry, View};
use crate::hub::Hub;
use atomic_table::{Join, Play, Split, TableRule};
use std::marker::{Brand, PhantomData};

/// The rule of the lock: tickets are served in the order in which they were drawn.
pub struct Turns;

impl TableRule<Option<Hub>, View, Config2> for Turns {
    ghost holds = { Kept };

    ghost first = { λ k. newcomer k 1 [] };
}

/// The entry that a call makes in the history. Each call picks its own.
pub trait Event {
    ghost use Rattle.ssh_hub.specs.declared.history.Entry.{Entry};

    ghost entry: { Entry };
}

impl Event for Brand {
    ghost use Rattle.ssh_hub.specs.Rule.{no_entry};

    ghost entry = { no_entry };
}

/// A seat draws a ticket.
pub struct Draw;

impl Play<Option<Hub>, View> for Draw {
    ghost then = { drew };
}

/// A seat looks at the ticket that is served, and takes the hub out where that is its own.
pub struct Look;

impl Play<Option<Hub>, View> for Look {
    ghost then = { looked };
}

/// A seat looks at the ticket that is served, and learns that the two histories that met in it are
/// one.
pub struct Compare;

impl Play<Option<Hub>, View> for Compare {
    ghost then = { compared };
}

/// A seat that has the turn commits the entry of its call.
pub struct Commit<E> {
    event: PhantomData<E>,
}

impl<E: Event> Play<Option<Hub>, View> for Commit<E> {
    ghost then = { committed E.entry };
}

/// A seat gives the hub back, and passes the turn on.
pub struct Pass;

impl Play<Option<Hub>, View> for Pass {
    ghost then = { passed };
}

/// Splits a seat: the new one takes the number that was drawn.
pub struct Twin;

impl Split<View> for Twin {
    ghost left = { stays_seated };

    ghost right = { sits_down };
}

/// Joins a seat into another: the longer history is kept.
pub struct Pair;

impl Join<View> for Pair {
    ghost both = { meets };

    ghost spent = { nobody };
}
