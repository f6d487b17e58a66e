// Events of two ends, and what they deliver.
ghost use Rattle.std.specs.Prelude.{◌≡◌, ◌∷◌, [], ◌++◌, IfErr, OnOk, OnErr, MatchOption};
ghost use Rattle.ssh_ends.specs.Story.{Plays};
ghost use Rattle.ssh_ends.specs.Ends.{FailsFor};
ghost use Rattle.ssh_ends.specs.declared.error.EndError.TheVariants.{NoMemory};

use crate::{Delivered, EndError, EndEvent, Ends, Side};
use std::alloc::Global;
use std::collections::VecDeque;
use std::marker::Model;

/// Events, in order. A clause sees the list.
#[derive(Debug, Drop)]
pub struct EventList {
    events: VecDeque<EndEvent>,
}

impl Model for EventList {
    ghost use Rattle.std.specs.Prelude.{List};
    ghost use Rattle.ssh_ends.specs.declared.event.EndEvent.{EndEvent};

    ghost Value = { List EndEvent };

    ghost view = { λ list. list.events.items };
}

impl EventList {
    /// No event.
    pub fn new(alloc: Global) -> EventList
        ensures { result ≡ [] }
    {
        EventList {
            events: VecDeque::new(alloc),
        }
    }

    /// Adds an event at the end. `NoMemory` is the only error, and leaves the list as it was.
    pub fn push(&mut self, event: EndEvent) -> Result<(), EndError>
        ensures ok { OnOk result (self.new ≡ self.old ++ event ∷ []) }
        ensures err { OnErr result (self.new ≡ self.old) }
        ensures memory { IfErr result (λ e. e ≡ NoMemory) }
    {
        self.events.push_back(event)?;
        Ok(())
    }

    // Takes out the first event; none where there is none.
    pub(crate) fn pop(&mut self) -> Option<EndEvent>
        ensures { MatchOption result (self.old ≡ []) (λ event. self.old ≡ event ∷ self.new) }
    {
        self.events.pop_front()
    }
}

/// What two ends delivered, in order, each with the side that delivered it. A clause sees the list.
#[derive(Debug, Drop)]
pub struct Deliveries {
    deliveries: Vec<(Side, Delivered)>,
}

impl Model for Deliveries {
    ghost use Rattle.std.specs.Prelude.{List};
    ghost use Rattle.ssh_ends.specs.declared.event.Side.{Side};
    ghost use Rattle.ssh_ends.specs.declared.end.Delivered.{Delivered};

    ghost Value = { List (Side × Delivered) };

    ghost view = { λ list. list.deliveries.items };
}

impl Deliveries {
    // Nothing.
    pub(crate) fn new(alloc: Global) -> Deliveries
        ensures { result ≡ [] }
    {
        Deliveries {
            deliveries: Vec::new(alloc),
        }
    }

    /// The deliveries, in order.
    pub fn as_slice(&self) -> &[(Side, Delivered)]
        ensures { result.now ≡ self.now }
    {
        self.deliveries.as_slice()
    }

    // An event happens to two ends, and what it delivers comes at the end.
    pub(crate) fn play(&mut self, ends: &mut Ends, event: EndEvent) -> Result<(), EndError>
        ensures plays { OnOk result (Plays event ends.old self.old ends.new self.new) }
        ensures memory { IfErr result (FailsFor event ends.old) }
    {
        let side = event.actor();
        match ends.event(event)? {
            Some(delivered) => {
                self.deliveries.push((side, delivered))?;
                Ok(())
            }
            None => Ok(()),
        }
    }
}
