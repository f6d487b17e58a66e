// What a caller holds of a connection.
ghost use Rattle.std.specs.Prelude.{◌≡◌, is_some, false};

use crate::held::Held;
use crate::slot::Slot;
use std::alloc::Global;
use std::mem;

/// A connection, or none: all bytes 0 is none. The caller reads and writes neither field.
#[repr(C)]
#[derive(Drop)]
pub struct Handle {
    slot: Slot,
    live: bool,
    ghost filled: { live ≡ is_some slot.held },
}

impl Handle {
    ghost use Rattle.std.specs.Prelude.{◌≡◌, Some, None, MatchOption};

    // No connection.
    fn none(alloc: Global) -> Handle
        ensures { result.slot.held ≡ None }
    {
        Handle {
            slot: Slot::none(alloc),
            live: false,
        }
    }

    /// Whether it is a connection.
    pub(crate) fn is_live(&self) -> bool {
        self.live
    }

    /// Puts a connection in the place of what is there.
    pub(crate) fn put(&mut self, held: Box<Held>)
        ensures { self.new.slot.held ≡ Some held.value }
    {
        *self = Handle {
            slot: Slot::of(held),
            live: true,
        };
    }

    /// Takes the connection out, if there is one.
    pub(crate) fn take(&mut self, alloc: Global) -> Option<Box<Held>>
        ensures taken { MatchOption result (self.old.slot.held ≡ None)
            (λ held. self.old.slot.held ≡ Some held.value) }
        ensures none { self.new.slot.held ≡ None }
    {
        let Handle { slot, live } = mem::replace(self, Handle::none(alloc));
        if live { Some(slot.into_box()) } else { None }
    }
}
