// A pointer without a type, as C keeps it, which owns a connection or nothing.
ghost use Rattle.std.specs.Prelude.{◌≡◌, Option, Some, None};
ghost use Rattle.std.specs.Coded.{coded_option};
ghost use Rattle.ssh_c.specs.contracts.held.Held as the_held;
ghost use Rattle.ssh_c.specs.declared.held.Held.{Held};

use crate::held::Held;
use crate::parts::Parts;
use std::alloc::Global;
use std::marker::Model;
use std::ptr;

/// Where a connection lies, or null.
#[repr(C)]
#[derive(Drop)]
pub struct Slot {
    at: *mut u8,
    alloc: Global,
    ghost held: { Option Held } by { coded_option the_held.the_row.coded },
}

impl Model for Slot {
    ghost use Rattle.ssh_c.specs.Owning.{owns_at};
    ghost use Rattle.std_heap.specs.contracts.GlobalAllocator.TheImpl.{ghosts};
    ghost use Rattle.ssh_c.specs.contracts.held.Held as the_held;

    ghost also_owns = { λ slot. owns_at (ghosts.dealloc_token slot.alloc) the_held.the_row slot.at
        slot.held };
}

impl Slot {
    ghost use Rattle.std.specs.Prelude.{◌≡◌, Option, Some, None, IsSome};

    /// A slot without a connection.
    pub(crate) fn none(alloc: Global) -> Slot
        ensures { result.held ≡ None }
    {
        Slot {
            at: ptr::null_mut(),
            alloc,
        }
    }

    // The slot of a box with these parts.
    fn of_parts(parts: Parts<Held, Global>) -> Slot
        ensures { result.held ≡ Some parts.value }
    {
        let Parts { place, alloc } = parts;
        Slot {
            at: place as *mut u8,
            alloc,
        }
    }

    // The parts of the box that a full slot has.
    fn into_parts(self) -> Parts<Held, Global>
        requires { IsSome self.held }
        ensures { self.held ≡ Some result.value }
    {
        let Slot { at, alloc } = self;
        Parts {
            place: at as *mut Held,
            alloc,
        }
    }

    /// A slot with this connection.
    pub(crate) fn of(held: Box<Held>) -> Slot
        ensures { result.held ≡ Some held.value }
    {
        Slot::of_parts(Parts::of(held))
    }

    /// The connection of a full slot.
    pub(crate) fn into_box(self) -> Box<Held>
        requires { IsSome self.held }
        ensures { self.held ≡ Some result.value }
    {
        self.into_parts().into_box()
    }
}
