// A box as the two fields that it is made of.
ghost use Rattle.std.specs.Prelude.{◌≡◌};
ghost use Rattle.std.specs.Box.Ownership.{box_owns};

use std::alloc::Allocator;
use std::marker::Model;

/// Where a box lies, and how its memory is given back.
pub struct Parts<T, A: Allocator> {
    pub(crate) place: *mut T,
    pub(crate) alloc: A,
    pub ghost value: { T },
}

impl<T, A: Allocator> Model for Parts<T, A> {
    ghost also_owns = { λ parts. box_owns (A.dealloc_token parts.alloc) T.row parts.place
        parts.value };
}

impl<T, A: Allocator> Parts<T, A> {
    /// The parts of this box.
    pub(crate) fn of(whole: Box<T, A>) -> Parts<T, A>
    where
        T: Drop,
        ensures { result.value ≡ whole.value }
    {
        let (place, alloc) = Box::into_raw_with_allocator(whole);
        Parts { place, alloc }
    }

    /// The box that has these parts.
    pub(crate) fn into_box(self) -> Box<T, A>
        ensures { result.value ≡ self.value }
    {
        let Parts { place, alloc } = self;
        unsafe { Box::from_raw(alloc, place) }
    }
}
