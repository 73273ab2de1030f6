//! A box that is taken apart into its pointer and its allocator, and made again.
ghost use Rattle.std.specs.Prelude.{◌≡◌};
ghost use Rattle.std_alloc.specs.Box.Ownership.{box_owns};

use std::alloc::Allocator;
use std::marker::Model;

/// The parts of a box, which own what it owned. Contracts see the boxed value.
pub struct Apart<T, A: Allocator> {
    pub(crate) at: *mut T,
    pub(crate) alloc: A,
    pub ghost value: { T },
}

impl<T, A: Allocator> Model for Apart<T, A> {
    ghost also_owns = { λ parts. box_owns (A.dealloc_token parts.alloc) T.row parts.at parts.value };
}

impl<T: Drop, A: Allocator> Apart<T, A> {
    /// The parts of this box.
    pub fn of(whole: Box<T, A>) -> Apart<T, A>
        ensures { result.value ≡ whole.value }
    {
        let (at, alloc) = Box::into_raw_with_allocator(whole);
        Apart { at, alloc }
    }

    /// The box of these parts.
    pub fn into_box(self) -> Box<T, A>
        ensures { result.value ≡ self.value }
    {
        let Apart { at, alloc } = self;
        unsafe { Box::from_raw(alloc, at) }
    }
}
