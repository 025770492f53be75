//! Boxes as pointers: a `Handle` has the pointer of a box that C holds.
ghost use Rattle.std.specs.Prelude.{◌≡◌};
ghost use Rattle.std_alloc.specs.Box.Ownership.{box_owns};

use std::alloc::Allocator;
use std::marker::Model;

/// A pointer to a value on the heap. It owns the value and the right to free it.
pub(crate) struct BoxPointer<T, A: Allocator> {
    /// Where the value is.
    pub(crate) at: *mut T,
    /// What frees the value.
    pub(crate) alloc: A,
    /// The value, for contracts.
    pub(crate) ghost value: { T },
}

impl<T, A: Allocator> Model for BoxPointer<T, A> {
    ghost also_owns = { λ l. box_owns (A.dealloc_token l.alloc) T.row l.at l.value };
}

impl<T: Drop, A: Allocator> BoxPointer<T, A> {
    /// Makes a box a pointer, which now owns the value. The value stays where it is. `into_box` makes it a box again.
    pub(crate) fn of(value: Box<T, A>) -> BoxPointer<T, A>
        ensures { result.value ≡ value.value }
    {
        let (at, alloc) = Box::into_raw_with_allocator(value);
        BoxPointer { at, alloc }
    }

    /// Makes the pointer a box again, which owns the value, and frees it when it is dropped. By `box_owns`, which holds for every `BoxPointer`,
    /// the value is there.
    pub(crate) fn into_box(self) -> Box<T, A>
        ensures { result.value ≡ self.value }
    {
        let BoxPointer { at, alloc } = self;
        unsafe { Box::from_raw(alloc, at) }
    }
}
