//! Pointers to guards and questions that are passed to C and come back.
ghost use Rattle.std.specs.{Prelude.{◌≡◌, Some, None, IsSome}, declared.option.Option.{Option}, Coded.{coded_option}};
ghost use Rattle.spki_c.specs.{declared.handle_value.HandleValue.{HandleValue}, contracts.handle_value.HandleValue.{the_row}};
ghost use Rattle.spki_c.specs.Pointers.{held_owns, held_lent};

use crate::box_pointer::BoxPointer;
use crate::handle_value::HandleValue;
use std::alloc::Global;
use std::marker::Model;

/// A pointer to a guard or a question on the heap. It owns that value and the right to free it, if `held` has one.
#[repr(C)]
pub struct Handle {
    /// Where the value is. C passes it on, and does not read or write there.
    at: *mut u8,
    /// The value, for contracts. None if the handle owns nothing; then `at` does not matter.
    pub ghost held: { Option HandleValue } by { coded_option the_row.coded },
}

impl Model for Handle {
    ghost also_owns = { λ h. held_owns the_row h.at h.held };
}

/// A pointer to a guard or a question that a call borrows. The value lasts at least as long as the call. Calls take it by `&mut`,
/// which the proof needs, and change neither the pointer nor the value.
#[repr(C)]
pub struct BorrowedHandle {
    /// Where the value is.
    at: *const u8,
    /// The value, for contracts.
    pub ghost content: { HandleValue } by { the_row.coded },
}

impl Model for BorrowedHandle {
    ghost also_owns = { λ l. held_lent the_row l.at l.content };
}

impl Handle {
    /// Makes the handle own the value of this pointer, by which C then holds it. The handle must own nothing before. The
    /// allocator is not kept: it is always `Global`.
    pub(crate) fn hold(&mut self, pointer: BoxPointer<HandleValue, Global>)
        requires { self.old.held ≡ None }
        ensures { self.new.held ≡ Some pointer.value }
    {
        let BoxPointer { at, alloc: _ } = pointer;
        self.at = at as *mut u8;
    }

    /// Takes the value over from the handle, which must own one. Returns the value's pointer, with the right to free it by the allocator
    /// `alloc`.
    pub(crate) fn take(self, alloc: Global) -> BoxPointer<HandleValue, Global>
        requires { IsSome self.held }
        ensures { self.held ≡ Some result.value }
    {
        let Handle { at } = self;
        BoxPointer {
            at: at as *mut HandleValue,
            alloc,
        }
    }
}

impl BorrowedHandle {
    /// The guard or question that this call borrows. By `held_lent`, which holds for every `BorrowedHandle`, it is at the pointer.
    pub(crate) fn content(&mut self) -> &HandleValue
        ensures { result.now ≡ self.entry.now.content }
    {
        let at = self.at;
        unsafe { &*(at as *const HandleValue) }
    }
}

// A guard and a question are `Send`, so another thread may free them.
unsafe impl Send for Handle {}

// A guard and a question are `Sync`, so they may be lent to calls in several threads at the same time.
unsafe impl Send for BorrowedHandle {}
