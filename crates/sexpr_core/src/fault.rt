//! Why a text is refused, in any form.

ghost use Rattle.std.specs.Prelude.{◌≡◌};
ghost use Rattle.sexpr_core.specs.declared.fault.FormFault.TheVariants.{Memory};

use std::alloc::{AllocError, AllocFailed};
use thiserror::Error;

/// Why a text was refused. A text is read from the left, and the first fault is returned.
#[derive(Clone, Copy, Debug, PartialEq, Eq, Error)]
pub enum FormFault {
    /// The text has more than 1,048,576 octets. This is tested before any octet is read.
    #[error("the text is too long")]
    TooLong,
    /// A 65th list begins while 64 are open.
    #[error("the lists are too deep")]
    TooDeep,
    /// The text ends before the value is complete.
    #[error("the text ends too soon")]
    Short,
    /// The octet at this offset, from 0, is not allowed in its place, or it ends contents that are not allowed, such as
    /// wrong base64.
    #[error("bad octet at {0}")]
    Bad(usize),
    /// An octet that is not allowed follows the complete value, at this offset, from 0.
    #[error("trailing octet at {0}")]
    Trailing(usize),
    /// Memory ran out.
    #[error("out of memory")]
    Memory,
}

impl From<AllocError> for FormFault {
    ghost from_gives = { λ _ fault. fault ≡ Memory };

    /// An allocation that failed is the fault `Memory`. With this, `?` converts the error.
    fn from(_error: AllocError) -> FormFault {
        FormFault::Memory
    }
}

impl<T: Drop> From<AllocFailed<T>> for FormFault {
    ghost from_gives = { λ _ fault. fault ≡ Memory };

    /// An allocation that failed in `Vec::push` is the fault `Memory` too. With this, `?` converts the error. The error
    /// contains the value that was not appended. This value is dropped.
    fn from(_error: AllocFailed<T>) -> FormFault {
        FormFault::Memory
    }
}
