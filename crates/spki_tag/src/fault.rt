//! Why a tag or a request could not be read, and why an intersection was refused.

ghost use Rattle.std.specs.Prelude.{◌≡◌};
ghost use Rattle.spki_tag.specs.declared.fault.TagFault.TheVariants.{Memory};
ghost use Rattle.spki_tag.specs.declared.fault.MeetFault.TheVariants as meet;

use std::alloc::{AllocError, AllocFailed};
use thiserror::Error;

/// Why a value is not read as a tag or as a request: its first fault, depth first from the left, or `Memory`.
#[derive(Clone, Copy, Debug, PartialEq, Eq, Error)]
pub enum TagFault {
    /// A list without members.
    #[error("a list without members")]
    EmptyList,
    /// A list whose first member is a list.
    #[error("a list that begins with a list")]
    ListHead,
    /// A string with a display hint.
    #[error("a display hint")]
    Hint,
    /// A list that begins with `*` and is not `(*)`, `(* set ..)`, `(* prefix p)` or `(* range ..)`.
    #[error("an unknown form behind a star")]
    UnknownStar,
    /// A range without an ordering, or of another one than `alpha`, `time` and `date`.
    #[error("an unknown ordering of a range")]
    RangeOrdering,
    /// Limits of a range that are not at most one lower limit and then at most one upper limit.
    #[error("malformed limits of a range")]
    RangeLimit,
    /// A tag of more than 1,024 nodes as written.
    #[error("too many nodes")]
    TooManyNodes,
    /// A list that begins with `*`, in a request.
    #[error("a star in a request")]
    StarInRequest,
    /// Memory ran out.
    #[error("out of memory")]
    Memory,
}

impl From<AllocError> for TagFault {
    ghost from_gives = { λ _ e. e ≡ Memory };

    /// An allocation that failed is the fault `Memory`. With this, `?` converts the error.
    fn from(_e: AllocError) -> TagFault {
        TagFault::Memory
    }
}

impl<T: Drop> From<AllocFailed<T>> for TagFault {
    ghost from_gives = { λ _ e. e ≡ Memory };

    /// An allocation that failed in `Vec::push` is the fault `Memory`. With this, `?` converts the error. The value that was not stored,
    /// which the error contains, is dropped.
    fn from(_e: AllocFailed<T>) -> TagFault {
        TagFault::Memory
    }
}

/// Why no intersection of two tags is returned.
#[derive(Clone, Copy, Debug, PartialEq, Eq, Error)]
pub enum MeetFault {
    /// The product of the numbers of nodes of both tags is over the limit: 1,000,000, or what the caller set.
    #[error("too many nodes to meet")]
    TooLarge,
    /// Memory ran out, or a shared part of a tag has too many owners to count.
    #[error("out of memory")]
    Memory,
}

impl From<AllocError> for MeetFault {
    ghost from_gives = { λ _ e. e ≡ meet.Memory };

    /// An allocation that failed is the fault `Memory`. With this, `?` converts the error.
    fn from(_e: AllocError) -> MeetFault {
        MeetFault::Memory
    }
}

impl<T: Drop> From<AllocFailed<T>> for MeetFault {
    ghost from_gives = { λ _ e. e ≡ meet.Memory };

    /// An allocation that failed in `Vec::push` is the fault `Memory`. With this, `?` converts the error. The value that was not stored,
    /// which the error contains, is dropped.
    fn from(_e: AllocFailed<T>) -> MeetFault {
        MeetFault::Memory
    }
}
