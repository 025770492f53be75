//! Why a request proves no key.

ghost use Rattle.std.specs.Prelude.{◌≡◌};
ghost use Rattle.http_signature.specs.declared.refusal.Refusal.TheVariants.{Memory};

use std::alloc::{AllocError, AllocFailed};
use thiserror::Error;

/// Why a request proves no key. Each but `Memory` has its name in the table of refusals.
#[derive(Clone, Copy, Debug, PartialEq, Eq, Error)]
pub enum Refusal {
    /// Neither `Signature-Input` nor `Signature` is there.
    #[error("absent")]
    Absent,
    /// One of the two, or a covered field, has two lines.
    #[error("repeated-field")]
    RepeatedField,
    /// One of the two is missing, or has another form.
    #[error("malformed")]
    Malformed,
    /// A member has another label than `spki`.
    #[error("other-label")]
    OtherLabel,
    /// There is a second member.
    #[error("two-signatures")]
    TwoSignatures,
    /// A component is listed twice.
    #[error("component-twice")]
    ComponentTwice,
    /// A component may not be covered, or has parameters.
    #[error("unknown-component")]
    UnknownComponent,
    /// A component that is required is not covered.
    #[error("missing-component")]
    MissingComponent,
    /// A parameter is there twice.
    #[error("parameter-twice")]
    ParameterTwice,
    /// There is no parameter of this name.
    #[error("unknown-parameter")]
    UnknownParameter,
    /// A parameter that is required is missing.
    #[error("missing-parameter")]
    MissingParameter,
    /// The tag is not `spki`.
    #[error("other-tag")]
    OtherTag,
    /// The nonce has fewer than 16 or more than 64 characters.
    #[error("bad-nonce")]
    BadNonce,
    /// `expires` is not after `created`, or over 300 s after it.
    #[error("bad-window")]
    BadWindow,
    /// `created` is over 60 s ahead.
    #[error("too-early")]
    TooEarly,
    /// `expires` is not ahead.
    #[error("expired")]
    Expired,
    /// `created` is before the start of the service.
    #[error("before-start")]
    BeforeStart,
    /// The method is no token.
    #[error("bad-method")]
    BadMethod,
    /// The target does not begin with `/`, or has an octet that is not visible, or `#`.
    #[error("bad-target")]
    BadTarget,
    /// The request is for a name that is not the service's.
    #[error("other-authority")]
    OtherAuthority,
    /// A covered field is not there.
    #[error("absent-field")]
    AbsentField,
    /// A covered field has an octet that is neither visible ASCII, space nor tab.
    #[error("bad-value")]
    BadValue,
    /// A field that must be covered where it is there is not covered.
    #[error("uncovered-field")]
    UncoveredField,
    /// No digest is covered, though the request may have a body.
    #[error("body-without-digest")]
    BodyWithoutDigest,
    /// The digest has another form.
    #[error("bad-digest")]
    BadDigest,
    /// Memory ran out.
    #[error("out of memory")]
    Memory,
}

impl From<AllocError> for Refusal {
    ghost from_gives = { λ _ refusal. refusal ≡ Memory };

    /// An allocation that failed is the refusal `Memory`.
    fn from(_error: AllocError) -> Refusal {
        Refusal::Memory
    }
}

impl<T: Drop> From<AllocFailed<T>> for Refusal {
    ghost from_gives = { λ _ refusal. refusal ≡ Memory };

    /// A value that could not be stored, because memory ran out, is the refusal `Memory`. The error has the value, which is dropped.
    fn from(_error: AllocFailed<T>) -> Refusal {
        Refusal::Memory
    }
}
