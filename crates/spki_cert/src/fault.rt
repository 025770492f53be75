//! Why a structure is refused.

ghost use Rattle.std.specs.Prelude.{◌≡◌};
ghost use Rattle.spki_cert.specs.declared.fault.CertFaultKind.TheVariants.{Memory};

use spki_tag::TagFault;
use std::alloc::{AllocError, AllocFailed};
use thiserror::Error;

/// Why a structure, such as a key, an entry or a certificate, is refused. A structure is read from the left, and the first fault is
/// returned. A missing field, and fields that must not be together, are found last.
#[derive(Clone, Copy, Debug, PartialEq, Eq, Error)]
pub enum CertFaultKind {
    /// The value has none of the forms that are read.
    #[error("not of a form that is read")]
    Shape,
    /// A version that is another string than `0`, or `0` with a display hint.
    #[error("unknown version")]
    UnknownVersion,
    /// A hash algorithm that is not supported, such as md5, or whose name has a display hint. In a row of an accepted list (`spki_case`)
    /// also SHA-1 or SHA-512: a row has a SHA-256 digest.
    #[error("unknown hash algorithm")]
    HashAlg,
    /// A digest that does not have the length of its algorithm's digests.
    #[error("digest of a wrong length")]
    DigestLength,
    /// A key with `(uri ..)` after the list of its algorithm.
    #[error("a key with uris")]
    KeyUris,
    /// A subject headed `k-of-n`, which asks for some of several keys together. It is not supported.
    #[error("a threshold subject")]
    Threshold,
    /// A subject headed `keyholder`, which means the one who holds a key. It is not supported.
    #[error("a keyholder subject")]
    Keyholder,
    /// A validity headed `online`, which a server would have to confirm. It is not supported.
    #[error("a validity that needs a peer")]
    Online,
    /// A relative name, which is a name without a principal, as an entry's subject.
    #[error("a relative name in an entry")]
    RelativeInEntry,
    /// A value that is no date where a date is required: in a limit, or as a moment.
    #[error("not a date")]
    BadDate,
    /// A certificate that is not followed by its signature. Only operations may be between them.
    #[error("a certificate without signature")]
    UnsignedCert,
    /// A signature without a certificate before it, or after one that has its signature already.
    #[error("a signature without certificate")]
    StraySignature,
    /// A list headed `do` whose operation, the member after `do`, is missing or is not the string `hash` without a display hint.
    #[error("unknown operation")]
    UnknownOp,
    /// A tag that is refused, and why. It is not used for `TagFault::Memory`, which becomes `Memory`.
    #[error("tag: {0}")]
    Tag(TagFault),
    /// Memory ran out.
    #[error("out of memory")]
    Memory,
}

impl From<AllocError> for CertFaultKind {
    ghost from_gives = { λ _ kind. kind ≡ Memory };

    /// An allocation that failed is the fault `Memory`. With this, `?` converts the error.
    fn from(_e: AllocError) -> CertFaultKind {
        CertFaultKind::Memory
    }
}

impl<T: Drop> From<AllocFailed<T>> for CertFaultKind {
    ghost from_gives = { λ _ kind. kind ≡ Memory };

    /// An allocation that failed is the fault `Memory`. With this, `?` converts the error of `Vec::push`. That error contains the value that
    /// was not stored, which is dropped here.
    fn from(_e: AllocFailed<T>) -> CertFaultKind {
        CertFaultKind::Memory
    }
}

/// Why a structure is refused, and at which of its items.
#[derive(Clone, Copy, Debug, PartialEq, Eq, Error)]
#[error("item {item}: {kind}")]
pub struct CertFault {
    /// The number of the entry, item or row in its list, from 1. The version of an access list is not counted. The number is 0 for the
    /// outer list and this version, and for a value without items, such as a key. For `Memory` no contract says which number it is.
    pub item: usize,
    /// The fault.
    pub kind: CertFaultKind,
}
