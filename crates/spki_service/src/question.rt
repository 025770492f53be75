//! The questions that are put to a guard: four parts, each a separate text.

ghost use Rattle.std.specs.Prelude.{◌≡◌};
ghost use Rattle.spki_service.specs.declared.question.AskFault.TheVariants.{Memory};

use sexpr_core::FormFault;
use spki_cert::{CertFault, CertFaultKind};
use spki_tag::TagFault;
use std::alloc::{AllocError, AllocFailed};
use thiserror::Error;

/// A question that is put to a guard. Each part is a separate text, in canonical, advanced or transport form; the request may also be strings,
/// and the moment seconds. Each text must be one value, so no octets of one part can become part of another.
#[derive(Clone, Copy)]
pub struct Question<'q> {
    /// The sequence that is shown: `(sequence ..)`.
    pub sequence: &'q [u8],
    /// The client's key: `(public-key ..)`.
    pub key: &'q [u8],
    /// The request.
    pub request: RequestInput<'q>,
    /// The moment of the request.
    pub moment: Moment<'q>,
}

/// A request, as it is given in a question.
#[derive(Clone, Copy)]
pub enum RequestInput<'q> {
    /// As a text.
    Text(&'q [u8]),
    /// As its strings, each as octets that may come from the client. The request is the list of them, or the string if there
    /// is only one.
    Words(&'q [&'q [u8]]),
}

/// A moment, as it is given in a question.
#[derive(Clone, Copy)]
pub enum Moment<'q> {
    /// As the text of a date.
    Text(&'q [u8]),
    /// As seconds since 1970-01-01 00:00:00 UTC, without leap seconds.
    Seconds(i64),
}

/// A part of a question, as the fault `Form` names it.
#[derive(Clone, Copy, Debug, PartialEq, Eq, Error)]
pub enum Part {
    /// The sequence.
    #[error("sequence")]
    Sequence,
    /// The key.
    #[error("key")]
    Key,
    /// The request.
    #[error("request")]
    Request,
    /// The moment.
    #[error("moment")]
    Moment,
}

/// Why a question is refused. `TooLong` is tested first. Then the parts are read in the order sequence, key, request, moment. The first that
/// cannot be read is named, with the fault of its own text or value. `TooManyCertificates` and then `TooManyWords` are tested last.
#[derive(Clone, Copy, Debug, PartialEq, Eq, Error)]
pub enum AskFault {
    /// The four texts together have more octets than the guard's limit.
    #[error("the texts are too long")]
    TooLong,
    /// The sequence has more certificates, definitions of names too, than the guard's limit.
    #[error("too many certificates")]
    TooManyCertificates,
    /// The request has more strings than the guard's limit.
    #[error("too many strings of the request")]
    TooManyWords,
    /// The text of the part has no value within the limits of its form.
    #[error("{part}: form: {fault}")]
    Form {
        /// The part.
        part: Part,
        /// The fault of its text.
        fault: FormFault,
    },
    /// The fault of the sequence. Its item is counted in the sequence, from 1, or 0 if the value is no list with the head `sequence`.
    #[error("sequence: {0}")]
    Sequence(CertFault),
    /// The fault of the key: `KeyUris` or `Shape`.
    #[error("key: {0}")]
    Key(CertFaultKind),
    /// The fault of the request.
    #[error("request: {0}")]
    Request(TagFault),
    /// The fault of the moment, which is always `BadDate`: the value is no date, or the seconds are below 0 or above 253,402,300,799, as of a
    /// clock that failed or in a year after 9999.
    #[error("moment: {0}")]
    Moment(CertFaultKind),
    /// Memory ran out, or the guard has too many owners to be counted (`SharedGuard::share`). A fault inside one of the others is never `Memory`.
    #[error("out of memory")]
    Memory,
}

impl From<AllocError> for AskFault {
    ghost from_gives = { λ _ fault. fault ≡ Memory };

    /// An allocation that failed is the fault `Memory`. So `?` converts the error.
    fn from(_error: AllocError) -> AskFault {
        AskFault::Memory
    }
}

impl<T: Drop> From<AllocFailed<T>> for AskFault {
    ghost from_gives = { λ _ fault. fault ≡ Memory };

    /// A value that could not be stored, because memory ran out, is the fault `Memory`. So `?` converts the error, and drops the value in it.
    fn from(_error: AllocFailed<T>) -> AskFault {
        AskFault::Memory
    }
}
