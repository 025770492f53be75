//! Why a library call that is done for a row of a test table has no result.

use crate::answers::{Reply, octets};
use arrayvec::ArrayString;
use hex::FromHexError;
use sexpr_core::FormFault;
use spki_case::{CaseFault, RowsFault};
use spki_cert::{CertFault, CertFaultKind};
use spki_decision::GuardFault;
use spki_reduce::ReduceFault;
use spki_service::{AclFault, AskFault};
use spki_tag::{MeetFault, TagFault};
use std::alloc::{AllocError, AllocFailed, Global};
use std::fmt::{Debug, Display, Write};
use std::io;
use std::io::ErrorKind;

/// Why a call has no result. A fault of the libraries is written out at once: each function that may fail is proved for each state of this type, and
/// those of the faults are many.
#[derive(Clone, Copy, Debug)]
pub enum Failure {
    /// Memory ran out.
    Memory,
    /// The row is malformed: an unknown call, or texts that are no hexadecimal digits.
    Unknown,
    /// A fault that a call of the libraries returned, as `fault` writes it.
    Fault(ArrayString<240>),
}

impl Failure {
    /// A fault of the libraries and its text, as the answer to a row: for example `Form(Short): the text ends too soon`, where `kind` is `Form`.
    /// `Memory` if the fault is that memory ran out. `Unknown` if the text is too long for `Fault`: no text of a fault is.
    pub fn fault<F: Debug + Display>(kind: &str, fault: &F, is_memory: bool) -> Failure {
        if is_memory {
            return Failure::Memory;
        }
        let mut text = ArrayString::new();
        match write!(&mut text, "{kind}({fault:?}): {fault}") {
            Ok(()) => Failure::Fault(text),
            Err(_) => Failure::Unknown,
        }
    }

    /// The text of a fault, which is the answer to a row. Err is `Memory` or `Unknown` itself, or `Memory` if memory ran out for the copy.
    pub fn said(self, alloc: Global) -> Reply {
        match self {
            Failure::Fault(text) => octets(alloc, text.as_bytes()),
            failure => Err(failure),
        }
    }
}

impl From<FormFault> for Failure {
    /// The answer `Form(..)` with the fault of a text's form, or `Memory` if memory ran out.
    fn from(fault: FormFault) -> Failure {
        Failure::fault("Form", &fault, matches!(fault, FormFault::Memory))
    }
}

impl From<TagFault> for Failure {
    /// The answer `Tag(..)` with the fault of a tag or a request, or `Memory` if memory ran out.
    fn from(fault: TagFault) -> Failure {
        Failure::fault("Tag", &fault, matches!(fault, TagFault::Memory))
    }
}

impl From<MeetFault> for Failure {
    /// The answer `Meet(..)` with the reason why two tags were not intersected, or `Memory` if memory ran out.
    fn from(fault: MeetFault) -> Failure {
        Failure::fault("Meet", &fault, matches!(fault, MeetFault::Memory))
    }
}

impl From<CertFault> for Failure {
    /// The answer `Cert(..)` with the fault of an access list or a sequence, with the number of its entry or item, or `Memory` if memory ran out.
    fn from(fault: CertFault) -> Failure {
        Failure::fault("Cert", &fault, matches!(fault.kind, CertFaultKind::Memory))
    }
}

impl From<CertFaultKind> for Failure {
    /// The answer `Kind(..)` with the fault of a key, a hash, a date or another single value, or `Memory` if memory ran out.
    fn from(fault: CertFaultKind) -> Failure {
        Failure::fault("Kind", &fault, matches!(fault, CertFaultKind::Memory))
    }
}

impl From<ReduceFault> for Failure {
    /// The answer `Reduce(..)` with the reason why tuples were not joined, or `Memory` if memory ran out.
    fn from(fault: ReduceFault) -> Failure {
        Failure::fault("Reduce", &fault, matches!(fault, ReduceFault::Memory))
    }
}

impl From<CaseFault> for Failure {
    /// The answer `Case(..)` with the reason why a text is no case, or `Memory` if memory ran out.
    fn from(fault: CaseFault) -> Failure {
        Failure::fault("Case", &fault, matches!(fault, CaseFault::Memory))
    }
}

impl From<RowsFault> for Failure {
    /// The answer `Rows(..)` with the reason why a text is no accepted list, or `Memory` if memory ran out.
    fn from(fault: RowsFault) -> Failure {
        Failure::fault("Rows", &fault, matches!(fault, RowsFault::Memory))
    }
}

impl From<GuardFault> for Failure {
    /// The answer `Decision(..)` with the reason why a case or a question was not answered, or `Memory` if memory ran out.
    fn from(fault: GuardFault) -> Failure {
        Failure::fault("Decision", &fault, matches!(fault, GuardFault::Memory))
    }
}

impl From<AclFault> for Failure {
    /// The answer `Acl(..)` with the reason why a text is no access list, or `Memory` if memory ran out.
    fn from(fault: AclFault) -> Failure {
        Failure::fault("Acl", &fault, matches!(fault, AclFault::Memory))
    }
}

impl From<AskFault> for Failure {
    /// The answer `Ask(..)` with the reason why a question is refused, or `Memory` if memory ran out.
    fn from(fault: AskFault) -> Failure {
        Failure::fault("Ask", &fault, matches!(fault, AskFault::Memory))
    }
}

impl From<AllocError> for Failure {
    /// An allocation that failed is `Memory`.
    fn from(_: AllocError) -> Failure {
        Failure::Memory
    }
}

impl<T: Drop> From<AllocFailed<T>> for Failure {
    /// An allocation that failed is `Memory`.
    fn from(_: AllocFailed<T>) -> Failure {
        Failure::Memory
    }
}

impl From<FromHexError> for Failure {
    /// `Unknown` for texts that are not hexadecimal digits, and `Memory` if memory ran out.
    fn from(fault: FromHexError) -> Failure {
        match fault {
            FromHexError::OutOfMemory => Failure::Memory,
            _ => Failure::Unknown,
        }
    }
}

impl From<io::Error> for Failure {
    /// `Memory` for an allocation that failed, and `Unknown` for any other error.
    fn from(error: io::Error) -> Failure {
        match error.kind() {
            ErrorKind::OutOfMemory => Failure::Memory,
            _ => Failure::Unknown,
        }
    }
}
