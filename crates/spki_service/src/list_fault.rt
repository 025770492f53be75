//! Why a text is refused as an access list.

ghost use Rattle.std.specs.Prelude.{◌≡◌};

use sexpr_core::FormFault;
use spki_cert::CertFault;
use std::alloc::AllocError;
use thiserror::Error;

/// Why a text is no access list.
#[derive(Clone, Copy, Debug, PartialEq, Eq, Error)]
pub enum AclFault {
    /// The text has no value within the limits of its form, for this fault.
    #[error("form: {0}")]
    Form(FormFault),
    /// Its value is no access list. The fault's item is the number of the entry, from 1, or 0 if the list has another head or version.
    #[error("access list: {0}")]
    Acl(CertFault),
    /// Memory ran out. A fault inside one of the others is never `Memory`.
    #[error("out of memory")]
    Memory,
}

impl From<AllocError> for AclFault {
    ghost use Rattle.spki_service.specs.declared.list_fault.AclFault.TheVariants.{Memory};

    ghost from_gives = { λ _ fault. fault ≡ Memory };

    /// An allocation that failed is the fault `Memory`. So `?` converts the error.
    fn from(_error: AllocError) -> AclFault {
        AclFault::Memory
    }
}
