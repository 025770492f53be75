//! Reads versions.

ghost use Rattle.std.specs.Prelude.{◌≡◌, ◌≢◌, ◌∷◌, [], Some, None, codes, IfOk, IfErr};
ghost use Rattle.sexpr_core.specs.Value.{plain, group};
ghost use Rattle.spki_cert.specs.FieldFaults.{sole_fault, version_fault};

use crate::fault::CertFaultKind;
use sexpr_core::syntax::{Members, NodeKind};

/// Checks that the members after the head `version` are the string `0`, without a display hint, alone. Err is `UnknownVersion` if the first
/// is any other string, also `0` with a display hint. Otherwise it is `Shape`: there is no member, the first is a list, or others follow
/// `0`.
#[tactic(auto, using(crate::proofs::Heads::heads), unfolding(crate::specs::FieldFaults::version_fault))]
pub(crate) fn check_version(members: Members) -> Result<(), CertFaultKind>
    ensures found { IfOk result (λ _. members.entry ≡ plain (codes "0") ∷ []) }
    ensures named { IfErr result (λ kind. sole_fault CertFaultKind.Shape version_fault members.entry ≡ Some kind) }
{
    let Some((number, more)) = members.split_first() else {
        return Err(CertFaultKind::Shape);
    };
    match number.kind() {
        NodeKind::List(_) => return Err(CertFaultKind::Shape),
        NodeKind::String { hint: Some(_), .. } => return Err(CertFaultKind::UnknownVersion),
        NodeKind::String { hint: None, body } => {
            if body != b"0".as_slice() {
                return Err(CertFaultKind::UnknownVersion);
            }
        }
    }
    if more.is_empty() {
        Ok(())
    } else {
        Err(CertFaultKind::Shape)
    }
}
