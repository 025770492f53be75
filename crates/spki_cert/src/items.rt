//! Lists whose items are read one after another.

ghost use Rattle.std.specs.Prelude.{◌≡◌, ◌≢◌, ◌∷◌, ◌++◌, ◌+◌, [], Ok, Err, length, OnOk, IfErr};

use crate::fault::{CertFault, CertFaultKind};

/// Appends the next item to `items`. `read` is the result of reading this item. Err is the fault of `read`, or `Memory` if memory runs out
/// now, with the number of the item, from 1. Then nothing is appended.
pub(crate) fn push_read<T: Drop>(
    items: &mut Vec<T>,
    read: Result<T, CertFaultKind>,
) -> Result<(), CertFault>
    ensures pushed { OnOk result ((item : T) × (read ≡ Ok item) × (items.new.items ≡ items.old.items ++ item ∷ [])) }
    ensures refused { IfErr result (λ fault. fault.kind ≢ CertFaultKind.Memory
        → (fault.item ≡ length items.old.items + 1) × (read ≡ Err fault.kind)) }
{
    let number = items.len() + 1;
    match read {
        Err(kind) => Err(CertFault { item: number, kind }),
        Ok(item) => match items.push(item) {
            Ok(()) => Ok(()),
            Err(_) => Err(CertFault {
                item: number,
                kind: CertFaultKind::Memory,
            }),
        },
    }
}
