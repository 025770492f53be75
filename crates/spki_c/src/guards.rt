//! Guards on the heap, and what a caller may set for them.
ghost use Rattle.std.specs.Prelude.{◌≡◌, ◌≢◌, IfOk, IfErr, MatchOption};
ghost use Rattle.spki_service.specs.AccessLists.{GuardModel, HasLimits, HoldsList, IsNoAccessList};
ghost use Rattle.spki_c.specs.Guards.{policy_number};

use crate::handle_value::{HandleValue, boxed};
use spki_cert::Policy;
use spki_guard::{AclFault, Guard, Limits, SharedGuard};
use std::alloc::Global;

/// Reads an access list in any of the three forms into a guard on the heap, for `spki_c_guard_open`. `limits` are those of later
/// questions. Err is `Form` if the text has no value within the limits of its form, `Acl` if the value is no access list, or
/// `Memory`.
pub(crate) fn read_guard(
    alloc: Global,
    list: &[u8],
    policy: Policy,
    limits: Limits,
) -> Result<Box<HandleValue>, AclFault>
    ensures read { IfOk result (λ c. (g : GuardModel) × (c.value ≡ HandleValue.Guard g) × HoldsList list.now g.texts
        × (g.policy ≡ policy) × HasLimits g limits) }
    ensures refused { IfErr result (λ fault. fault ≢ AclFault.Memory → IsNoAccessList list.now fault) }
{
    let guard = Guard::read(alloc, list, policy, limits)?;
    match SharedGuard::new(alloc, guard) {
        Ok(guard) => Ok(boxed(alloc, HandleValue::Guard(guard))?),
        Err(_) => Err(AclFault::Memory),
    }
}

/// The policy with this number in `spki.h`: 0 for strict, by which no hash by SHA-1 names a key, and 1 for open, by which such hashes name
/// keys. None for any other number.
pub(crate) fn policy_of(number: u32) -> Option<Policy>
    ensures { MatchOption result ((p : Policy) → number ≢ policy_number p) (λ p. number ≡ policy_number p) }
{
    match number {
        0 => Some(Policy::Strict),
        1 => Some(Policy::Open),
        _ => None,
    }
}
