//! An example of a caller of `spki_decision`, with a verifier of its own.

ghost use Rattle.std.specs.Prelude.{◌≡◌, ◌↔◌, ℕ, Contains, IsTrue, IfOk, IsErrOf};
ghost use Rattle.spki_case.specs.View.{model};
ghost use Rattle.spki_decision.specs.Granted.{Granted, IsTooLarge, IsDecision};
ghost use Rattle.test_callers.specs.Service.{unrevoked};

use spki_case::{Case, Verifier};
use spki_cert::Key;
use spki_decision::{Decision, GuardFault, decide};
use std::alloc::{AllocError, Global};

/// Accepts what another verifier accepts, except the signatures of revoked keys.
#[derive(Drop)]
pub struct Unrevoked<'v, 'k, V> {
    /// The other verifier.
    pub verifier: &'v V,
    /// The revoked keys.
    pub revoked: &'v [Key<'k>],
}

/// Whether one of `keys` is `key`: has the same canonical octets.
fn is_among(keys: &[Key], key: &Key) -> bool
    ensures { IsTrue result ↔ Contains keys.now key.now }
{
    keys.iter().any(|one| one.same(key))
}

impl<'v, 'k, V: Verifier> Verifier for Unrevoked<'v, 'k, V> {
    ghost accepted = { λ own. unrevoked own.revoked.now (V.accepted own.verifier.now) };

    /// Whether the key is not revoked, and the other verifier accepts `value` as its signature over `message`. Err if memory ran out in the
    /// other verifier, which is not called for a revoked key.
    fn accepts(
        &self,
        alloc: Global,
        key: &Key,
        message: &[u8],
        value: &[u8],
    ) -> Result<bool, AllocError>
        ensures { IfOk result (λ yes. IsTrue yes
            ↔ unrevoked self.now.revoked.now (V.accepted self.now.verifier.now) key.now message.now value.now) }
    {
        if is_among(self.revoked, key) {
            return Ok(false);
        }
        self.verifier.accepts(alloc, key, message, value)
    }
}

/// Decides a case like `decide`, but accepts no signature of a revoked key. `verifier` decides whether those of other keys are valid. The
/// case's own accepted list is not used, unless the caller passes it as the verifier.
///
/// # Errors
///
/// `TooLarge` or `Memory`, as for `decide`.
pub fn decide_unrevoked<V: Verifier>(
    alloc: Global,
    case: &Case,
    verifier: &V,
    revoked: &[Key],
) -> Result<Decision, GuardFault>
    // Yes: this entry is granted by certificates that the verifier accepts and no revoked key has signed.
    ensures granted { (n : ℕ) → result ≡ Ok (Decision.Yes n)
        → Granted n (model case.now) (unrevoked revoked.now (V.accepted verifier.now)) }
    ensures exact { IfOk result (IsDecision (model case.now) (unrevoked revoked.now (V.accepted verifier.now))) }
    ensures too_large { IsErrOf result GuardFault.TooLarge
        → IsTooLarge (model case.now) (unrevoked revoked.now (V.accepted verifier.now)) }
{
    let unrevoked = Unrevoked { verifier, revoked };
    decide(alloc, case, &unrevoked)
}
