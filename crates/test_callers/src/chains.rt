//! An example of a caller of `spki_reduce`, which its `CALLING.md` quotes. `prove_well_formed` gives the prover a fact and does nothing at run time.
//! Tuples are joined two at a time, and a bracketing says in which order: `(a b) c` or `a (b c)`. `fold_chain` joins them from the left, which is
//! enough by the law `any_bracketing`.

ghost use Rattle.std.specs.Prelude.{◌≡◌, ◌↔◌, ◌∷◌, ◌<◌, IsTrue, IfOk, IsErrOf};
ghost use Rattle.spki_reduce.specs.{Reduction.{own, five, issuer_of, five_tuple, nodes_product, IsSupported}, Chain.{tuples_of, all_tags}};

use spki_cert::{Date, Key, Policy};
use spki_reduce::{Five, Fold, ReduceFault, Step, fold_chain};
use spki_tag::Ground;
use std::alloc::Global;

/// A question: whether a key may do a request at a moment.
#[derive(Drop)]
pub struct AccessQuestion<'r, 'k> {
    /// The client's key.
    pub key: &'r Key<'k>,
    /// The request.
    pub request: &'r Ground,
    /// The moment.
    pub moment: &'r Date,
}

/// Whether an authorization by the owner of the access list and the steps after it, in their order, grant the request. They
/// do exactly if some derivation from them does, in any bracketing (RFC 2693, section 6.3).
///
/// # Errors
///
/// `TooLarge` or `Memory`.
pub fn grants<'a>(
    alloc: Global,
    first: &Five<'a>,
    steps: &[Step<'a>],
    asked: &AccessQuestion,
    policy: Policy,
) -> Result<bool, ReduceFault>
    requires own { issuer_of first.now.issuer ≡ own }
    ensures exact { IfOk result (λ yes. IsTrue yes ↔ IsSupported policy (five (five_tuple first.now)) (tuples_of steps.now)
        asked.now.key.now asked.now.request.now asked.now.moment.now) }
    ensures too_large { IsErrOf result ReduceFault.TooLarge →
        1000000 < nodes_product (all_tags (five (five_tuple first.now) ∷ tuples_of steps.now)) }
{
    asked.request.prove_well_formed();
    match fold_chain(alloc, first, steps, policy)? {
        Fold::Stopped { .. } => Ok(false),
        Fold::Done(five) => {
            let missing = five.missing_grant(asked.key, asked.request, asked.moment, policy);
            Ok(missing.is_none())
        }
    }
}
