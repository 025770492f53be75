//! An example of a caller of `sexpr_text`, which its `CALLING.md` quotes. `laws::one_value` gives the prover a fact, and does nothing at
//! run time. `read_any` fails if a text has no value within the limits, or memory ran out.

ghost use Rattle.std.specs.Prelude.{◌≡◌, ◌↔◌, ◌⊎◌, IsTrue, IfOk, IfErr};
ghost use Rattle.sexpr_core.specs.Value.{Value};
ghost use Rattle.sexpr_text.specs.{AdvancedForm.{IsText}, Refusal.{RefusesText}};

use sexpr_core::FormFault;
use sexpr_text::{laws, read_any};
use std::alloc::Global;

/// Whether two texts have the same value, each in any form.
///
/// # Errors
///
/// That of `read_any` for the first text, otherwise for the second.
pub fn same_value(alloc: Global, text: &[u8], other: &[u8]) -> Result<bool, FormFault>
    ensures same { IfOk result (λ same. (v : Value) (w : Value) → IsText text.now v → IsText other.now w
        → IsTrue same ↔ (v ≡ w)) }
    ensures refused { IfErr result (λ fault. RefusesText text.now fault ⊎ RefusesText other.now fault) }
{
    // A text has only one value, so the values that are read are those of the contract.
    laws::one_value();
    let tree = read_any(alloc, text)?;
    let second = read_any(alloc, other)?;
    Ok(tree == second)
}
