//! An example of a caller of `sexpr_core`, which its `CALLING.md` quotes. `Doc::open` fails if the text is no canonical form within the limits,
//! or memory ran out.

ghost use Rattle.std.specs.{Prelude.{◌≡◌, IfOk, IfErr, IsOkUnless, option_map}, Option.{option_copied}};
ghost use Rattle.sexpr_core.specs.{Value.{Value, canon, IsWithinLimits}, Nodes.{part_at}, Reading.{Refused}};

use sexpr_core::syntax::NodeKind;
use sexpr_core::{Doc, FormFault};
use std::alloc::Global;

/// The octets of the first member of a list, as they are in `text`, which is the list in canonical form. They are what is
/// hashed, signed or compared. None if the value of `text` is a string or the empty list.
///
/// # Errors
///
/// Those of `Doc::open`.
pub fn first_member<'a>(alloc: Global, text: &'a [u8]) -> Result<Option<&'a [u8]>, FormFault>
    ensures first { IfOk result (λ member. (v : Value) × (text.entry.now ≡ canon v)
        × (option_copied member ≡ option_map canon (part_at 0 v))) }
    ensures only { (v : Value) → IsWithinLimits v → text.entry.now ≡ canon v → IsOkUnless result FormFault.Memory }
    ensures refused { IfErr result (λ fault. Refused text.entry.now fault) }
{
    let document = Doc::open(alloc, text)?;
    match document.top().kind() {
        NodeKind::String { .. } => Ok(None),
        NodeKind::List(members) => match members.split_first() {
            None => Ok(None),
            Some((first, _)) => Ok(Some(first.slice())),
        },
    }
}
