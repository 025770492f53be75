//! Laws of values, canonical form and trees.
//!
//! Each function is a law: its contract is the fact. A function whose proof needs the fact calls the law. A law does
//! nothing, except that `octets_are_below_256` walks its tree.

ghost use Rattle.std.specs.Prelude.{◌≡◌, ◌≢◌, ◌↔◌, ℕ, List, ◌++◌, IsTrue};
ghost use Rattle.sexpr_core.specs.declared.fault.FormFault.{FormFault};
ghost use Rattle.sexpr_core.specs.Value.{Value, canon, IsWithinLimits, is_same, HasOctets, atom_value, sexp_value};
ghost use Rattle.sexpr_core.specs.Reading.{IsOfForm, Refused, IsBracedWithin, RefusesBraces};
ghost use Rattle.base64.specs.GeneralPurpose.{IsBytes};

use crate::tree::{Atom, Sexp};

/// No value's canonical text is a proper beginning of that of another value. If a text begins with a canonical text, it
/// begins with that of one value only, and the rest is determined (RFC 9804, section 6.2).
#[tactic(auto, using(crate::proofs::Texts::canon_one))]
pub fn canonical_form_is_prefix_free()
    ensures { (v w : Value) (x y : List ℕ) → canon v ++ x ≡ canon w ++ y → (v ≡ w) × (x ≡ y) }
{}

/// A text has at most one of the faults TooDeep, Short, Bad and Trailing, the last two with their offset. It has none if it is a
/// value's canonical text within the limits. So, if the text is not too long and memory does not run out, `Doc::open`
/// and `decode` return each of these faults exactly if the text has it.
#[tactic(auto, using(crate::proofs::Refusals::no_refusal, crate::proofs::Refusals::one_refusal))]
pub fn one_refusal()
    ensures none { (text : List ℕ) (e : FormFault) (v : Value) → IsOfForm e → Refused text e → IsWithinLimits v → text ≢ canon v }
    ensures one { (text : List ℕ) (e f : FormFault) → IsOfForm e → IsOfForm f → Refused text e → Refused text f → e ≡ f }
{}

/// A text has at most one of the faults TooDeep, Short, Bad and Trailing of the transport form, the last two with their offset. It has
/// none if it braces a value within the limits, that is, if it is the value's transport form except for whitespace and
/// missing padding. So, if the text is not too long and memory does not run out, `unwrap_braces` and `octets_in_braces`
/// return each of these faults exactly if the text has it.
pub fn one_refusal_in_braces()
    ensures none { (text : List ℕ) (e : FormFault) (v : Value) → IsOfForm e → RefusesBraces text e → ¬ IsBracedWithin text v }
    ensures one { (text : List ℕ) (e f : FormFault) → IsOfForm e → IsOfForm f → RefusesBraces text e → RefusesBraces text f → e ≡ f }
{}

/// Two values have the same canonical text exactly if they are equal. In contracts `==` of trees, and of strings, is
/// `is_same`, which compares canonical texts. By this law it says whether the values are equal.
#[tactic(auto, using(crate::proofs::TreeLaws::same_decides))]
pub fn equality_is_of_canonical_forms()
    ensures { (v w : Value) → IsTrue (is_same v w) ↔ (v ≡ w) }
{}

/// Each octet of a tree's value is below 256. The call does nothing but recurse, as deep as the tree: the recursion is
/// the proof by induction.
#[tactic(auto, using(crate::proofs::TreeLaws::more_octets, crate::proofs::TreeLaws::list_octets))]
pub fn octets_are_below_256(tree: &Sexp)
    ensures { HasOctets (sexp_value tree.now) }
{
    match tree {
        Sexp::Atom(atom) => atom_of_octets(atom),
        Sexp::List(members) => {
            for member in members {
                octets_are_below_256(member);
            }
        }
    }
}

/// A fact for the prover: each octet of a string and of its display hint is below 256. Does nothing.
fn atom_of_octets(atom: &Atom)
    ensures { HasOctets (atom_value atom.now) }
{
    if let Some(hint) = &atom.hint {
        are_octets(hint);
    }
    are_octets(&atom.body);
}

/// A fact for the prover: each octet of a slice is below 256. Does nothing.
fn are_octets(octets: &[u8])
    ensures { IsBytes octets.now }
{}
