//! Laws of advanced form. A text *spells* a value if it is in advanced form, which includes canonical form, and *braces*
//! the value if it is in transport form: base64 of the canonical form, in braces.
//!
//! Each function is a law: it does nothing, and its contract is the fact. A function whose proof needs the fact calls
//! the law.

ghost use Rattle.std.specs.Prelude.{◌≡◌, ℕ, List, ◌+◌, ◌<◌, length, take};
ghost use Rattle.sexpr_core.specs.{declared.fault.FormFault.{FormFault, TheVariants.{Bad}}, Reading.{IsOfForm, Begins}};
ghost use Rattle.sexpr_core.specs.Value.{Value, canon, HasOctets};
ghost use Rattle.sexpr_text.specs.Refusal.{RefusesSpelling, RefusesText, IsSomeText};
ghost use Rattle.sexpr_text.specs.AdvancedForm.{Spells, IsText, IsSpelledWithin, IsTextWithin, adv};

/// A text has at most one value: the one that it spells (in advanced form) or braces (in transport form).
pub fn one_value()
    ensures { (text : List ℕ) (v w : Value) → IsText text v → IsText text w → v ≡ w }
{}

/// The canonical text of a value spells it, that is, it is also in advanced form (RFC 9804, sections 6.2 and 6.4).
#[tactic(auto, using(crate::proofs::Printed::canonical_spelled))]
pub fn canonical_is_advanced()
    ensures { (v : Value) → Spells (canon v) v }
{}

/// The text of a value as `print_advanced` writes it spells the value (RFC 9804, section 6.4), if the value's octets
/// are below 256: in definitions an octet is any natural number. `print_advanced` ensures the same for each tree. This
/// law is for values that are in no tree.
#[tactic(auto, using(crate::proofs::Printed::printed_spelled))]
pub fn printed_is_advanced()
    ensures { (v : Value) → HasOctets v → Spells (adv v) v }
{}

/// A text has at most one of the faults TooDeep, Short, Bad and Trailing of advanced form, the last two with their offset. It has none
/// if it spells a value within the limits. So, if the text is not too long and memory does not run out, `read_advanced`
/// returns each of these faults exactly if the text has it.
pub fn one_refusal()
    ensures none { (text : List ℕ) (e : FormFault) (v : Value) → IsOfForm e → RefusesSpelling text e → ¬ IsSpelledWithin text v }
    ensures one { (text : List ℕ) (e f : FormFault) → IsOfForm e → IsOfForm f → RefusesSpelling text e → RefusesSpelling text f → e ≡ f }
{}

/// The same as `one_refusal` for texts in any form, which `read_any` and `convert` read as transport form or as advanced
/// form: a text has at most one of these faults, and none if it has a value within the limits.
pub fn one_refusal_in_any_form()
    ensures none { (text : List ℕ) (e : FormFault) (v : Value) → IsOfForm e → RefusesText text e → ¬ IsTextWithin text v }
    ensures one { (text : List ℕ) (e f : FormFault) → IsOfForm e → IsOfForm f → RefusesText text e → RefusesText text f → e ≡ f }
{}

/// If a text is refused as Bad at an octet, in any form, this octet is at fault: no text that spells or braces a value
/// begins with the octets up to and including it.
#[tactic(auto, using(crate::proofs::OneRefusal::bad_is_bad))]
pub fn bad_is_bad()
    ensures { (text : List ℕ) (at : ℕ) → RefusesText text (Bad at) → (at < length text) × ¬ Begins IsSomeText (take (at + 1) text) }
{}
