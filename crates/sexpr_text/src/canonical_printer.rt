//! Prints canonical texts in advanced form, without a tree. A printed octet goes to a sink, such as one that appends it to
//! a vector or only counts it. A sink is full if what is put from now on does not matter, such as after a failure.

ghost use Rattle.std.specs.Prelude.{◌≡◌, ℕ, List, ◌∷◌, ◌++◌};
ghost use Rattle.sexpr_core.specs.Value.{Value, Values, list, verbatim, canon, canons};
ghost use Rattle.sexpr_text.specs.AdvancedForm.{printed_string, adv};

use crate::printer::{print_gap, print_hint, print_octets};
use crate::sinks::Sink;

/// Returns the octets of the string in verbatim form, such as `3:abc`, with which a text begins, and the text after
/// it. The text must begin with such a string, so the last line is not reached.
fn split_verbatim<'t>(text: &'t [u8]) -> (&'t [u8], &'t [u8])
    requires { (octets behind : List ℕ) × (text.now ≡ verbatim octets ++ behind) }
    ensures { (octets behind : List ℕ) → text.now ≡ verbatim octets ++ behind
        → (result.0.now ≡ octets) × (result.1.now ≡ behind) }
{
    let mut number = 0;
    let mut rest = text;
    while let Some((octet, behind)) = rest.split_first() {
        if *octet == b':' {
            return behind.split_at(number);
        }
        number = number * 10 + (*octet - b'0') as usize;
        rest = behind;
    }
    (rest, rest)
}

/// Prints, in advanced form, the string in verbatim form, such as `3:abc`, with which `text` begins. The text must begin
/// with such a string. Returns the text after it.
fn print_verbatim<'t, S: Sink>(text: &'t [u8], sink: &mut S) -> &'t [u8]
    requires { (octets behind : List ℕ) × (text.now ≡ verbatim octets ++ behind) }
    ensures { (octets behind : List ℕ) → text.now ≡ verbatim octets ++ behind
        → S.takes sink.old (printed_string octets) sink.new × (result.now ≡ behind) }
{
    let (octets, behind) = split_verbatim(text);
    print_octets(octets, sink);
    behind
}

/// Prints, in advanced form, a string with a hint. `text` is what follows its opening bracket in a canonical text: the
/// hint, the closing bracket and the string. Returns the text after the string. `print_hint` prints both brackets, so the
/// closing one in `text` is skipped.
fn print_hinted<'t, S: Sink>(text: &'t [u8], sink: &mut S) -> &'t [u8]
    requires { (hint octets behind : List ℕ) × (text.now ≡ verbatim hint ++ 93 ∷ (verbatim octets ++ behind)) }
    ensures { (hint octets behind : List ℕ) → text.now ≡ verbatim hint ++ 93 ∷ (verbatim octets ++ behind)
        → S.takes sink.old (91 ∷ (printed_string hint ++ 93 ∷ printed_string octets)) sink.new × (result.now ≡ behind) }
{
    let (hint, behind) = split_verbatim(text);
    print_hint(hint, sink);
    print_verbatim(&behind[1..], sink)
}

/// Prints a list in advanced form, with its parentheses. `text` is what follows the opening parenthesis in a canonical
/// text. It contains the closing one too, so the last line is not reached. Returns the text after the list.
#[cycle(printing)]
fn print_members<'t, S: Sink>(text: &'t [u8], sink: &mut S) -> &'t [u8]
    requires { (vs : Values) × (behind : List ℕ) × (text.now ≡ canons vs ++ 41 ∷ behind) }
    ensures { (vs : Values) (behind : List ℕ) → text.now ≡ canons vs ++ 41 ∷ behind
        → S.takes sink.old (adv (list vs)) sink.new × (result.now ≡ behind) }
{
    sink.put_octet(b'(');
    let mut rest = text;
    let mut member = 0;
    while let Some((octet, behind)) = rest.split_first() {
        if *octet == b')' {
            sink.put_octet(b')');
            return behind;
        }
        print_gap(member, sink);
        rest = print_first(rest, sink);
        // There is a space before each member but the first.
        member = 1;
    }
    rest
}

/// Prints, in advanced form, the value with which `text` begins, which must be in canonical form. The text is not empty
/// then, so the first return is not reached. Returns the text after the value.
#[cycle(printing)]
fn print_first<'t, S: Sink>(text: &'t [u8], sink: &mut S) -> &'t [u8]
    requires { (v : Value) × (behind : List ℕ) × (text.now ≡ canon v ++ behind) }
    ensures { (v : Value) (behind : List ℕ) → text.now ≡ canon v ++ behind
        → S.takes sink.old (adv v) sink.new × (result.now ≡ behind) }
{
    let Some((first, behind)) = text.split_first() else {
        return text;
    };
    match *first {
        b'(' => print_members(behind, sink),
        b'[' => print_hinted(behind, sink),
        _ => print_verbatim(text, sink),
    }
}

/// Prints the value of a canonical text in advanced form, as `print_advanced` does. The recursion is as deep as the
/// value. Prints nothing to a sink that is full already. Allocates nothing, unless the sink does.
pub fn print_canonical<S: Sink>(text: &[u8], sink: &mut S)
    requires { (v : Value) × (text.now ≡ canon v) }
    ensures { (v : Value) → text.now ≡ canon v → S.takes sink.old (adv v) sink.new }
{
    if !sink.is_full() {
        print_first(text, sink);
    }
}
