//! Prints advanced form. A printed octet goes to a sink, such as one that appends it to a vector or only counts it. A sink
//! is full if what is put from now on does not matter, such as after a failure.

ghost use Rattle.std.specs.Prelude.{◌≡◌, ◌≤◌, ◌==◌, ◌||◌, [], ◌++◌, ◌∷◌, length, IfOk};
ghost use Rattle.sexpr_core.specs.Value.{HasOctets, atom_value, sexp_value};
ghost use Rattle.base64.specs.{Engines.{standard}, GeneralPurpose.{IsBytes, encode_of}};
ghost use Rattle.sexpr_text.specs.AdvancedForm.{is_token_octet, Spells, every, is_token, is_printable, quoted_body, printed_string, adv, gap};

use crate::sinks::{Sink, VectorSink};
use base64::engine::general_purpose::STANDARD;
use sexpr_core::{Atom, Sexp};
use std::alloc::{AllocError, Global};

/// How many octets are encoded in base64 at once: a multiple of 3, so that only the last piece of a string is padded.
const PACKED_OCTETS: usize = 384;

/// The length of `PACKED_OCTETS` octets in base64: 4 symbols for each 3 octets.
const PACKED_SYMBOLS: usize = 512;

/// Returns the printed text of a tree in advanced form. Each string is a token if it can be one; otherwise quoted, if
/// all its octets are printable ASCII or it is empty; otherwise base64. Display hints are in brackets directly before
/// the string, and there is one space between members. The text spells the tree's value (RFC 9804, section 6.4). Err if
/// memory ran out.
#[tactic(auto, using(crate::proofs::Printed::all_spelled))]
pub fn print_advanced(alloc: Global, tree: &Sexp) -> Result<Vec<u8>, AllocError>
    ensures printed { IfOk result (λ text. text.items ≡ adv (sexp_value tree.now)) }
    ensures spells { IfOk result (λ text. Spells text.items (sexp_value tree.now)) }
{
    let mut out = Vec::new(alloc);
    let mut sink = VectorSink::new(&mut out);
    print_tree(tree, &mut sink);
    sink.end()?;
    Ok(out)
}

/// Whether an octet may occur in a token, a string such as `abc` without marks: a letter, a digit, or one
/// of `- . / _ : * + =`. Small letters take the fewest comparisons, as they are usually the most frequent. The octets from
/// `*` to `:` are the digits, `,` and these marks, except `_` and `=`.
pub fn is_token_octet(octet: u8) -> bool
    ensures { result ≡ is_token_octet octet }
{
    if octet >= b'a' {
        return octet <= b'z';
    }
    if octet >= b'A' {
        return octet <= b'Z' || octet == b'_';
    }
    (octet >= b'*' && octet <= b':' && octet != b',') || octet == b'='
}

/// Whether each octet may occur in a token. True for no octets.
fn all_in_token(octets: &[u8]) -> bool
    ensures { result ≡ every is_token_octet octets.now }
{
    for octet in octets {
        if !is_token_octet(*octet) {
            return false;
        }
    }
    true
}

/// Whether each octet is a printable ASCII character or a space. True for no octets.
fn all_printable(octets: &[u8]) -> bool
    ensures { result ≡ every is_printable octets.now }
{
    for octet in octets {
        if *octet < 0x20 || *octet > 0x7E {
            return false;
        }
    }
    true
}

/// Whether the octets can be printed as a token: there is at least one, the first is no digit, and each may occur in a
/// token.
fn is_token_text(octets: &[u8]) -> bool
    ensures { result ≡ is_token octets.now }
{
    match octets {
        [] => false,
        [first, ..] => !first.is_ascii_digit() && all_in_token(octets),
    }
}

/// Whether an octet between quotes is printed with a backslash before it: a quote or a backslash.
fn is_escaped(octet: u8) -> bool
    ensures { result ≡ (octet == 34 || octet == 92) }
{
    octet == b'"' || octet == b'\\'
}

/// Prints an octet of a quoted string, with a backslash before it if it needs one.
fn print_quoted_octet<S: Sink>(octet: u8, sink: &mut S)
    ensures { S.takes sink.old (quoted_body (octet ∷ [])) sink.new }
{
    if is_escaped(octet) {
        sink.put(&[b'\\', octet]);
        return;
    }
    sink.put_octet(octet);
}

/// Prints a string in quotes, with a backslash before each quote and each backslash in it.
fn print_quoted<S: Sink>(octets: &[u8], sink: &mut S)
    ensures { S.takes sink.old (34 ∷ (quoted_body octets.now ++ 34 ∷ [])) sink.new }
{
    sink.put_octet(b'"');
    for octet in octets {
        print_quoted_octet(*octet, sink);
    }
    sink.put_octet(b'"');
}

/// Prints octets in padded base64, without the `|` around them. There must be at most 384, which is `PACKED_OCTETS`:
/// then the symbols fit the buffer and encoding cannot fail.
fn print_piece<S: Sink>(octets: &[u8], sink: &mut S)
    requires { length octets.now ≤ 384 }
    ensures { S.takes sink.old (encode_of standard octets.now) sink.new }
{
    let mut symbols = [0; PACKED_SYMBOLS];
    if let Ok(count) = STANDARD.encode_slice(octets, &mut symbols) {
        sink.put(&symbols[..count]);
    }
}

/// Prints a string in padded base64 between `|` and `|`. It is encoded in pieces, so that a string of any length needs
/// no allocation.
fn print_packed<S: Sink>(octets: &[u8], sink: &mut S)
    ensures { S.takes sink.old (124 ∷ (encode_of standard octets.now ++ 124 ∷ [])) sink.new }
{
    sink.put_octet(b'|');
    let mut rest = octets;
    while rest.len() > PACKED_OCTETS {
        let (piece, behind) = rest.split_at(PACKED_OCTETS);
        print_piece(piece, sink);
        rest = behind;
    }
    print_piece(rest, sink);
    sink.put_octet(b'|');
}

/// Prints a string without a display hint, as `print_advanced` does: as a token, quoted or in base64. Prints nothing to a
/// full sink. Allocates nothing, unless the sink does.
#[tactic(auto, using(crate::proofs::Printed::printed_token, crate::proofs::Printed::printed_quoted, crate::proofs::Printed::printed_packed))]
pub fn print_octets<S: Sink>(octets: &[u8], sink: &mut S)
    ensures printed { S.takes sink.old (printed_string octets.now) sink.new }
    ensures octets { IsBytes octets.now }
{
    if sink.is_full() {
        return;
    }
    if is_token_text(octets) {
        sink.put(octets);
    } else if all_printable(octets) {
        print_quoted(octets, sink);
    } else {
        print_packed(octets, sink);
    }
}

/// Prints a display hint in brackets. The hint itself is printed as a string by `print_octets`.
pub(crate) fn print_hint<S: Sink>(hint: &[u8], sink: &mut S)
    ensures printed { S.takes sink.old (91 ∷ (printed_string hint.now ++ 93 ∷ [])) sink.new }
    ensures octets { IsBytes hint.now }
{
    sink.put_octet(b'[');
    print_octets(hint, sink);
    sink.put_octet(b']');
}

/// Prints a string in advanced form, with its display hint in brackets before it if it has one.
fn print_atom<S: Sink>(atom: &Atom, sink: &mut S)
    ensures printed { S.takes sink.old (adv (atom_value atom.now)) sink.new }
    ensures octets { HasOctets (atom_value atom.now) }
{
    match &atom.hint {
        None => print_octets(&atom.body, sink),
        Some(hint) => {
            print_hint(hint, sink);
            print_octets(&atom.body, sink);
        }
    }
}

/// Prints the space before a member of a list, unless it is the first. `member` is the index of the member, from 0.
pub(crate) fn print_gap<S: Sink>(member: usize, sink: &mut S)
    ensures { S.takes sink.old (gap member) sink.new }
{
    if member == 0 {
        return;
    }
    sink.put_octet(b' ');
}

/// Prints a tree in advanced form, as `print_advanced` does. The recursion is as deep as the tree. Allocates nothing,
/// unless the sink does.
pub fn print_tree<S: Sink>(tree: &Sexp, sink: &mut S)
    ensures printed { S.takes sink.old (adv (sexp_value tree.now)) sink.new }
    ensures octets { HasOctets (sexp_value tree.now) }
{
    match tree {
        Sexp::Atom(atom) => print_atom(atom, sink),
        Sexp::List(members) => {
            sink.put_octet(b'(');
            for (i, member) in members.iter().enumerate() {
                print_gap(i, sink);
                print_tree(member, sink);
            }
            sink.put_octet(b')');
        }
    }
}
