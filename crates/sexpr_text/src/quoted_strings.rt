//! Reads quoted strings (RFC 9804, section 4.2).

ghost use Rattle.std.specs.Prelude.{◌≡◌, ◌≢◌, ◌≤◌, ◌<◌, ◌+◌, ℕ, List, [], ◌∷◌, ◌++◌, length, drop, Some, IfOk, IfErr, IfSome, IsOkUnless};
ghost use Rattle.std.specs.Cow.{cow_slice_items};
ghost use Rattle.hex.specs.Hex.{hex_digit_value};
ghost use Rattle.sexpr_core.specs.Reading.{StandsAt, RefusesPart};
ghost use Rattle.sexpr_text.specs.Reads.{Reads, ReadsPlain, ReadsPiece, ReadsEscape, ReadsDigit, IsLineEnd, IsNoLetter, Stands, PieceStands, DigitStands, OctalStands};
ghost use Rattle.sexpr_text.specs.{AdvancedForm.{escape_value, Piece, piece_text, IsPiece, IsQuoted}, Inner.Begun.{IsFrontEnd, GoesPiece, GoesDigit}};
ghost use Rattle.sexpr_text.specs.Refusal.{OpensQuoted};

use crate::strings::{MarkedString, ReadString};
use sexpr_core::FormFault;
use sexpr_core::syntax::octet_at;
use std::alloc::Global;
use std::borrow::CowSlice;

/// The octet that an escape means, and the offset after the escape. The octet is None for an escaped line end, which
/// means no octet.
#[derive(Clone, Copy)]
struct Escape {
    octet: Option<u8>,
    end: usize,
}

/// Returns the offset of the first quote or backslash from the offset `at` on, or the length of the text if there is
/// none. The octets before it mean themselves. `at` is at most the length of the text.
fn plain_end(text: &[u8], at: usize) -> usize
    requires { at ≤ length text.now }
    ensures { (octets : List ℕ) × ReadsPlain text.now at octets result }
{
    let mut i = at;
    while let Some(octet) = octet_at(text, i) {
        if octet == b'"' || octet == b'\\' {
            return i;
        }
        i += 1;
    }
    i
}

/// Reads the quoted string whose opening quote is at `at`, and borrows its octets from the text. None if it has a
/// backslash or does not end: `read_quoted` then reads it, and reports its fault if it has one.
#[tactic(auto, using(sexpr_core::proofs::Steps::slice_read, crate::proofs::StringLaws::plain_quoted))]
pub(crate) fn lend_quoted<'t>(text: &'t [u8], at: usize) -> Option<ReadString<'t>>
    requires { StandsAt text.now at 34 }
    ensures { IfSome result (λ read. Reads IsQuoted text.now at (cow_slice_items read.octets) read.end) }
{
    let begin = at + 1;
    let end = plain_end(text, begin);
    match octet_at(text, end) {
        Some(b'"') => Some(ReadString {
            octets: CowSlice::Borrowed(&text[begin..end]),
            end: end + 1,
        }),
        _ => None,
    }
}

/// Reads the quoted string whose opening quote is at `at`, and copies its octets, with what each escape means in its
/// place. Err is the first fault, `Short` if the string does not end or `Bad` in an unknown escape, or `Memory`.
pub(crate) fn read_quoted(alloc: Global, text: &[u8], at: usize) -> Result<MarkedString, FormFault>
    requires { StandsAt text.now at 34 }
    ensures read { IfOk result (λ read. Reads IsQuoted text.now at read.octets.items read.end) }
    ensures only { (spelling octets rest : List ℕ) → IsQuoted spelling octets → drop at text.now ≡ spelling ++ rest → IsOkUnless result FormFault.Memory }
    ensures refused { IfErr result (λ fault. RefusesPart (Stands IsQuoted at) text.now at fault) }
    ensures begun { IfErr result (λ fault. IsFrontEnd OpensQuoted text.now at fault) }
{
    let mut octets = Vec::new(alloc);
    let mut i = at + 1;
    while let Some(octet) = octet_at(text, i) {
        if octet == b'"' {
            return Ok(MarkedString { octets, end: i + 1 });
        }
        i = read_piece(text, i, octet, &mut octets)?;
    }
    Err(FormFault::Short)
}

/// Reads the octet at `at`, which is `octet` and no quote, or the escape that begins there, and appends what it means
/// to `octets`. For an escaped line end nothing is appended. Returns the offset after the octet or the escape. Err is
/// the fault of the escape (`Short` or `Bad`), or `Memory`.
#[tactic(auto, using(crate::proofs::StringLaws::raw_piece))]
fn read_piece(text: &[u8], at: usize, octet: u8, octets: &mut Vec<u8>) -> Result<usize, FormFault>
    requires begins { StandsAt text.now at octet }
    requires other { octet ≢ 34 }
    ensures read { IfOk result (λ to. ReadsPiece text.now at octets.old.items octets.new.items to) }
    ensures only { (piece : Piece) (rest : List ℕ) → IsPiece piece rest → drop at text.now ≡ piece_text piece ++ rest → IsOkUnless result FormFault.Memory }
    ensures refused { IfErr result (λ fault. RefusesPart (PieceStands [] at) text.now at fault) }
    ensures begun { IfErr result (λ fault. IsFrontEnd (GoesPiece []) text.now at fault) }
{
    if octet != b'\\' {
        octets.push(octet)?;
        return Ok(at + 1);
    }
    let escape = read_escape(text, at + 1)?;
    match escape.octet {
        None => Ok(escape.end),
        Some(meant) => {
            octets.push(meant)?;
            Ok(escape.end)
        }
    }
}

/// Reads the part of an escape after the backslash, from the offset `at` on, which may be the end of the text: a line
/// end, `x` and two hexadecimal digits, three octal digits up to 377, or one other octet such as `n`. Err is `Bad` at
/// the first octet that continues no escape, or `Short` if the text ends before the escape is complete.
fn read_escape(text: &[u8], at: usize) -> Result<Escape, FormFault>
    requires { at ≤ length text.now }
    ensures read { IfOk result (λ read. ReadsEscape (92 ∷ []) text.now at read.octet read.end) }
    ensures only { (piece : Piece) (rest : List ℕ) → IsPiece piece rest → 92 ∷ drop at text.now ≡ piece_text piece ++ rest → IsOkUnless result FormFault.Memory }
    ensures refused { IfErr result (λ fault. RefusesPart (PieceStands (92 ∷ []) at) text.now at fault) }
    ensures begun { IfErr result (λ fault. IsFrontEnd (GoesPiece (92 ∷ [])) text.now at fault) }
{
    let Some(octet) = octet_at(text, at) else {
        return Err(FormFault::Short);
    };
    match octet {
        b'\r' => Ok(line_end(text, at, b'\n')),
        b'\n' => Ok(line_end(text, at, b'\r')),
        b'x' => read_hexadecimal_escape(text, at + 1),
        b'0'..=b'3' => read_octal_escape(text, at, octet - b'0'),
        _ => read_letter(text, at, octet),
    }
}

/// Reads the line end at the offset `at` after a backslash, which means no octet. It is a CR or an LF, or both in any
/// order. `second` is the one that is not at `at`: the line end is two octets if `second` follows, and otherwise one.
fn line_end(text: &[u8], at: usize, second: u8) -> Escape
    requires { IsLineEnd text.now at second }
    ensures { ReadsEscape (92 ∷ []) text.now at result.octet result.end }
{
    if let Some(octet) = octet_at(text, at + 1) {
        if octet == second {
            return Escape {
                octet: None,
                end: at + 2,
            };
        }
    }
    Escape {
        octet: None,
        end: at + 1,
    }
}

/// The octet that a backslash and this octet mean, such as a line feed for `n`. None if the two are no whole escape.
fn escaped_octet(octet: u8) -> Option<u8>
    ensures { result ≡ escape_value octet }
{
    match octet {
        b'a' => Some(0x07),
        b'b' => Some(0x08),
        b't' => Some(0x09),
        b'v' => Some(0x0B),
        b'n' => Some(0x0A),
        b'f' => Some(0x0C),
        b'r' => Some(0x0D),
        b'"' | b'\'' | b'?' | b'\\' => Some(octet),
        _ => None,
    }
}

/// Reads an escape that is a backslash and one octet: a letter such as `n`, a quote, `?` or a backslash. `octet` is
/// that octet, at the offset `at`. Err is `Bad` at it if the two are no escape. Only the contract uses `text`.
#[tactic(auto, using(crate::proofs::StringLaws::letter_escape, crate::proofs::StringEnds::nothing_begun, crate::proofs::StringEnds::letter_goes))]
fn read_letter(text: &[u8], at: usize, octet: u8) -> Result<Escape, FormFault>
    requires { StandsAt text.now at octet }
    ensures read { IfOk result (λ read. ReadsEscape (92 ∷ []) text.now at read.octet read.end) }
    ensures only { (c : ℕ) → escape_value octet ≡ Some c → IsOkUnless result FormFault.Memory }
    ensures refused { IfErr result (λ fault. IsNoLetter octet at fault) }
    ensures begun { IfErr result (λ fault. IsFrontEnd (GoesPiece (92 ∷ [])) text.now at fault) }
{
    match escaped_octet(octet) {
        None => Err(FormFault::Bad(at)),
        Some(meant) => Ok(Escape {
            octet: Some(meant),
            end: at + 1,
        }),
    }
}

/// The value, 0 to 15, of a hexadecimal digit. None for another octet.
fn hexadecimal_value(octet: u8) -> Option<u8>
    ensures { result ≡ hex_digit_value octet }
{
    match octet {
        b'0'..=b'9' => Some(octet - b'0'),
        b'a'..=b'f' => Some(octet - b'a' + 10),
        b'A'..=b'F' => Some(octet - b'A' + 10),
        _ => None,
    }
}

/// The value, 0 to 15, of the hexadecimal digit at the offset `at`. Err is `Bad` for another octet, or `Short` at the end
/// of the text.
fn read_hexadecimal_digit(text: &[u8], at: usize) -> Result<u8, FormFault>
    requires { at ≤ length text.now }
    ensures read { IfOk result (λ digit. ReadsDigit text.now at digit) }
    ensures only { (c digit : ℕ) (rest : List ℕ) → hex_digit_value c ≡ Some digit → drop at text.now ≡ c ∷ rest → IsOkUnless result FormFault.Memory }
    ensures refused { IfErr result (λ fault. RefusesPart (DigitStands at) text.now at fault) }
    ensures begun { IfErr result (λ fault. IsFrontEnd GoesDigit text.now at fault) }
{
    let Some(octet) = octet_at(text, at) else {
        return Err(FormFault::Short);
    };
    match hexadecimal_value(octet) {
        None => Err(FormFault::Bad(at)),
        Some(digit) => Ok(digit),
    }
}

/// Reads the two hexadecimal digits of an escape, from the offset `at` after its `x` on. The digits may be of either
/// case. Err is `Bad` at the first other octet, or `Short` if the text ends before both.
fn read_hexadecimal_escape(text: &[u8], at: usize) -> Result<Escape, FormFault>
    requires { at ≤ length text.now }
    ensures read { IfOk result (λ read. ReadsEscape (92 ∷ 120 ∷ []) text.now at read.octet read.end) }
    ensures only { (piece : Piece) (rest : List ℕ) → IsPiece piece rest → 92 ∷ 120 ∷ drop at text.now ≡ piece_text piece ++ rest → IsOkUnless result FormFault.Memory }
    ensures refused { IfErr result (λ fault. RefusesPart (PieceStands (92 ∷ 120 ∷ []) at) text.now at fault) }
    ensures begun { IfErr result (λ fault. IsFrontEnd (GoesPiece (92 ∷ 120 ∷ [])) text.now at fault) }
{
    let high = read_hexadecimal_digit(text, at)?;
    let low = read_hexadecimal_digit(text, at + 1)?;
    Ok(Escape {
        octet: Some(high * 16 + low),
        end: at + 2,
    })
}

/// The value, 0 to 7, of the octal digit at the offset `at`. Err is `Bad` for another octet, or `Short` at the end of the
/// text.
fn read_octal_digit(text: &[u8], at: usize) -> Result<u8, FormFault>
    requires { at ≤ length text.now }
    ensures read { IfOk result (λ digit. (digit < 8) × StandsAt text.now at (48 + digit)) }
    ensures only { (digit : ℕ) (rest : List ℕ) → digit < 8 → drop at text.now ≡ (48 + digit) ∷ rest → IsOkUnless result FormFault.Memory }
    ensures refused { IfErr result (λ fault. RefusesPart (OctalStands at) text.now at fault) }
    ensures begun { IfErr result (λ fault. IsFrontEnd GoesDigit text.now at fault) }
{
    let Some(octet) = octet_at(text, at) else {
        return Err(FormFault::Short);
    };
    if octet < b'0' || octet > b'7' {
        return Err(FormFault::Bad(at));
    }
    Ok(octet - b'0')
}

/// Reads the three octal digits of an escape, from the offset `at` on. `first` is the value of the first digit, which was
/// read before. It is at most 3, so that the octet is at most 255. Err is `Bad` at the first other octet, or `Short` if
/// the text ends before all three.
fn read_octal_escape(text: &[u8], at: usize, first: u8) -> Result<Escape, FormFault>
    requires begins { StandsAt text.now at (48 + first) }
    requires low { first < 4 }
    ensures read { IfOk result (λ read. ReadsEscape (92 ∷ []) text.now at read.octet read.end) }
    ensures only { (piece : Piece) (rest : List ℕ) → IsPiece piece rest → 92 ∷ drop at text.now ≡ piece_text piece ++ rest → IsOkUnless result FormFault.Memory }
    ensures refused { IfErr result (λ fault. RefusesPart (PieceStands (92 ∷ []) at) text.now at fault) }
    ensures begun { IfErr result (λ fault. IsFrontEnd (GoesPiece (92 ∷ [])) text.now at fault) }
{
    let second = read_octal_digit(text, at + 1)?;
    let third = read_octal_digit(text, at + 2)?;
    Ok(Escape {
        octet: Some(first * 64 + second * 8 + third),
        end: at + 3,
    })
}
