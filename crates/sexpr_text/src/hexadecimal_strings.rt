//! Reads hexadecimal strings (RFC 9804, section 4.4).

ghost use Rattle.std.specs.Prelude.{◌≡◌, ℕ, ◌+◌, ◌≤◌, true, Ok, List, [], ◌∷◌, ◌++◌, length, drop, IfOk, IfErr, OnOk, IsOkUnless};
ghost use Rattle.hex.specs.Hex.{decode_of};
ghost use Rattle.sexpr_core.specs.Reading.{StandsAt, IsFaultAt, RefusesPart, IsBodyEnd, visible};
ghost use Rattle.sexpr_text.specs.Reads.{Reads, Keeps, is_hexadecimal_octet, IsNoHexadecimalOctet, IsDigitsFault, Stands, DigitsStand};
ghost use Rattle.sexpr_text.specs.AdvancedForm.{IsHexadecimal};

use crate::strings::MarkedString;
use hex::FromHexError;
use sexpr_core::FormFault;
use sexpr_core::syntax::{is_space, octet_at};
use std::alloc::Global;

/// The digits of a hexadecimal string, and the offset of the mark that ended it.
#[derive(Drop)]
struct Digits {
    digits: Vec<u8>,
    end: usize,
}

/// Reads the hexadecimal string whose opening `#` is at `at`. Digits may be of either case. Whitespace is allowed
/// anywhere in it. Err is `Short` if the text ends before the closing `#`, `Bad` at the first other octet, or at the
/// closing `#` for an odd number of digits, or `Memory`.
pub(crate) fn read_hexadecimal(
    alloc: Global,
    text: &[u8],
    at: usize,
) -> Result<MarkedString, FormFault>
    requires { StandsAt text.now at 35 }
    ensures read { IfOk result (λ read. Reads IsHexadecimal text.now at read.octets.items read.end) }
    ensures only { (spelling octets rest : List ℕ) → IsHexadecimal spelling octets → drop at text.now ≡ spelling ++ rest → IsOkUnless result FormFault.Memory }
    ensures refused { IfErr result (λ fault. RefusesPart (Stands IsHexadecimal at) text.now at fault) }
    ensures begun { IfErr result (λ fault. IsBodyEnd is_hexadecimal_octet text.now (at + 1) fault) }
{
    let Digits { digits, end } = gather_digits(alloc, text, at + 1)?;
    match hex::decode(alloc, digits.as_slice()) {
        Ok(octets) => Ok(MarkedString {
            octets,
            end: end + 1,
        }),
        Err(error) => Err(digits_fault(error, end)),
    }
}

/// The fault of a hexadecimal string whose digits cannot be decoded: `Memory`, and for any other error `Bad` at the
/// offset `at` of its closing `#`. `gather_digits` keeps only digits, so the other error is that their number is odd.
fn digits_fault(error: FromHexError, at: usize) -> FormFault
    ensures fault { IsDigitsFault error at result }
    ensures there { IsFaultAt at result }
{
    match error {
        FromHexError::OutOfMemory => FormFault::Memory,
        _ => FormFault::Bad(at),
    }
}

/// Returns the hexadecimal digits from the offset `at` up to the closing `#`, without whitespace, and the offset of
/// this mark. `at` may be the end of the text. Err is `Short` if the text ends before the mark, `Bad` at the first
/// other octet, or `Memory`.
#[tactic(auto, using(crate::proofs::Marked::nothing_kept, crate::proofs::Marked::more_kept))]
fn gather_digits(alloc: Global, text: &[u8], at: usize) -> Result<Digits, FormFault>
    requires { at ≤ length text.now }
    ensures read { IfOk result (λ read. Keeps text.now at read.digits.items read.end × StandsAt text.now read.end 35) }
    ensures only { (body octets rest : List ℕ) → decode_of (visible body) ≡ Ok octets → drop at text.now ≡ body ++ 35 ∷ rest → IsOkUnless result FormFault.Memory }
    ensures refused { IfErr result (λ fault. RefusesPart (DigitsStand at) text.now at fault) }
    ensures begun { IfErr result (λ fault. IsBodyEnd is_hexadecimal_octet text.now at fault) }
{
    let mut digits = Vec::new(alloc);
    let mut i = at;
    while let Some(octet) = octet_at(text, i) {
        if octet == b'#' {
            return Ok(Digits { digits, end: i });
        }
        keep_digit(octet, i, &mut digits)?;
        i += 1;
    }
    Err(FormFault::Short)
}

/// Appends `octet` to `digits` if it is a hexadecimal digit, and skips it if it is whitespace. Err is `Memory`, or for
/// any other octet `Bad` at its offset `at`.
fn keep_digit(octet: u8, at: usize, digits: &mut Vec<u8>) -> Result<(), FormFault>
    ensures kept { OnOk result
        ((is_hexadecimal_octet octet ≡ true) × (digits.new.items ≡ digits.old.items ++ visible (octet ∷ []))) }
    ensures refused { IfErr result (λ fault. IsNoHexadecimalOctet octet at fault) }
{
    if is_space(octet) {
        return Ok(());
    }
    if !octet.is_ascii_hexdigit() {
        return Err(FormFault::Bad(at));
    }
    digits.push(octet)?;
    Ok(())
}
