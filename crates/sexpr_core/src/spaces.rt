//! Octets of a text by their offsets, and whitespace.

ghost use Rattle.std.specs.Prelude.{◌≡◌, ◌≤◌, [], length, drop, MatchOption, IfErr, OnOk, IsOkUnless};
ghost use Rattle.sexpr_core.specs.Reading.{IsTrailingBehind, StandsAt, is_whitespace, AreSpaces, Skips};

use crate::fault::FormFault;

/// The octet at the offset `at`, from 0, which is at most the length of the text. None at the end of the text.
pub fn octet_at(text: &[u8], at: usize) -> Option<u8>
    requires { at ≤ length text.now }
    ensures { MatchOption result (drop at text.now ≡ []) (λ octet. StandsAt text.now at octet) }
{
    if at < text.len() {
        Some(text[at])
    } else {
        None
    }
}

/// Whether an octet is whitespace: space, HT, LF, VT, FF or CR.
pub fn is_space(octet: u8) -> bool
    ensures { result ≡ is_whitespace octet }
{
    octet == b' ' || (octet >= 9 && octet <= 13)
}

/// Returns the offset of the first octet from `at` on that is not whitespace, or the length of the text if there is
/// none. `at` is at most this length.
#[tactic(auto, using(crate::proofs::Spans::nothing_passed, crate::proofs::Spans::one_passed))]
pub fn skip_spaces(text: &[u8], at: usize) -> usize
    requires { at ≤ length text.now }
    ensures { Skips text.now at result }
{
    let mut i = at;
    while let Some(octet) = octet_at(text, i) {
        if !is_space(octet) {
            return i;
        }
        i += 1;
    }
    i
}

/// Checks that nothing but whitespace follows in the text, from the offset `at` on, which may be its end.
///
/// # Errors
///
/// Trailing: at the first other octet.
pub fn ended(text: &[u8], at: usize) -> Result<(), FormFault>
    requires { at ≤ length text.now }
    ensures read { OnOk result (AreSpaces (drop at text.now)) }
    ensures only { AreSpaces (drop at text.now) → IsOkUnless result FormFault.Memory }
    ensures refused { IfErr result (λ fault. IsTrailingBehind text.now at fault) }
{
    let end = skip_spaces(text, at);
    if end < text.len() {
        return Err(FormFault::Trailing(end));
    }
    Ok(())
}
