//! Whether a text opens with a brace.

ghost use Rattle.std.specs.Prelude.{◌≡◌, ℕ, List, ◌≤◌, ◌↔◌, ◌∷◌, length, drop, IsTrue};

use sexpr_core::syntax::octet_at;

/// Whether an opening brace is at the offset `at`. False at the end of the text. A text whose first octet past whitespace
/// is an opening brace is read as transport form, and any other as advanced form.
pub(crate) fn opens_braces(text: &[u8], at: usize) -> bool
    requires { at ≤ length text.now }
    ensures { IsTrue result ↔ ((rest : List ℕ) × (drop at text.now ≡ 123 ∷ rest)) }
{
    match octet_at(text, at) {
        Some(octet) => octet == b'{',
        None => false,
    }
}
