//! Requests that are given as strings.

ghost use Rattle.std.specs.Prelude.{◌≡◌, map, IfOk};
ghost use Rattle.sexpr_core.specs.Value.{canon};
ghost use Rattle.spki_service.specs.Questions.{words_value};

use sexpr_core::syntax::append_verbatim;
use std::alloc::{AllocError, Global};

/// Returns the canonical text of a request's strings: that of the list of them, or of the string if there is only one.
/// Without strings it is `()`. `append_verbatim` adds a string as its length, a colon and its octets. Err if memory ran out.
pub(crate) fn words_text(alloc: Global, words: &[&[u8]]) -> Result<Vec<u8>, AllocError>
    ensures { IfOk result (λ out. out.items ≡ canon (words_value (map (λ w. w.now) words.now))) }
{
    let mut out = Vec::new(alloc);
    if words.len() == 1 {
        append_verbatim(words[0], &mut out)?;
        return Ok(out);
    }
    out.push(b'(')?;
    for word in words {
        append_verbatim(word, &mut out)?;
    }
    out.push(b')')?;
    Ok(out)
}
