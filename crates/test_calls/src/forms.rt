//! The calls for forms of S-expressions that take octets or a tree.
//! A call is done for a row of a test table: the call's name, and its arguments, the texts.

use crate::answers::{Called, Reply, answer, call_on, octets};
use crate::documents;
use crate::texts::at;
use sexpr_core::syntax::{append_verbatim, octets_in_braces, read_base64, wrap_octets};
use sexpr_core::{Sexp, decode, unwrap_braces, wrap};
use sexpr_text::{CanonicalText, Form, convert, print_advanced, read_advanced, read_any};
use std::alloc::Global;

/// Does the library call that `name` names, such as `decode`, with the texts of a row of a test table as its arguments, and returns its answer.
/// A name that this module does not have is passed on to the next module. None if no module has it.
pub(crate) fn call(alloc: Global, name: &str, texts: &[Vec<u8>]) -> Option<Reply> {
    let text = at(texts, 0);
    match name {
        "decode" => Some(answer(alloc, decode(alloc, text))),
        "read_any" => Some(answer(alloc, read_any(alloc, text))),
        "read_advanced" => Some(answer(alloc, read_advanced(alloc, text))),
        "unwrap_braces" => Some(answer(alloc, unwrap_braces(alloc, text))),
        "print_advanced" | "wrap" => Some(call_on(alloc, decode(alloc, text), name, texts)),
        _ => call_on_octets(alloc, name, texts),
    }
}

/// Does what `call` does, for the calls that take octets and not a tree.
fn call_on_octets(alloc: Global, name: &str, texts: &[Vec<u8>]) -> Option<Reply> {
    let text = at(texts, 0);
    match name {
        "append_verbatim" => Some(verbatim(alloc, text)),
        "wrap_octets" => Some(answer(alloc, wrap_octets(alloc, text))),
        "octets_in_braces" => Some(answer(alloc, octets_in_braces(alloc, text))),
        "read_base64" => Some(base64(alloc, text)),
        "CanonicalText::read" => Some(canonical(alloc, text)),
        "CanonicalText::made" => Some(made(alloc, text)),
        "CanonicalText::into_owned" => Some(owned(alloc, text)),
        "Sexp::clone" => Some(list_of(alloc, text)),
        _ => documents::call(alloc, name, texts),
    }
}

impl<'x> Called<'x> for Sexp {
    /// Does the call with this name on the tree, which was read from the row's only text. The `_` arm is `print_advanced`.
    fn call(&self, alloc: Global, name: &str, _: &'x [Vec<u8>]) -> Reply {
        match name {
            "wrap" => answer(alloc, wrap(alloc, self)),
            _ => answer(alloc, print_advanced(alloc, self)),
        }
    }
}

/// An opening parenthesis and, appended to it, the octets as a verbatim string. So the answer shows that `append_verbatim` keeps what was
/// there before.
fn verbatim(alloc: Global, octets: &[u8]) -> Reply {
    let mut out = Vec::from_slice(alloc, b"(")?;
    append_verbatim(octets, &mut out)?;
    Ok(out)
}

/// The octets that are written in base64 from the beginning of a text to its first closing brace.
fn base64(alloc: Global, text: &[u8]) -> Reply {
    Ok(read_base64(alloc, text, 0, b'}')?.octets)
}

/// The canonical octets that are kept of a text. Err is the fault that is kept in their place, if it has no value within the limits of its form.
fn octets_of(alloc: Global, text: &CanonicalText) -> Reply {
    let document = text.document(alloc)?;
    octets(alloc, document.top().slice())
}

/// The canonical octets of a text in any of the three forms, as `CanonicalText::read` reads it.
fn canonical(alloc: Global, text: &[u8]) -> Reply {
    let read = CanonicalText::read(alloc, text)?;
    octets_of(alloc, &read)
}

/// The canonical octets of a text in any of the three forms, as `CanonicalText::made` keeps what `convert` makes of the text.
fn made(alloc: Global, text: &[u8]) -> Reply {
    let made = CanonicalText::made(convert(alloc, Form::Canonical, text)?);
    octets_of(alloc, &made)
}

/// The canonical octets of a text in any of the three forms, as `CanonicalText::into_owned` keeps what `CanonicalText::read` reads.
fn owned(alloc: Global, text: &[u8]) -> Reply {
    let owned = CanonicalText::read(alloc, text)?.into_owned(alloc)?;
    octets_of(alloc, &owned)
}

/// A copy, by `Sexp::clone`, of the list that has these octets as its only member.
fn list_of(alloc: Global, octets: &[u8]) -> Reply {
    let list = Sexp::list(vec![in alloc; Sexp::plain(alloc, octets)?]?);
    let copy: Result<_, _> = list.clone();
    drop(list);
    answer(alloc, copy)
}
