//! The calls for windows, and for keys that a principal names.
//! A call is done for a row of a test table: the call's name, and its arguments, the texts.

use crate::answers::{Reply, answer, shown, word};
use crate::failure::Failure;
use crate::texts::{at, keys, read};
use crate::tuples;
use spki_cert::{Date, HashAlg, Key, Octets, Principal, Window};
use std::alloc::Global;

/// Does the library call that `name` names, such as `Window::meet`, with the texts of a row of a test table as its arguments, and returns its answer.
/// A name that this module does not have is passed on to the next module. None if no module has it.
pub(crate) fn call(alloc: Global, name: &str, texts: &[Vec<u8>]) -> Option<Reply> {
    match name {
        "Window::holds" | "Window::meet" => Some(at_moment(alloc, name, texts)),
        "first_named" => Some(first_named(alloc, texts)),
        _ => tuples::call(alloc, name, texts),
    }
}

/// The limit of a window that a text is: a date in canonical form, or no limit (Ok with None) for an empty text.
fn limit(alloc: Global, text: &[u8]) -> Result<Option<Date>, Failure> {
    if text.is_empty() {
        return Ok(None);
    }
    Ok(Some(read(alloc, text)?))
}

/// The window from one limit until another. Each is the text of a date, or empty for no limit.
fn window(alloc: Global, from: &[u8], until: &[u8]) -> Result<Window, Failure> {
    Ok(Window {
        not_before: limit(alloc, from)?,
        not_after: limit(alloc, until)?,
    })
}

/// Whether the moment of the third text is within a window. For `Window::holds` this is the window from the first text until the second.
/// The `_` arm is `Window::meet`, and the window is the intersection of the one until the first text and the one from the second on. The
/// answer is `no moment` if that is None.
fn at_moment(alloc: Global, name: &str, texts: &[Vec<u8>]) -> Reply {
    let (one, other) = (at(texts, 0), at(texts, 1));
    let moment: Date = read(alloc, at(texts, 2))?;
    let both = match name {
        "Window::holds" => Some(window(alloc, one, other)?),
        _ => meet(alloc, one, other)?,
    };
    match both {
        None => word(alloc, "no moment"),
        Some(both) => answer(alloc, both.holds(&moment)),
    }
}

/// The intersection of the window until one limit and the window from another on. Ok with None if no moment is within both.
fn meet(alloc: Global, until: &[u8], from: &[u8]) -> Result<Option<Window>, Failure> {
    let up_to = window(alloc, b"", until)?;
    Ok(up_to.meet(&window(alloc, from, b"")?))
}

/// A digest that two keys share in `is_owner`. No two keys are known that share a real SHA-256 digest.
const SHARED: &[u8] = b"0123456789abcdef0123456789abcdef";

/// One of the two keys that share the digest `SHARED`, in canonical form.
const OWNER: &[u8] = b"(10:public-key(4:test1:a))";

/// The other of the two keys.
const OTHER_OWNER: &[u8] = b"(10:public-key(4:test1:b))";

/// Stands in for `Principal::names`, which says whether a principal names a key: as if the keys `OWNER` and `OTHER_OWNER` both had the digest
/// `SHARED`, and a hash with any other digest named no key.
fn is_owner(principal: &Principal, key: &Key) -> bool {
    match principal {
        Principal::Key(own) => own.same(key),
        Principal::Hash { digest, .. } => {
            digest.as_slice() == SHARED
                && (key.as_slice() == OWNER || key.as_slice() == OTHER_OWNER)
        }
    }
}

/// The index, from 0, of the first key of the texts that has the digest `SHARED` by `is_owner`, found by the library's `first_named`. None if
/// there is none. Since two keys have this digest, rows show that the library takes the first of several.
fn first_named(alloc: Global, texts: &[Vec<u8>]) -> Reply {
    let keys = keys(alloc, texts)?;
    let hash = Principal::Hash {
        alg: HashAlg::Sha256,
        digest: Octets::new(SHARED),
    };
    shown(alloc, &spki_decision::first_named(&hash, &keys, is_owner))
}
