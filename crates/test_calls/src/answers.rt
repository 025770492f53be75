//! How the values that calls return are written as answers to rows. A row is one line of a table of tests: the name of a call, and its arguments, the
//! texts.

use crate::failure::Failure;
use sexpr_core::{Sexp, encode};
use spki_cert::{Date, Entry, Key, Policy, Principal, SeqItem};
use spki_decision::{Decision, EntryFold, Evidence, Explanation, Reduction};
use spki_reduce::{Five, Fold, Four, Issuer, Joined};
use spki_tag::{Ground, Tag};
use std::alloc::Global;
use std::fmt::Debug;

/// The octets that are answered to a row, or why there are none.
pub type Reply = Result<Vec<u8>, Failure>;

/// A value that a call returns.
pub trait Answered {
    /// The answer to a row whose call returned this value.
    fn answered(&self, alloc: Global) -> Reply;
}

/// The answer to a row whose call returned this value. The value is dropped here, so that the proof of the caller does not go through its parts.
pub fn answer<T: Answered + Drop>(alloc: Global, value: T) -> Reply {
    value.answered(alloc)
}

/// A value that is read from a row's texts for several calls, such as a document or a case. `'x` is the lifetime of these texts. It is named since
/// two tuples that are joined must have the same: their names share a block, and its lifetime cannot be shortened.
pub trait Called<'x> {
    /// Does the call with this name on the value, and returns its answer. `texts` are texts of the row: each impl says which.
    fn call(&self, alloc: Global, name: &str, texts: &'x [Vec<u8>]) -> Reply;
}

/// The answer of a call on a value that was read, or the fault if it was not read. The value is dropped here.
pub fn call_on<'x, T: Called<'x> + Drop, E: Into<Failure>>(
    alloc: Global,
    value: Result<T, E>,
    name: &str,
    texts: &'x [Vec<u8>],
) -> Reply {
    match value {
        Ok(value) => value.call(alloc, name, texts),
        Err(fault) => Err(fault.into()),
    }
}

/// The answer that is this word. Err if memory ran out.
pub fn word(alloc: Global, word: &str) -> Reply {
    octets(alloc, word.as_bytes())
}

/// The answer that is a copy of these octets. Err if memory ran out.
pub fn octets(alloc: Global, octets: &[u8]) -> Reply {
    Ok(Vec::from_slice(alloc, octets)?)
}

/// The answer that is a value as `Debug` writes it, such as `[1, 2]`. Err if memory ran out.
pub fn shown<T: Debug>(alloc: Global, value: &T) -> Reply {
    Ok(format!(in alloc; "{value:?}")?.into_bytes())
}

/// The answer that is the octets of all parts, one after another. Err if memory ran out.
pub fn joined(alloc: Global, parts: &[&[u8]]) -> Reply {
    let mut out = Vec::new(alloc);
    for part in parts {
        out.extend_from_slice(part)?;
    }
    Ok(out)
}

/// The answer that is a number and, after a space, a value as `Debug` writes it: the item or step that stops a chain or fails a test, and why.
fn numbered<T: Debug>(alloc: Global, number: usize, value: &T) -> Reply {
    Ok(format!(in alloc; "{number} {value:?}")?.into_bytes())
}

impl<T: Answered, E: Copy + Into<Failure>> Answered for Result<T, E> {
    /// Answers Ok as its value is answered. Err is the fault, as a `Failure`.
    fn answered(&self, alloc: Global) -> Reply {
        match self {
            Ok(value) => value.answered(alloc),
            Err(fault) => Err((*fault).into()),
        }
    }
}

impl Answered for Vec<u8> {
    /// Answers octets with a copy of them.
    fn answered(&self, alloc: Global) -> Reply {
        octets(alloc, self)
    }
}

impl Answered for Vec<usize> {
    /// Answers numbers with their list as `Debug` writes it, such as `[1, 2]`.
    fn answered(&self, alloc: Global) -> Reply {
        shown(alloc, self)
    }
}

impl Answered for bool {
    /// Answers true with `yes` and false with `no`.
    fn answered(&self, alloc: Global) -> Reply {
        word(alloc, if *self { "yes" } else { "no" })
    }
}

impl Answered for Sexp {
    /// Answers a tree with its canonical form.
    fn answered(&self, alloc: Global) -> Reply {
        Ok(encode(alloc, self)?)
    }
}

impl Answered for Tag {
    /// Answers a tag with its canonical form.
    fn answered(&self, alloc: Global) -> Reply {
        answer(alloc, self.write(alloc))
    }
}

impl Answered for Ground {
    /// Answers a request with `yes`, since it was read. One that was refused is an Err, which is answered by its fault.
    fn answered(&self, alloc: Global) -> Reply {
        word(alloc, "yes")
    }
}

impl Answered for Key<'_> {
    /// Answers a key with its canonical octets, or with `no` if the principal that is this key does not name it. So each row that answers a key
    /// tests `Principal::names` too.
    fn answered(&self, alloc: Global) -> Reply {
        if Principal::Key(self.share()).names(self, Policy::Strict) {
            octets(alloc, self.as_slice())
        } else {
            word(alloc, "no")
        }
    }
}

impl Answered for Date {
    /// Answers a date with the 19 octets of its text, such as `2024-01-01_00:00:00`.
    fn answered(&self, alloc: Global) -> Reply {
        octets(alloc, self.as_slice())
    }
}

impl Answered for Vec<Entry<'_>> {
    /// Answers an access list with the number of its entries.
    fn answered(&self, alloc: Global) -> Reply {
        shown(alloc, &self.len())
    }
}

impl Answered for Vec<SeqItem<'_>> {
    /// Answers a sequence with the number of its items.
    fn answered(&self, alloc: Global) -> Reply {
        shown(alloc, &self.len())
    }
}

impl Answered for Five<'_> {
    /// Answers an authorization with its canonical form, `(five ..)`.
    fn answered(&self, alloc: Global) -> Reply {
        answer(alloc, self.write(alloc))
    }
}

impl Answered for Four<'_> {
    /// Answers a name's definition with the name, a space, and the rest as an authorization in canonical form. The issuer of this authorization
    /// is the key that defines the name. A definition has no tag and no delegation, so they are `(*)` and false.
    fn answered(&self, alloc: Global) -> Reply {
        let subject = self.subject.clone()?;
        let five = Five {
            issuer: Issuer::Key(self.key.share()),
            subject,
            propagate: false,
            tag: Tag::everything(),
            window: self.window,
        };
        let text = five.answered(alloc);
        drop(five);
        joined(alloc, &[self.name.as_slice(), b" ", &text?])
    }
}

impl<T: Answered> Answered for Joined<T> {
    /// Answers the join of two tuples with the tuple that they become, or with the cause if they do not join.
    fn answered(&self, alloc: Global) -> Reply {
        match self {
            Joined::Done(tuple) => tuple.answered(alloc),
            Joined::Stopped(cause) => shown(alloc, cause),
        }
    }
}

impl Answered for Fold<'_> {
    /// Answers the join of a chain with the authorization that it becomes, or with the number, from 1, of the step that stops it, and the cause.
    fn answered(&self, alloc: Global) -> Reply {
        match self {
            Fold::Done(five) => five.answered(alloc),
            Fold::Stopped { step, cause } => numbered(alloc, *step, cause),
        }
    }
}

impl Answered for EntryFold<'_> {
    /// Answers a fold (what an entry becomes with all certificates) with the authorization, or with the number, from 1, of the item whose
    /// certificate does not join, and the cause.
    fn answered(&self, alloc: Global) -> Reply {
        match self {
            EntryFold::Done(five) => five.answered(alloc),
            EntryFold::Stopped { item, cause } => numbered(alloc, *item, cause),
        }
    }
}

impl Answered for Evidence<'_> {
    /// Answers the evidence of a sequence with the number of its certificates if all pass their tests. Otherwise with the number, from 1, of the
    /// first item whose certificate fails a test, and this test.
    fn answered(&self, alloc: Global) -> Reply {
        match self {
            Evidence::Verified(steps) => shown(alloc, &steps.len()),
            Evidence::Fails { item, stop } => numbered(alloc, *item, stop),
        }
    }
}

impl Answered for Decision {
    /// Answers a decision as `Debug` writes it: `Yes(1)` if entry 1 grants the request, or `No`.
    fn answered(&self, alloc: Global) -> Reply {
        shown(alloc, self)
    }
}

impl Answered for (Decision, Decision) {
    /// Answers two decisions as `Debug` writes them, such as `(Yes(1), No)`.
    fn answered(&self, alloc: Global) -> Reply {
        shown(alloc, self)
    }
}

impl Answered for Explanation {
    /// Answers an explanation with the reasons of all entries, as `Debug` writes them. If a certificate fails a test, with the number, from 1, of
    /// the first such item, and this test.
    fn answered(&self, alloc: Global) -> Reply {
        match self {
            Explanation::Entries(reasons) => shown(alloc, reasons),
            Explanation::Evidence { item, stop } => numbered(alloc, *item, stop),
        }
    }
}

impl Answered for Reduction<'_> {
    /// Answers a reduction with a line for each entry. If a certificate fails a test, with the number, from 1, of the first such item, and this
    /// test.
    fn answered(&self, alloc: Global) -> Reply {
        match self {
            Reduction::Entries(folds) => lines_of(alloc, folds),
            Reduction::Evidence { item, stop } => numbered(alloc, *item, stop),
        }
    }
}

/// What each entry becomes, as the answer for `EntryFold` says it, with a line feed after each.
fn lines_of(alloc: Global, folds: &[EntryFold]) -> Reply {
    let mut out = Vec::new(alloc);
    for fold in folds {
        push_line(alloc, &mut out, fold)?;
    }
    Ok(out)
}

/// Appends to `out` what one entry becomes, as the answer for `EntryFold` says it, and a line feed.
fn push_line(alloc: Global, out: &mut Vec<u8>, fold: &EntryFold) -> Result<(), Failure> {
    out.extend_from_slice(&fold.answered(alloc)?)?;
    Ok(out.push(b'\n')?)
}
