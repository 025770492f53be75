//! The calls for cases. A call is done for a row of a test table: the call's name, and its arguments, the texts.

use crate::answers::{Called, Reply, answer, call_on};
use crate::guards;
use crate::texts::at;
use crate::verifier::{CalledBy, RowVerifier, with_verifier};
use spki_case::Case;
use spki_decision::{decide, explain, judge, reduce_case};
use std::alloc::Global;

/// Does the library call that `name` names, such as `Case::read`, with the texts of a row of a test table as its arguments, and returns its answer.
/// A name that this module does not have is passed on to the next module. None if no module has it.
pub(crate) fn call(alloc: Global, name: &str, texts: &[Vec<u8>]) -> Option<Reply> {
    match name {
        "Case::read" | "judge" | "decide" | "explain" | "reduce_case" => {
            Some(call_on(alloc, Case::read(alloc, at(texts, 0)), name, texts))
        }
        _ => guards::call(alloc, name, texts),
    }
}

impl<'x> Called<'x> for Case<'_> {
    /// Does the call with this name on the case, which was read from the first of `texts`. The second names the verifier (`RowVerifier::read`),
    /// for the calls of the `_` arm: `judge`, `decide`, `explain` and `reduce_case`.
    fn call(&self, alloc: Global, name: &str, texts: &'x [Vec<u8>]) -> Reply {
        match name {
            "Case::read" => counted(alloc, self),
            _ => with_verifier(alloc, name, self, at(texts, 1)),
        }
    }
}

/// The answer of `Case::read`: how many entries the access list has and, after a space, how many items the sequence has.
fn counted(alloc: Global, case: &Case) -> Reply {
    two_numbers(alloc, case.acl.len(), case.sequence.len())
}

/// The answer that is two numbers and a space between them. Err if memory ran out.
fn two_numbers(alloc: Global, one: usize, other: usize) -> Reply {
    Ok(format!(in alloc; "{one} {other}")?.into_bytes())
}

/// What a call on a case asks for. It is matched in place of the call's name, since comparing names is slow to prove where a case is in scope: the
/// proof of each comparison goes through all parts of the case.
#[derive(Clone, Copy)]
enum Wanted {
    /// Which certificates are verified.
    Evidence,
    /// The decision.
    Decision,
    /// Why each entry grants or does not.
    Explanation,
    /// What each entry becomes.
    Reduction,
}

/// What the call with this name asks for. The `_` arm is `reduce_case`.
fn wanted_by(name: &str) -> Wanted {
    match name {
        "judge" => Wanted::Evidence,
        "decide" => Wanted::Decision,
        "explain" => Wanted::Explanation,
        _ => Wanted::Reduction,
    }
}

impl CalledBy for Case<'_> {
    /// Does the call with this name, by this verifier, on a case.
    fn call_by(&self, alloc: Global, name: &str, verifier: &RowVerifier) -> Reply {
        match wanted_by(name) {
            Wanted::Evidence => judged(alloc, self, verifier),
            Wanted::Decision => answer(alloc, decide(alloc, self, verifier)),
            Wanted::Explanation => answer(alloc, explain(alloc, self, verifier)),
            Wanted::Reduction => answer(alloc, reduce_case(alloc, self, verifier)),
        }
    }
}

/// The answer of `judge` on a case's sequence, by this verifier.
fn judged(alloc: Global, case: &Case, verifier: &RowVerifier) -> Reply {
    answer(alloc, judge(alloc, &case.sequence, case.policy, verifier))
}
