//! Examples of callers of `spki_service`, which hold an access list: one decides two questions, and one may share its guard among threads.

ghost use Rattle.std.specs.Prelude.{◌≡◌, ℕ, List, IfOk};
ghost use Rattle.spki_service.specs.AccessLists.{HoldsList};
ghost use Rattle.test_callers.specs.Service.{unrevoked, AnswersQuestion};

use crate::decisions::Unrevoked;
use spki_case::Verifier;
use spki_cert::{Key, Policy};
use spki_decision::Decision;
use spki_service::{AclFault, AskFault, Guard, Limits, Question};
use std::alloc::Global;
use thiserror::Error;

/// Why a service does not answer.
#[derive(Clone, Copy, Debug, PartialEq, Eq, Error)]
pub enum ServiceFault {
    /// Its list is no access list, or memory ran out while it was read.
    #[error("{0}")]
    List(AclFault),
    /// The question is refused, or memory ran out while it was read.
    #[error("{0}")]
    Question(AskFault),
    /// Memory ran out while the question was decided.
    #[error("out of memory")]
    Memory,
}

/// The decision of a guard on one question, for `answer_both`. A signature of a revoked key is not accepted. Err is `Question` if the
/// question is refused or memory ran out while it was read, and `Memory` if memory ran out while it was decided.
fn answer<V: Verifier>(
    alloc: Global,
    guard: &Guard,
    question: &Question,
    verifier: &Unrevoked<V>,
) -> Result<Decision, ServiceFault>
    ensures { IfOk result (AnswersQuestion guard.now.texts guard.now.policy question.now
        (unrevoked verifier.now.revoked.now (V.accepted verifier.now.verifier.now))) }
{
    let texts = match guard.texts(alloc, question) {
        Ok(texts) => texts,
        Err(fault) => return Err(ServiceFault::Question(fault)),
    };
    let asked = match guard.ask(alloc, &texts) {
        Ok(asked) => asked,
        Err(fault) => return Err(ServiceFault::Question(fault)),
    };
    let decided = asked.decide(alloc, verifier);
    drop(asked);
    drop(texts);
    match decided {
        Ok(decision) => Ok(decision),
        Err(_) => Err(ServiceFault::Memory),
    }
}

/// Reads an access list once and answers two questions with it, under the strict policy. No signature of a revoked key is
/// accepted.
///
/// # Errors
///
/// `List` if the list is refused, `Question` if a question is, or memory ran out for it. `Memory` if it ran out later.
pub fn answer_both<V: Verifier>(
    alloc: Global,
    list: &[u8],
    first: &Question,
    second: &Question,
    verifier: &V,
    revoked: &[Key],
) -> Result<(Decision, Decision), ServiceFault>
    ensures { IfOk result (λ both. (texts : List (List ℕ)) × HoldsList list.now texts
        × AnswersQuestion texts Policy.Strict first.now (unrevoked revoked.now (V.accepted verifier.now)) both.0
        × AnswersQuestion texts Policy.Strict second.now (unrevoked revoked.now (V.accepted verifier.now)) both.1) }
{
    let guard = match Guard::read(alloc, list, Policy::Strict, Limits::default()) {
        Ok(guard) => guard,
        Err(fault) => return Err(ServiceFault::List(fault)),
    };
    let unrevoked = Unrevoked { verifier, revoked };
    let to_first = answer(alloc, &guard, first, &unrevoked)?;
    let to_second = answer(alloc, &guard, second, &unrevoked)?;
    Ok((to_first, to_second))
}

/// Returns `value` unchanged. It is there for its bound: a call compiles only for a type whose values may be sent to another thread
/// (`Send`), and may be used by several threads at the same time (`Sync`).
fn shareable<T: Send + Sync>(value: T) -> T
    ensures { result ≡ value }
{
    value
}

/// Reads the access list of a service whose threads ask one guard, under the strict policy. `shareable` shows that they may.
///
/// # Errors
///
/// `Form`, `Acl` or `Memory`, as for `Guard::read`.
pub fn shared_guard(alloc: Global, list: &[u8]) -> Result<Guard, AclFault>
    ensures list { IfOk result (λ guard. HoldsList list.now guard.texts) }
    ensures policy { IfOk result (λ guard. guard.policy ≡ Policy.Strict) }
{
    let guard = Guard::read(alloc, list, Policy::Strict, Limits::default())?;
    Ok(shareable(guard))
}
