//! What a C program holds by a pointer: a guard, or an opened question.
ghost use Rattle.std.specs.Prelude.{◌≡◌, ◌≢◌, ◌↔◌, IfOk, IsTrue, MatchOption};
ghost use Rattle.spki_service.specs.AccessLists.{GuardModel};
ghost use Rattle.spki_c.specs.HandleValues.{IsQuestion, IsMarkedBy};

use spki_guard::{OwnedQuestion, SharedGuard};
use std::alloc::{AllocError, Global};

/// A value that a C program holds.
#[derive(Drop)]
pub enum HandleValue {
    /// A guard: an access list that was read once.
    Guard(SharedGuard),
    /// An opened question: it was read for a guard, and has a mark for each signature that the caller says is valid.
    Question(OwnedQuestion),
}

impl HandleValue {
    /// The guard that the C program holds. None if it holds a question.
    pub(crate) fn guard(&self) -> Option<&SharedGuard>
        ensures { MatchOption result ((g : GuardModel) → self.now ≢ HandleValue.Guard g) (λ g. self.now ≡ HandleValue.Guard g.now) }
    {
        match self {
            HandleValue::Guard(guard) => Some(guard),
            HandleValue::Question(_) => None,
        }
    }

    /// The opened question that the C program holds. None if it holds a guard.
    pub(crate) fn question(&self) -> Option<&OwnedQuestion>
        ensures { MatchOption result ((o : OwnedQuestion) → self.now ≢ HandleValue.Question o) (λ o. self.now ≡ HandleValue.Question o.now) }
    {
        match self {
            HandleValue::Guard(_) => None,
            HandleValue::Question(opened) => Some(opened),
        }
    }

    /// Whether the value is a question. If not, it is a guard.
    pub(crate) fn is_question(&self) -> bool
        ensures { IsTrue result ↔ IsQuestion self.now }
    {
        match self {
            HandleValue::Guard(_) => false,
            HandleValue::Question(_) => true,
        }
    }

    /// Marks the signature at this index of a question, from 0, as valid, as `OwnedQuestion::mark` does, and returns true. Returns
    /// false, and changes nothing, if there is no signature at this index, and for a guard.
    pub(crate) fn mark(&mut self, index: usize) -> bool
        ensures { IsMarkedBy self.old index self.new result }
    {
        match self {
            HandleValue::Guard(_) => false,
            HandleValue::Question(opened) => opened.mark(index),
        }
    }
}

/// Puts a guard or a question on the heap. Err if memory ran out.
pub(crate) fn boxed(alloc: Global, content: HandleValue) -> Result<Box<HandleValue>, AllocError>
    ensures { IfOk result (λ b. b.value ≡ content) }
{
    match Box::new(alloc, content) {
        Ok(held) => Ok(held),
        Err(_) => Err(AllocError),
    }
}
