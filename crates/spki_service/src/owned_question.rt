//! Questions that own what they need. The handle `spki_asked` of `spki.h` points to one.

use crate::owned_signed::OwnedSigned;
use crate::shared::SharedGuard;
use crate::texts::Texts;
use spki_decision::Grant;

/// A question that was read for a guard, with all that it needs: the guard, the canonical texts of its parts, the
/// signatures that a verifier is asked about, marks that say which of them are valid, and what is granted if all of them are. The texts
/// that it was read from may change or be freed.
#[derive(Drop)]
pub struct OwnedQuestion {
    /// The guard, which it owns with others.
    pub(crate) guard: SharedGuard,
    /// The canonical texts of the question's parts.
    pub(crate) texts: Texts<'static>,
    /// The signatures that a verifier is asked about, in order.
    pub(crate) signed: Vec<OwnedSigned>,
    /// For each of these signatures, whether it is marked as valid.
    pub(crate) marks: Vec<bool>,
    /// What is granted if all these signatures are valid. It is no answer before each has a mark.
    pub(crate) if_valid: Option<Grant>,
}
