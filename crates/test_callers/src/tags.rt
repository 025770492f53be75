//! An example of a caller of `spki_tag`, which its `CALLING.md` quotes.

ghost use Rattle.std.specs.Prelude.{◌≡◌, ◌&&◌, IfOk, IfErr};
ghost use Rattle.spki_tag.specs.{Request.{Request, IsRequest}, Tag.{Tag, contains}, Reading.{ReadsAs}};
ghost use Rattle.test_callers.specs.Service.{IsNotNarrowed};

use sexpr_core::syntax::Node;
use spki_tag::{MeetFault, Tag, TagFault};
use std::alloc::Global;
use thiserror::Error;

/// Why a service's tag is not narrowed.
#[derive(Clone, Copy, Debug, PartialEq, Eq, Error)]
pub enum NarrowFault {
    /// The given value is no tag.
    #[error("tag: {0}")]
    Tag(TagFault),
    /// The two tags are not intersected.
    #[error("meet: {0}")]
    Meet(MeetFault),
}

/// The intersection of a service's own tag and a given tag: the tag of the requests that both contain.
///
/// # Errors
///
/// `Tag` with the fault of `Tag::of`, otherwise `Meet` with the fault of `Tag::meet`.
pub fn narrowed(alloc: Global, own: &Tag, given: &Node) -> Result<Tag, NarrowFault>
    ensures both { IfOk result (λ both. (t : Tag) × ReadsAs given.now t
        × ((g : Request) → IsRequest g → contains both g ≡ (contains own.now g && contains t g))) }
    ensures refused { IfErr result (IsNotNarrowed own.now given.now) }
{
    let given = Tag::of(alloc, given).map_err(NarrowFault::Tag)?;
    match own.meet(alloc, &given) {
        Ok(both) => Ok(both),
        Err(fault) => Err(NarrowFault::Meet(fault)),
    }
}
