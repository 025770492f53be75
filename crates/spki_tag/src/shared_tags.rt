//! The members of lists and sets, which copies of a tag share.

ghost use Rattle.std.specs.Prelude.{◌≡◌, IfOk};
ghost use Rattle.spki_tag.specs.Nodes.{shared_items};

use crate::tag::Tag;
use std::alloc::AllocError;
use std::sync::ArcSlice;

/// The members of a list after its head, or those of a set, in order. None if there are none: that takes no memory.
pub(crate) type SharedTags = Option<ArcSlice<Tag>>;

/// The tags of a vector, in order, so that they can be shared. `Ok(None)` if there are none. Err if memory ran out.
pub(crate) fn into_shared(tags: Vec<Tag>) -> Result<SharedTags, AllocError>
    ensures { IfOk result (λ members. shared_items members ≡ tags.items) }
{
    if tags.is_empty() {
        return Ok(None);
    }
    Ok(Some(ArcSlice::from_vec(tags)?))
}

/// The same tags once more, for a copy of the tag that has them. Nothing is copied. Err if they are shared too often to count.
pub(crate) fn share_again(members: &SharedTags) -> Result<SharedTags, AllocError>
    ensures { IfOk result (λ copy. shared_items copy ≡ shared_items members.now) }
{
    match members {
        None => Ok(None),
        Some(tags) => Ok(Some(tags.clone()?)),
    }
}

/// The tags as a slice, in order. Empty for None.
pub(crate) fn tags_in(members: &SharedTags) -> &[Tag]
    ensures { result.now ≡ shared_items members.now }
{
    match members {
        None => &[],
        Some(tags) => tags.as_slice(),
    }
}
