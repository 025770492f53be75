//! Whether a tag has a set somewhere in it.

ghost use Rattle.std.specs.Prelude.{◌≡◌};
ghost use Rattle.spki_tag.specs.Tag.{tags, nests_set, some_nests_set};

use crate::shared_tags::tags_in;
use crate::tag::{Node, Tag};

impl Tag {
    /// Whether the tag is a set, also `(* set)`, or has a set as a member at any depth. `spki_decision` calls this to know how large
    /// intersections can become: without sets they have at most the sum of the nodes of both tags. Allocates nothing.
    #[cycle(nests_set)]
    pub fn nests_set(&self) -> bool
        ensures { result ≡ nests_set self.now }
    {
        match &self.node {
            Node::Leaf(_) => false,
            Node::List(_, further, _) => some_nests_set(tags_in(further)),
            Node::Set(_, _) => true,
        }
    }
}

/// Whether at least one of the tags is a set, or has one as a member at any depth.
#[cycle(nests_set)]
fn some_nests_set(members: &[Tag]) -> bool
    ensures { result ≡ some_nests_set (tags members.now) }
{
    for member in members {
        if member.nests_set() {
            return true;
        }
    }
    false
}
