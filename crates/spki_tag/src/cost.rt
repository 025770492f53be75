//! What the intersection of a tag with another costs, from the sizes of the tag alone. The units are those of work, by which `spki_reduce`
//! limits the reduction of a chain.

ghost use Rattle.std.specs.{Prelude.{◌≡◌, ◌^◌, ◌<◌}, Option.{SomeIff}};
ghost use Rattle.spki_tag.specs.{Cost.{limit_octets, node_cost, node_costs}, Leaves.{leaf_tag}, Limits.{limit_of}, Tag.{tags}};

use crate::leaf::{Leaf, Limit};
use crate::shared_tags::tags_in;
use crate::tag::{Node, Tag};

/// What a string, a set or `(*)` costs, without its octets and members: 15 for a node, and 1 for a tag.
const PLAIN: usize = 16;

/// What a list costs, without the octets of its head and without its members: 15 for itself, 15 for its head, and 1 for a tag.
const LIST: usize = 31;

/// What a prefix or a range costs, without its octets: 48 more than a string, since its intersection may be a new range.
const RANGE: usize = 64;

impl Tag {
    /// How many units of work it costs to intersect one node of another tag with this tag: 15 for each node of this tag, one for each tag
    /// in it (the head of a list is a node and no tag), one for each octet of its strings, and 48 for each prefix and range. docs/FORMATS.md
    /// sets these numbers, for the limit `work`. The cost of an intersection is this for each node of the other tag. None if it is 2^64 or
    /// more. Allocates nothing.
    #[cycle(cost)]
    pub fn node_cost(&self) -> Option<usize>
        ensures { SomeIff result (node_cost self.now < 2 ^ 64) (node_cost self.now) }
    {
        match &self.node {
            Node::Leaf(leaf) => leaf.node_cost(),
            Node::List(head, further, _) => {
                let members = costs_of(tags_in(further))?;
                let octets = head.as_slice().len();
                members.checked_add(octets)?.checked_add(LIST)
            }
            Node::Set(members, _) => costs_of(tags_in(members))?.checked_add(PLAIN),
        }
    }
}

/// The sum of the `Tag::node_cost` of these tags, without the cost of the list or set that has them. None if it is 2^64 or more.
#[cycle(cost)]
fn costs_of(members: &[Tag]) -> Option<usize>
    ensures { SomeIff result (node_costs (tags members.now) < 2 ^ 64) (node_costs (tags members.now)) }
{
    let mut sum: usize = 0;
    for member in members {
        let cost = member.node_cost()?;
        sum = sum.checked_add(cost)?;
    }
    Some(sum)
}

impl Leaf {
    /// `Tag::node_cost` of a tag without members: 16, or 64 for a prefix or a range, and one for each octet. None if it is 2^64 or more.
    fn node_cost(&self) -> Option<usize>
        ensures { SomeIff result (node_cost (leaf_tag self.now) < 2 ^ 64) (node_cost (leaf_tag self.now)) }
    {
        match self {
            Leaf::Star => Some(PLAIN),
            Leaf::String(octets) => octets.as_slice().len().checked_add(PLAIN),
            Leaf::Prefix(prefix) => prefix.octets().len().checked_add(RANGE),
            Leaf::Range(range) => {
                let low = octets_of(&range.low);
                low.checked_add(octets_of(&range.up))?.checked_add(RANGE)
            }
        }
    }
}

/// How many octets the string of a limit has. 0 if the limit is missing.
fn octets_of(limit: &Option<Limit>) -> usize
    ensures { result ≡ limit_octets (limit_of limit.now) }
{
    match limit {
        None => 0,
        Some(limit) => limit.octets.as_slice().len(),
    }
}
