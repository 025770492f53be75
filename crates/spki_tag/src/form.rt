//! The form of a tag, for callers that examine its members.

ghost use Rattle.std.specs.{Prelude.{◌≡◌, ◌↔◌, ◌||◌, IsTrue}, List.{list_any}};
ghost use Rattle.spki_tag.specs.{Leaves.{leaf_tag}, Limits.{limit_of}, TagForms.{IsFormOf, limit_shown}};
ghost use Rattle.spki_tag.specs.Tag as spec;

use crate::leaf::{Leaf, Limit, RangeOrdering};
use crate::shared_tags::tags_in;
use crate::tag::{Node, Tag};

/// A limit of a range, as callers see it.
#[derive(Clone, Copy)]
pub struct TagLimit<'a> {
    /// Whether the range excludes the string itself.
    pub strict: bool,
    /// The string.
    pub octets: &'a [u8],
}

/// What `Tag::form` returns: a tag without members, or the members of a tag (RFC 2693, section 6.3.1).
#[derive(Clone, Copy)]
pub enum TagForm<'a> {
    /// `(*)`.
    Everything,
    /// A string: its octets.
    String(&'a [u8]),
    /// `(* prefix p)`: the octets of `p`.
    Prefix(&'a [u8]),
    /// `(* range ordering low? up?)`.
    Range {
        /// Which strings the range may contain at all.
        ordering: RangeOrdering,
        /// The lower limit. None if there is none.
        low: Option<TagLimit<'a>>,
        /// The upper limit. None if there is none.
        up: Option<TagLimit<'a>>,
    },
    /// `(head t ..)`.
    List {
        /// The first member of the list, a string.
        head: &'a [u8],
        /// The tags after it, in order.
        further: &'a [Tag],
    },
    /// `(* set t ..)`.
    Set {
        /// The members, in order.
        members: &'a [Tag],
    },
}

/// A limit of a range as a `TagLimit`, the form that callers see. None if there is no limit. The definition `limit_shown` in the contract is
/// not this function: it returns the limit in the specification that a `TagLimit` shows.
fn limit_shown(limit: &Option<Limit>) -> Option<TagLimit<'_>>
    ensures { limit_shown result ≡ limit_of limit.now }
{
    match limit {
        None => None,
        Some(limit) => Some(TagLimit {
            strict: limit.strict,
            octets: limit.octets.as_slice(),
        }),
    }
}

/// The form of a tag without members, for callers: `(*)`, a string, a prefix, or a range with its ordering and limits.
fn leaf_form(leaf: &Leaf) -> TagForm<'_>
    ensures { IsFormOf (leaf_tag leaf.now) result }
{
    match leaf {
        Leaf::Star => TagForm::Everything,
        Leaf::String(octets) => TagForm::String(octets.as_slice()),
        Leaf::Prefix(prefix) => TagForm::Prefix(prefix.octets()),
        Leaf::Range(range) => TagForm::Range {
            ordering: range.ordering,
            low: limit_shown(&range.low),
            up: limit_shown(&range.up),
        },
    }
}

impl Tag {
    /// The form of the tag, with its string, its limits or its members.
    pub fn form(&self) -> TagForm<'_>
        ensures { IsFormOf self.now result }
    {
        match &self.node {
            Node::Leaf(leaf) => leaf_form(leaf),
            Node::List(head, further, _) => TagForm::List {
                head: head.as_slice(),
                further: tags_in(further),
            },
            Node::Set(members, _) => TagForm::Set {
                members: tags_in(members),
            },
        }
    }

    /// Whether this is `(*)`, the tag that contains every request. The clause `normal` is true of every tag, and is there for the proofs of
    /// callers.
    pub(crate) fn is_everything(&self) -> bool
        ensures value { result ≡ spec.is_star self.now }
        ensures normal { spec.IsNormalTag self.now }
    {
        match &self.node {
            Node::Leaf(Leaf::Star) => true,
            Node::Leaf(_) => false,
            Node::List(_, _, _) => false,
            Node::Set(_, _) => false,
        }
    }

    /// Whether this is `(* set)`, the tag that contains no request. Other tags may contain no request too, such as a range
    /// whose limits exclude each other.
    pub fn is_nothing(&self) -> bool
        ensures { IsTrue result ↔ (self.now ≡ spec.set spec.none) }
    {
        match &self.node {
            Node::Leaf(_) => false,
            Node::List(_, _, _) => false,
            Node::Set(members, _) => tags_in(members).is_empty(),
        }
    }
}

/// Whether the tag is a set, `(* set ..)`. The tag `(*)` is no set.
fn is_set(tag: &Tag) -> bool
    ensures { result ≡ spec.is_set tag.now }
{
    match &tag.node {
        Node::Leaf(_) => false,
        Node::List(_, _, _) => false,
        Node::Set(_, _) => true,
    }
}

/// Whether at least one of two tags has the form `(* set ..)`: then their intersection is made member by member. Sets further inside do not
/// matter.
pub(crate) fn has_set(one: &Tag, other: &Tag) -> bool
    ensures { result ≡ (spec.is_set one.now || spec.is_set other.now) }
{
    is_set(one) || is_set(other)
}

/// Whether one of these tags is `(*)`, so that the set of them is `(*)`. Tags inside of these are not tested.
pub(crate) fn any_is_everything(members: &[Tag]) -> bool
    ensures { result ≡ list_any spec.is_star members.now }
{
    members.iter().any(|member| member.is_everything())
}

/// Whether one of these tags is `(* set)`, so that a list of them contains no request. Tags inside of these are not tested.
pub(crate) fn any_is_nothing(members: &[Tag]) -> bool
    ensures { result ≡ list_any spec.is_nothing members.now }
{
    members.iter().any(|member| member.is_nothing())
}
