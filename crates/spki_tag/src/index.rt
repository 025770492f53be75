//! An index of the members of a tag by kind and string. The kind says what a member can contain: any requests, strings, one string, or the
//! lists with one head. With the index, another tag is intersected only with those members that can have a request in common with it, as
//! far as their kinds and strings show.

ghost use Rattle.std.specs.{Prelude.{◌≡◌, ◌++◌, [], ℕ, List, IfOk, OnOk}, Str.{bytes_eq}};
ghost use Rattle.spki_tag.specs.{Meet.{kind, may_share, members, places_where}, Places.{kind_of, found_at, place_if, ArePlacesOf, IsAdded}};

use crate::leaf::Leaf;
use crate::merge::merged;
use crate::shared_tags::tags_in;
use crate::tag::{Node, Tag};
use std::alloc::{AllocError, Global};
use std::collections::BTreeMap;
use std::marker::Model;
use std::slice;

impl Tag {
    /// The members of a set, in order. A tag that is no set, also a list, is its own only member: so every tag is treated as a set.
    #[tactic(auto, using(crate::proofs::Exact::items_tags))]
    pub(crate) fn members(&self) -> &[Tag]
        ensures { result.now ≡ members self.now }
    {
        match &self.node {
            Node::Leaf(_) => slice::from_ref(self),
            Node::List(_, _, _) => slice::from_ref(self),
            Node::Set(members, _) => tags_in(members),
        }
    }
}

/// The kind of a tag: which requests it can contain, as far as its form and its string or head show. If the kinds of two tags have no
/// request in common, the intersection of the tags is `(* set)`.
#[derive(Clone, Copy)]
enum Kind<'a> {
    /// Any: a set or `(*)`.
    Any,
    /// Strings: a prefix or a range.
    Strings,
    /// One string.
    One(&'a [u8]),
    /// Lists with one head.
    Lists(&'a [u8]),
}

impl<'a> Kind<'a> {
    /// The kind of a tag: any requests for a set or `(*)`, strings for a prefix or a range, one string, or the lists with one head.
    fn of(tag: &'a Tag) -> Kind<'a>
        ensures { kind_of result ≡ kind tag.now }
    {
        match &tag.node {
            Node::Leaf(leaf) => match leaf {
                Leaf::Star => Kind::Any,
                Leaf::String(octets) => Kind::One(octets.as_slice()),
                Leaf::Prefix(_) => Kind::Strings,
                Leaf::Range(_) => Kind::Strings,
            },
            Node::List(head, _, _) => Kind::Lists(head.as_slice()),
            Node::Set(_, _) => Kind::Any,
        }
    }
}

/// For a string, the places of the tags that are this string, or of the lists with this head, in increasing order. A place is a tag's
/// position among the tags, from 1.
type PlacesByString<'a> = BTreeMap<&'a [u8], Vec<usize>>;

/// Appends `place`, the place of one more tag, to the places that the map has for `string`, which is the tag itself or, for a list, its
/// head. A string that is not in the map yet is added. Err if memory ran out; then the map may have the string without the place.
fn add_place<'a>(
    map: &mut PlacesByString<'a>,
    string: &'a [u8],
    place: usize,
) -> Result<(), AllocError>
    ensures { OnOk result ((q : List ℕ) → found_at map.new q ≡ found_at map.old q ++ place_if (bytes_eq q string.now) place) }
{
    map.entry(string)?.or_default().push(place)?;
    Ok(())
}

/// The places that the map has for a string, in increasing order. Empty if it has none.
fn places_at<'m>(map: &'m PlacesByString<'_>, string: &[u8]) -> &'m [usize]
    ensures { result.now ≡ found_at map.now string.now }
{
    match map.get(string) {
        None => &[],
        Some(places) => places.as_slice(),
    }
}

/// The places of tags, counted from 1, in increasing order, by what the tags can contain.
#[derive(Drop)]
struct PlacesByKind<'a> {
    /// Those of strings, by string.
    strings: PlacesByString<'a>,
    /// Those of lists, by head.
    lists: PlacesByString<'a>,
    /// Those of prefixes, ranges, sets and `(*)`.
    with_many_strings: Vec<usize>,
    /// Those of all tags that may contain strings: all but lists.
    with_strings: Vec<usize>,
    /// Those of sets and `(*)`.
    any: Vec<usize>,
    /// Those of all tags.
    all: Vec<usize>,
}

impl<'a> PlacesByKind<'a> {
    /// An index of no tags: each of its fields is empty.
    fn new(alloc: Global) -> PlacesByKind<'a>
        ensures { ArePlacesOf result [] }
    {
        PlacesByKind {
            strings: BTreeMap::new(alloc),
            lists: BTreeMap::new(alloc),
            with_many_strings: Vec::new(alloc),
            with_strings: Vec::new(alloc),
            any: Vec::new(alloc),
            all: Vec::new(alloc),
        }
    }

    /// Adds `place`, the place of one more tag, to each field that has the places of tags of its kind. `PlacesByKind::of` adds places in
    /// increasing order, so each field has them in this order. Err if memory ran out; then only some of the fields may have the place.
    fn add(&mut self, kind: Kind<'a>, place: usize) -> Result<(), AllocError>
        ensures { OnOk result (IsAdded self.old self.new (kind_of kind.entry) place) }
    {
        self.all.push(place)?;
        match kind {
            Kind::Any => {
                self.with_many_strings.push(place)?;
                self.with_strings.push(place)?;
                self.any.push(place)?;
            }
            Kind::Strings => {
                self.with_many_strings.push(place)?;
                self.with_strings.push(place)?;
            }
            Kind::One(octets) => {
                add_place(&mut self.strings, octets, place)?;
                self.with_strings.push(place)?;
            }
            Kind::Lists(head) => add_place(&mut self.lists, head, place)?,
        }
        Ok(())
    }

    /// Makes the index of these tags: their places, from 1, by their kinds and strings. Err if memory ran out.
    fn of(alloc: Global, tags: &'a [Tag]) -> Result<PlacesByKind<'a>, AllocError>
        ensures { IfOk result (λ places. ArePlacesOf places tags.now) }
    {
        let mut places = PlacesByKind::new(alloc);
        for (i, tag) in tags.iter().enumerate() {
            places.add(Kind::of(tag), i + 1)?;
        }
        Ok(places)
    }
}

/// An index of the members of a set by kind and string (RFC 2693, section 6.3.1). Each member has a place, counted from 1.
/// In a contract an index is the list of the members.
#[derive(Drop)]
pub struct Index<'a> {
    /// The members that are indexed, in order.
    members: &'a [Tag],
    /// The places of `members`, by kind and string.
    places: PlacesByKind<'a>,
}

impl<'a> Model for Index<'a> {
    ghost use Rattle.std.specs.{Prelude.{List}, Coded.{coded_list}};
    ghost use Rattle.spki_tag.specs.{Tag.{Tag as Written}, Inner.Codes.{tag_code}};

    ghost Value = { List Written };

    ghost coded = { coded_list tag_code };

    ghost use Rattle.spki_tag.specs.Places.{ArePlacesOf};

    ghost view = { λ index. index.members.now };

    ghost invariant = { λ index. ArePlacesOf index.places index.members.now };
}

impl<'a> Index<'a> {
    /// Makes the index of the members of a set. A tag that is no set is its own only member.
    ///
    /// # Errors
    ///
    /// `AllocError` if memory ran out.
    pub fn of(alloc: Global, tag: &'a Tag) -> Result<Index<'a>, AllocError>
        ensures { IfOk result (λ index. index ≡ members tag.now) }
    {
        Index::over(alloc, tag.members())
    }

    /// Makes the index of these tags, for a caller that has the members of a set but no tag that is this set. Their places count from 1.
    /// Err if memory ran out.
    pub(crate) fn over(alloc: Global, members: &'a [Tag]) -> Result<Index<'a>, AllocError>
        ensures { IfOk result (λ index. index ≡ members.now) }
    {
        let places = PlacesByKind::of(alloc, members)?;
        Ok(Index { members, places })
    }

    /// The members that are indexed, in order.
    pub fn members(&self) -> &'a [Tag]
        ensures { result.now ≡ self.now }
    {
        self.members
    }

    /// The places, from 1, of the members that can have a request in common with `tag`, as far as their kinds and strings show, in
    /// increasing order. For a string these are the members that are the same string, and all prefixes and ranges. For a list they
    /// are the lists with the same head. For a prefix or a range they are all strings, prefixes and ranges, and for a
    /// set or `(*)` all members. Members that are `(*)` or sets are always included.
    ///
    /// # Errors
    ///
    /// `AllocError` if memory ran out.
    #[tactic(auto, using(crate::proofs::Places::places_of_string, crate::proofs::Places::places_of_lists))]
    pub fn places(&self, alloc: Global, tag: &Tag) -> Result<Vec<usize>, AllocError>
        ensures { IfOk result (λ places. places.items ≡ places_where (may_share tag.now) 1 self.now) }
    {
        match Kind::of(tag) {
            Kind::Any => Vec::from_slice(alloc, self.places.all.as_slice()),
            Kind::Strings => Vec::from_slice(alloc, self.places.with_strings.as_slice()),
            Kind::One(octets) => merged(
                alloc,
                places_at(&self.places.strings, octets),
                self.places.with_many_strings.as_slice(),
            ),
            Kind::Lists(head) => merged(
                alloc,
                places_at(&self.places.lists, head),
                self.places.any.as_slice(),
            ),
        }
    }
}
