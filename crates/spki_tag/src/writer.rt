//! Writes tags as S-expressions.

ghost use Rattle.std.specs.Prelude.{◌≡◌, ◌++◌, ◌∷◌, [], IfOk, OnOk, map, codes};
ghost use Rattle.sexpr_core.specs.Value.{plain, sexp_value};
ghost use Rattle.spki_tag.specs.{Leaves.{leaf_tag, range_tag}, Limits.{ordering_of, limit_of}, Tag.{tag_value, ordering_name, limit_values}};

use crate::leaf::{Leaf, Limit, RangeOrdering};
use crate::range::Range;
use crate::shared_tags::tags_in;
use crate::tag::{Node, Tag};
use sexpr_core::Sexp;
use std::alloc::{AllocError, Global};

/// The members `*` and `word`: the beginning of a prefix, a range or a set. Err if memory ran out.
fn starred(alloc: Global, word: &[u8]) -> Result<Vec<Sexp>, AllocError>
    ensures { IfOk result (λ out. map sexp_value out.items ≡ plain (codes "*") ∷ plain word.now ∷ []) }
{
    let mut out = Vec::new(alloc);
    out.push(Sexp::plain(alloc, b"*")?)?;
    out.push(Sexp::plain(alloc, word)?)?;
    Ok(out)
}

/// The word for an ordering in a range: `alpha`, `time` or `date`.
fn ordering_name(ordering: RangeOrdering) -> &'static [u8]
    ensures { result.now ≡ ordering_name (ordering_of ordering) }
{
    match ordering {
        RangeOrdering::Alpha => b"alpha",
        RangeOrdering::Time => b"time",
        RangeOrdering::Date => b"date",
    }
}

/// Appends a word and the limit's string to `out`, the members of a range so far. The word is `strict`, `g` or `l`, for a strict limit,
/// otherwise `inclusive`, `ge` or `le`. Appends nothing if the limit is missing. Err if memory ran out; then `out` may have the word alone.
fn push_limit(
    alloc: Global,
    out: &mut Vec<Sexp>,
    limit: &Option<Limit>,
    strict: &[u8],
    inclusive: &[u8],
) -> Result<(), AllocError>
    ensures { OnOk result (map sexp_value out.new.items
        ≡ map sexp_value out.old.items ++ limit_values strict.now inclusive.now (limit_of limit.now)) }
{
    match limit {
        None => Ok(()),
        Some(limit) => {
            let word = if limit.strict { strict } else { inclusive };
            out.push(Sexp::plain(alloc, word)?)?;
            out.push(Sexp::plain(alloc, limit.octets.as_slice())?)?;
            Ok(())
        }
    }
}

/// Writes `(* range ORDERING LOW UP)`. A limit that is None is left out. Err if memory ran out.
fn write_range(alloc: Global, range: &Range) -> Result<Sexp, AllocError>
    ensures { IfOk result (λ s. sexp_value s ≡ tag_value (range_tag range.now)) }
{
    let mut out = starred(alloc, b"range")?;
    out.push(Sexp::plain(alloc, ordering_name(range.ordering))?)?;
    push_limit(alloc, &mut out, &range.low, b"g", b"ge")?;
    push_limit(alloc, &mut out, &range.up, b"l", b"le")?;
    Ok(Sexp::list(out))
}

/// Writes a tag without members: `(*)`, a string, a prefix or a range. Err if memory ran out.
fn write_leaf(alloc: Global, leaf: &Leaf) -> Result<Sexp, AllocError>
    ensures { IfOk result (λ s. sexp_value s ≡ tag_value (leaf_tag leaf.now)) }
{
    match leaf {
        Leaf::Star => {
            let mut out = Vec::new(alloc);
            out.push(Sexp::plain(alloc, b"*")?)?;
            Ok(Sexp::list(out))
        }
        Leaf::String(octets) => Sexp::plain(alloc, octets.as_slice()),
        Leaf::Prefix(prefix) => {
            let mut out = starred(alloc, b"prefix")?;
            out.push(Sexp::plain(alloc, prefix.octets())?)?;
            Ok(Sexp::list(out))
        }
        Leaf::Range(range) => write_range(alloc, range),
    }
}

impl Tag {
    /// Writes the tag, which is in normal form, as an S-expression (RFC 2693, section 6.3.1).
    ///
    /// # Errors
    ///
    /// `AllocError` if memory ran out.
    #[cycle(write)]
    #[tactic(auto, using(crate::proofs::TagReading::list_written, crate::proofs::TagReading::set_written))]
    pub fn write(&self, alloc: Global) -> Result<Sexp, AllocError>
        ensures { IfOk result (λ s. sexp_value s ≡ tag_value self.now) }
    {
        match &self.node {
            Node::Leaf(leaf) => write_leaf(alloc, leaf),
            Node::List(head, further, _) => {
                let mut out = Vec::new(alloc);
                out.push(Sexp::plain(alloc, head.as_slice())?)?;
                push_each(alloc, &mut out, tags_in(further))?;
                Ok(Sexp::list(out))
            }
            Node::Set(members, _) => {
                let mut out = starred(alloc, b"set")?;
                push_each(alloc, &mut out, tags_in(members))?;
                Ok(Sexp::list(out))
            }
        }
    }
}

/// Writes each tag, and appends it to `out`, the members of a list or a set so far. Err if memory ran out; then `out` may have some of
/// them.
#[cycle(write)]
fn push_each(alloc: Global, out: &mut Vec<Sexp>, members: &[Tag]) -> Result<(), AllocError>
    ensures { OnOk result (map sexp_value out.new.items
        ≡ map sexp_value out.old.items ++ map tag_value members.now) }
{
    for member in members {
        out.push(member.write(alloc)?)?;
    }
    Ok(())
}
