//! Reads ranges (RFC 2693, section 6.3.1).

ghost use Rattle.std.specs.{Prelude.{◌≡◌, ◌≢◌, ◌∷◌, [], Some, List, ℕ, IfOk, IfErr, MatchOption, codes}, List.{list_any}};
ghost use Rattle.sexpr_core.specs.Value.{Value, plain, values};
ghost use Rattle.spki_tag.specs.{Leaves.{leaf_tag}, Limits.{ordering_of, limit_of}, Tag.{Ordering, tag_value, starred, ordering_name, limit_values}};
ghost use Rattle.spki_tag.specs.{Faults.{IsNamed, is_hinted, limits_fault, range_fault}, Reading.{AreLimits, AreNoLimits, IsNoLimit}};

use crate::fault::TagFault;
use crate::leaf::{Leaf, Limit, RangeOrdering};
use crate::range::Range;
use sexpr_core::syntax::{Members, Node, NodeKind};
use std::alloc::{AllocError, Global};
use std::sync::{Arc, ArcSlice};

/// Whether a value is a string with a display hint.
fn is_hinted(value: &Node<'_, '_>) -> bool
    ensures { result ≡ is_hinted value.now }
{
    match value.kind() {
        NodeKind::List(_) => false,
        NodeKind::String { hint: None, .. } => false,
        NodeKind::String { hint: Some(_), .. } => true,
    }
}

/// Whether at least one of the values is a string with a display hint. `read_limits` tests it before all else.
fn has_hint(values: &[Node<'_, '_>]) -> bool
    ensures { result ≡ list_any is_hinted values.now }
{
    values.iter().any(|value| is_hinted(value))
}

/// The ordering with this name: `alpha`, `time` or `date`. None for any other name.
fn ordering_named(name: &[u8]) -> Option<RangeOrdering>
    ensures { MatchOption result ((ordering : Ordering) → name.now ≢ ordering_name ordering)
        (λ ordering. name.now ≡ ordering_name (ordering_of ordering)) }
{
    if name == b"alpha".as_slice() {
        Some(RangeOrdering::Alpha)
    } else if name == b"time".as_slice() {
        Some(RangeOrdering::Time)
    } else if name == b"date".as_slice() {
        Some(RangeOrdering::Date)
    } else {
        None
    }
}

/// Reads the name of an ordering. Err is `Hint` for a string with a display hint, and `RangeOrdering` for a list or any other name.
fn read_ordering(name: &Node<'_, '_>) -> Result<RangeOrdering, TagFault>
    ensures read { IfOk result (λ ordering. name.now ≡ plain (ordering_name (ordering_of ordering))) }
    ensures named { IfErr result (λ fault. (vs : List Value) → range_fault (name.now ∷ vs) ≡ Some fault) }
{
    match name.kind() {
        NodeKind::List(_) => Err(TagFault::RangeOrdering),
        NodeKind::String { hint: None, body } => match ordering_named(body) {
            Some(ordering) => Ok(ordering),
            None => Err(TagFault::RangeOrdering),
        },
        NodeKind::String { hint: Some(_), .. } => Err(TagFault::Hint),
    }
}

/// Reads two values, `word` and the string `limit`, as a limit. The word must be one of two: `strict`, such as `g` or `l`, with which the
/// range excludes the string, or `inclusive`, such as `ge` or `le`. `Ok(None)` if they are no such limit: another word, a list, or a string
/// with a display hint. Err if memory ran out.
fn read_limit(
    alloc: Global,
    word: &Node<'_, '_>,
    limit: &Node<'_, '_>,
    strict: &[u8],
    inclusive: &[u8],
) -> Result<Option<Limit>, AllocError>
    ensures { IfOk result (λ found. MatchOption found (IsNoLimit strict.now inclusive.now (word.now ∷ limit.now ∷ []))
        (λ l. limit_values strict.now inclusive.now (limit_of (Some l)) ≡ word.now ∷ limit.now ∷ [])) }
{
    let Some(named) = word.plain_octets() else {
        return Ok(None);
    };
    let Some(octets) = limit.plain_octets() else {
        return Ok(None);
    };
    if named == strict {
        Ok(Some(Limit {
            strict: true,
            octets: ArcSlice::from_slice(alloc, octets)?,
        }))
    } else if named == inclusive {
        Ok(Some(Limit {
            strict: false,
            octets: ArcSlice::from_slice(alloc, octets)?,
        }))
    } else {
        Ok(None)
    }
}

/// The lower limit and the upper limit of a range. None for one that is missing.
type Limits = (Option<Limit>, Option<Limit>);

/// Reads two values as the only limit of a range: lower after the word `g` or `ge`, upper after `l` or `le`. Returns both limits, of which
/// the other one is missing. `Ok(None)` if the two values are no limit. Err if memory ran out.
fn read_one_limit(
    alloc: Global,
    word: &Node<'_, '_>,
    limit: &Node<'_, '_>,
) -> Result<Option<Limits>, AllocError>
    ensures { IfOk result (λ found. MatchOption found (AreNoLimits (word.now ∷ limit.now ∷ []))
        (λ p. AreLimits (limit_of p.0) (limit_of p.1) (word.now ∷ limit.now ∷ []))) }
{
    let low = read_limit(alloc, word, limit, b"g", b"ge")?;
    if low.is_some() {
        return Ok(Some((low, None)));
    }
    let up = read_limit(alloc, word, limit, b"l", b"le")?;
    if up.is_none() {
        return Ok(None);
    }
    Ok(Some((None, up)))
}

/// Reads four values as a lower limit, with the word `g` or `ge`, and then an upper limit, with `l` or `le`. Returns both. `Ok(None)` if
/// they are no such limits, also if the upper one is first. Err if memory ran out.
fn read_two_limits(
    alloc: Global,
    low_word: &Node<'_, '_>,
    low_limit: &Node<'_, '_>,
    up_word: &Node<'_, '_>,
    up_limit: &Node<'_, '_>,
) -> Result<Option<Limits>, AllocError>
    ensures { IfOk result (λ found. MatchOption found
        (AreNoLimits (low_word.now ∷ low_limit.now ∷ up_word.now ∷ up_limit.now ∷ []))
        (λ p. AreLimits (limit_of p.0) (limit_of p.1) (low_word.now ∷ low_limit.now ∷ up_word.now ∷ up_limit.now ∷ []))) }
{
    let low = read_limit(alloc, low_word, low_limit, b"g", b"ge")?;
    if low.is_none() {
        return Ok(None);
    }
    let up = read_limit(alloc, up_word, up_limit, b"l", b"le")?;
    if up.is_none() {
        return Ok(None);
    }
    Ok(Some((low, up)))
}

/// Reads the limits of a range from the members after its ordering. Words and strings alternate: `g` or `ge` and the lower limit, then `l`
/// or `le` and the upper one. Each limit may be missing. `Ok(None)` if the values are no limits, also if there are one, three or more than
/// four of them. Err if memory ran out.
fn limits_of(alloc: Global, values: &[Node<'_, '_>]) -> Result<Option<Limits>, AllocError>
    ensures { IfOk result (λ found. MatchOption found (AreNoLimits values.now)
        (λ p. AreLimits (limit_of p.0) (limit_of p.1) values.now)) }
{
    match values {
        [] => Ok(Some((None, None))),
        [word, limit] => read_one_limit(alloc, word, limit),
        [low_word, low_limit, up_word, up_limit] => {
            read_two_limits(alloc, low_word, low_limit, up_word, up_limit)
        }
        _ => Ok(None),
    }
}

/// Returns the members as a vector, in order, so that `limits_of` can match how many there are. Err if memory ran out.
fn values_of<'d, 'a>(
    alloc: Global,
    members: Members<'d, 'a>,
) -> Result<Vec<Node<'d, 'a>>, AllocError>
    ensures { IfOk result (λ values. values.items ≡ members.entry) }
{
    let mut values = Vec::new(alloc);
    for member in members {
        values.push(member)?;
    }
    Ok(values)
}

/// Reads the limits of a range from the members after its ordering. Err is `Hint` if any member has a display hint, otherwise
/// `RangeLimit` if they are no limits, or `Memory`.
#[tactic(auto, using(crate::proofs::Named::limits_read))]
fn read_limits(alloc: Global, rest: Members<'_, '_>) -> Result<Limits, TagFault>
    ensures read { IfOk result (λ p. AreLimits (limit_of p.0) (limit_of p.1) rest.entry) }
    ensures named { IfErr result (λ fault. IsNamed fault (limits_fault rest.entry)) }
{
    let values = values_of(alloc, rest)?;
    if has_hint(&values) {
        return Err(TagFault::Hint);
    }
    match limits_of(alloc, &values)? {
        Some(limits) => Ok(limits),
        None => Err(TagFault::RangeLimit),
    }
}

/// Reads a range from the members after `*` and `range`: an ordering and limits. The limits may be any strings, whatever the ordering. Err
/// is `RangeOrdering` without members, or if the first one is a list or a string without a display hint that names no ordering; otherwise
/// `Hint` if any member has a display hint; otherwise `RangeLimit` if those after the ordering are no limits; or `Memory`.
#[tactic(auto, using(crate::proofs::Named::named_first, crate::proofs::Named::passed))]
pub(crate) fn read_range(alloc: Global, further: Members<'_, '_>) -> Result<Leaf, TagFault>
    ensures read { IfOk result (λ leaf. tag_value (leaf_tag leaf) ≡ starred (codes "range") (values further.entry)) }
    ensures named { IfErr result (λ fault. IsNamed fault (range_fault further.entry)) }
{
    match further.split_first() {
        None => Err(TagFault::RangeOrdering),
        Some((name, rest)) => {
            let ordering = read_ordering(&name)?;
            let (low, up) = read_limits(alloc, rest)?;
            Ok(Leaf::Range(Arc::new(alloc, Range::of(ordering, low, up))?))
        }
    }
}
