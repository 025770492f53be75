//! The intersection of two written tags.
//! A value with many parts is freed by a call of `drop`, so that the proof does not go through its parts at each exit.

ghost use Rattle.std.specs.Prelude.{◌≡◌, ◌≢◌, ◌<◌, ◌↔◌, [], ◌∷◌, length, MatchOption, IfOk, IfErr, IsErrOf};
ghost use Rattle.sexpr_core.specs.Value.{Value};
ghost use Rattle.spki_case.specs.Case.{IsOuter};
ghost use Rattle.spki_guard.specs.Intersect.{intersect_value, intersect_fault, Intersects, ValueNotMet, IsMetText, TextNotMet};

use sexpr_core::syntax::{Members, Node};
use sexpr_core::{Doc, FormFault};
use spki_tag::{MeetFault, Tag, TagFault};
use std::alloc::Global;
use thiserror::Error;

/// Why a text has no intersection.
#[derive(Clone, Copy, Debug, PartialEq, Eq, Error)]
pub enum IntersectFault {
    /// The text is no canonical form within the limits.
    #[error("form: {0}")]
    Form(FormFault),
    /// The value is not `(intersect A B)`.
    #[error("not built as an intersection")]
    Shape,
    /// A is no tag.
    #[error("first tag: {0}")]
    First(TagFault),
    /// A is a tag, and B is no tag.
    #[error("second tag: {0}")]
    Second(TagFault),
    /// The product of the nodes of the two tags is over 1,000,000.
    #[error("the tags are too large")]
    TooLarge,
    /// Memory ran out.
    #[error("out of memory")]
    Memory,
}

impl From<MeetFault> for IntersectFault {
    ghost from_gives = { λ fault outer. outer ≡ intersect_fault fault };

    /// The fault of the same name.
    fn from(fault: MeetFault) -> IntersectFault {
        match fault {
            MeetFault::TooLarge => IntersectFault::TooLarge,
            MeetFault::Memory => IntersectFault::Memory,
        }
    }
}

/// The two values that are to be intersected. They are not yet read as tags.
#[derive(Drop)]
struct Operands<'d, 'a> {
    /// A of `(intersect A B)`.
    first: Node<'d, 'a>,
    /// B of `(intersect A B)`.
    second: Node<'d, 'a>,
}

/// The two values of `members`, which are those behind the word `intersect`. None if there are not exactly two.
fn exactly_two<'d, 'a>(members: Members<'d, 'a>) -> Option<Operands<'d, 'a>>
    ensures { MatchOption result ((a b : Value) → members.entry ≢ a ∷ b ∷ [])
        (λ p. members.entry ≡ p.first ∷ p.second ∷ []) }
{
    let (first, behind) = members.split_first()?;
    let (second, rest) = behind.split_first()?;
    if rest.is_empty() {
        Some(Operands { first, second })
    } else {
        None
    }
}

/// The values A and B of `(intersect A B)`. None if the node is not such a list.
fn operands_of<'d, 'a>(node: &Node<'d, 'a>) -> Option<Operands<'d, 'a>>
    ensures { MatchOption result ((a b : Value) → node.now ≢ intersect_value a b)
        (λ p. node.now ≡ intersect_value p.first p.second) }
{
    exactly_two(node.headed(b"intersect")?)
}

/// The error of `intersect` if tag A of `(intersect A B)` has this fault: `Memory` if memory ran out, otherwise `First` with the fault.
fn fault_of_first(fault: TagFault) -> IntersectFault
    ensures { IsOuter (fault ≡ TagFault.Memory) IntersectFault.Memory (IntersectFault.First fault) result }
{
    match fault {
        TagFault::Memory => IntersectFault::Memory,
        _ => IntersectFault::First(fault),
    }
}

/// The error of `intersect` if tag B of `(intersect A B)` has this fault: `Memory` if memory ran out, otherwise `Second` with the fault.
fn fault_of_second(fault: TagFault) -> IntersectFault
    ensures { IsOuter (fault ≡ TagFault.Memory) IntersectFault.Memory (IntersectFault.Second fault) result }
{
    match fault {
        TagFault::Memory => IntersectFault::Memory,
        _ => IntersectFault::Second(fault),
    }
}

/// Returns the intersection of the tags A and B of the value `(intersect A B)`. Err is `Shape` if the value is no such list, `First` if A is no
/// tag, `Second` if B is none, `TooLarge` if the product of their nodes is over 1,000,000, tested in this order; or `Memory`.
fn intersection_in(alloc: Global, node: &Node) -> Result<Tag, IntersectFault>
    ensures read { IfOk result (λ tag. Intersects node.now tag) }
    ensures refused { IfErr result (λ fault. fault ≢ IntersectFault.Memory → ValueNotMet node.now fault) }
{
    let Some(operands) = operands_of(node) else {
        return Err(IntersectFault::Shape);
    };
    let first = match Tag::of(alloc, &operands.first) {
        Ok(tag) => tag,
        Err(fault) => return Err(fault_of_first(fault)),
    };
    let second = match Tag::of(alloc, &operands.second) {
        Ok(tag) => tag,
        Err(fault) => {
            drop(first);
            return Err(fault_of_second(fault));
        }
    };
    let met = first.meet(alloc, &second);
    drop(first);
    drop(second);
    Ok(met?)
}

/// Reads `(intersect A B)` in canonical form, where A and B are written tags, and returns their intersection (RFC 2693,
/// section 6.3.1).
///
/// # Errors
///
/// `Form` if the text is no canonical form within the limits; `Form(TooLong)` exactly if it has more than 1,048,576 octets.
/// `Shape` if the value is not `(intersect A B)`. Otherwise `First` if A is no tag, then `Second` if B is none, and
/// then `TooLarge` if the product of their numbers of nodes is over 1,000,000. `Memory` if memory ran out.
pub fn intersect(alloc: Global, text: &[u8]) -> Result<Tag, IntersectFault>
    ensures read { IfOk result (λ tag. IsMetText text.now tag) }
    ensures too_long { IsErrOf result (IntersectFault.Form FormFault.TooLong) ↔ (1048576 < length text.now) }
    ensures refused { IfErr result (λ fault. fault ≢ IntersectFault.Memory → TextNotMet text.now fault) }
{
    match Doc::open(alloc, text) {
        Ok(document) => intersection_in(alloc, &document.top()),
        Err(FormFault::Memory) => Err(IntersectFault::Memory),
        Err(fault) => Err(IntersectFault::Form(fault)),
    }
}
