//! The parts of a case.

ghost use Rattle.std.specs.Prelude.{◌≡◌, ◌≢◌, ◌∷◌, [], MatchOption, MatchBool};
ghost use Rattle.sexpr_core.specs.Value.{Value, plain};
ghost use Rattle.spki_cert.specs.declared.principal.Policy.{Policy};
ghost use Rattle.spki_case.specs.{Case.{case_value, part_values, policy_values}, View.{IsPart, IsNoPart, ArePartsOf}};
ghost use Rattle.spki_case.specs.Case as spec;

use sexpr_core::syntax::{Members, Node};
use spki_cert::Policy;

/// The parts of a case. Only the policy is read; the others are nodes, or members of a list, that are read later.
#[derive(Drop)]
pub(crate) struct Parts<'d, 'a> {
    /// The whole list `(acl ..)`.
    pub acl: Node<'d, 'a>,
    /// The members of `(accepted ..)` after the head.
    pub rows: Members<'d, 'a>,
    /// The whole list `(sequence ..)`.
    pub sequence: Node<'d, 'a>,
    /// K of `(key K)`.
    pub key: Node<'d, 'a>,
    /// G of `(request G)`.
    pub request: Node<'d, 'a>,
    /// DATE of `(at DATE)`.
    pub at: Node<'d, 'a>,
    /// `Strict` if there is a `(policy strict)`, otherwise `Open`.
    pub policy: Policy,
}

/// A part that `take_part` took from the members of a case.
#[derive(Drop)]
struct TakenPart<'d, 'a> {
    /// The whole part.
    node: Node<'d, 'a>,
    /// The members of the part after its head.
    members: Members<'d, 'a>,
    /// The members of the case after the part.
    rest: Members<'d, 'a>,
}

/// Takes the next part from the members of a case: the first of `members`, if it is a list with the head `word`. None if there is no
/// member, or the first is anything else.
fn take_part<'d, 'a>(members: Members<'d, 'a>, word: &[u8]) -> Option<TakenPart<'d, 'a>>
    ensures { MatchOption result (IsNoPart members.entry word.now) (IsPart members.entry word.now) }
{
    let (node, rest) = members.split_first()?;
    let members = node.headed(word)?;
    Some(TakenPart {
        node,
        members,
        rest,
    })
}

/// The only member, such as K if `members` are those of `(key K)` after the head. None if there is no member, or more than one.
fn only_member<'d, 'a>(members: Members<'d, 'a>) -> Option<Node<'d, 'a>>
    ensures { MatchOption result ((v : Value) → members.entry ≢ v ∷ []) (λ v. members.entry ≡ v ∷ []) }
{
    let (only, rest) = members.split_first()?;
    if rest.is_empty() { Some(only) } else { None }
}

/// Whether there is exactly one member, and it is the string `word` without a display hint.
fn is_word(members: Members, word: &[u8]) -> bool
    ensures { MatchBool result (members.entry ≡ plain word.now ∷ []) (members.entry ≢ plain word.now ∷ []) }
{
    let Some(only) = only_member(members) else {
        return false;
    };
    match only.plain_octets() {
        None => false,
        Some(octets) => octets == word,
    }
}

/// The policy in the members of a case after `(at DATE)`: `Strict` for `(policy strict)`, `Open` if there is no member. None for anything
/// else: then the value is no case.
fn policy_in(members: Members) -> Option<Policy>
    ensures { MatchOption result ((policy : Policy) → members.entry ≢ policy_values policy)
        (λ policy. members.entry ≡ policy_values policy) }
{
    if members.is_empty() {
        return Some(Policy::Open);
    }
    let only = only_member(members)?;
    let strict = only.headed(b"policy")?;
    if is_word(strict, b"strict") {
        Some(Policy::Strict)
    } else {
        None
    }
}

/// The parts of a case from the node of its value, `(case ..)`. None if the value has another head, or does not have the outer structure of
/// a case (`CaseFault::Shape`). Of the parts only the policy is read.
pub(crate) fn parts_of<'d, 'a>(node: &Node<'d, 'a>) -> Option<Parts<'d, 'a>>
    ensures { MatchOption result ((p : spec.Parts) → node.now ≢ case_value p)
        (λ p. (parts : spec.Parts) × (node.now ≡ case_value parts) × ArePartsOf (part_values parts) p parts) }
{
    parts_in(node.headed(b"case")?)
}

/// The parts of a case in the members after its head. None if they are not
/// `(acl ..) (accepted ..) (sequence ..) (key K) (request G) (at DATE)` in this order, with `(policy strict)` or nothing behind. K, G, DATE
/// and what is in the lists are any values here.
fn parts_in<'d, 'a>(members: Members<'d, 'a>) -> Option<Parts<'d, 'a>>
    ensures { MatchOption result ((p : spec.Parts) → members.entry ≢ part_values p)
        (λ p. (parts : spec.Parts) × ArePartsOf members.entry p parts) }
{
    let acl = take_part(members, b"acl")?;
    let accepted = take_part(acl.rest, b"accepted")?;
    let sequence = take_part(accepted.rest, b"sequence")?;
    let key = take_part(sequence.rest, b"key")?;
    let request = take_part(key.rest, b"request")?;
    let at = take_part(request.rest, b"at")?;
    let policy = policy_in(at.rest)?;
    Some(Parts {
        acl: acl.node,
        rows: accepted.members,
        sequence: sequence.node,
        key: only_member(key.members)?,
        request: only_member(request.members)?,
        at: only_member(at.members)?,
        policy,
    })
}
