//! Reads keys, hashes and dates.

ghost use Rattle.std.specs.Prelude.{◌≡◌, ◌≢◌, IfOk, IfErr, codes, ◌∷◌, ℕ, List, Some, None, IsSome, MatchOption, MatchResult, IfSome, MatchBool};
ghost use Rattle.spki_cert.specs.{declared.hash.HashAlg.{HashAlg}, FieldFaults.{key_fault, hash_fault, date_fault, alg_fault}};
ghost use Rattle.spki_cert.specs.Inner.Gathering.{digest_fault};
ghost use Rattle.spki_cert.specs.Readings.{KeyOf, IsNoKey, HashOf, IsNoHash, DateOf, IsNoDate, DigestOf, AreUris, IsAlgorithm, alg_name, digest_len};
ghost use Rattle.sexpr_core.specs.Value.{Value, node, plain, group, canon};

use crate::date::Date;
use crate::fault::{CertFault, CertFaultKind};
use crate::hash::HashAlg;
use crate::key::Key;
use crate::octets::Octets;
use sexpr_core::syntax::{Members, Node, NodeKind};
use sexpr_core::{Doc, NodeId};

/// Reads a key from its node: `(public-key (ALG PART ..))`. The key borrows the node's canonical octets. Err is the first fault: `KeyUris` if
/// a list headed `uri` follows the algorithm's list, otherwise `Shape`.
#[tactic(auto, using(crate::proofs::Heads::heads), unfolding(crate::specs::FieldFaults::key_fault))]
pub fn key_of<'a>(node: &Node<'_, 'a>) -> Result<Key<'a>, CertFaultKind>
    ensures key { IfOk result (λ key. KeyOf node.now key) }
    ensures refused { IfErr result (λ _. IsNoKey node.now) }
    ensures faultless { IfOk result (λ _. key_fault node.now ≡ None) }
    ensures named { IfErr result (λ kind. key_fault node.now ≡ Some kind) }
    ensures fault { IfErr result (λ kind. kind ≢ CertFaultKind.Memory) }
{
    let Some(rest) = node.headed(b"public-key") else {
        return Err(CertFaultKind::Shape);
    };
    let Some((body, rest)) = rest.split_first() else {
        return Err(CertFaultKind::Shape);
    };
    if !is_algorithm(&body) {
        return Err(CertFaultKind::Shape);
    }
    match rest.split_first() {
        None => Ok(Key::new(node.slice())),
        Some((third, _)) => match third.headed(b"uri") {
            Some(_) => Err(CertFaultKind::KeyUris),
            None => Err(CertFaultKind::Shape),
        },
    }
}

/// Whether the node can be the list `(ALG PART ..)` in a key: a list that begins with a string without a display hint. What ALG and the
/// parts contain is not tested.
fn is_algorithm(node: &Node) -> bool
    ensures { MatchBool result (IsAlgorithm node.now) (IsAlgorithm node.now → ⊥) }
{
    let Some(all) = node.members() else {
        return false;
    };
    match all.split_first() {
        None => false,
        Some((alg, _)) => alg.plain_octets().is_some(),
    }
}

/// Reads a date from its node: a string without a display hint, of the form `YYYY-MM-DD_HH:MM:SS`. Err is always `BadDate`.
#[tactic(auto, using(crate::proofs::Heads::heads), unfolding(crate::specs::FieldFaults::date_fault))]
pub fn date_of(node: &Node) -> Result<Date, CertFaultKind>
    ensures date { IfOk result (λ date. DateOf node.now date) }
    ensures refused { IfErr result (λ _. IsNoDate node.now) }
    ensures faultless { IfOk result (λ _. date_fault node.now ≡ None) }
    ensures named { IfErr result (λ kind. date_fault node.now ≡ Some kind) }
    ensures fault { IfErr result (λ kind. kind ≡ CertFaultKind.BadDate) }
{
    let Some(octets) = node.plain_octets() else {
        return Err(CertFaultKind::BadDate);
    };
    match Date::of(octets) {
        Some(date) => Ok(date),
        None => Err(CertFaultKind::BadDate),
    }
}

/// Reads a hash algorithm from the node of its name: `sha1`, `sha256` or `sha512`. Err is `HashAlg` for any other string, also for such a
/// name with a display hint, and `Shape` for a list.
#[tactic(auto, using(crate::proofs::Heads::heads), unfolding(crate::specs::FieldFaults::alg_fault))]
pub(crate) fn algorithm_of(node: &Node) -> Result<HashAlg, CertFaultKind>
    ensures named { IfOk result (λ alg. node.now ≡ plain (alg_name alg)) }
    ensures refused { IfErr result (λ _. (alg : HashAlg) → node.now ≢ plain (alg_name alg)) }
    ensures faultless { IfOk result (λ _. alg_fault node.now ≡ None) }
    ensures first { IfErr result (λ kind. alg_fault node.now ≡ Some kind) }
    ensures fault { IfErr result (λ kind. kind ≢ CertFaultKind.Memory) }
{
    match node.kind() {
        NodeKind::List(_) => Err(CertFaultKind::Shape),
        NodeKind::String { hint: Some(_), .. } => Err(CertFaultKind::HashAlg),
        NodeKind::String { hint: None, body } => match HashAlg::named(body) {
            Some(alg) => Ok(alg),
            None => Err(CertFaultKind::HashAlg),
        },
    }
}

/// Reads the digest in a hash by this algorithm from its node. Err is `DigestLength` if its length is not that of the algorithm's digests,
/// and `Shape` if the node is no string without a display hint.
fn digest_member<'a>(alg: HashAlg, node: &Node<'_, 'a>) -> Result<Octets<'a>, CertFaultKind>
    ensures digest { IfOk result (λ digest. DigestOf node.now alg digest) }
    ensures refused { IfErr result (λ _. (digest : List ℕ) → DigestOf node.now alg digest → ⊥) }
    ensures faultless { IfOk result (λ _. digest_fault alg node.now ≡ None) }
    ensures named { IfErr result (λ kind. digest_fault alg node.now ≡ Some kind) }
    ensures fault { IfErr result (λ kind. kind ≢ CertFaultKind.Memory) }
{
    let Some(octets) = node.plain_octets() else {
        return Err(CertFaultKind::Shape);
    };
    if octets.len() == alg.digest_len() {
        Ok(Octets::new(octets))
    } else {
        Err(CertFaultKind::DigestLength)
    }
}

/// Whether nothing, or exactly one list headed `uri`, follows the digest of a hash. `rest` are the members after the digest. The members of
/// the list are not read.
fn ends_in_uris(rest: Members) -> bool
    ensures { MatchBool result (AreUris rest.entry) (AreUris rest.entry → ⊥) }
{
    match rest.split_first() {
        None => true,
        Some((uris, more)) => uris.headed(b"uri").is_some() && more.is_empty(),
    }
}

/// Reads a hash from its node: `(hash ALG DIGEST)`, or with `(uri x ..)` after the digest, which is ignored. Returns its algorithm and its
/// digest. Err is the first fault: `HashAlg` if ALG is a string other than `sha1`, `sha256` and `sha512`, or has a display hint,
/// `DigestLength` if DIGEST does not have the length of this algorithm's digests, otherwise `Shape`.
#[tactic(auto, using(crate::proofs::Heads::heads), unfolding(crate::specs::FieldFaults::hash_fault))]
pub fn hash_of<'a>(node: &Node<'_, 'a>) -> Result<(HashAlg, Octets<'a>), CertFaultKind>
    ensures hash { IfOk result (λ h. HashOf node.now h.0 h.1) }
    ensures refused { IfErr result (λ _. IsNoHash node.now) }
    ensures faultless { IfOk result (λ _. hash_fault node.now ≡ None) }
    ensures named { IfErr result (λ kind. hash_fault node.now ≡ Some kind) }
    ensures fault { IfErr result (λ kind. kind ≢ CertFaultKind.Memory) }
{
    let Some(rest) = node.headed(b"hash") else {
        return Err(CertFaultKind::Shape);
    };
    let Some((word, rest)) = rest.split_first() else {
        return Err(CertFaultKind::Shape);
    };
    let alg = algorithm_of(&word)?;
    let Some((octets, rest)) = rest.split_first() else {
        return Err(CertFaultKind::Shape);
    };
    let digest = digest_member(alg, &octets)?;
    if ends_in_uris(rest) {
        Ok((alg, digest))
    } else {
        Err(CertFaultKind::Shape)
    }
}

/// Reads node n of a document, which must exist, as a key: `(public-key (alg part ..))`. Allocates nothing.
///
/// # Errors
///
/// The first fault from the left: `KeyUris` if a list headed `uri` follows the algorithm's list, otherwise `Shape`. The item of the fault
/// is 0.
pub fn read_key<'a>(document: &Doc<'a>, n: NodeId) -> Result<Key<'a>, CertFault>
    requires { IsSome (node document.now n.0) }
    ensures key { IfSome (node document.now n.0) (λ value. IfOk result (λ key. KeyOf value key)) }
    ensures refused { IfSome (node document.now n.0) (λ value. IfErr result (λ _. IsNoKey value)) }
    // The fault is the first from the left, and what is read has none.
    ensures named { IfSome (node document.now n.0) (λ value. IfErr result (λ fault. key_fault value ≡ Some fault.kind)) }
    ensures faultless { IfSome (node document.now n.0) (λ value. IfOk result (λ _. key_fault value ≡ None)) }
    ensures fault { IfErr result (λ fault. (fault.item ≡ 0) × (fault.kind ≢ CertFaultKind.Memory)) }
{
    match key_of(&document.node(n).unwrap()) {
        Ok(key) => Ok(key),
        Err(kind) => Err(CertFault { item: 0, kind }),
    }
}

/// Reads node n of a document, which must exist, as a hash: `(hash alg digest)` or `(hash alg digest (uri x ..))`. Returns its algorithm
/// and its digest. Allocates nothing.
///
/// # Errors
///
/// The first fault from the left. `HashAlg`: the algorithm is a string other than `sha1`, `sha256` and `sha512`, or has a display hint.
/// `DigestLength`: the digest is a string without a display hint, and does not have the 20, 32 or 64 octets of its algorithm's digests.
/// Otherwise `Shape`. The item of the fault is 0.
pub fn read_hash<'a>(document: &Doc<'a>, n: NodeId) -> Result<(HashAlg, Octets<'a>), CertFault>
    requires { IsSome (node document.now n.0) }
    ensures hash { IfSome (node document.now n.0) (λ value. IfOk result (λ hash. HashOf value hash.0 hash.1)) }
    ensures refused { IfSome (node document.now n.0) (λ value. IfErr result (λ _. IsNoHash value)) }
    // The fault is the first from the left, and what is read has none.
    ensures named { IfSome (node document.now n.0) (λ value. IfErr result (λ fault. hash_fault value ≡ Some fault.kind)) }
    ensures faultless { IfSome (node document.now n.0) (λ value. IfOk result (λ _. hash_fault value ≡ None)) }
    ensures fault { IfErr result (λ fault. (fault.item ≡ 0) × (fault.kind ≢ CertFaultKind.Memory)) }
{
    match hash_of(&document.node(n).unwrap()) {
        Ok(hash) => Ok(hash),
        Err(kind) => Err(CertFault { item: 0, kind }),
    }
}

/// Reads node n of a document, which must exist, as a date: a string without a display hint, of the form `YYYY-MM-DD_HH:MM:SS`. Allocates
/// nothing.
///
/// # Errors
///
/// Only `BadDate`. The item of the fault is 0.
pub fn read_date(document: &Doc, n: NodeId) -> Result<Date, CertFault>
    requires { IsSome (node document.now n.0) }
    ensures date { IfSome (node document.now n.0) (λ value. IfOk result (λ date. DateOf value date)) }
    ensures refused { IfSome (node document.now n.0) (λ value. IfErr result (λ _. IsNoDate value)) }
    // The fault is the first from the left, and what is read has none.
    ensures named { IfSome (node document.now n.0) (λ value. IfErr result (λ fault. date_fault value ≡ Some fault.kind)) }
    ensures faultless { IfSome (node document.now n.0) (λ value. IfOk result (λ _. date_fault value ≡ None)) }
    ensures fault { IfErr result (λ fault. (fault.item ≡ 0) × (fault.kind ≡ CertFaultKind.BadDate)) }
{
    match date_of(&document.node(n).unwrap()) {
        Ok(date) => Ok(date),
        Err(kind) => Err(CertFault { item: 0, kind }),
    }
}
