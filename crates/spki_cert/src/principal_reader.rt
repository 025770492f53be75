//! Reads principals, names, subjects and issuers.

ghost use Rattle.std.specs.{Prelude.{◌≡◌, ◌≢◌, false, ◌∷◌, ◌++◌, [], ℕ, List, Option, Some, None, codes, IfOk, IfErr}, List.{list_all}};
ghost use Rattle.sexpr_core.specs.Value.{Value, plain, group};
ghost use Rattle.spki_cert.specs.{declared.principal.Principal.{Principal}, Fields.{PrincipalOf, IsNamedSubject, WrittenSubjectOf, IssuerOf, plains}};
ghost use Rattle.spki_cert.specs.FieldFaults.{principal_fault, is_name, names_fault, subject_fault, issuer_fault};
ghost use Rattle.spki_cert.specs.Inner.Gathering.{NamesWrittenSubject};
ghost use Rattle.spki_tag.specs.Faults.{unless};

use crate::fault::CertFaultKind;
use crate::names::Names;
use crate::octets::Octets;
use crate::principal::Principal;
use crate::value_readers::{hash_of, key_of};
use sexpr_core::syntax::{Members, Node};
use std::alloc::Global;

/// A subject as it is written.
#[derive(Drop)]
pub(crate) struct WrittenSubject<'a> {
    /// None if the subject is a relative name: a name without a principal, which is relative to the certificate's issuer.
    pub principal: Option<Principal<'a>>,
    /// The names after the principal, in order. There are none if the principal itself is the subject.
    pub names: Names<'a>,
}

/// The issuer of a certificate, and the name that a name certificate defines.
#[derive(Drop)]
pub(crate) struct Issuer<'a> {
    /// The issuer itself. In a name certificate it is the principal in whose name space the name is defined.
    pub principal: Principal<'a>,
    /// The name that is defined. None in an authorization certificate.
    pub name: Option<Octets<'a>>,
}

/// Reads a principal from its node: a key or a hash (RFC 2693, section 2.5). Allocates nothing.
///
/// # Errors
///
/// The first fault. If the node is headed `hash`, it is `HashAlg`, `DigestLength` or `Shape`, as for `hash_of`. Otherwise the node is read
/// as a key: it is `KeyUris`, or `Shape`, also for a value that is neither a key nor a hash.
#[tactic(auto, using(crate::proofs::Heads::heads), unfolding(crate::specs::FieldFaults::principal_fault))]
pub fn principal_of<'a>(node: &Node<'_, 'a>) -> Result<Principal<'a>, CertFaultKind>
    ensures found { IfOk result (λ principal. PrincipalOf node.now principal) }
    ensures refused { IfErr result (λ _. (principal : Principal) → PrincipalOf node.now principal → ⊥) }
    ensures faultless { IfOk result (λ _. principal_fault node.now ≡ None) }
    ensures named { IfErr result (λ kind. principal_fault node.now ≡ Some kind) }
    ensures fault { IfErr result (λ kind. kind ≢ CertFaultKind.Memory) }
{
    match node.headed(b"hash") {
        Some(_) => {
            let (alg, digest) = hash_of(node)?;
            Ok(Principal::Hash { alg, digest })
        }
        None => {
            let key = key_of(node)?;
            Ok(Principal::Key(key))
        }
    }
}

/// Returns `names`, and after them those in `members`, each a string without a display hint. Err is `Shape` if some member is anything
/// else, or `Memory` if memory ran out.
fn names_behind<'a>(
    names: Vec<Octets<'a>>,
    members: Members<'_, 'a>,
) -> Result<Names<'a>, CertFaultKind>
    ensures found { IfOk result (λ all. (behind : List (List ℕ)) × (all ≡ names.entry.items ++ behind)
        × (members.entry ≡ plains behind)) }
    ensures named { IfErr result (λ kind. kind ≢ CertFaultKind.Memory →
        (list_all is_name members.entry ≡ false) × (kind ≡ CertFaultKind.Shape)) }
{
    let mut rest = members;
    let mut all = names;
    while let Some((name, others)) = rest.split_first() {
        let Some(octets) = name.plain_octets() else {
            return Err(CertFaultKind::Shape);
        };
        all.push(Octets::new(octets))?;
        rest = others;
    }
    Ok(Names::of(all)?)
}

/// Reads the members of a name after the head `name`: a principal and its names, or names alone, which are a relative name. A first member
/// that is a string without a display hint is a name, anything else is read as a principal. Err is the first fault: that of the principal,
/// `Shape` if there is no name or a later member is no name, or `Memory` if memory ran out.
#[tactic(auto, using(crate::proofs::Heads::heads), unfolding(crate::specs::FieldFaults::names_fault))]
fn read_name_members<'a>(
    alloc: Global,
    members: Members<'_, 'a>,
) -> Result<WrittenSubject<'a>, CertFaultKind>
    ensures found { IfOk result (λ who. NamesWrittenSubject members.entry who.principal who.names) }
    ensures named { IfErr result (λ kind. kind ≢ CertFaultKind.Memory → names_fault members.entry ≡ Some kind) }
{
    let count = members.len();
    let Some((first, others)) = members.split_first() else {
        return Err(CertFaultKind::Shape);
    };
    if let Some(octets) = first.plain_octets() {
        let mut names = Vec::with_capacity(alloc, count)?;
        names.push(Octets::new(octets))?;
        return Ok(WrittenSubject {
            principal: None,
            names: names_behind(names, others)?,
        });
    }
    let principal = principal_of(&first)?;
    if others.is_empty() {
        return Err(CertFaultKind::Shape);
    }
    let names = Vec::with_capacity(alloc, count - 1)?;
    Ok(WrittenSubject {
        principal: Some(principal),
        names: names_behind(names, others)?,
    })
}

/// Reads a subject from its node, as it is written: a principal, a name `(name PRINCIPAL N N ..)`, or a relative name `(name N N ..)`. Err
/// is `Threshold` for a list headed `k-of-n`, and `Keyholder` for one headed `keyholder`. Otherwise it is the first fault, that of the
/// principal or `Shape`, or `Memory` if memory ran out.
#[tactic(auto, using(crate::proofs::Heads::heads), unfolding(crate::specs::FieldFaults::subject_fault))]
pub(crate) fn written_subject_of<'a>(
    alloc: Global,
    node: &Node<'_, 'a>,
) -> Result<WrittenSubject<'a>, CertFaultKind>
    ensures found { IfOk result (λ who. WrittenSubjectOf node.now who.principal who.names) }
    ensures named { IfErr result (λ kind. kind ≢ CertFaultKind.Memory → subject_fault node.now ≡ Some kind) }
{
    if let Some(_) = node.headed(b"k-of-n") {
        return Err(CertFaultKind::Threshold);
    }
    if let Some(_) = node.headed(b"keyholder") {
        return Err(CertFaultKind::Keyholder);
    }
    let Some(members) = node.headed(b"name") else {
        let principal = principal_of(node)?;
        return Ok(WrittenSubject {
            principal: Some(principal),
            names: Names::none(alloc),
        });
    };
    read_name_members(alloc, members)
}

/// Reads the issuer of a certificate from its node: a principal, or, in a name certificate, `(name PRINCIPAL N)` with exactly one name. Err
/// is the first fault: that of the principal, or `Shape` if the principal or the name N is missing, if N is no string without a display
/// hint, or if anything follows N. Allocates nothing.
#[tactic(auto, using(crate::proofs::Heads::heads), unfolding(crate::specs::FieldFaults::issuer_fault))]
pub(crate) fn issuer_of<'a>(node: &Node<'_, 'a>) -> Result<Issuer<'a>, CertFaultKind>
    ensures found { IfOk result (λ issuer. IssuerOf node.now issuer.principal issuer.name) }
    ensures named { IfErr result (λ kind. issuer_fault node.now ≡ Some kind) }
    ensures fault { IfErr result (λ kind. kind ≢ CertFaultKind.Memory) }
{
    let Some(members) = node.headed(b"name") else {
        let principal = principal_of(node)?;
        return Ok(Issuer {
            principal,
            name: None,
        });
    };
    let Some((owner, rest)) = members.split_first() else {
        return Err(CertFaultKind::Shape);
    };
    let principal = principal_of(&owner)?;
    let Some((name, more)) = rest.split_first() else {
        return Err(CertFaultKind::Shape);
    };
    let Some(octets) = name.plain_octets() else {
        return Err(CertFaultKind::Shape);
    };
    if !more.is_empty() {
        return Err(CertFaultKind::Shape);
    }
    Ok(Issuer {
        principal,
        name: Some(Octets::new(octets)),
    })
}
