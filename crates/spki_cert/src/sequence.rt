//! Reads sequences.

ghost use Rattle.std.specs.{Prelude.{◌≡◌, ◌≢◌, ◌∷◌, ◌+◌, IsSome, IfSome, IfOk, IfErr, List, Some, None, is_some, false}, List.{AllZip}};
ghost use Rattle.sexpr_core.specs.Value.{Value, node};
ghost use Rattle.spki_cert.specs.{Fields.{is_headed}, Structures.{ItemOf, IsInPlace, AreInPlace, waits_after, SeqOf}};
ghost use Rattle.spki_cert.specs.StructureFaults.{order_fault, waiting, items_fault, sequence_fault, item_fault};
ghost use Rattle.spki_cert.specs.declared.certificate.SeqItem as spec;

use crate::certificate::SeqItem;
use crate::certificate_reader::cert_of;
use crate::fault::{CertFault, CertFaultKind};
use crate::items::push_read;
use crate::signature::{do_hash_of, signature_of};
use crate::value_readers::key_of;
use sexpr_core::syntax::{Members, Node};
use sexpr_core::{Doc, NodeId};
use std::alloc::Global;

/// Whether a node is a list with the head `word`.
#[tactic(auto, using(crate::proofs::Heads::heads))]
fn is_headed(node: &Node, word: &[u8]) -> bool
    ensures { result ≡ is_headed word.now node.now }
{
    match node.headed(word) {
        Some(_) => true,
        None => false,
    }
}

/// Reads an item of a sequence from its node by its head: a certificate, a signature or an operation. A value with any other head is read
/// as a key. Err is the fault of the item, or `Memory` if memory ran out for a certificate.
#[tactic(auto, using(crate::proofs::Heads::heads), unfolding(crate::specs::StructureFaults::item_fault))]
fn item_of<'a>(alloc: Global, node: &Node<'_, 'a>) -> Result<SeqItem<'a>, CertFaultKind>
    ensures found { IfOk result (λ item. ItemOf node.now item) }
    ensures named { IfErr result (λ kind. kind ≢ CertFaultKind.Memory → item_fault node.now ≡ Some kind) }
{
    if let Some(_) = node.headed(b"cert") {
        return cert_of(alloc, node);
    }
    if let Some(_) = node.headed(b"signature") {
        return Ok(SeqItem::Signature(signature_of(node)?));
    }
    if let Some(_) = node.headed(b"do") {
        return Ok(SeqItem::DoHash(do_hash_of(node)?));
    }
    Ok(SeqItem::Key(key_of(node)?))
}

/// Checks that the item with this number, from 1, may come here. `waits` is the number of the certificate before it that is still without
/// its signature, or None if there is no such certificate. Err is `StraySignature`, with the number of this item, if it is a signature and
/// `waits` is None. It is `UnsignedCert`, with the number of the certificate, if the item is neither a signature nor an operation and `waits` is
/// Some.
fn check_order(node: &Node, waits: Option<usize>, number: usize) -> Result<(), CertFault>
    ensures faultless { IfOk result (λ _. order_fault waits number node.now ≡ None) }
    ensures named { IfErr result (λ fault. order_fault waits number node.now ≡ Some fault) }
{
    let signature = is_headed(node, b"signature");
    let Some(item) = waits else {
        return if signature {
            Err(CertFault {
                item: number,
                kind: CertFaultKind::StraySignature,
            })
        } else {
            Ok(())
        };
    };
    if signature || is_headed(node, b"do") {
        Ok(())
    } else {
        Err(CertFault {
            item,
            kind: CertFaultKind::UnsignedCert,
        })
    }
}

/// The number of the certificate that is still without its signature after this item, or None. `before` is that number before the item, and
/// `number` the number of the item itself. If the item is a certificate, `before` is None, because `check_order` refuses the item
/// otherwise.
fn waiting(node: &Node, before: Option<usize>, number: usize) -> Option<usize>
    ensures { result ≡ waiting node.now before number }
{
    if is_headed(node, b"cert") {
        return Some(number);
    }
    if is_headed(node, b"signature") {
        None
    } else {
        before
    }
}

/// Reads the items from the members of a sequence after its head. Err is the first fault, with the number of its item, from 1. If the
/// sequence ends without the signature of its last certificate, it is `UnsignedCert`, with the number of this certificate. It is `Memory`
/// if memory ran out.
#[tactic(auto, using(crate::proofs::Heads::heads), unfolding(crate::specs::StructureFaults::items_fault))]
fn items_of<'a>(alloc: Global, members: Members<'_, 'a>) -> Result<Vec<SeqItem<'a>>, CertFault>
    ensures items { IfOk result (λ items. AllZip ItemOf members.entry items.items) }
    ensures in_place { IfOk result (λ _. AreInPlace false members.entry × (waits_after false members.entry ≡ false)) }
    ensures faultless { IfOk result (λ _. items_fault members.entry ≡ None) }
    ensures named { IfErr result (λ fault. fault.kind ≢ CertFaultKind.Memory → items_fault members.entry ≡ Some fault) }
{
    let mut rest = members;
    let mut items = Vec::new(alloc);
    let mut waits = None;
    while let Some((member, others)) = rest.split_first() {
        let item = items.len() + 1;
        check_order(&member, waits, item)?;
        push_read(&mut items, item_of(alloc, &member))?;
        waits = waiting(&member, waits, item);
        rest = others;
    }
    match waits {
        None => Ok(items),
        Some(item) => Err(CertFault {
            item,
            kind: CertFaultKind::UnsignedCert,
        }),
    }
}

/// Reads a sequence from its node: `(sequence item ..)`, in which each certificate is followed by its signature, with only `do` items
/// between.
///
/// # Errors
///
/// The first fault from the left, with the number of its item, from 1, or 0 if the node is not headed `sequence` (`Shape`). The number of
/// `UnsignedCert` is that of the certificate that lacks its signature. `Memory` if memory ran out.
#[tactic(auto, using(crate::proofs::Heads::heads), unfolding(crate::specs::StructureFaults::sequence_fault))]
pub fn sequence_of<'a>(alloc: Global, node: &Node<'_, 'a>) -> Result<Vec<SeqItem<'a>>, CertFault>
    ensures sequence { IfOk result (λ items. SeqOf node.now items.items) }
    // The fault is the first from the left, and what is read has none.
    ensures named { IfErr result (λ fault. fault.kind ≢ CertFaultKind.Memory → sequence_fault node.now ≡ Some fault) }
    ensures faultless { IfOk result (λ _. sequence_fault node.now ≡ None) }
{
    match node.headed(b"sequence") {
        Some(members) => items_of(alloc, members),
        None => Err(CertFault {
            item: 0,
            kind: CertFaultKind::Shape,
        }),
    }
}

/// Reads node n of a document, which must exist, as a sequence: `(sequence item ..)`. An item is a key, `(do hash alg)`, a certificate or a
/// signature. Each certificate is followed by its signature, with only `do` items between.
///
/// # Errors
///
/// The first fault from the left, with the number of the item, from 1, or 0 if the outer list is not headed `sequence`
/// (`Shape`). `UnsignedCert` has the number of the certificate, and comes before the faults of the item in the signature's
/// place. `StraySignature`: a signature, although each certificate before it has its own, whatever the members of the
/// signature are. `Memory` if memory ran out.
pub fn read_sequence<'a>(
    alloc: Global,
    document: &Doc<'a>,
    n: NodeId,
) -> Result<Vec<SeqItem<'a>>, CertFault>
    requires { IsSome (node document.now n.0) }
    ensures sequence { IfSome (node document.now n.0) (λ value.
        IfOk result (λ items. SeqOf value items.items)) }
    // Only a value that is no sequence is refused, except for Memory.
    ensures none { IfSome (node document.now n.0) (λ value.
        IfErr result (λ fault. fault.kind ≢ CertFaultKind.Memory →
        (items : List spec.SeqItem) → SeqOf value items → ⊥)) }
    // The fault is the first from the left, and what is read has none.
    ensures named { IfSome (node document.now n.0) (λ value.
        IfErr result (λ fault. fault.kind ≢ CertFaultKind.Memory → sequence_fault value ≡ Some fault)) }
    ensures faultless { IfSome (node document.now n.0) (λ value. IfOk result (λ _. sequence_fault value ≡ None)) }
{
    sequence_of(alloc, &document.node(n).unwrap())
}
