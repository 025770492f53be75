//! Reads signatures and operations. No signature is verified here.

ghost use Rattle.std.specs.Prelude.{◌≡◌, ◌≢◌, Some, None, IfOk, IfErr};
ghost use Rattle.spki_cert.specs.{declared.hash.HashAlg.{HashAlg}, StructureFaults.{signature_fault, do_fault}, Structures.{SignatureOf, DoHashOf}};
ghost use Rattle.spki_cert.specs.declared.certificate.Signature as spec;

use crate::certificate::Signature;
use crate::fault::CertFaultKind;
use crate::hash::HashAlg;
use crate::octets::Octets;
use crate::principal_reader::principal_of;
use crate::value_readers::{algorithm_of, hash_of};
use sexpr_core::syntax::Node;

/// Reads a signature from its node: `(signature HASH PRINCIPAL VALUE)`. HASH is the digest of what is signed, PRINCIPAL the signer. VALUE
/// is any value: only its canonical octets are kept. Err is the first fault: that of HASH (`hash_of`) or of PRINCIPAL (`principal_of`), or
/// `Shape` if the node is not headed `signature`, or if its members are not exactly these three. Allocates nothing.
#[tactic(auto, using(crate::proofs::Heads::heads), unfolding(crate::specs::StructureFaults::signature_fault))]
pub(crate) fn signature_of<'a>(node: &Node<'_, 'a>) -> Result<Signature<'a>, CertFaultKind>
    ensures found { IfOk result (λ signature. SignatureOf node.now signature) }
    ensures named { IfErr result (λ kind. signature_fault node.now ≡ Some kind) }
    ensures fault { IfErr result (λ kind. kind ≢ CertFaultKind.Memory) }
{
    let Some(members) = node.headed(b"signature") else {
        return Err(CertFaultKind::Shape);
    };
    let Some((first, rest)) = members.split_first() else {
        return Err(CertFaultKind::Shape);
    };
    let (alg, digest) = hash_of(&first)?;
    let Some((second, rest)) = rest.split_first() else {
        return Err(CertFaultKind::Shape);
    };
    let signer = principal_of(&second)?;
    let Some((value, more)) = rest.split_first() else {
        return Err(CertFaultKind::Shape);
    };
    if !more.is_empty() {
        return Err(CertFaultKind::Shape);
    }
    Ok(Signature {
        alg,
        digest,
        signer,
        value: Octets::new(value.slice()),
    })
}

/// Reads the algorithm from the node of an operation, `(do hash ALG)`, which has no effect. Err is the first fault: `UnknownOp` if the
/// member after `do` is missing, or is anything but the string `hash` without a display hint; `HashAlg` if ALG is a string that names no
/// supported algorithm or has a display hint; otherwise `Shape`. Allocates nothing.
#[tactic(auto, using(crate::proofs::Heads::heads), unfolding(crate::specs::StructureFaults::do_fault))]
pub(crate) fn do_hash_of(node: &Node) -> Result<HashAlg, CertFaultKind>
    ensures found { IfOk result (λ alg. DoHashOf node.now alg) }
    ensures named { IfErr result (λ kind. do_fault node.now ≡ Some kind) }
    ensures fault { IfErr result (λ kind. kind ≢ CertFaultKind.Memory) }
{
    let Some(members) = node.headed(b"do") else {
        return Err(CertFaultKind::Shape);
    };
    let Some((operation, rest)) = members.split_first() else {
        return Err(CertFaultKind::UnknownOp);
    };
    let Some(word) = operation.plain_octets() else {
        return Err(CertFaultKind::UnknownOp);
    };
    if word != b"hash".as_slice() {
        return Err(CertFaultKind::UnknownOp);
    }
    let Some((name, more)) = rest.split_first() else {
        return Err(CertFaultKind::Shape);
    };
    let alg = algorithm_of(&name)?;
    if more.is_empty() {
        Ok(alg)
    } else {
        Err(CertFaultKind::Shape)
    }
}
