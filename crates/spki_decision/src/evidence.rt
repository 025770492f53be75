//! The evidence of a sequence: the four tests of each certificate.

ghost use Rattle.std.specs.Prelude.{◌↔◌, map, IfOk, IsTrue};
ghost use Rattle.spki_case.specs.Case.{AreSigned};
ghost use Rattle.spki_decision.specs.{CertificateTests.{signed_of, IsAccepted, IsFirstRefused}, Judged.{IsEvidence}};

use crate::examination::examine;
use crate::signed::Signed;
use spki_case::Verifier;
use spki_cert::{HashAlg, Policy, SeqItem};
use spki_reduce::Step;
use std::alloc::{AllocError, Global};

/// Why a certificate fails verification: the first of four tests that it does not pass (RFC 2693, section 6).
#[derive(Clone, Copy, Debug, PartialEq, Eq)]
pub enum Stop {
    /// The issuer is a hash that names no key of the sequence under the policy.
    KeyNotShown,
    /// The digest in the certificate's signature is not that of the certificate's canonical form.
    DigestDiffers,
    /// The signer in the certificate's signature does not name the issuer's key.
    SignerDiffers,
    /// The verifier does not accept the signature.
    NotAccepted,
}

/// The evidence of a sequence: whether all its certificates pass the four tests of `Stop`.
#[derive(Drop)]
pub enum Evidence<'a> {
    /// Each certificate passes the tests. These are their tuples, in order.
    Verified(Vec<Step<'a>>),
    /// The first certificate that fails a test.
    Fails {
        /// The number of its item, from 1.
        item: usize,
        /// The first test that it does not pass.
        stop: Stop,
    },
}

/// Returns the evidence of a sequence: the tuples of its certificates, or the first that fails one of the four tests (RFC 2693, section 6).
/// Each certificate must be followed by its signature. The message that the verifier is passed is a certificate's canonical form. The
/// verifier is asked only about certificates before the one that `examine` finds to fail. So if the verifier does not accept a signature, the
/// certificate of the first such signature is the first that fails. `policy` says which hashes may name keys.
///
/// # Errors
///
/// `AllocError` if memory ran out, here or in the verifier, or if a tag or a list of names has too many owners to count.
#[tactic(auto, using(crate::proofs::ListedSignatures::all_accepted, crate::proofs::ListedSignatures::refused_within))]
pub fn judge<'a, V: Verifier>(
    alloc: Global,
    sequence: &[SeqItem<'a>],
    policy: Policy,
    verifier: &V,
) -> Result<Evidence<'a>, AllocError>
    requires { AreSigned sequence.now }
    ensures { IfOk result (IsEvidence policy (V.accepted verifier.now) sequence.now) }
{
    let examined = examine(alloc, sequence, policy)?;
    match first_refused(alloc, &examined.signed, verifier)? {
        None => Ok(examined.unverified.verified()),
        Some(index) => Ok(Evidence::Fails {
            item: examined.signed[index].item,
            stop: Stop::NotAccepted,
        }),
    }
}

/// Returns the index, from 0, of the first of these signatures that the verifier does not accept. None if it accepts all of
/// them.
///
/// # Errors
///
/// `AllocError` if memory ran out in the verifier.
#[tactic(auto, using(crate::proofs::ListedSignatures::refused_here, crate::proofs::ListedSignatures::one_more))]
pub fn first_refused<V: Verifier>(
    alloc: Global,
    signed: &[Signed],
    verifier: &V,
) -> Result<Option<usize>, AllocError>
    ensures { IfOk result (IsFirstRefused (V.accepted verifier.now) (map signed_of signed.now)) }
{
    for (index, one) in signed.iter().enumerate() {
        if !is_accepted(alloc, verifier, one)? {
            return Ok(Some(index));
        }
    }
    Ok(None)
}

/// Whether the verifier accepts a signature. A digest by SHA-256 is passed to the verifier, which then need not digest the
/// certificate again. With another algorithm the verifier gets only the message, since `accepts_digested` takes no other digest.
/// Err if memory ran out in the verifier.
fn is_accepted<V: Verifier>(
    alloc: Global,
    verifier: &V,
    signed: &Signed,
) -> Result<bool, AllocError>
    ensures { IfOk result (λ yes. IsTrue yes ↔ IsAccepted (V.accepted verifier.now) (signed_of signed.now)) }
{
    let message = signed.message.as_slice();
    let value = signed.value.as_slice();
    match signed.alg {
        HashAlg::Sha256 => {
            let digest = signed.digest.as_slice();
            verifier.accepts_digested(alloc, &signed.key, message, digest, value)
        }
        HashAlg::Sha1 | HashAlg::Sha512 => verifier.accepts(alloc, &signed.key, message, value),
    }
}
