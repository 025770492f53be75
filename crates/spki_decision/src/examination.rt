//! The examination of a sequence: the tests of its certificates that need no verifier, and the signatures that a verifier is
//! asked about. A value with many parts is freed by a call of `drop`, so that the proof does not go through its parts at each exit.

ghost use Rattle.std.specs.Prelude.{◌≡◌, ◌++◌, ◌∷◌, [], List, map, IfOk, OnOk, IsSome};
ghost use Rattle.spki_cert.specs.declared.{principal.Policy.{Policy}, certificate.SeqItem.{SeqItem}};
ghost use Rattle.spki_reduce.specs.{declared.tuple.Step.{Step}, Reduction.{step_tuple}};
ghost use Rattle.spki_case.specs.Case.{AreSigned, certificates, keys_of};
ghost use Rattle.spki_decision.specs.CertificateTests.{shown_of, signed_of, asked_in, every, tuple_of, certificate_of};
ghost use Rattle.spki_decision.specs.Judged.{IsEvidence, IsUnverified, IsTested};

use crate::certificates::{Certificate, ShownCert, certificates_of};
use crate::evidence::{Evidence, Stop};
use crate::named_key::keys_of;
use crate::shown_keys::ShownKeys;
use crate::signed::Signed;
use spki_cert::{Octets, Policy, SeqItem};
use spki_reduce::Step;
use std::alloc::{AllocError, Global};

/// What `examine` returns: the results of the three tests of `Stop` that need no verifier, for the certificates of a sequence.
#[derive(Drop)]
pub struct ExaminedSequence<'a> {
    /// The signatures of the certificates before the first that fails one of these tests, or of all, in order: what a verifier is asked
    /// about.
    pub signed: Vec<Signed<'a>>,
    /// What the certificates say if all these signatures are valid.
    pub unverified: Unverified<'a>,
}

/// What the certificates of a sequence say, if the signatures that a verifier is asked about are valid.
#[derive(Drop)]
pub enum Unverified<'a> {
    /// Each certificate passes the tests that need no verifier. These are their tuples, in order.
    Passes(Vec<Step<'a>>),
    /// The first certificate that fails one of these tests.
    Fails {
        /// The number of its item, from 1.
        item: usize,
        /// The first test that it does not pass.
        stop: Stop,
    },
}

impl<'a> Unverified<'a> {
    /// The evidence of the sequence: the tuples of its certificates, or the first that fails a test. The caller must have asked the verifier
    /// about every signature of `ExaminedSequence::signed`, and found all valid. Nothing is tested here.
    pub(crate) fn verified(self) -> Evidence<'a>
        ensures { (policy : Policy) (items : List SeqItem) → IsUnverified policy items self.entry
            → IsEvidence policy every items result }
    {
        match self {
            Unverified::Passes(steps) => Evidence::Verified(steps),
            Unverified::Fails { item, stop } => Evidence::Fails { item, stop },
        }
    }
}

/// The result of the first three of the four tests of one certificate.
#[derive(Drop)]
pub(crate) enum Tested<'a> {
    /// The certificate passes them, and this is its signature.
    Passes(Signed<'a>),
    /// The first test that it does not pass.
    Fails(Stop),
}

/// Tests each certificate, in order, up to the first that fails a test (RFC 2693, section 6). The tests are the first three of `Stop`, which
/// need no verifier: the issuer's key is known, the signature is for the certificate's digest, and its signer names this key. Returns the signatures
/// of the certificates that pass. `unverified` of the result has the certificate that fails and its test, or the tuples of all certificates, which
/// count if all these signatures are valid. Each certificate of the sequence must be followed by its signature. `policy` says which hashes may
/// name keys.
///
/// # Errors
///
/// `AllocError` if memory ran out, or if a tag or a list of names has too many owners to count.
pub fn examine<'a>(
    alloc: Global,
    sequence: &[SeqItem<'a>],
    policy: Policy,
) -> Result<ExaminedSequence<'a>, AllocError>
    requires { AreSigned sequence.now }
    ensures asked { IfOk result (λ e.
        map signed_of e.signed.items ≡ asked_in policy (keys_of sequence.now) (certificates sequence.now)) }
    ensures unverified { IfOk result (λ e. IsUnverified policy sequence.now e.unverified) }
{
    let mut keys = ShownKeys::new(keys_of(alloc, sequence)?);
    let examined = examine_by(alloc, sequence, policy, &mut keys);
    drop(keys);
    examined
}

/// Does the first three tests of each certificate, as `examine`. `keys` are the keys that the sequence shows; `test_certificate` may add an index
/// to them, so they are `&mut`. It is a function of its own, so that `examine` drops the keys in one place. Err if memory ran out, or if a tag or
/// a list of names has too many owners to count.
fn examine_by<'a>(
    alloc: Global,
    sequence: &[SeqItem<'a>],
    policy: Policy,
    keys: &mut ShownKeys<'a>,
) -> Result<ExaminedSequence<'a>, AllocError>
    requires signed { AreSigned sequence.now }
    requires keys { keys.old ≡ keys_of sequence.now }
    ensures asked { IfOk result (λ e.
        map signed_of e.signed.items ≡ asked_in policy (keys_of sequence.now) (certificates sequence.now)) }
    ensures unverified { IfOk result (λ e. IsUnverified policy sequence.now e.unverified) }
{
    let certificates = certificates_of(alloc, sequence)?;
    let mut steps = Vec::new(alloc);
    let mut signed = Vec::new(alloc);
    for shown in &certificates {
        match test_certificate(alloc, shown, keys, policy)? {
            Tested::Passes(one) => add_passed(&mut steps, &mut signed, &shown.certificate, one)?,
            Tested::Fails(stop) => {
                drop(steps);
                let item = shown.item;
                let unverified = Unverified::Fails { item, stop };
                return Ok(ExaminedSequence { signed, unverified });
            }
        }
    }
    let unverified = Unverified::Passes(steps);
    Ok(ExaminedSequence { signed, unverified })
}

/// Appends the tuple of a certificate that passed the first three tests to `steps`, and its signature `one` to `signed`. The tuple's issuer is
/// the key of the signature. Err if memory ran out, or if a tag or a list of names has too many owners to count.
fn add_passed<'a>(
    steps: &mut Vec<Step<'a>>,
    signed: &mut Vec<Signed<'a>>,
    certificate: &Certificate<'_, 'a>,
    one: Signed<'a>,
) -> Result<(), AllocError>
    ensures step { OnOk result ((step : Step) × (steps.new.items ≡ steps.old.items ++ step ∷ [])
        × (step_tuple step ≡ tuple_of one.entry.key (certificate_of certificate.now))) }
    ensures signed { OnOk result (signed.new.items ≡ signed.old.items ++ one.entry ∷ []) }
{
    steps.push(certificate.step(&one.key)?)?;
    signed.push(one)?;
    Ok(())
}

/// Does, in order, the three tests of a certificate that need no verifier. Its issuer is a key, or a hash that names a key of the sequence under
/// the policy: this key is `holder`. The digest in its signature is that of the certificate's octets. The signer in the signature names `holder`
/// under the policy. Returns the signature, or the first test that is not passed. The certificate must have a signature, so `unreachable!()` is
/// not reached. `keys`, those of the sequence, are `&mut` since an index may be added; the keys stay the same. Err if memory ran out.
fn test_certificate<'a>(
    alloc: Global,
    shown: &ShownCert<'_, 'a>,
    keys: &mut ShownKeys<'a>,
    policy: Policy,
) -> Result<Tested<'a>, AllocError>
    requires { IsSome (shown_of shown.now).signature }
    ensures tested { IfOk result (IsTested policy keys.old (shown_of shown.now)) }
    ensures kept { OnOk result (keys.new ≡ keys.old) }
{
    let octets = shown.certificate.octets();
    let Some(signature) = shown.signature else {
        unreachable!()
    };
    let Some(holder) = keys.holder(alloc, &shown.certificate.issuer(), policy)? else {
        return Ok(Tested::Fails(Stop::KeyNotShown));
    };
    if !signature.alg.fits(signature.digest.as_slice(), octets) {
        return Ok(Tested::Fails(Stop::DigestDiffers));
    }
    if !signature.signer.names(&holder, policy) {
        return Ok(Tested::Fails(Stop::SignerDiffers));
    }
    Ok(Tested::Passes(Signed {
        item: shown.item,
        key: holder,
        message: Octets::new(octets),
        value: signature.value.share(),
        alg: signature.alg,
        digest: signature.digest.share(),
    }))
}
