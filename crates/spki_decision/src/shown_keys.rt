//! The keys of a sequence, which are found by their digests.

ghost use Rattle.std.specs.{Prelude.{◌≡◌, ◌∷◌, [], ℕ, List, IfOk, OnOk, IfSome, find}, Option.{option_or}};
ghost use Rattle.spki_cert.specs.{declared.hash.HashAlg.{HashAlg}, Naming.{digest_of, is_digest}};
ghost use Rattle.spki_decision.specs.{CertificateTests.{issuer_key}, Judged.{HasFirstKeys}};
ghost use Rattle.spki_case.specs.Lookups.{at_digest};

use spki_cert::{HashAlg, Key, Policy, Principal};
use std::alloc::{AllocError, Global};
use std::collections::BTreeMap;
use std::marker::Model;

/// For each digest, by one algorithm, the first key of the sequence that has it.
type FirstKeys<'a> = BTreeMap<Vec<u8>, Key<'a>>;

/// The keys of a sequence, in order, with an index of their digests for each algorithm of a hash that was looked for. In a
/// contract they are the list of the keys.
#[derive(Drop)]
pub(crate) struct ShownKeys<'a> {
    /// The keys, in order.
    keys: Vec<Key<'a>>,
    /// The index by SHA-1. None until a hash by this algorithm is looked for.
    by_sha1: Option<FirstKeys<'a>>,
    /// The same by SHA-256.
    by_sha256: Option<FirstKeys<'a>>,
    /// The same by SHA-512.
    by_sha512: Option<FirstKeys<'a>>,
}

impl<'a> Model for ShownKeys<'a> {
    ghost Value = { List (List ℕ) };

    ghost view = { λ shown. shown.keys.items };

    ghost invariant = { λ shown.
        IfSome shown.by_sha1 (HasFirstKeys HashAlg.Sha1 shown.keys.items)
        × IfSome shown.by_sha256 (HasFirstKeys HashAlg.Sha256 shown.keys.items)
        × IfSome shown.by_sha512 (HasFirstKeys HashAlg.Sha512 shown.keys.items) };
}

impl<'a> ShownKeys<'a> {
    /// The keys of a sequence, in order. No index is made yet.
    pub(crate) fn new(keys: Vec<Key<'a>>) -> ShownKeys<'a>
        ensures { result ≡ keys.entry.items }
    {
        ShownKeys {
            keys,
            by_sha1: None,
            by_sha256: None,
            by_sha512: None,
        }
    }

    /// The key of a certificate's issuer: the issuer itself if it is a key. If it is a hash, the first key of the sequence that the hash
    /// names under the policy, or None if there is none. The keys stay the same; an index may be added, so `self` is `&mut`. Err if
    /// memory ran out.
    #[tactic(auto, using(crate::proofs::CertificateTests::found_none))]
    pub(crate) fn holder(
        &mut self,
        alloc: Global,
        issuer: &Principal<'a>,
        policy: Policy,
    ) -> Result<Option<Key<'a>>, AllocError>
        ensures key { IfOk result (λ key. key ≡ issuer_key policy self.old issuer.now) }
        ensures kept { OnOk result (self.new ≡ self.old) }
    {
        match issuer {
            Principal::Key(key) => Ok(Some(key.share())),
            Principal::Hash { alg, digest } => {
                if policy.admits(*alg) {
                    self.first_with(alloc, *alg, digest.as_slice())
                } else {
                    Ok(None)
                }
            }
        }
    }

    /// The first key whose digest by the algorithm is `digest`. None if there is none. Adds the index for the algorithm if there is none
    /// yet. Err if memory ran out.
    fn first_with(
        &mut self,
        alloc: Global,
        alg: HashAlg,
        digest: &[u8],
    ) -> Result<Option<Key<'a>>, AllocError>
        ensures key { IfOk result (λ key. key ≡ find (λ octets. is_digest alg digest.now octets) self.old) }
        ensures kept { OnOk result (self.new ≡ self.old) }
    {
        match alg {
            HashAlg::Sha1 => first_in(&mut self.by_sha1, alloc, alg, &self.keys, digest),
            HashAlg::Sha256 => first_in(&mut self.by_sha256, alloc, alg, &self.keys, digest),
            HashAlg::Sha512 => first_in(&mut self.by_sha512, alloc, alg, &self.keys, digest),
        }
    }
}

/// The first of `keys` whose digest by the algorithm is `digest`. None if there is none. It is found in `index`, the index of `keys` by the
/// digests of this algorithm, which is made first if it is None. Err if memory ran out.
fn first_in<'a>(
    index: &mut Option<FirstKeys<'a>>,
    alloc: Global,
    alg: HashAlg,
    keys: &[Key<'a>],
    digest: &[u8],
) -> Result<Option<Key<'a>>, AllocError>
    requires { IfSome index.old (HasFirstKeys alg keys.now) }
    ensures key { IfOk result (λ key. key ≡ find (λ octets. is_digest alg digest.now octets) keys.now) }
    ensures kept { IfSome index.new (HasFirstKeys alg keys.now) }
{
    let first = match index.take() {
        Some(first) => first,
        None => first_keys(alloc, alg, keys)?,
    };
    let found = match first.get(digest) {
        Some(key) => Some(key.share()),
        None => None,
    };
    *index = Some(first);
    Ok(found)
}

/// Makes a map from the digests of the keys by the algorithm to the first key that has each. Err if memory ran out.
fn first_keys<'a>(
    alloc: Global,
    alg: HashAlg,
    keys: &[Key<'a>],
) -> Result<FirstKeys<'a>, AllocError>
    ensures { IfOk result (HasFirstKeys alg keys.now) }
{
    let mut first = BTreeMap::new(alloc);
    for key in keys {
        add_key(&mut first, alloc, alg, key)?;
    }
    Ok(first)
}

/// Adds a key to the map at its digest by the algorithm, unless the map has a key there: the first one stays. Err if memory ran out.
fn add_key<'a>(
    first: &mut FirstKeys<'a>,
    alloc: Global,
    alg: HashAlg,
    key: &Key<'a>,
) -> Result<(), AllocError>
    ensures { OnOk result ((digest : List ℕ) → at_digest first.new digest
        ≡ option_or (at_digest first.old digest) (find (λ octets. is_digest alg digest octets) (key.now ∷ []))) }
{
    let digest = digest_by(alloc, alg, key)?;
    if !first.contains_key(digest.as_slice()) {
        first.insert(digest, key.share())?;
    }
    Ok(())
}

/// The digest of a key by the algorithm. Err if memory ran out.
fn digest_by(alloc: Global, alg: HashAlg, key: &Key) -> Result<Vec<u8>, AllocError>
    ensures { IfOk result (λ digest. digest.items ≡ digest_of alg key.now) }
{
    match alg {
        HashAlg::Sha1 => Ok(Vec::from_array(alloc, key.sha1())?),
        HashAlg::Sha256 => Ok(Vec::from_array(alloc, key.sha256())?),
        HashAlg::Sha512 => Ok(Vec::from_array(alloc, key.sha512())?),
    }
}
