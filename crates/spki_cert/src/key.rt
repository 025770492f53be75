//! Keys.

ghost use Rattle.std.specs.Prelude.{◌≡◌, ◌↔◌, ℕ, List, IsTrue};

use crate::algorithms::Algorithms;
use crate::hash::HashAlg;
use crate::octets::Octets;
use sha1::Sha1;
use sha2::{Digest, Sha256, Sha512};
use std::marker::Model;

/// Digests of a key's canonical octets, as far as they were made. None: not made yet.
#[derive(Clone, Copy)]
struct Digests {
    sha1: Option<[u8; 20]>,
    sha256: Option<[u8; 32]>,
    sha512: Option<[u8; 64]>,
}

/// A public key, as its canonical octets (RFC 2693, section 2.5). Two keys are the same if these octets are. A key carries the digests that
/// `digested` has made of it, so that they are not made at each comparison with a hash.
#[derive(Drop)]
pub struct Key<'a> {
    /// The canonical octets, borrowed from the text that was read.
    canonical: Octets<'a>,
    /// The digests of these octets, as far as they were made.
    digests: Digests,
}

impl<'a> Model for Key<'a> {
    ghost use Rattle.std.specs.Prelude.{◌≡◌, ℕ, List, IfSome};
    ghost use Rattle.sha1.specs.Sha1.{sha1};
    ghost use Rattle.sha2.specs.{Sha256.{sha256}, Sha512.{sha512}};
    ghost use Rattle.spki_cert.specs.Readings.{IsKey};

    ghost Value = { List ℕ };

    ghost view = { λ k. k.canonical };

    ghost invariant = { λ k.
        IsKey k.canonical
        × IfSome k.digests.sha1 (λ digest. digest ≡ sha1 k.canonical)
        × IfSome k.digests.sha256 (λ digest. digest ≡ sha256 k.canonical)
        × IfSome k.digests.sha512 (λ digest. digest ≡ sha512 k.canonical) };
}

impl<'a> Key<'a> {
    ghost use Rattle.spki_cert.specs.{Naming.{is_digest}, Readings.{IsKey}};
    ghost use Rattle.sha1.specs.Sha1.{sha1};
    ghost use Rattle.sha2.specs.{Sha256.{sha256}, Sha512.{sha512}};

    /// The key with these canonical octets, which must be those of a key. It carries no digests yet.
    pub(crate) fn new(octets: &'a [u8]) -> Key<'a>
        requires { IsKey octets.now }
        ensures { result ≡ octets.now }
    {
        Key {
            canonical: Octets::new(octets),
            digests: Digests {
                sha1: None,
                sha256: None,
                sha512: None,
            },
        }
    }

    /// A fact for the prover, from the invariant of `Key`: a key is the canonical form of a value that reads as a key, however it was made.
    /// Does nothing.
    pub fn prove_well_formed(&self)
        ensures { IsKey self.now }
    {
        let _ = &self.canonical;
    }

    /// The canonical octets of the key, such as `(10:public-key(..))`.
    pub fn as_slice(&self) -> &'a [u8]
        ensures { result.now ≡ self.now }
    {
        self.canonical.as_slice()
    }

    /// Returns the same key again, with the digests that it carries: the octets are borrowed by both. Allocates nothing.
    pub fn share(&self) -> Key<'a>
        ensures { result ≡ self.now }
    {
        Key {
            canonical: self.canonical.share(),
            digests: self.digests,
        }
    }

    /// Returns the same key with its digests by these algorithms, in addition to those that it carries. Allocates nothing.
    /// A digest that the key carries is not made again, by this call or by `Principal::names`.
    pub fn digested(&self, algorithms: Algorithms) -> Key<'a>
        ensures { result ≡ self.now }
    {
        Key {
            canonical: self.canonical.share(),
            digests: Digests {
                sha1: if algorithms.sha1 {
                    Some(self.sha1())
                } else {
                    self.digests.sha1
                },
                sha256: if algorithms.sha256 {
                    Some(self.sha256())
                } else {
                    self.digests.sha256
                },
                sha512: if algorithms.sha512 {
                    Some(self.sha512())
                } else {
                    self.digests.sha512
                },
            },
        }
    }

    /// Whether `digest` is the digest of the key's canonical octets by this algorithm. If the key carries its digest, this one is compared.
    /// Otherwise the key is digested now. Allocates nothing.
    pub fn has_digest(&self, alg: HashAlg, digest: &[u8]) -> bool
        ensures { result ≡ is_digest alg digest.now self.now }
    {
        match alg {
            HashAlg::Sha1 => self.sha1().as_slice() == digest,
            HashAlg::Sha256 => self.sha256().as_slice() == digest,
            HashAlg::Sha512 => self.sha512().as_slice() == digest,
        }
    }

    /// The SHA-1 digest of its canonical octets (FIPS 180-4): the one that the key carries, or one that is made now.
    pub fn sha1(&self) -> [u8; 20]
        ensures { result ≡ sha1 self.now }
    {
        match self.digests.sha1 {
            Some(kept) => kept,
            None => Sha1::digest(self.canonical.as_slice()),
        }
    }

    /// The SHA-256 digest of its canonical octets (FIPS 180-4): the one that the key carries, or one that is made now.
    pub fn sha256(&self) -> [u8; 32]
        ensures { result ≡ sha256 self.now }
    {
        match self.digests.sha256 {
            Some(kept) => kept,
            None => Sha256::digest(self.canonical.as_slice()),
        }
    }

    /// The SHA-512 digest of its canonical octets (FIPS 180-4): the one that the key carries, or one that is made now.
    pub fn sha512(&self) -> [u8; 64]
        ensures { result ≡ sha512 self.now }
    {
        match self.digests.sha512 {
            Some(kept) => kept,
            None => Sha512::digest(self.canonical.as_slice()),
        }
    }

    /// Whether both keys have the same canonical octets.
    pub fn same(&self, other: &Key) -> bool
        ensures { IsTrue result ↔ (self.now ≡ other.now) }
    {
        self.canonical.same(&other.canonical)
    }
}
