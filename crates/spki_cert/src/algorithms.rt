//! The algorithms by which keys may have to be digested.

ghost use Rattle.std.specs.Prelude.{◌≡◌, ◌||◌, ◌&&◌, false};
ghost use Rattle.spki_cert.specs.{declared.hash.HashAlg.{HashAlg}, Naming.{admits, is_among, is_hash_by, is_same}};

use crate::hash::HashAlg;
use crate::principal::{Policy, Principal};

/// A set of hash algorithms: those by which a key may have to be digested, because it may be compared with hashes by them.
#[derive(Clone, Copy, Debug, PartialEq, Eq)]
pub struct Algorithms {
    /// SHA-1 is among them.
    pub sha1: bool,
    /// SHA-256 is among them.
    pub sha256: bool,
    /// SHA-512 is among them.
    pub sha512: bool,
}

impl Algorithms {
    /// No algorithm: all three fields are false.
    pub fn none() -> Algorithms
        ensures { (alg : HashAlg) → is_among result alg ≡ false }
    {
        Algorithms {
            sha1: false,
            sha256: false,
            sha512: false,
        }
    }

    /// Returns these algorithms, and that of the principal if it is a hash that may name keys under the policy (RFC 2693, section 2.5).
    /// Keys are compared with such a hash by their digests. A principal that is a key adds no algorithm.
    pub fn with(self, principal: &Principal, policy: Policy) -> Algorithms
        ensures { (alg : HashAlg) → is_among result alg
            ≡ (is_among self alg || (is_hash_by principal.now alg && admits policy alg)) }
    {
        match principal {
            Principal::Key(_) => self,
            Principal::Hash { alg, .. } => {
                if policy.admits(*alg) {
                    self.and(*alg)
                } else {
                    self
                }
            }
        }
    }

    /// Returns these algorithms and the algorithm `more`, which may be among them already.
    fn and(self, more: HashAlg) -> Algorithms
        ensures { (alg : HashAlg) → is_among result alg ≡ (is_among self alg || is_same more alg) }
    {
        match more {
            HashAlg::Sha1 => Algorithms { sha1: true, ..self },
            HashAlg::Sha256 => Algorithms {
                sha256: true,
                ..self
            },
            HashAlg::Sha512 => Algorithms {
                sha512: true,
                ..self
            },
        }
    }
}
