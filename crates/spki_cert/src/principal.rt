//! Principals, and which keys they name (RFC 2693, section 2.5).

ghost use Rattle.std.specs.Prelude.{◌≡◌};

use crate::hash::HashAlg;
use crate::key::Key;
use crate::octets::Octets;

/// Which hashes may name keys.
#[derive(Clone, Copy, Debug, PartialEq, Eq)]
pub enum Policy {
    /// The hashes of all three algorithms name keys.
    Open,
    /// A SHA-1 hash names no key.
    Strict,
}

/// A key, or the hash of one.
#[derive(Drop)]
pub enum Principal<'a> {
    /// The key itself.
    Key(Key<'a>),
    /// The digest of a key's canonical octets.
    Hash {
        /// The algorithm.
        alg: HashAlg,
        /// The digest.
        digest: Octets<'a>,
    },
}

impl<'a> Principal<'a> {
    ghost use Rattle.spki_cert.specs.Naming.{names};

    /// Returns the same principal again, with the digests that its key carries. Allocates nothing.
    pub fn share(&self) -> Principal<'a>
        ensures { result ≡ self.now }
    {
        match self {
            Principal::Key(key) => Principal::Key(key.share()),
            Principal::Hash { alg, digest } => Principal::Hash {
                alg: *alg,
                digest: digest.share(),
            },
        }
    }

    /// Whether the principal names the key. A key names the key with the same octets. A hash names each key whose canonical
    /// octets have its digest, but under the strict policy a SHA-1 hash names none. Allocates nothing.
    pub fn names(&self, key: &Key, policy: Policy) -> bool
        ensures { result ≡ names policy self.now key.now }
    {
        match self {
            Principal::Key(own) => own.same(key),
            Principal::Hash { alg, digest } => {
                policy.admits(*alg) && key.has_digest(*alg, digest.as_slice())
            }
        }
    }
}

impl Policy {
    ghost use Rattle.spki_cert.specs.Naming.{admits};

    /// Whether hashes of the algorithm may name keys under this policy.
    pub fn admits(self, alg: HashAlg) -> bool
        ensures { result ≡ admits self alg }
    {
        match self {
            Policy::Open => true,
            Policy::Strict => match alg {
                HashAlg::Sha1 => false,
                HashAlg::Sha256 | HashAlg::Sha512 => true,
            },
        }
    }
}
