//! Hash algorithms (FIPS 180-4).

ghost use Rattle.std.specs.Prelude.{◌≡◌, ◌≢◌, ◌↔◌, IsTrue, MatchOption};
ghost use Rattle.spki_cert.specs.{declared.hash.HashAlg.{HashAlg}, Readings.{alg_name, digest_len}, Naming.{digest_of, is_digest}};

use sha1::Sha1 as Sha1Hasher;
use sha2::{Digest, Sha256 as Sha256Hasher, Sha512 as Sha512Hasher};

/// A hash algorithm that is supported.
#[derive(Clone, Copy, Debug, PartialEq, Eq)]
pub enum HashAlg {
    /// SHA-1, with digests of 20 octets.
    Sha1,
    /// SHA-256, with digests of 32 octets.
    Sha256,
    /// SHA-512, with digests of 64 octets.
    Sha512,
}

impl HashAlg {
    /// The algorithm with this name: `sha1`, `sha256` or `sha512`. None for any other name.
    pub fn named(name: &[u8]) -> Option<HashAlg>
        ensures { MatchOption result ((alg : HashAlg) → name.now ≢ alg_name alg)
            (λ alg. name.now ≡ alg_name alg) }
    {
        if name == b"sha1".as_slice() {
            Some(HashAlg::Sha1)
        } else if name == b"sha256".as_slice() {
            Some(HashAlg::Sha256)
        } else if name == b"sha512".as_slice() {
            Some(HashAlg::Sha512)
        } else {
            None
        }
    }

    /// Its name in texts: `sha1`, `sha256` or `sha512`.
    pub fn name(&self) -> &'static [u8]
        ensures { result.now ≡ alg_name self.now }
    {
        match self {
            HashAlg::Sha1 => b"sha1",
            HashAlg::Sha256 => b"sha256",
            HashAlg::Sha512 => b"sha512",
        }
    }

    /// The number of octets of its digests: 20, 32 or 64.
    pub fn digest_len(&self) -> usize
        ensures { result ≡ digest_len self.now }
    {
        match self {
            HashAlg::Sha1 => 20,
            HashAlg::Sha256 => 32,
            HashAlg::Sha512 => 64,
        }
    }

    /// Whether `digest` is the digest of the octets by this algorithm. Callers compare the digest in a signature with the octets of its
    /// certificate by this. Allocates nothing.
    pub fn fits(&self, digest: &[u8], octets: &[u8]) -> bool
        ensures is_test { result ≡ is_digest self.now digest.now octets.now }
        ensures exact { IsTrue result ↔ (digest_of self.now octets.now ≡ digest.now) }
    {
        match self {
            HashAlg::Sha1 => fits_sha1(digest, octets),
            HashAlg::Sha256 => fits_sha256(digest, octets),
            HashAlg::Sha512 => fits_sha512(digest, octets),
        }
    }
}

/// The part of `HashAlg::fits` for SHA-1: whether `digest` is the SHA-1 digest of the octets.
fn fits_sha1(digest: &[u8], octets: &[u8]) -> bool
    ensures { result ≡ is_digest HashAlg.Sha1 digest.now octets.now }
{
    let own_digest = Sha1Hasher::digest(octets);
    own_digest.as_slice() == digest
}

/// The part of `HashAlg::fits` for SHA-256: whether `digest` is the SHA-256 digest of the octets.
fn fits_sha256(digest: &[u8], octets: &[u8]) -> bool
    ensures { result ≡ is_digest HashAlg.Sha256 digest.now octets.now }
{
    let own_digest = Sha256Hasher::digest(octets);
    own_digest.as_slice() == digest
}

/// The part of `HashAlg::fits` for SHA-512: whether `digest` is the SHA-512 digest of the octets.
fn fits_sha512(digest: &[u8], octets: &[u8]) -> bool
    ensures { result ≡ is_digest HashAlg.Sha512 digest.now octets.now }
{
    let own_digest = Sha512Hasher::digest(octets);
    own_digest.as_slice() == digest
}
