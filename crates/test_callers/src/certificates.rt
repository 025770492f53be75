//! An example of a caller of `spki_cert`, which its `CALLING.md` quotes. A service has stored `pin`, the 32 octets of the SHA-256 digest of a key's
//! canonical octets. The answer is Ok with None for a key with another digest, and Err for a document that is no key.

ghost use Rattle.std.specs.Prelude.{◌≡◌, ◌≢◌, ℕ, List, Some, IfOk, IfErr, OnErr, MatchOption};
ghost use Rattle.spki_cert.specs.{declared.hash.HashAlg.TheVariants.{Sha256}, Naming.{digest_of}, Readings.{KeyOf, IsNoKey}, FieldFaults.{key_fault}};

use sexpr_core::Doc;
use spki_cert::{CertFaultKind, HashAlg, Key, key_of};

/// Reads the key that a document is. None if its SHA-256 digest is not `pin`, the stored one.
///
/// # Errors
///
/// Those of `key_of`.
pub fn pinned_key<'a>(document: &Doc<'a>, pin: &[u8]) -> Result<Option<Key<'a>>, CertFaultKind>
    ensures pinned { IfOk result (λ found. (octets : List ℕ) × KeyOf document.now octets
        × MatchOption found (digest_of Sha256 octets ≢ pin.now)
        (λ key. (key ≡ octets) × (digest_of Sha256 octets ≡ pin.now))) }
    ensures refused { OnErr result (IsNoKey document.now) }
    ensures named { IfErr result (λ kind. key_fault document.now ≡ Some kind) }
{
    let key = key_of(&document.top())?;
    if HashAlg::Sha256.fits(pin, key.as_slice()) {
        Ok(Some(key))
    } else {
        Ok(None)
    }
}
