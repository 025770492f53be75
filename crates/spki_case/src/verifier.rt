//! Verifiers of signatures.

ghost use Rattle.std.specs.Prelude.{◌≡◌, ◌↔◌, ℕ, List, IsTrue, IsOk, IfOk};
ghost use Rattle.sha2.specs.Sha256.{sha256};
ghost use Rattle.spki_case.specs.View.{verified_by};

use crate::table::AcceptedTable;
use sha2::{Digest, Sha256};
use spki_cert::Key;
use std::alloc::{AllocError, Global};

/// A verifier decides, for a key, a message and a signature value, whether the signature is valid. It states which values
/// are signatures of a key over a message, and answers according to this statement.
pub trait Verifier {
    /// For a key's canonical octets, a message and a value's canonical octets: the value is a signature of the key over the
    /// message.
    ghost accepted: { Self → List ℕ → List ℕ → List ℕ → Type 0 };

    /// Whether the value, in canonical form, is a signature of the key over the message. `alloc` is for a verifier that needs memory.
    ///
    /// # Errors
    ///
    /// `AllocError` if memory ran out.
    fn accepts(
        &self,
        alloc: Global,
        key: &Key,
        message: &[u8],
        value: &[u8],
    ) -> Result<bool, AllocError>
        ensures { IfOk result (λ yes. IsTrue yes ↔ accepted self.now key.now message.now value.now) };

    /// Whether the value is a signature of the key over the message, like `accepts`. `digest` must be the SHA-256 digest of the message,
    /// which a caller may have already. So a verifier that searches by the digest does not digest the message again. One that does not use
    /// it keeps this body, which ignores `digest`.
    ///
    /// # Errors
    ///
    /// `AllocError` if memory ran out.
    fn accepts_digested(
        &self,
        alloc: Global,
        key: &Key,
        message: &[u8],
        digest: &[u8],
        value: &[u8],
    ) -> Result<bool, AllocError>
        requires { sha256 message.now ≡ digest.now }
        ensures { IfOk result (λ yes. IsTrue yes ↔ accepted self.now key.now message.now value.now) }
    {
        self.accepts(alloc, key, message, value)
    }
}

impl<'a> Verifier for AcceptedTable<'a> {
    ghost accepted = { verified_by };

    /// Whether some row of the table has this key, this value and the message's SHA-256 digest. Always Ok: nothing is allocated.
    fn accepts(
        &self,
        _alloc: Global,
        key: &Key,
        message: &[u8],
        value: &[u8],
    ) -> Result<bool, AllocError>
        ensures ok { IsOk result }
        ensures answer { IfOk result (λ yes. IsTrue yes ↔ verified_by self.now key.now message.now value.now) }
    {
        let digest = Sha256::digest(message);
        Ok(some_accepts(self, key, digest.as_slice(), value))
    }

    /// Whether some row of the table has this key, this value and this digest, which must be the SHA-256 digest of the message. So the
    /// message itself is not used. Always Ok: nothing is allocated.
    fn accepts_digested(
        &self,
        _alloc: Global,
        key: &Key,
        message: &[u8],
        digest: &[u8],
        value: &[u8],
    ) -> Result<bool, AllocError>
        requires { sha256 message.now ≡ digest.now }
        ensures ok { IsOk result }
        ensures answer { IfOk result (λ yes. IsTrue yes ↔ verified_by self.now key.now message.now value.now) }
    {
        Ok(some_accepts(self, key, digest, value))
    }
}

/// Whether some row of the table has this key, this SHA-256 digest of a message and this value, by a binary search of the sorted rows.
fn some_accepts(table: &AcceptedTable, key: &Key, digest: &[u8], value: &[u8]) -> bool
    ensures { (message : List ℕ) → sha256 message ≡ digest.now
        → IsTrue result ↔ verified_by table.now key.now message value.now }
{
    table
        .sorted
        .binary_search(&(digest, value, key.as_slice()))
        .is_ok()
}
