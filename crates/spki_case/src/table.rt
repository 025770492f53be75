//! Signatures that the service has verified, which are found by their digests, values and keys.

ghost use Rattle.std.specs.Prelude.{◌≡◌, IfOk};
ghost use Rattle.spki_case.specs.Lookups.{AreSorted};

use spki_cert::{Key, Octets};
use std::alloc::{AllocError, Global};

/// A signature that the service has verified.
#[derive(Drop)]
pub struct Row<'a> {
    /// The key that signed.
    pub key: Key<'a>,
    /// The SHA-256 digest of the message. The message of a certificate's signature is the certificate's canonical octets.
    pub digest: Octets<'a>,
    /// The signature's value, in canonical form.
    pub value: Octets<'a>,
}

/// The octets of a row's digest, value and key, borrowed. They are compared in this order, so a key is compared only where the others are
/// equal.
pub(crate) type SortedRow<'a> = (&'a [u8], &'a [u8], &'a [u8]);

/// Signatures that the service has verified. As a verifier it accepts these and no others.
#[derive(Drop)]
pub struct AcceptedTable<'a> {
    /// The signatures, in any order.
    pub rows: Vec<Row<'a>>,
    /// The digest, value and key of each of these rows, sorted by these in this order, for the binary search of the verifier.
    pub(crate) sorted: Vec<SortedRow<'a>>,
    /// `sorted` has the same signatures as `rows`, in order.
    ghost found: { AreSorted rows.items sorted.items },
}

impl<'a> AcceptedTable<'a> {
    /// Makes the table of these signatures, so that each can be found by its digest, value and key. Verifies nothing, and keeps rows that are
    /// there twice.
    ///
    /// # Errors
    ///
    /// `AllocError` if memory ran out.
    pub fn new(alloc: Global, rows: Vec<Row<'a>>) -> Result<AcceptedTable<'a>, AllocError>
        ensures { IfOk result (λ table. table.rows.items ≡ rows.entry.items) }
    {
        let sorted = sorted_rows(alloc, &rows)?;
        Ok(AcceptedTable { rows, sorted })
    }
}

/// The digest, value and key of each row, sorted by these in this order. Err if memory ran out.
fn sorted_rows<'a>(alloc: Global, rows: &[Row<'a>]) -> Result<Vec<SortedRow<'a>>, AllocError>
    ensures { IfOk result (λ sorted. AreSorted rows.now sorted.items) }
{
    let mut sorted = Vec::with_capacity(alloc, rows.len())?;
    for row in rows {
        sorted.push((
            row.digest.as_slice(),
            row.value.as_slice(),
            row.key.as_slice(),
        ))?;
    }
    sorted.sort_unstable();
    Ok(sorted)
}
