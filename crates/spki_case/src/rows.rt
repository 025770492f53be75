//! Reads the rows of an accepted list, which are signatures that the service has verified.

ghost use Rattle.std.specs.{Prelude.{◌≡◌, ◌≢◌, ◌<◌, ◌↔◌, length, map, Some, None, IfOk, IfErr, IsErrOf}, List.{AllZip}};
ghost use Rattle.spki_cert.specs.Readings.{HashOf};
ghost use Rattle.spki_case.specs.{Case.{RowOf, sha256_fault, row_fault, rows_fault, IsOuter}, View.{row_of, rows_of}};
ghost use Rattle.spki_case.specs.RowsForm.{RowsOf, NoRows, IsRowsText, RowsTextRefused};

use crate::table::{AcceptedTable, Row};
use sexpr_core::syntax::{Members, Node};
use sexpr_core::{Doc, FormFault};
use spki_cert::{CertFault, CertFaultKind, HashAlg, Octets, hash_of, key_of};
use std::alloc::Global;
use thiserror::Error;

/// Why a text is no accepted list.
#[derive(Clone, Copy, Debug, PartialEq, Eq, Error)]
pub enum RowsFault {
    /// The text is no canonical form within the limits.
    #[error("form: {0}")]
    Form(FormFault),
    /// The value is no list with the head `accepted`.
    #[error("not built as an accepted list")]
    Shape,
    /// The fault of a row. Its item is the number of the row, from 1.
    #[error("row: {0}")]
    Row(CertFault),
    /// Memory ran out.
    #[error("out of memory")]
    Memory,
}

impl<'a> AcceptedTable<'a> {
    /// Reads an accepted list from a canonical text of its own, outside of a case: `(accepted row ..)`. A caller who has opened the text as
    /// a document calls `of` instead.
    ///
    /// # Errors
    ///
    /// `Form` if the text is no canonical form within the limits; `Form(TooLong)` exactly if it has more than 1,048,576 octets. `Shape` if
    /// its value is no list with the head `accepted`. Otherwise `Row` with the fault of the first row that cannot be read. `Memory` if
    /// memory ran out.
    pub fn read(alloc: Global, text: &'a [u8]) -> Result<AcceptedTable<'a>, RowsFault>
        ensures read { IfOk result (λ table. IsRowsText text.entry.now (rows_of table)) }
        ensures too_long { IsErrOf result (RowsFault.Form FormFault.TooLong) ↔ (1048576 < length text.entry.now) }
        ensures refused { IfErr result (λ fault. fault ≢ RowsFault.Memory → RowsTextRefused text.entry.now fault) }
    {
        match Doc::open(alloc, text) {
            Ok(document) => AcceptedTable::of(alloc, &document.top()),
            Err(FormFault::Memory) => Err(RowsFault::Memory),
            Err(fault) => Err(RowsFault::Form(fault)),
        }
    }

    /// Reads an accepted list that is not part of a case from its node: `(accepted row ..)`.
    ///
    /// # Errors
    ///
    /// `Shape` if the value is no list with the head `accepted`. Otherwise `Row` with the fault of the first row that
    /// cannot be read. `Memory` if memory ran out.
    pub fn of(alloc: Global, node: &Node<'_, 'a>) -> Result<AcceptedTable<'a>, RowsFault>
        ensures read { IfOk result (λ table. RowsOf node.now (rows_of table)) }
        ensures refused { IfErr result (λ fault. fault ≢ RowsFault.Memory → NoRows node.now fault) }
    {
        let Some(rows) = node.headed(b"accepted") else {
            return Err(RowsFault::Shape);
        };
        match table_of(alloc, rows) {
            Ok(table) => Ok(table),
            Err(fault) => Err(fault_of_row(fault)),
        }
    }
}

/// The error of reading an accepted list for `fault`, that of reading its rows: `Memory` if memory ran out, otherwise `Row` with the fault.
fn fault_of_row(fault: CertFault) -> RowsFault
    ensures { IsOuter (fault.kind ≡ CertFaultKind.Memory) RowsFault.Memory (RowsFault.Row fault) result }
{
    match fault.kind {
        CertFaultKind::Memory => RowsFault::Memory,
        _ => RowsFault::Row(fault),
    }
}

/// Reads a row from its node: `(by KEY HASH VALUE)`. It says that VALUE is a signature of KEY over the message with this HASH. HASH must be
/// by SHA-256. VALUE is any value: only its canonical octets are kept. Err is the first fault from the left: that of KEY (`key_of`), that
/// of HASH (`sha256_of`), or `Shape` if the head is not `by` or the members are not exactly these three. Allocates nothing.
fn row_at<'a>(node: &Node<'_, 'a>) -> Result<Row<'a>, CertFaultKind>
    ensures row { IfOk result (λ row. RowOf node.now (row_of row)) }
    ensures named { IfErr result (λ kind. row_fault node.now ≡ Some kind) }
{
    let Some(rest) = node.headed(b"by") else {
        return Err(CertFaultKind::Shape);
    };
    let Some((key, rest)) = rest.split_first() else {
        return Err(CertFaultKind::Shape);
    };
    let key = key_of(&key)?;
    let Some((hash, rest)) = rest.split_first() else {
        return Err(CertFaultKind::Shape);
    };
    let digest = sha256_of(&hash)?;
    let Some((value, rest)) = rest.split_first() else {
        return Err(CertFaultKind::Shape);
    };
    if !rest.is_empty() {
        return Err(CertFaultKind::Shape);
    }
    Ok(Row {
        key,
        digest,
        value: Octets::new(value.slice()),
    })
}

/// Reads the digest from the node of a hash by SHA-256: `(hash sha256 DIGEST)`. Err is the first fault of the hash, as `hash_of` says, or
/// `HashAlg` if it is a hash by SHA-1 or SHA-512. Allocates nothing.
fn sha256_of<'a>(node: &Node<'_, 'a>) -> Result<Octets<'a>, CertFaultKind>
    ensures digest { IfOk result (λ digest. HashOf node.now HashAlg.Sha256 digest) }
    ensures named { IfErr result (λ kind. sha256_fault node.now ≡ Some kind) }
{
    let (alg, digest) = hash_of(node)?;
    match alg {
        HashAlg::Sha256 => Ok(digest),
        HashAlg::Sha1 | HashAlg::Sha512 => Err(CertFaultKind::HashAlg),
    }
}

/// Reads the rows from the members of an accepted list after its head. Err is the first fault, with the number of its row, from 1, or
/// `Memory` if memory ran out.
fn read_rows<'a>(alloc: Global, members: Members<'_, 'a>) -> Result<Vec<Row<'a>>, CertFault>
    ensures rows { IfOk result (λ rows. AllZip RowOf members.entry (map row_of rows.items)) }
    ensures named { IfErr result (λ fault. fault.kind ≢ CertFaultKind.Memory → rows_fault members.entry ≡ Some fault) }
{
    let mut rest = members;
    let mut rows = Vec::new(alloc);
    while let Some((member, others)) = rest.split_first() {
        let item = rows.len() + 1;
        match row_at(&member) {
            Ok(row) => match rows.push(row) {
                Ok(()) => {}
                Err(_) => {
                    return Err(CertFault {
                        item,
                        kind: CertFaultKind::Memory,
                    });
                }
            },
            Err(kind) => return Err(CertFault { item, kind }),
        }
        rest = others;
    }
    Ok(rows)
}

/// Reads an accepted list, the signatures that a service has verified, from `members`: its rows, which come after its head `accepted`. The
/// list is part of a case or a text of its own. Err is the fault of the first row that cannot be read, with the number of this row, from 1.
/// If memory ran out, the fault is `Memory`, and its number is 0 if all rows had been read.
pub(crate) fn table_of<'a>(
    alloc: Global,
    members: Members<'_, 'a>,
) -> Result<AcceptedTable<'a>, CertFault>
    ensures rows { IfOk result (λ table. AllZip RowOf members.entry (rows_of table)) }
    ensures named { IfErr result (λ fault. fault.kind ≢ CertFaultKind.Memory → rows_fault members.entry ≡ Some fault) }
{
    let rows = read_rows(alloc, members)?;
    match AcceptedTable::new(alloc, rows) {
        Ok(table) => Ok(table),
        Err(_) => Err(CertFault {
            item: 0,
            kind: CertFaultKind::Memory,
        }),
    }
}
