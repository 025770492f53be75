//! The verifier of signatures that a row of a test table names. A row is the name of a library call, and its arguments, the texts.

ghost use Rattle.std.specs.Prelude.{◌↔◌, ◌⊎◌, IsTrue, IfOk};
ghost use Rattle.spki_case.specs.View.{verified_by};

use crate::answers::Reply;
use crate::failure::Failure;
use spki_case::{AcceptedTable, Verifier};
use spki_cert::Key;
use std::alloc::{AllocError, Global};

/// Accepts the signatures of a list, or all signatures, or fails always, as if memory ran out.
#[derive(Drop)]
pub(crate) struct RowVerifier<'a> {
    /// The accepted list. It is empty for `all` and `broken`.
    listed: AcceptedTable<'a>,
    /// Whether all signatures are accepted.
    all: bool,
    /// Whether each call fails, as if memory ran out.
    is_broken: bool,
}

impl<'a> RowVerifier<'a> {
    /// The verifier that a text names: `all`, `broken`, or an accepted list in canonical form. Err is the fault of that list.
    pub(crate) fn read(alloc: Global, text: &'a [u8]) -> Result<RowVerifier<'a>, Failure> {
        let all = text == b"all".as_slice();
        let is_broken = text == b"broken".as_slice();
        let rows = if all || is_broken {
            b"(8:accepted)"
        } else {
            text
        };
        Ok(RowVerifier {
            listed: AcceptedTable::read(alloc, rows)?,
            all,
            is_broken,
        })
    }
}

impl Verifier for RowVerifier<'_> {
    ghost accepted = { λ verifier key message value.
        IsTrue verifier.all ⊎ verified_by verifier.listed key message value };

    /// Whether the signature is listed, or all are accepted. Always Err for `broken`, as if memory ran out.
    fn accepts(
        &self,
        alloc: Global,
        key: &Key,
        message: &[u8],
        value: &[u8],
    ) -> Result<bool, AllocError>
        ensures { IfOk result (λ yes. IsTrue yes ↔
            (IsTrue self.now.all ⊎ verified_by self.now.listed key.now message.now value.now)) }
    {
        if self.is_broken {
            return Err(AllocError);
        }
        let is_listed = self.listed.accepts(alloc, key, message, value)?;
        Ok(self.all || is_listed)
    }
}

/// A value on which calls are done by a verifier.
pub(crate) trait CalledBy {
    /// Does the call with this name by a verifier, and returns its answer.
    fn call_by(&self, alloc: Global, name: &str, verifier: &RowVerifier) -> Reply;
}

/// Does the call with this name on a value by the verifier that a text of the row names: `all`, `broken`, or an accepted list. Err is also the fault
/// of that list. The verifier is freed by a call of `drop`, so that the proof does not go through its parts at each exit.
pub(crate) fn with_verifier<T: CalledBy>(
    alloc: Global,
    name: &str,
    value: &T,
    text: &[u8],
) -> Reply {
    let verifier = RowVerifier::read(alloc, text)?;
    let reply = value.call_by(alloc, name, &verifier);
    drop(verifier);
    reply
}
