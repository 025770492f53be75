//! Takes what the entries of an access list become, one after another (RFC 2693, section 6.3).

ghost use Rattle.std.specs.Prelude.{◌≡◌, ◌∷◌, [], ◌++◌, suc, List, length, OnOk};
ghost use Rattle.spki_decision.specs.{declared.reduction.EntryFold.{EntryFold}, Explained.{TakesFolds, no_folds}};

use crate::reduction::EntryFold;
use std::alloc::{AllocError, Global};

/// Takes what each entry of an access list becomes with all certificates, one entry after another. So a caller need not keep all of it:
/// `reduce_case` does, and `explain` keeps only reasons.
pub trait FoldSink<'a> {
    // What it means that a sink takes entries: the sink before, what these entries become, and the sink after.
    ghost takes: { Self → List EntryFold → Self → Type 0 };

    /// Takes `fold`, what entry number `entry`, from 1, becomes with all certificates. The entries come in order, each once. `alloc` is
    /// for what the sink must allocate.
    ///
    /// # Errors
    ///
    /// `AllocError` if memory ran out.
    fn put(&mut self, alloc: Global, entry: usize, fold: EntryFold<'a>) -> Result<(), AllocError>
        ensures { (start : Self) (folds : List EntryFold) → takes start folds self.old → entry ≡ suc (length folds)
            → OnOk result (takes start (folds ++ fold.entry ∷ []) self.new) };

    // Nothing is taken before the first call.
    ghost nothing: { (s : Self) → takes s [] s };
}

/// A vector keeps what each entry becomes, in order.
impl<'a> FoldSink<'a> for Vec<EntryFold<'a>> {
    ghost takes = { TakesFolds };

    /// Appends what the entry becomes. Err if memory ran out. `_entry` and `_alloc` are not used: the entries come in order, and the vector
    /// has its allocator.
    fn put(
        &mut self,
        _alloc: Global,
        _entry: usize,
        fold: EntryFold<'a>,
    ) -> Result<(), AllocError> {
        self.push(fold)?;
        Ok(())
    }

    ghost nothing = { no_folds };
}
