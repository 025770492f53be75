//! What the entries of an access list become, each read from its text (RFC 2693, section 6.3).
//! A value with many parts is freed by a call of `drop`, so that the proof does not go through its parts at each exit.

ghost use Rattle.std.specs.Prelude.{◌≡◌, ◌⊎◌, List, length, OnOk, IsErrOf};
ghost use Rattle.spki_cert.specs.declared.entry.Entry.{Entry};
ghost use Rattle.spki_reduce.specs.Chain.{tuples_of};
ghost use Rattle.spki_case.specs.{Case.{certificates}, View.{model}};
ghost use Rattle.spki_decision.specs.{declared.reduction.EntryFold.{EntryFold}, Granted.{HasLargeTags, HasMuchWork}, CertificateTests.{with_entries}};
ghost use Rattle.spki_service.specs.{GuardQuestions.{AreTextFolds}, AccessLists.{AreEntries}};

use crate::entry_texts::entry_in;
use crate::text_list::TextList;
use spki_case::Case;
use spki_decision::{Budget, FoldSink, GuardFault, certificates_of, entry_fold};
use spki_reduce::Step;
use std::alloc::Global;

/// Puts into `sink` what each entry of an access list becomes with the certificates of the case. `texts` are the canonical texts of the
/// entries, and `steps` the tuples of all certificates, in order: one for each. An entry is read just before it is joined with them, and
/// nothing of it is kept. The case's own access list, which is empty in a question, is not examined. All entries share one budget: the work
/// that may still be done.
///
/// `fold_texts_counted` is this loop with a count of ticks (operations that contracts count). `reduce_into` calls this one, which has no count:
/// the toolchain picks no ledger to keep a new count in for a function with a bound that names a lifetime, such as `FoldSink<'a>`.
///
/// # Errors
///
/// `TooLarge` if the product of the nodes of two tags to be intersected is over the case's limit of nodes, or the work of all entries together
/// over its limit of work. `Memory` if memory ran out, here or in the sink, or if a tag or a list of names has too many owners to count. After an
/// error, drop what `sink` has taken.
pub(crate) fn fold_texts<'a, S: FoldSink<'a>>(
    alloc: Global,
    texts: &'a TextList,
    case: &Case<'a>,
    steps: &[Step<'a>],
    sink: &mut S,
) -> Result<(), GuardFault>
    requires { length steps.now ≡ length (certificates case.now.sequence.items) }
    ensures folds { OnOk result ((folds : List EntryFold) × S.takes sink.old folds sink.new
        × AreTextFolds texts.entry.now (model case.now) (tuples_of steps.now) folds) }
    ensures too_large { (es : List Entry) → AreEntries texts.entry.now es → IsErrOf result GuardFault.TooLarge →
        HasLargeTags (with_entries (model case.now) es) (tuples_of steps.now)
        ⊎ HasMuchWork (with_entries (model case.now) es) (tuples_of steps.now) }
{
    let shown = certificates_of(alloc, &case.sequence)?;
    let mut budget = Budget::of(case, steps);
    for index in 0..texts.len() {
        let entry = entry_in(alloc, texts.text(index))?;
        let folded = entry_fold(alloc, case, &entry, &shown, steps, &mut budget);
        drop(entry);
        let fold = folded?;
        sink.put(alloc, index + 1, fold)?;
    }
    Ok(())
}
