//! The lines of a reduction (what each entry becomes with the certificates) and of an explanation: one for each entry.
//! Printing them allocates nothing, unless the sink does.
ghost use Rattle.std.specs.Prelude.{◌≡◌, ℕ, List, [], ◌∷◌};
ghost use Rattle.sexpr_core.specs.Value.{Value};
ghost use Rattle.sexpr_text.specs.AdvancedForm.{adv};
ghost use Rattle.spki_reduce.specs.Written.{IsWrittenFive};
ghost use Rattle.spki_guard.specs.Lines.{entry_line, verdict_of, IsFoldLine, AreFoldLines, is_done, some_done, is_grant, some_grant, reason_lines};

use crate::answers::Verdict;
use crate::entry_lines::{print_entry, print_reason, print_stopped};
use crate::printer::print_five;
use sexpr_text::Sink;
use spki_decision::{EntryFold, Reason};
use spki_reduce::Five;

/// The verdict of a reduction or an explanation: `Done` if `yes` is true, otherwise `No`. `yes` is whether some entry becomes an
/// authorization, for a reduction, or grants the request, for an explanation.
pub(crate) fn verdict_of(yes: bool) -> Verdict
    ensures { result ≡ verdict_of yes }
{
    if yes { Verdict::Done } else { Verdict::No }
}

/// Prints the line `entry N (five ..)` and a line feed: entry N of the access list, joined with all certificates, becomes the authorization
/// `five`, which `print_five` prints. `entry` is N, counted from 1.
fn print_done<S: Sink>(entry: usize, five: &Five, sink: &mut S)
    ensures { (v : Value) × IsWrittenFive five.now v × S.takes sink.old (entry_line entry (adv v ∷ [])) sink.new }
{
    print_entry(entry, sink);
    print_five(five, sink);
    sink.put_octet(b'\n');
}

/// Prints the line that says what an entry becomes with all certificates: `entry N (five ..)`, an authorization, or `entry N item J CAUSE` if
/// the certificate that is item J does not join. `entry` is N, counted from 1.
pub(crate) fn print_fold<S: Sink>(entry: usize, fold: &EntryFold, sink: &mut S)
    ensures { (line : List ℕ) × IsFoldLine entry fold.now line × S.takes sink.old line sink.new }
{
    match fold {
        EntryFold::Done(five) => print_done(entry, five, sink),
        EntryFold::Stopped { item, cause } => print_stopped(entry, *item, *cause, sink),
    }
}

/// Prints a line for each entry of the access list, which says what it becomes with all certificates. The first of `folds` is that of entry 1.
pub(crate) fn print_folds<S: Sink>(folds: &[EntryFold], sink: &mut S)
    ensures { (lines : List ℕ) × AreFoldLines 1 folds.now lines × S.takes sink.old lines sink.new }
{
    for (index, fold) in folds.iter().enumerate() {
        print_fold(index + 1, fold, sink);
    }
}

/// Does nothing at run time. It tells the prover that what an entry becomes could be printed as a line. `FoldPrinter::put` needs this fact for
/// the entries whose lines it no longer prints. `entry` is counted from 1.
pub(crate) fn prove_line(entry: usize, fold: &EntryFold)
    ensures { (line : List ℕ) × IsFoldLine entry fold.now line }
{
    match fold {
        EntryFold::Done(five) => five.prove_writable(),
        EntryFold::Stopped { .. } => {}
    }
}

/// Whether some entry becomes an authorization with all certificates.
pub(crate) fn some_done(folds: &[EntryFold]) -> bool
    ensures { result ≡ some_done folds.now }
{
    for fold in folds {
        if is_done(fold) {
            return true;
        }
    }
    false
}

/// Whether the entry becomes an authorization: no certificate stops it.
pub(crate) fn is_done(fold: &EntryFold) -> bool
    ensures { result ≡ is_done fold.now }
{
    match fold {
        EntryFold::Done(_) => true,
        EntryFold::Stopped { .. } => false,
    }
}

/// Prints for each entry the line that says why it grants the request or does not. The first of `reasons` is that of entry 1.
pub(crate) fn print_reasons<S: Sink>(reasons: &[Reason], sink: &mut S)
    ensures { S.takes sink.old (reason_lines 1 reasons.now) sink.new }
{
    for (index, reason) in reasons.iter().enumerate() {
        print_reason(index + 1, *reason, sink);
    }
}

/// Whether some entry grants the request.
pub(crate) fn some_grant(reasons: &[Reason]) -> bool
    ensures { result ≡ some_grant reasons.now }
{
    for reason in reasons {
        if is_grant(*reason) {
            return true;
        }
    }
    false
}

/// Whether the reason is that the entry grants the request.
fn is_grant(reason: Reason) -> bool
    ensures { result ≡ is_grant reason }
{
    match reason {
        Reason::Grants => true,
        Reason::NotTheKey => false,
        Reason::TagLacks => false,
        Reason::WindowLacks => false,
        Reason::Stopped { .. } => false,
    }
}
