//! Decisions on cases by separate accepted lists.
//! A value with many parts is freed by a call of `drop`, so that the proof does not go through its parts at each exit.
ghost use Rattle.std.specs.Prelude.{◌≡◌, ◌≢◌, ◌<◌, ℕ, List, length, IfOk, IfErr, IsErrOf};
ghost use Rattle.sexpr_text.specs.{AdvancedForm.{IsTextWithin}, CanonicalTexts.{IsReadAs, RefusesForm}};
ghost use Rattle.spki_case.specs.View.{model, rows_of};
ghost use Rattle.spki_guard.specs.TextAnswers.{RefusesAsLong, written_by, IsAnswerApart, DecidesApart, DecidesBy, ReadsRows, RefusesApart, RefusesBy, RefusesRows};
ghost use Rattle.spki_guard.specs.{Inner.Prints.{PrintsAs}, declared.{refusals.Refusal.{Refusal}, answers.Verdict.{Verdict}}};

use crate::answers::{Answer, answer_of_decision};
use crate::printed::Printed;
use crate::refusals::Refusal;
use crate::sources::{case_in, short_text};
use sexpr_core::FormFault;
use sexpr_text::CanonicalText;
use spki_case::{AcceptedTable, Case, RowsFault};
use spki_decision::decide;
use std::alloc::Global;

/// Decides a case by a separate accepted list, `(accepted row ..)`, each text in any of the three forms. A row is a
/// signature that the service has verified. The answer is `yes entry N`, `no` or a refusal, as for the command `check`.
/// The rows of the case's own accepted list are read, and none of them is used.
///
/// The case's text is read first: its form, and then the case. If it is refused, the rows are not examined. Then the
/// text of the rows is read: its form, and then the rows. A refusal of the rows begins with `refused rows`. A text is
/// TooLong exactly if it, or its canonical form, has more than 1,048,576 octets. If both texts are read, the line may
/// still be `refused TooLarge`, as `decide` says. If memory ran out, it is `refused Memory`.
pub fn check_accepted(alloc: Global, text: &[u8], rows: &[u8]) -> Printed
    ensures answer { IsAnswerApart text.now rows.now result.verdict (written_by result) }
    ensures too_long { 1048576 < length text.now → RefusesAsLong result.verdict (written_by result) }
{
    Printed::of(alloc, &answer_apart(alloc, text, rows))
}

/// The answer of `check_accepted` to the case in `text` and the accepted list in `rows`, before it is printed. A refusal is an answer too.
fn answer_apart(alloc: Global, text: &[u8], rows: &[u8]) -> Answer<'static>
    ensures answer { PrintsAs (IsAnswerApart text.now rows.now) result }
    ensures too_long { 1048576 < length text.now → result ≡ Answer.Refused (Refusal.Form FormFault.TooLong) }
{
    match decide_texts(alloc, text, rows) {
        Ok(answer) => answer,
        Err(refusal) => Answer::Refused(refusal),
    }
}

/// Decides the case in `text` by the accepted list in `rows`, for `answer_apart`. Err if one of the texts is refused, the case is
/// too large, or memory ran out. A canonical text is neither copied nor converted.
fn decide_texts(alloc: Global, text: &[u8], rows: &[u8]) -> Result<Answer<'static>, Refusal>
    ensures answered { IfOk result (PrintsAs (DecidesApart text.now rows.now)) }
    ensures refused { IfErr result (λ refusal. RefusesApart text.now rows.now refusal) }
    ensures too_long { 1048576 < length text.now → IsErrOf result (Refusal.Form FormFault.TooLong) }
{
    let text = short_text(alloc, text)?;
    let case = case_in(alloc, &text)?;
    decide_by_rows(alloc, &case, rows)
}

/// Decides a case by the accepted list in `rows`, a text in any form. Its own accepted list is not used. Err if `rows` is refused, the
/// case is too large, or memory ran out.
fn decide_by_rows(alloc: Global, case: &Case, rows: &[u8]) -> Result<Answer<'static>, Refusal>
    ensures answered { IfOk result (PrintsAs (DecidesBy (model case.now) rows.now)) }
    ensures refused { IfErr result (λ refusal. RefusesBy (model case.now) rows.now refusal) }
{
    let text = CanonicalText::read(alloc, rows)?;
    let accepted = rows_in(alloc, &text)?;
    let decided = decide(alloc, case, &accepted);
    drop(accepted);
    Ok(answer_of_decision(decided?))
}

/// Reads the accepted list (the signatures that a service has verified) of a text. Err is `Form` if the text has no value within the limits, or
/// its canonical form has more than 1,048,576 octets; `Shape` or `Row` if the value is no accepted list; or `Memory`.
fn rows_in<'a>(alloc: Global, text: &'a CanonicalText<'_>) -> Result<AcceptedTable<'a>, RowsFault>
    ensures read { (given : List ℕ) → IsReadAs (IsTextWithin given) (RefusesForm given) text.entry.now
        → IfOk result (λ table. ReadsRows given (rows_of table)) }
    ensures refused { (given : List ℕ) → IsReadAs (IsTextWithin given) (RefusesForm given) text.entry.now
        → IfErr result (λ fault. fault ≢ RowsFault.Memory → RefusesRows given fault) }
{
    match text.document(alloc) {
        Ok(document) => AcceptedTable::of(alloc, &document.top()),
        Err(FormFault::Memory) => Err(RowsFault::Memory),
        Err(fault) => Err(RowsFault::Form(fault)),
    }
}

/// A law, which does nothing: `check_accepted` has at most one answer to a text and its rows, unless memory ran out. It is one
/// decision or one refusal, and not both.
pub fn one_answer_apart()
    ensures decided { (text rows : List ℕ) (verdict other : Verdict) (output line : List ℕ)
        → DecidesApart text rows verdict output → DecidesApart text rows other line → (verdict ≡ other) × (output ≡ line) }
    ensures unrefused { (text rows : List ℕ) (verdict : Verdict) (output : List ℕ) (refusal : Refusal)
        → DecidesApart text rows verdict output → RefusesApart text rows refusal
        → refusal ≡ Refusal.Memory }
    ensures refused { (text rows : List ℕ) (refusal other : Refusal) → RefusesApart text rows refusal
        → RefusesApart text rows other → refusal ≢ Refusal.Memory → other ≢ Refusal.Memory → refusal ≡ other }
{}
