//! The answers of the commands to a text.
//! A value with many parts is freed by a call of `drop`, so that the proof does not go through its parts at each exit.
ghost use Rattle.std.specs.Prelude.{◌≡◌, List, ◌<◌, ℕ, length, IfOk, IfErr, IsErrOf};
ghost use Rattle.sexpr_core.specs.Value.{Value, canon};
ghost use Rattle.sexpr_text.specs.AdvancedForm.{written};
ghost use Rattle.spki_case.specs.{Case.{IsCaseText}, View.{model}};
ghost use Rattle.spki_guard.specs.TextAnswers.{form_of, IsAnswer, IsOnCase, AnswersValue, RefusesValue, AnswersRead, RefusesAnswer, RefusesAsLong, Decides, Reduces, Explains, written_by};
ghost use Rattle.spki_guard.specs.Inner.Prints.{PrintsAs, command_of, IsShortText, IsSourceOf};

use crate::answers::{
    Answer, Output, answer_of_decision, answer_of_explanation, answer_of_reduction,
};
use crate::intersection::intersect;
use crate::printed::Printed;
use crate::queries::Query;
use crate::refusals::Refusal;
use crate::sources::{Source, case_in, source_of};
use sexpr_core::syntax::wrap_octets;
use sexpr_text::CanonicalText;
use spki_case::Case;
use spki_decision::{decide, explain, reduce_case};
use spki_words::Command;
use std::alloc::Global;

/// Answers a command for a whole text, in any of the three forms, with what `run` writes for them. For more than
/// 1,048,576 octets the answer is `refused form TooLong`. If memory ran out, it is `refused Memory`.
pub fn answer_text(alloc: Global, command: Command, text: &[u8]) -> Printed
    ensures answer { IsAnswer command text.now result.verdict (written_by result) }
    ensures too_long { 1048576 < length text.now → RefusesAsLong result.verdict (written_by result) }
{
    let source = source_of(alloc, command, text);
    let answer = answer_source(alloc, command, &source);
    let printed = Printed::of(alloc, &answer);
    drop(answer);
    drop(source);
    printed
}

/// Answers a command from what `source_of` returned for it: an Err is answered as a refusal. Nothing is printed yet. The answer
/// borrows from `source`.
pub(crate) fn answer_source<'s, 't: 's>(
    alloc: Global,
    command: Command,
    source: &'s Result<Source<'t>, Refusal>,
) -> Answer<'s>
    requires { (text : List ℕ) × IfOk source.now (IsSourceOf command text) }
    ensures answer { (text : List ℕ) → IfOk source.entry.now (IsSourceOf command text)
        → IfErr source.entry.now (λ refusal. RefusesAnswer command text refusal) → PrintsAs (IsAnswer command text) result }
    ensures refused { (refusal : Refusal) → IsErrOf source.entry.now refusal → result ≡ Answer.Refused refusal }
{
    match source {
        Ok(source) => match try_answer(alloc, command, source) {
            Ok(answer) => answer,
            Err(refusal) => Answer::Refused(refusal),
        },
        Err(refusal) => Answer::Refused(*refusal),
    }
}

/// The answer of a command to `source`, what `source_of` has read of the text for it. Err says why the text is refused, or that memory ran
/// out.
fn try_answer<'s, 't: 's>(
    alloc: Global,
    command: Command,
    source: &'s Source<'t>,
) -> Result<Answer<'s>, Refusal>
    requires { (text : List ℕ) × IsSourceOf command text source.now }
    ensures answered { (text : List ℕ) → IsSourceOf command text source.entry.now
        → IfOk result (PrintsAs (AnswersRead command text)) }
    ensures refused { (text : List ℕ) → IsSourceOf command text source.entry.now
        → IfErr result (λ refusal. RefusesAnswer command text refusal) }
{
    match source {
        Source::Case(query, text) => answer_query(alloc, *query, text),
        Source::Converted(octets) => answer_octets(alloc, command, octets),
    }
}

/// The answer of `canonical`, `advanced`, `transport` or `intersect` to a value. `octets` are its text in the form that the command
/// needs (`form_of`). The command must not be one for a case, so `unreachable!()` is not reached. Err says why the value is
/// refused, or that memory ran out.
fn answer_octets<'o>(
    alloc: Global,
    command: Command,
    octets: &'o [u8],
) -> Result<Answer<'o>, Refusal>
    requires { IsOnCase command → ⊥ }
    ensures answered { (v : Value) → octets.entry.now ≡ written (form_of command) v
        → IfOk result (PrintsAs (AnswersValue command v)) }
    ensures refused { (v : Value) → octets.entry.now ≡ written (form_of command) v
        → IfErr result (λ refusal. RefusesValue command v refusal) }
{
    match command {
        Command::Canonical => Ok(Answer::Done(Output::Octets(octets))),
        Command::Advanced => Ok(Answer::Done(Output::Line(octets))),
        Command::Transport => Ok(Answer::Done(Output::Made(wrap_octets(alloc, octets)?))),
        Command::Intersect => Ok(Answer::Done(Output::Tag(intersect(alloc, octets)?))),
        Command::Reduce | Command::Check | Command::Explain => unreachable!(),
    }
}

/// The answer of `reduce`, `check` or `explain` to the text of a case, which `short_text` returned. Err says why the text is
/// refused, or that memory ran out.
fn answer_query<'s>(
    alloc: Global,
    query: Query,
    text: &'s CanonicalText<'_>,
) -> Result<Answer<'s>, Refusal>
    ensures answered { (given : List ℕ) → IsShortText given text.entry.now
        → IfOk result (PrintsAs (AnswersRead (command_of query) given)) }
    ensures refused { (given : List ℕ) → IsShortText given text.entry.now
        → IfErr result (λ refusal. RefusesAnswer (command_of query) given refusal) }
{
    let case = case_in(alloc, text)?;
    let answer = answer_case(alloc, query, &case);
    drop(case);
    answer
}

/// The answer of `reduce`, `check` or `explain` to a case that was read. Err is `Decision(TooLarge)` if the tags, or the work of joining
/// them, are over the case's limits; or `Memory`.
fn answer_case<'a>(alloc: Global, query: Query, case: &Case<'a>) -> Result<Answer<'a>, Refusal>
    ensures answered { (v : Value) → IsCaseText (canon v) (model case.now)
        → IfOk result (PrintsAs (AnswersValue (command_of query) v)) }
    ensures refused { (v : Value) → IsCaseText (canon v) (model case.now)
        → IfErr result (λ refusal. RefusesValue (command_of query) v refusal) }
{
    match query {
        Query::Reduce => reduce(alloc, case),
        Query::Decide => check(alloc, case),
        Query::Explain => explain_case(alloc, case),
    }
}

/// Decides a case by its accepted list, the signatures that the service has verified. The answer is `yes entry N` or `no`. Err is
/// `Decision(TooLarge)` if the tags, or the work of joining them, are over the case's limits; or `Memory`.
fn check<'a>(alloc: Global, case: &Case<'a>) -> Result<Answer<'a>, Refusal>
    ensures answered { (text : List ℕ) → IsCaseText text (model case.now) → IfOk result (PrintsAs (Decides text)) }
    ensures refused { (v : Value) → IsCaseText (canon v) (model case.now) → IfErr result (λ refusal. RefusesValue Command.Check v refusal) }
{
    let decision = decide(alloc, case, case.accepted())?;
    Ok(answer_of_decision(decision))
}

/// Reduces a case by its accepted list, the signatures that the service has verified. The answer has a line for each
/// entry, `no entries`, or one line for the certificate that fails. Err is `Decision(TooLarge)` if the tags, or the work of joining them, are
/// over the case's limits; or `Memory`.
fn reduce<'a>(alloc: Global, case: &Case<'a>) -> Result<Answer<'a>, Refusal>
    ensures answered { (text : List ℕ) → IsCaseText text (model case.now) → IfOk result (PrintsAs (Reduces text)) }
    ensures refused { (v : Value) → IsCaseText (canon v) (model case.now) → IfErr result (λ refusal. RefusesValue Command.Reduce v refusal) }
{
    let reduction = reduce_case(alloc, case, case.accepted())?;
    Ok(answer_of_reduction(reduction))
}

/// Explains a case by its accepted list, the signatures that the service has verified. The answer has a line for each
/// entry, `no entries`, or one line for the certificate that fails. Err is `Decision(TooLarge)` if the tags, or the work of joining them, are
/// over the case's limits; or `Memory`.
fn explain_case<'a>(alloc: Global, case: &Case<'a>) -> Result<Answer<'a>, Refusal>
    ensures answered { (text : List ℕ) → IsCaseText text (model case.now) → IfOk result (PrintsAs (Explains text)) }
    ensures refused { (v : Value) → IsCaseText (canon v) (model case.now) → IfErr result (λ refusal. RefusesValue Command.Explain v refusal) }
{
    let explanation = explain(alloc, case, case.accepted())?;
    Ok(answer_of_explanation(explanation))
}
