//! Answers, before they are printed. Printing them allocates nothing, unless the sink does.
ghost use Rattle.std.specs.Prelude.{◌≡◌, ℕ, List, [], ◌∷◌, ◌++◌, ◌+◌, ◌<◌, length, IfSome};
ghost use Rattle.sexpr_text.specs.AdvancedForm.{adv};
ghost use Rattle.spki_tag.specs.Tag.{tag_value};
ghost use Rattle.spki_guard.specs.{Lines.{IsReductionReport, IsExplanationReport}, TextAnswers.{IsLineOf}};
ghost use Rattle.spki_guard.specs.Inner.Prints.{output_verdict, answer_verdict, PrintsOutput, Prints, PrintsAs};

use crate::entry_lines::print_item;
use crate::lines::{print_no, print_no_entries, print_yes_entry};
use crate::refusals::{Refusal, print_refusal};
use crate::reports::{print_folds, print_reasons, some_done, some_grant, verdict_of};
use crate::tag_printer::print_tag;
use sexpr_text::{Counter, Sink};
use spki_decision::{Decision, EntryFold, Explanation, Reason, Reduction, Stop};
use spki_tag::Tag;

/// The verdict of an answer.
#[derive(Clone, Copy, Debug, PartialEq, Eq)]
pub enum Verdict {
    /// The decision is yes, some entry becomes an authorization or grants the request, or the output is octets or a tag.
    Done,
    /// The decision is no, a certificate fails a test, or no entry becomes an authorization or grants the request.
    No,
    /// The text or its contents are refused, or memory ran out.
    Refused,
}

/// The answer to a text or a question.
#[derive(Drop)]
pub(crate) enum Answer<'o> {
    /// The entry with this number, from 1, grants the request.
    Yes(usize),
    /// No entry grants it.
    No,
    /// The output of a command or query that is no decision. Its verdict may be `Verdict::No`, as `Output::verdict` says.
    Done(Output<'o>),
    /// The text or the question is refused.
    Refused(Refusal),
}

/// What is printed for an answer that is no decision.
#[derive(Drop)]
pub(crate) enum Output<'o> {
    /// Octets.
    Octets(&'o [u8]),
    /// Octets and a line feed.
    Line(&'o [u8]),
    /// Octets that the answer owns, and a line feed.
    Made(Vec<u8>),
    /// A tag in advanced form and a line feed.
    Tag(Tag),
    /// The line `item J STOP` for a certificate that fails a test.
    Item {
        /// The number of its item, from 1.
        item: usize,
        /// The first test that it does not pass.
        stop: Stop,
    },
    /// The line for an access list without entries.
    NoEntries,
    /// A line for what each entry becomes.
    Folds(Vec<EntryFold<'o>>),
    /// A line for each entry's reason.
    Reasons(Vec<Reason>),
}

impl<'o> Answer<'o> {
    /// The verdict of the answer: `Done` for yes, `No` for no, `Refused` for a refusal, and for an output that of `Output::verdict`.
    pub(crate) fn verdict(&self) -> Verdict
        ensures { result ≡ answer_verdict self.now }
    {
        match self {
            Answer::Yes(_) => Verdict::Done,
            Answer::No => Verdict::No,
            Answer::Done(output) => output.verdict(),
            Answer::Refused(_) => Verdict::Refused,
        }
    }
}

impl<'o> Output<'o> {
    /// The verdict of an answer with this output: `Done` for octets or a tag, and `No` for `Item` and `NoEntries`. For
    /// lines of entries it is `Done` if an entry becomes an authorization, or grants the request, otherwise `No`.
    fn verdict(&self) -> Verdict
        ensures { result ≡ output_verdict self.now }
    {
        match self {
            Output::Octets(_) => Verdict::Done,
            Output::Line(_) => Verdict::Done,
            Output::Made(_) => Verdict::Done,
            Output::Tag(_) => Verdict::Done,
            Output::Item { .. } => Verdict::No,
            Output::NoEntries => Verdict::No,
            Output::Folds(folds) => verdict_of(some_done(folds)),
            Output::Reasons(reasons) => verdict_of(some_grant(reasons)),
        }
    }
}

/// The answer for a decision: `yes entry N` or `no`.
pub(crate) fn answer_of_decision<'o>(decision: Decision) -> Answer<'o>
    ensures { PrintsAs (IsLineOf decision) result }
{
    match decision {
        Decision::Yes(entry) => Answer::Yes(entry),
        Decision::No => Answer::No,
    }
}

/// The answer for a reduction: a line for each entry, `no entries`, or the line of the certificate that fails.
pub(crate) fn answer_of_reduction<'a>(reduction: Reduction<'a>) -> Answer<'a>
    ensures { PrintsAs (IsReductionReport reduction.entry) result }
{
    match reduction {
        Reduction::Evidence { item, stop } => Answer::Done(Output::Item { item, stop }),
        Reduction::Entries(folds) => {
            if folds.is_empty() {
                return Answer::Done(Output::NoEntries);
            }
            Answer::Done(Output::Folds(folds))
        }
    }
}

/// The answer for an explanation: a line for each entry, `no entries`, or the line of the certificate that fails.
pub(crate) fn answer_of_explanation<'o>(explanation: Explanation) -> Answer<'o>
    ensures { PrintsAs (IsExplanationReport explanation) result }
{
    match explanation {
        Explanation::Evidence { item, stop } => Answer::Done(Output::Item { item, stop }),
        Explanation::Entries(reasons) => {
            if reasons.is_empty() {
                return Answer::Done(Output::NoEntries);
            }
            Answer::Done(Output::Reasons(reasons))
        }
    }
}

/// Prints all octets of an answer.
pub(crate) fn print_answer<S: Sink>(answer: &Answer, sink: &mut S)
    ensures { (octets : List ℕ) × Prints answer.now octets × S.takes sink.old octets sink.new }
{
    match answer {
        Answer::Yes(entry) => print_yes_entry(*entry, sink),
        Answer::No => print_no(sink),
        Answer::Done(output) => print_output(output, sink),
        Answer::Refused(refusal) => print_refusal(*refusal, sink),
    }
}

/// Prints all octets of an answer that is no decision.
fn print_output<S: Sink>(output: &Output, sink: &mut S)
    ensures { (octets : List ℕ) × PrintsOutput output.now octets × S.takes sink.old octets sink.new }
{
    match output {
        Output::Octets(octets) => sink.put(octets),
        Output::Line(octets) => print_octets_line(octets, sink),
        Output::Made(octets) => print_octets_line(octets.as_slice(), sink),
        Output::Tag(tag) => print_tag_line(tag, sink),
        Output::Item { item, stop } => print_item(*item, *stop, sink),
        Output::NoEntries => print_no_entries(sink),
        Output::Folds(folds) => print_folds(folds, sink),
        Output::Reasons(reasons) => print_reasons(reasons, sink),
    }
}

/// Prints octets and a line feed.
fn print_octets_line<S: Sink>(octets: &[u8], sink: &mut S)
    ensures { S.takes sink.old (octets.now ++ 10 ∷ []) sink.new }
{
    sink.put(octets);
    sink.put_octet(b'\n');
}

/// Prints a tag in advanced form and a line feed.
fn print_tag_line<S: Sink>(tag: &Tag, sink: &mut S)
    ensures { S.takes sink.old (adv (tag_value tag.now) ++ 10 ∷ []) sink.new }
{
    print_tag(tag, sink);
    sink.put_octet(b'\n');
}

/// Prints an answer into a counter, and returns the number of its octets plus `more`. `send` of `runs.rt` needs the sum before
/// the answer is written: it is the largest number of calls of the writer. None if the sum is over the greatest `u64`, which no
/// memory holds. `more` must be over 0, so that a counter that has stopped there also gives None.
pub(crate) fn count_with(answer: &Answer, more: u64) -> Option<u64>
    requires { 0 < more }
    ensures { IfSome result (λ n. (octets : List ℕ) → Prints answer.now octets → n ≡ length octets + more) }
{
    let mut counter = Counter::new();
    print_answer(answer, &mut counter);
    counter.count().checked_add(more)
}
