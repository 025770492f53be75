//! Laws of the answers to a text, and to a question that is asked of a guard: the contracts of `answer_text`, `run`, `open_question`
//! and `answer_opened` say that the answer is one that the specification allows, and by these laws it allows no other
//! unless memory ran out.
//! Each function is a law: it does nothing, and its contract is the fact.

ghost use Rattle.std.specs.Prelude.{◌≡◌, ◌≢◌, ℕ, List, Bool};
ghost use Rattle.spki_cert.specs.declared.entry.Entry.{Entry};
ghost use Rattle.spki_service.specs.{AccessLists.{GuardModel, AreEntries}, declared.question.Question.{Question}};
ghost use Rattle.spki_guard.specs.declared.{refusals.Refusal.{Refusal}, answers.Verdict.{Verdict}, queries.Query.{Query}};
ghost use Rattle.spki_guard.specs.{TextAnswers.{AnswersRead, RefusesAnswer, RefusesForMemory}, HeldQuestions.{IsAnswerHeld, IsUnreadQuestion}};
ghost use Rattle.spki_words.specs.declared.commands.Command.{Command};
ghost use Rattle.spki_decision.specs.declared.fault.GuardFault.TheVariants as guard;
ghost use Rattle.spki_guard.specs.declared.refusals.Refusal.TheVariants as refusals;
ghost use Rattle.spki_guard.specs.declared.intersection.IntersectFault.TheVariants as intersect;

/// A command has at most one answer to a text, unless memory ran out: one output (of one line or several) with its verdict, or one refusal, and
/// not both.
pub fn one_line()
    ensures same { (command : Command) (text : List ℕ) (x y : Verdict) (output line : List ℕ)
        → AnswersRead command text x output → AnswersRead command text y line → (x ≡ y) × (output ≡ line) }
    ensures answered { (command : Command) (text : List ℕ) (x : Verdict) (output : List ℕ) (refusal : Refusal)
        → AnswersRead command text x output → RefusesAnswer command text refusal → refusal ≡ refusals.Memory }
    ensures refused { (command : Command) (text : List ℕ) (refusal other : Refusal)
        → RefusesAnswer command text refusal → RefusesAnswer command text other
        → refusal ≢ refusals.Memory → other ≢ refusals.Memory → refusal ≡ other }
{}

/// A text that a command refuses as `TooLarge` is refused for nothing else, unless memory ran out. The clause `chain` is about a case whose tags
/// or work are too large, and `product` about two tags of `(intersect A B)`. Both follow from `refused` of `one_line`.
pub fn one_too_large()
    ensures chain { (command : Command) (text : List ℕ) (refusal : Refusal)
        → RefusesAnswer command text (refusals.Decision guard.TooLarge)
        → RefusesAnswer command text refusal → refusal ≢ refusals.Memory → refusal ≡ refusals.Decision guard.TooLarge }
    ensures product { (command : Command) (text : List ℕ) (refusal : Refusal)
        → RefusesAnswer command text (refusals.Intersect intersect.TooLarge)
        → RefusesAnswer command text refusal → refusal ≢ refusals.Memory → refusal ≡ refusals.Intersect intersect.TooLarge }
{}

/// A question to a guard, with marks that say which of its signatures are valid, has at most one output and verdict, unless memory ran out. So
/// `answer_opened` returns one answer. The guard's texts must be those of entries, as they are in every guard.
pub fn one_answer_held()
    ensures { (query : Query) (held : GuardModel) (q : Question) (marks : List Bool) (es : List Entry) (x y : Verdict) (output line : List ℕ)
        → AreEntries held.texts es → IsAnswerHeld query held q marks x output → IsAnswerHeld query held q marks y line
        → ¬ RefusesForMemory x output → ¬ RefusesForMemory y line → (x ≡ y) × (output ≡ line) }
{}

/// A question that is refused has one refusal, unless memory ran out. So `open_question` always refuses it in the same line.
pub fn one_refused_question()
    ensures { (held : GuardModel) (q : Question) (x y : Verdict) (output line : List ℕ)
        → IsUnreadQuestion held q x output → IsUnreadQuestion held q y line
        → ¬ RefusesForMemory x output → ¬ RefusesForMemory y line → (x ≡ y) × (output ≡ line) }
{}
