//! Prints the lines for entries, and for a certificate that fails a test. Allocates nothing, unless the sink does.
ghost use Rattle.std.specs.Prelude.{◌≡◌, [], ◌∷◌, ◌++◌, codes};
ghost use Rattle.sexpr_core.specs.Value.{decimal};
ghost use Rattle.spki_guard.specs.Lines.{cause_name, stop_name, item_line, entry_line, stopped_line, reason_line};

use crate::lines::print_line;
use itoa::Buffer;
use sexpr_text::Sink;
use spki_decision::{Reason, Stop};
use spki_reduce::Cause;

/// The word in a line for why a certificate does not join what is before it: the name of the cause's variant.
fn cause_name(cause: Cause) -> &'static str
    ensures { result.now ≡ cause_name cause }
{
    match cause {
        Cause::NotIssuer => "NotIssuer",
        Cause::NotTheName => "NotTheName",
        Cause::NoDelegation => "NoDelegation",
        Cause::NoValidity => "NoValidity",
        Cause::NoTag => "NoTag",
    }
}

/// The word for the test that a certificate fails: the name of its variant.
fn stop_name(stop: Stop) -> &'static str
    ensures { result.now ≡ stop_name stop }
{
    match stop {
        Stop::KeyNotShown => "KeyNotShown",
        Stop::DigestDiffers => "DigestDiffers",
        Stop::SignerDiffers => "SignerDiffers",
        Stop::NotAccepted => "NotAccepted",
    }
}

/// Prints the line `item J STOP` and its line feed: the certificate that is item J of the sequence fails the test that STOP names. `item` is
/// J, counted from 1.
#[tactic(auto, using(crate::proofs::ReportLines::decimal_written))]
pub(crate) fn print_item<S: Sink>(item: usize, stop: Stop, sink: &mut S)
    ensures { S.takes sink.old (item_line item stop) sink.new }
{
    let mut digits = Buffer::new();
    print_line("item", &[digits.format(item), stop_name(stop)], sink);
}

/// Prints `entry N` and a space: the beginning of a line, behind which the entry's authorization is printed. `entry` is N, counted
/// from 1.
#[tactic(auto, using(crate::proofs::ReportLines::decimal_written))]
pub(crate) fn print_entry<S: Sink>(entry: usize, sink: &mut S)
    ensures { S.takes sink.old (codes "entry " ++ (decimal entry ++ 32 ∷ [])) sink.new }
{
    let mut digits = Buffer::new();
    sink.put(b"entry ");
    sink.put(digits.format(entry).as_bytes());
    sink.put_octet(b' ');
}

/// Prints the line `entry N item J CAUSE` and its line feed. Entry N and the certificates before item J of the sequence reduce to one
/// authorization. The certificate that is item J does not reduce with it, and CAUSE says why. Both numbers are counted from 1.
#[tactic(auto, using(crate::proofs::ReportLines::decimal_written))]
pub(crate) fn print_stopped<S: Sink>(entry: usize, item: usize, cause: Cause, sink: &mut S)
    ensures { S.takes sink.old (stopped_line entry item cause) sink.new }
{
    let mut digits = Buffer::new();
    let mut item_digits = Buffer::new();
    let words = [
        digits.format(entry),
        "item",
        item_digits.format(item),
        cause_name(cause),
    ];
    print_line("entry", &words, sink);
}

/// Prints the whole line `entry N WORD` and its line feed, such as `entry 2 grants`, for a reason that is one word. `entry` is N,
/// counted from 1.
#[tactic(auto, using(crate::proofs::ReportLines::decimal_written))]
fn print_word_line<S: Sink>(entry: usize, word: &str, sink: &mut S)
    ensures { S.takes sink.old (entry_line entry (word.now ∷ [])) sink.new }
{
    let mut digits = Buffer::new();
    print_line("entry", &[digits.format(entry), word], sink);
}

/// Prints the line that explains an entry, and a line feed: `entry N grants`, `entry N item J CAUSE` for `Stopped`, or
/// `entry N` and the name of the variant for the others; `entry` is counted from 1.
pub(crate) fn print_reason<S: Sink>(entry: usize, reason: Reason, sink: &mut S)
    ensures { S.takes sink.old (reason_line entry reason) sink.new }
{
    match reason {
        Reason::Grants => print_word_line(entry, "grants", sink),
        Reason::NotTheKey => print_word_line(entry, "NotTheKey", sink),
        Reason::TagLacks => print_word_line(entry, "TagLacks", sink),
        Reason::WindowLacks => print_word_line(entry, "WindowLacks", sink),
        Reason::Stopped { item, cause } => print_stopped(entry, item, cause, sink),
    }
}
