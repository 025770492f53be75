//! Prints lines: words with a space between two of them, and a line feed. Allocates nothing, unless the sink does.
ghost use Rattle.std.specs.Prelude.{◌≡◌, ◌∷◌, map};
ghost use Rattle.spki_guard.specs.Lines.{line, yes_entry, no_line, no_entries, refused_memory};

use itoa::Buffer;
use sexpr_text::Sink;

/// The line for a refusal because memory ran out.
pub(crate) const REFUSED_MEMORY: &[u8] = b"refused Memory\n";

/// Prints a line of `first` and then `words`, with a space before each of them, and the line feed.
pub(crate) fn print_line<S: Sink>(first: &str, words: &[&str], sink: &mut S)
    ensures { S.takes sink.old (line (first.now ∷ map (λ word. word.now) words.now)) sink.new }
{
    sink.put(first.as_bytes());
    for word in words {
        sink.put_octet(b' ');
        sink.put(word.as_bytes());
    }
    sink.put_octet(b'\n');
}

/// Prints `yes entry N` and a line feed; `entry` is counted from 1.
#[tactic(auto, using(crate::proofs::ReportLines::decimal_written))]
pub(crate) fn print_yes_entry<S: Sink>(entry: usize, sink: &mut S)
    ensures { S.takes sink.old (yes_entry entry) sink.new }
{
    let mut digits = Buffer::new();
    print_line("yes", &["entry", digits.format(entry)], sink);
}

/// Prints `no` and a line feed.
pub(crate) fn print_no<S: Sink>(sink: &mut S)
    ensures { S.takes sink.old no_line sink.new }
{
    print_line("no", &[], sink);
}

/// Prints `no entries` and a line feed.
pub(crate) fn print_no_entries<S: Sink>(sink: &mut S)
    ensures { S.takes sink.old no_entries sink.new }
{
    print_line("no", &["entries"], sink);
}

/// Prints `refused Memory` and a line feed.
pub(crate) fn print_refused_memory<S: Sink>(sink: &mut S)
    ensures { S.takes sink.old refused_memory sink.new }
{
    sink.put(REFUSED_MEMORY);
}
