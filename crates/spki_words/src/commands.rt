//! The commands of the program `spki`.

ghost use Rattle.std.specs.Prelude.{◌≡◌, ◌≢◌, MatchOption};
ghost use Rattle.spki_words.specs.Words.{word_of};

/// A command of `spki`: what is done with the value that is read on standard input. The last three commands read a case: one value with the
/// access list, the accepted signatures, the certificates, a key, its request and a moment.
#[derive(Clone, Copy, Debug, PartialEq, Eq)]
pub enum Command {
    /// Writes the value in canonical form, without a line feed.
    Canonical,
    /// Writes the value in advanced form, on one line.
    Advanced,
    /// Writes the value in transport form, on one line.
    Transport,
    /// Writes the intersection of two tags, which are patterns for requests, in advanced form, on one line.
    Intersect,
    /// Writes for each entry of the access list what it becomes with the certificates, or which of these does not join it, on one line each.
    /// If a certificate fails a test of its own, or the list is empty, writes one line that says so.
    Reduce,
    /// Writes whether the key may have the request: the first entry that grants it, or no.
    Check,
    /// Writes for each entry of the access list that it grants the request, or why not, on one line each. If a certificate fails a test of
    /// its own, or the list is empty, writes one line that says so.
    Explain,
}

/// All commands, in the order in which the help lists them.
pub(crate) const COMMANDS: [Command; 7] = [
    Command::Canonical,
    Command::Advanced,
    Command::Transport,
    Command::Intersect,
    Command::Reduce,
    Command::Check,
    Command::Explain,
];

impl Command {
    /// The word of the command on the command line, such as `check`.
    pub fn word(self) -> &'static str
        ensures { result.now ≡ word_of self }
    {
        match self {
            Command::Canonical => "canonical",
            Command::Advanced => "advanced",
            Command::Transport => "transport",
            Command::Intersect => "intersect",
            Command::Reduce => "reduce",
            Command::Check => "check",
            Command::Explain => "explain",
        }
    }

    /// The command with this word. None for any other word.
    pub(crate) fn named(word: &str) -> Option<Command>
        ensures { MatchOption result ((c : Command) → word.now ≢ word_of c) (λ c. word.now ≡ word_of c) }
    {
        for command in COMMANDS {
            if command.word() == word {
                return Some(command);
            }
        }
        None
    }
}
