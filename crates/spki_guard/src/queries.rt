//! What is asked of a case: by a command for its text, or in a question to a guard.
ghost use Rattle.std.specs.Prelude.{◌≡◌, MatchOption};
ghost use Rattle.spki_guard.specs.{TextAnswers.{IsOnCase}, Inner.Prints.{command_of}};

use spki_words::Command;

/// What is asked of a case.
#[derive(Clone, Copy, Debug, PartialEq, Eq)]
pub enum Query {
    /// A decision: yes with the entry that grants the request, or no.
    Decide,
    /// Why each entry grants the request or does not.
    Explain,
    /// What each entry and the certificates become.
    Reduce,
}

/// What a command asks of a case: `check` asks for a decision. None for a command that does not read a case.
pub(crate) fn query_of(command: Command) -> Option<Query>
    ensures { MatchOption result (IsOnCase command → ⊥) (λ query. command ≡ command_of query) }
{
    match command {
        Command::Canonical => None,
        Command::Advanced => None,
        Command::Transport => None,
        Command::Intersect => None,
        Command::Reduce => Some(Query::Reduce),
        Command::Check => Some(Query::Decide),
        Command::Explain => Some(Query::Explain),
    }
}
