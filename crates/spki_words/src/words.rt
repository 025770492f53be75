//! Parses the words of a command line.

ghost use Rattle.std.specs.Prelude.{◌≡◌, ◌∷◌, [], ◌⊎◌, List, IfOk, IfErr, Ok, Err, Some, MatchResult, map, string_bytes};
ghost use Rattle.clap.specs.Words.{Text, app_of, kind_of, subcommand_name_of};
ghost use Rattle.spki_words.specs.Words.{word_of, spki, bare, leaf, subcommand_in, faults_of, IsFaultOf, IsProgram, IsFault, code_of};

use crate::commands::{COMMANDS, Command};
use crate::help::{ABOUT, DETAILS, about, details};
use clap::error::ErrorKind;
use std::alloc::{AllocError, Global};
use thiserror::Error;

/// Why the words ask for no command.
#[derive(Debug, Drop, Error)]
pub enum WordsFault {
    /// The words are not the program's name and one command. The text says why, for the user.
    #[error("{0}")]
    Refused(String),
    /// The words ask for help, such as `spki check --help`. The text is the help.
    #[error("{0}")]
    Help(String),
    /// Memory ran out.
    #[error("out of memory")]
    Memory,
}

impl WordsFault {
    /// The exit status of `spki`: 0 if the words ask for help, otherwise 2, also if memory ran out.
    pub fn code(&self) -> u8
        ensures { result ≡ code_of self.now }
    {
        match self {
            WordsFault::Help(_) => 0,
            WordsFault::Refused(_) | WordsFault::Memory => 2,
        }
    }
}

impl From<AllocError> for WordsFault {
    ghost use Rattle.spki_words.specs.declared.words.WordsFault.{WordsFault};

    ghost from_gives = { λ _ fault. fault ≡ WordsFault.Memory };

    /// An allocation that failed is the fault `Memory`. With this, `?` converts the error.
    fn from(_: AllocError) -> WordsFault {
        WordsFault::Memory
    }
}

/// Returns the command that the words of a command line ask for. The first word is the program's name.
///
/// # Errors
///
/// `Help` if the words ask for help, `Refused` if `clap`, the parser of command lines, refuses them for another reason. Both have the text of
/// `clap`. `Memory` if memory ran out.
pub fn command_of(alloc: Global, words: &[String]) -> Result<Command, WordsFault>
    ensures named { IfOk result (λ c. subcommand_in (map string_bytes words.now) ≡ Some (word_of c)) }
    ensures taken { (program : Text) (c : Command) → map string_bytes words.now ≡ program ∷ word_of c ∷ []
        → (result ≡ Ok c) ⊎ (result ≡ Err WordsFault.Memory) }
    ensures faults { MatchResult result (λ _. faults_of (map string_bytes words.now) ≡ []) (IsFaultOf (map string_bytes words.now)) }
{
    match program(alloc)?.try_get_matches_from(words) {
        Ok(matches) => Ok(found_command(&matches)),
        Err(error) => Err(fault(alloc, &error)),
    }
}

/// The parser of the words: `spki` as a command of `clap`, with its commands as subcommands, of which one must be given. Err if memory ran
/// out.
fn program<'a>(alloc: Global) -> Result<clap::Command<'a>, AllocError>
    ensures { IfOk result (λ program. IsProgram spki program) }
{
    let mut program = bare(alloc);
    for command in COMMANDS {
        program = program.subcommand(subcommand(alloc, command))?;
    }
    Ok(program)
}

/// `spki` as a command of `clap`, before its subcommands are added: its name, its help, and that the words must name a subcommand. Help is
/// asked for by the flag `-h` or `--help`, which `clap` adds, and not by a subcommand `help`.
fn bare<'a>(alloc: Global) -> clap::Command<'a>
    ensures { IsProgram bare result }
{
    clap::Command::new(alloc, "spki")
        .about(ABOUT)
        .after_help(DETAILS)
        .subcommand_required(true)
        .disable_help_subcommand(true)
}

/// The command as a subcommand of `clap`, with its word and its help. It takes no arguments. The types of the locals shorten `'static` to `'a`.
fn subcommand<'a>(alloc: Global, command: Command) -> clap::Command<'a>
    ensures { IsProgram (leaf command) result }
{
    let word: &'a str = command.word();
    let about: &'a str = about(command);
    let details: &'a str = details(command);
    clap::Command::new(alloc, word)
        .about(about)
        .after_help(details)
}

/// The command for the subcommand that `clap` found in the words. There must be one, and it is the word of a command, so neither
/// `unreachable!()` is reached.
fn found_command(matches: &clap::ArgMatches<'_>) -> Command
    requires { (c : Command) × (subcommand_name_of matches.now ≡ Some (word_of c)) }
    ensures { subcommand_name_of matches.now ≡ Some (word_of result) }
{
    let Some(name) = matches.subcommand_name() else {
        unreachable!()
    };
    let Some(command) = Command::named(name) else {
        unreachable!()
    };
    command
}

/// The fault for an error of `clap`: `Help` with the error's text if the words ask for help, otherwise `Refused` with that text.
/// `Memory` if memory ran out, in `clap` or for the text.
fn fault(alloc: Global, error: &clap::Error) -> WordsFault
    ensures { IsFault (kind_of error.now) result }
{
    if error.kind() == ErrorKind::OutOfMemory {
        return WordsFault::Memory;
    }
    match error.to_string(alloc) {
        Ok(text) if error.kind() == ErrorKind::DisplayHelp => WordsFault::Help(text),
        Ok(text) => WordsFault::Refused(text),
        Err(_) => WordsFault::Memory,
    }
}
