//! The program, from the words of a command line to its exit status.
ghost use Rattle.std.specs.{Prelude.{◌≡◌, ◌≢◌, Result, map, string_bytes, MatchResult}, IoError.{error_kind}};
ghost use Rattle.spki_words.specs.declared.{commands.Command.{Command}, words.WordsFault.{WordsFault}};
ghost use Rattle.spki_guard.specs.Program.{IsAskedCommand, IsNoText, IsUnasked, AreUnreadWords, IsSaid, IsReported, IsRefused, DoesCommand, SaysFault};

use crate::lines::REFUSED_MEMORY;
use crate::runs::run;
use crate::statuses::Status;
use metered_io::{Metered, write_whole};
use spki_words::{Command, WordsFault, command_of};
use std::alloc::Global;
use std::io;
use std::io::{ErrorKind, Read, Write};

/// Does what the words of a command line ask for, and returns the exit status, that of `Status::code` or of `WordsFault::code`: 0 for
/// done or help, 1 for no, 2 for a refusal, 3 if a command could not read or write. `words` is the result of reading them from the system.
/// The first word is the program's name.
///
/// If the words ask for a command, it is run: it reads from the reader, and its answer goes to the writer. If one of
/// the two fails, a line that says which goes to `errors`. If the words ask for help or for no command, the text of `clap` goes to
/// `errors`, and nothing is read. If they are not UTF-8, a line that says so goes there. At any other error of `words`,
/// and if memory ran out for them, `refused Memory` goes to the writer. If a message about the words, or about the
/// reader or the writer, cannot be written, the status is the same. The call resets all meters first.
pub fn run_words<R: Read, W: Write, E: Write>(
    alloc: Global,
    words: &io::Result<Vec<String>>,
    reader: &mut Metered<R>,
    writer: &mut Metered<W>,
    errors: &mut Metered<E>,
) -> u8
    ensures { (asked : Result Command WordsFault)
        × MatchResult words.now (λ list. IsAskedCommand (map string_bytes list.items) asked) (λ error. IsUnasked (error_kind error) asked)
        × MatchResult asked
        (DoesCommand R.remaining W.contents E.contents reader.old reader.new writer.old writer.new errors.old errors.new result)
        (SaysFault R.remaining W.contents E.contents reader.old reader.new writer.old writer.new errors.old errors.new result) }
{
    match requested_command(alloc, words) {
        Ok(command) => run_command(alloc, command, reader, writer, errors),
        Err(fault) => report_words_fault(&fault, reader, writer, errors),
    }
}

/// Returns the command that the words of the command line ask for. Err if they ask for help, are refused or cannot be
/// read, or if memory ran out.
fn requested_command(alloc: Global, words: &io::Result<Vec<String>>) -> Result<Command, WordsFault>
    ensures { MatchResult words.now (λ list. IsAskedCommand (map string_bytes list.items) result)
        (λ error. IsUnasked (error_kind error) result) }
{
    match words {
        Ok(list) => command_of(alloc, list),
        Err(error) => Err(unread_words_fault(alloc, error)),
    }
}

/// The fault for an error of reading the words from the system. `InvalidData` says that they are not UTF-8: the fault is `Refused` with a message, or
/// `Memory` if memory ran out for it. Any other error is `Memory`, since the words are in memory, and reading them fails for want of it alone.
fn unread_words_fault(alloc: Global, error: &io::Error) -> WordsFault
    ensures { AreUnreadWords (error_kind error.now) result }
{
    if error.kind() == ErrorKind::InvalidData {
        not_utf8_fault(alloc)
    } else {
        WordsFault::Memory
    }
}

/// Makes the fault of words that are not UTF-8: `Refused` with its message, or `Memory` if memory ran out for the message.
fn not_utf8_fault(alloc: Global) -> WordsFault
    ensures { IsNoText result }
{
    match String::from_str(alloc, "error: the words aren't UTF-8\n") {
        Ok(text) => WordsFault::Refused(text),
        Err(_) => WordsFault::Memory,
    }
}

/// Runs a command, reports to `errors` if the reader or the writer failed, and returns the exit status: that of `Status::code`.
fn run_command<R: Read, W: Write, E: Write>(
    alloc: Global,
    command: Command,
    reader: &mut Metered<R>,
    writer: &mut Metered<W>,
    errors: &mut Metered<E>,
) -> u8
    ensures { DoesCommand R.remaining W.contents E.contents reader.old reader.new writer.old writer.new errors.old errors.new
        result command }
{
    let status = run(alloc, command, reader, writer);
    report(errors, status);
    status.code()
}

/// Resets the meter of `errors`, and writes to it that reading or writing failed. For any other status, writes nothing.
fn report<E: Write>(errors: &mut Metered<E>, status: Status)
    ensures { IsReported E.contents errors.old errors.new status }
{
    match status {
        Status::ReadFault => write_message(errors, b"spki: read fault\n"),
        Status::WriteFault => write_message(errors, b"spki: write fault\n"),
        Status::Answered(_) => errors.restart(),
    }
}

/// Writes the help, or why the words are refused, as `write_words_fault` does, and returns the exit status of the
/// fault. Nothing is read. All three meters are reset.
fn report_words_fault<R: Read, W: Write, E: Write>(
    fault: &WordsFault,
    reader: &mut Metered<R>,
    writer: &mut Metered<W>,
    errors: &mut Metered<E>,
) -> u8
    ensures { SaysFault R.remaining W.contents E.contents reader.old reader.new writer.old writer.new errors.old errors.new
        result fault.now }
{
    reader.restart();
    write_words_fault(fault, writer, errors);
    fault.code()
}

/// Writes the help, or why the words are refused, to `errors`. If memory ran out, writes `refused Memory` to `writer` alone: this line
/// is the answer of every command for which memory ran out, and answers go there. Both meters are reset first.
fn write_words_fault<W: Write, E: Write>(
    fault: &WordsFault,
    writer: &mut Metered<W>,
    errors: &mut Metered<E>,
)
    ensures { IsRefused W.contents E.contents writer.old writer.new errors.old errors.new fault.now }
{
    match fault {
        WordsFault::Refused(text) | WordsFault::Help(text) => {
            writer.restart();
            write_message(errors, text.as_bytes());
        }
        WordsFault::Memory => {
            errors.restart();
            write_message(writer, REFUSED_MEMORY);
        }
    }
}

/// Resets the writer's meter, writes a message, and flushes the writer. If the writer fails, a beginning of the message is written, which
/// may be none or all of it. The failure is ignored, since the exit status is that of what the message says, whether it arrives or not. The
/// `if` is there only because a result must be used.
fn write_message<W: Write>(writer: &mut Metered<W>, octets: &[u8])
    ensures { IsSaid W.contents writer.old writer.new octets.now }
{
    writer.restart();
    if write_whole(writer, octets).is_err() {
        return;
    }
}
