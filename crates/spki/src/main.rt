//! `spki` reads a text on standard input and writes the answer of a command on standard output. `run_words` of `spki_guard`
//! does the work; this file only passes it the words of the command line and the streams.
#![tactic(auto)]

use spki_guard::{Metered, run_words};
use std::process::ExitCode;
use std::rt::Env;
use std::{env, io};

/// Returns the words of the command line, for `run_words`. The first is the program's name. Err if the system does not give
/// them, they are not UTF-8, or memory ran out.
fn words<R: Env + AllocGlobal>(rt: &R) -> io::Result<Vec<String>> {
    let mut words = Vec::new(rt.alloc());
    for word in env::args(rt)? {
        words.push(word)?;
    }
    Ok(words)
}

/// Runs the program on the words of the command line and the standard streams, and returns its exit status. The streams are
/// in meters, by which `run_words` limits the calls of each. If the words cannot be read, `run_words` reports the error.
fn main(rt: HostRuntime) -> ExitCode {
    let mut reader = Metered::new(rt.stdin());
    let mut writer = Metered::new(rt.stdout());
    let mut errors = Metered::new(rt.stderr());
    let words = words(&rt);
    ExitCode::from(run_words(rt.alloc(), &words, &mut reader, &mut writer, &mut errors))
}
