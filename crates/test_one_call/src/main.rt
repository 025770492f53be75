//! `test_one_call` does calls of the libraries. Each line of standard input is a row: the name of a call and its texts, each as hexadecimal
//! digits, and one space between each of these and the next. For each row it writes a line: the answer, as hexadecimal digits.
//! `tests/rows/call_rows.py` says which texts a call takes.
//!
//! The crate `test_calls` contains the calls of the libraries up to `spki_service`, and this crate the others. This crate is proved last,
//! when nothing else is left to prove. The head of `test_calls` says why values are moved to `answer` or dropped by a call.
//!
//! If memory runs out for a row, its line is `refused Memory`. If its call is unknown or its digits are malformed, it is `refused Unknown`. In both
//! cases the rows after it are still answered, and the program ends with status 2. `tests/suite/test_hostile.py` refuses each allocation of a call
//! in turn.
#![tactic(auto)]

mod callers;
mod lines;
mod streams;

use std::alloc::Global;
use std::io;
use std::io::{BufRead, BufReader};
use std::process::ExitCode;
use test_calls::answers::Reply;
use test_calls::failure::Failure;

/// Does the library call that `name` names, such as `Tag::meet`, with these texts as its arguments, and returns its answer. None if neither
/// `test_calls` nor this crate has the call.
fn call(alloc: Global, name: &str, texts: &[Vec<u8>]) -> Option<Reply> {
    match test_calls::call(alloc, name, texts) {
        None => lines::call(alloc, name, texts),
        reply => reply,
    }
}

/// The answer to a call: what it returns, or why it has no result. Err if memory ran out, or there is no such call.
fn said(alloc: Global, name: &str, texts: &[Vec<u8>]) -> Reply {
    match call(alloc, name, texts) {
        Some(Err(failure)) => failure.said(alloc),
        Some(answer) => answer,
        None => Err(Failure::Unknown),
    }
}

/// Decodes texts, each written as hexadecimal digits. There is one space between a text and the next. Err if the digits are malformed, or memory
/// ran out.
fn texts_of(alloc: Global, digits: &str) -> Result<Vec<Vec<u8>>, Failure> {
    let mut texts = Vec::new(alloc);
    for word in digits.split(' ') {
        texts.push(hex::decode(alloc, word)?)?;
    }
    Ok(texts)
}

/// The answer to `line`, a row of the input: the name of a call alone, or the name and its texts. Err as for `said`, or if the digits are
/// malformed.
fn reply_to(alloc: Global, line: &str) -> Reply {
    match line.split_once(' ') {
        None => said(alloc, line, &[]),
        Some((name, digits)) => said(alloc, name, &texts_of(alloc, digits)?),
    }
}

/// The line that answers a row, without a line feed: its answer as hexadecimal digits. Err as for `reply_to`.
fn line_for(alloc: Global, line: &str) -> Result<String, Failure> {
    let answer = reply_to(alloc, line)?;
    Ok(hex::encode(alloc, answer.as_slice())?)
}

/// Answers all rows of standard input. Returns whether each has an answer, as for `answer_row`. Err if standard input or output failed, or
/// memory ran out for reading.
fn answer_rows(rt: &HostRuntime) -> Result<bool, Failure> {
    let alloc = rt.alloc();
    let mut is_enough = true;
    for line in BufReader::new(alloc, rt.reader())?.lines(alloc) {
        is_enough &= answer_row(rt, &line?)?;
    }
    Ok(is_enough)
}

/// Answers a row on standard output. Returns whether it has an answer: memory was enough, its call is known, and its digits are not
/// malformed. Err if standard output failed.
fn answer_row(rt: &HostRuntime, line: &str) -> Result<bool, Failure> {
    let answer = line_for(rt.alloc(), line);
    match &answer {
        Ok(answer) => println!(rt; "{answer}")?,
        Err(failure) => println!(rt; "refused {failure:?}")?,
    }
    Ok(answer.is_ok())
}

/// Answers all rows, also those after a row without an answer. The status is 2 if a row has no answer. It is also 2 if standard input or
/// output failed, or memory ran out for reading: then the last line is `refused` and the failure. Err if that line cannot be written.
fn main(rt: HostRuntime) -> io::Result<ExitCode> {
    match answer_rows(&rt) {
        Ok(true) => Ok(ExitCode::SUCCESS),
        Ok(false) => Ok(ExitCode::from(2)),
        Err(failure) => {
            println!(rt; "refused {failure:?}")?;
            Ok(ExitCode::from(2))
        }
    }
}
