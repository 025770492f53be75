//! Calls of the libraries up to `spki_service`, for `test_one_call`. They are a library of their own, since this is proved beside
//! `spki_guard`, and the program after it.
//!
//! Where a value goes out of scope, the proof of the function goes through the drop of each of its parts. So a value with many parts is
//! moved, before the function ends, to a generic function, whose proof is the same for all types: to `answer`, `call_on` or `drop`.
#![tactic(auto)]

pub mod answers;
mod cases;
mod documents;
pub mod failure;
mod forms;
pub mod guards;
pub mod owned_questions;
mod tags;
pub mod texts;
mod tuples;
mod verifier;
mod windows;

use crate::answers::Reply;
use std::alloc::Global;

/// Does the library call that `name` names, such as `Tag::meet`, with the texts of a row of a test table as its arguments, and returns its answer.
/// None if this crate does not have the call. Each module passes a name that it does not have on to the next one, in the order `forms`,
/// `documents`, `tags`, `windows`, `tuples`, `cases`, `guards`, `owned_questions`.
pub fn call(alloc: Global, name: &str, texts: &[Vec<u8>]) -> Option<Reply> {
    forms::call(alloc, name, texts)
}
