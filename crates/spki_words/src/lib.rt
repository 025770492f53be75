//! Parses the words of a command line: which command of `spki` they ask for.
#![tactic(auto)]

mod commands;
mod help;
mod words;

pub use commands::Command;
pub use words::{WordsFault, command_of};
