//! The proved part of the library for C programs. It runs commands on a text and puts the answer in a buffer. It decides by
//! signatures that the caller has verified, and answers questions to a guard, an access list that was read once and that the
//! caller holds. `spki.c` calls these functions. `spki.h` declares what C programs call, and lists what a caller must ensure.
#![tactic(auto)]

mod box_pointer;
mod buffer;
mod ends;
mod exports;
mod guard_exports;
mod guards;
mod handle;
mod handle_value;
mod lent_texts;
mod limits;
mod numbers;
mod opening;
mod parts;
mod question_exports;
mod questions;
mod readable;
mod signatures;
mod strings;
mod text;

pub use exports::{spki_c_answer, spki_c_check_accepted, spki_c_string};
pub use guard_exports::{spki_c_close, spki_c_guard_entries, spki_c_guard_open};
pub use question_exports::{
    spki_c_asked_answer, spki_c_asked_count, spki_c_asked_signature, spki_c_guard_ask,
};
