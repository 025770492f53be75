//! S-expressions in advanced form (RFC 9804, section 6.4), which are read and printed, and texts of any form, which are read
//! and converted.
//!
//! `read_advanced`, `read_any`, `print_advanced` and `print_tree` are only for programs in Rattle that use this library: they read and
//! print trees.
//!
//! `laws` contains what is proved about the definitions.
#![tactic(auto)]

mod canonical_printer;
mod canonical_text;
mod converter;
mod hexadecimal_strings;
mod hinted_strings;
pub mod laws;
mod opening_brace;
mod printer;
mod quoted_strings;
mod reader;
mod sinks;
mod strings;

pub use canonical_printer::print_canonical;
pub use canonical_text::{CanonicalText, OpenText};
pub use converter::{Form, convert};
pub use printer::{print_advanced, print_octets, print_tree};
pub use reader::{read_advanced, read_any};
pub use sinks::{Counter, Sink, VectorSink};
