//! Cases: what is to be decided, and with what.
#![tactic(auto)]

mod cases;
mod digests;
pub mod laws;
mod parts;
mod rows;
mod table;
mod verifier;

pub use cases::{Case, CaseFault};
pub use rows::RowsFault;
pub use table::{AcceptedTable, Row};
pub use verifier::Verifier;
