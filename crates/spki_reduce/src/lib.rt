//! Reduction of tuples (RFC 2693, section 6).
//!
//! `fold_owned_counted` reduces for the other crates. `fold_chain`, `fold_owned`, `Five::then`, `Five::resolve`, `Five::into_resolve`, `Four::then`
//! and `Five::write` are only for programs in Rattle that use this library.
#![tactic(auto)]

mod chain;
mod fault;
mod fold;
mod joins;
mod last_tests;
pub mod laws;
mod tuple;
mod work;
mod writer;

pub use chain::{fold_chain, fold_owned, fold_owned_counted};
pub use fault::ReduceFault;
pub use fold::{Cause, Fold, Joined};
pub use last_tests::MissingGrant;
pub use tuple::{Five, Four, Issuer, Step};
pub use work::Work;
