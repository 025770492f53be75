//! Examples of callers of the libraries, one file for each. The pages `CALLING.md` of the libraries quote them.
#![tactic(auto)]

pub mod cases;
pub mod certificates;
pub mod chains;
pub mod decisions;
pub mod services;
pub mod streams;
pub mod tags;
pub mod texts;
pub mod values;
