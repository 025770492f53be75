//! The answers to a case: the evidence of its certificates, its decision, what its entries become, and why they grant the
//! request or do not (RFC 2693, section 6).
#![tactic(auto)]

mod budget;
mod certificates;
mod chain_requirement;
mod decision;
mod entry_chain;
mod evidence;
mod examination;
mod explanation;
mod fault;
mod fold_sink;
mod grant;
pub mod laws;
mod named_key;
mod reduction;
mod required_subject;
mod shown_keys;
mod signed;
mod sizes;

pub use budget::Budget;
pub use certificates::{Certificate, ShownCert, certificates_of};
pub use chain_requirement::ChainRequirement;
pub use decision::{Decision, decide};
pub use evidence::{Evidence, Stop, first_refused, judge};
pub use examination::{ExaminedSequence, Unverified, examine};
pub use explanation::{Explanation, Reason, ReasonSink, explain};
pub use fault::GuardFault;
pub use fold_sink::FoldSink;
pub use grant::Grant;
pub use named_key::{first_named, keys_of};
pub use reduction::{EntryFold, Reduction, entry_fold, entry_fold_counted, reduce_case};
pub use signed::Signed;
