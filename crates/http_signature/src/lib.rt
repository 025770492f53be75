//! HTTP Message Signatures (RFC 9421) in the profile of signed requests.
#![tactic(auto)]

mod base;
mod characters;
mod input;
pub mod laws;
mod nonces;
mod octets;
mod parameters;
mod pieces;
mod refusal;
mod request;

pub use base::signature_base;
pub use input::{SignatureInput, signature_value};
pub use nonces::{NonceFault, Nonces};
pub use octets::Octets;
pub use refusal::Refusal;
pub use request::{Field, Request, Scheme};
