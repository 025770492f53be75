//! Keys, hashes, names, certificates and access lists (RFC 2693).
//!
//! `read_acl`, `read_sequence`, `read_key`, `read_hash` and `read_date` take a document and the number of a node. They are only for programs in
//! Rattle that use this library.
#![tactic(auto)]

mod acl;
mod algorithms;
mod certificate;
mod certificate_reader;
mod date;
mod entry;
mod fault;
mod fields;
mod hash;
mod headed_list;
mod items;
mod key;
pub mod laws;
mod limit;
mod names;
mod octets;
mod principal;
mod principal_reader;
mod sequence;
mod signature;
mod validity;
mod value_readers;
mod version;
mod window;

pub use acl::{acl_of, acl_principals, entry_of, read_acl};
pub use algorithms::Algorithms;
pub use certificate::{AuthCert, NameCert, SeqItem, Signature};
pub use date::Date;
pub use entry::{Entry, Subject};
pub use fault::{CertFault, CertFaultKind};
pub use hash::HashAlg;
pub use key::Key;
pub use names::Names;
pub use octets::Octets;
pub use principal::{Policy, Principal};
pub use principal_reader::principal_of;
pub use sequence::{read_sequence, sequence_of};
pub use value_readers::{date_of, hash_of, key_of, read_date, read_hash, read_key};
pub use window::Window;
