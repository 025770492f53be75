//! Readers and writers whose calls are counted; reading a whole text within a limit, and writing a whole output.
#![tactic(auto)]

mod input;
mod meters;
mod output;

pub use input::{ReadFault, read_whole};
pub use meters::Metered;
pub use output::{WriteFault, flush_writer, write_octets, write_whole};
