//! The parts from which readers and writers of other forms and of values are built. These are the nodes of a document,
//! octets by their offsets, whitespace, base64 with whitespace in it, and the parts of canonical and transport form.

pub use crate::braces::{Unpacked, octets_in_braces, read_base64, wrap_octets};
pub use crate::handle::{Node, NodeKind};
pub use crate::siblings::Members;
pub use crate::spaces::{ended, is_space, octet_at, skip_spaces};
pub use crate::writer::append_verbatim;
