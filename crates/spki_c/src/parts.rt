//! The parts of a question as C passes them.

use crate::text::Text;

/// The parts of a question: `struct spki_question` without the strings of the request and without the seconds.
#[derive(Drop)]
#[repr(C)]
pub struct Parts {
    /// The sequence: the certificates that the client shows.
    pub sequence: Text,
    /// The key of the client who asks.
    pub key: Text,
    /// The request as a text. Empty if it is given by its strings.
    pub request: Text,
    /// The moment as the text of a date. Empty if it is given in seconds.
    pub moment: Text,
    /// Whether the request is given by its strings.
    pub is_worded: bool,
}
