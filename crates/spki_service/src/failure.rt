//! The first certificate of a question that fails a test (RFC 2693, section 6).

use spki_decision::Stop;

/// The first certificate that fails one of the four tests of `Stop`. `PreparedQuestion::reduce_into`, which puts what the entries become into a
/// sink, returns it in place of a `Reduction`.
#[derive(Clone, Copy, Debug, PartialEq, Eq)]
pub struct Failure {
    /// The number of the certificate's item in the sequence, from 1.
    pub item: usize,
    /// The first test that it does not pass.
    pub stop: Stop,
}
