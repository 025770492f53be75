//! Limits as C passes them.
ghost use Rattle.std.specs.Prelude.{◌≡◌, MatchOption};
ghost use Rattle.spki_c.specs.Guards.{numbers_in, or_usual, AreAllowed, AreLimits};

use spki_guard::Limits;

/// The limits of questions: `struct spki_limits`.
#[repr(C)]
pub struct LimitParts {
    /// The size of the structure in octets, which `spki.c` tests.
    pub size: usize,
    /// The most octets of the texts of a question together.
    pub octets: usize,
    /// The most certificates of a sequence.
    pub certificates: usize,
    /// The most strings of a request.
    pub words: usize,
    /// For explanations and reductions: the greatest product of the numbers of nodes of two tags whose intersection is formed.
    pub nodes: usize,
    /// For explanations and reductions: the most work of all certificates and all entries together. Work is the cost of joining
    /// certificates, in units of `spki_reduce::Work`.
    pub work: usize,
    /// For explanations and reductions: the most octets of the answer.
    pub answer: usize,
}

/// The limits that C passes: the first of `limits`, or the default ones if there are none. A limit of 0 is the default one. None if
/// `octets` is over 1,048,576, `nodes` over 1,000,000 or `work` over 1,000,000,000. `size` is not tested here.
pub(crate) fn limits_of(limits: &[LimitParts]) -> Option<Limits>
    ensures { MatchOption result (¬ AreAllowed (numbers_in limits.now)) (AreLimits (numbers_in limits.now)) }
{
    let usual = Limits::default();
    match limits {
        [] => Some(usual),
        [first, ..] => Limits::new(
            or_usual(first.octets, usual.octets),
            or_usual(first.certificates, usual.certificates),
            or_usual(first.words, usual.words),
            or_usual(first.nodes, usual.nodes),
            or_usual(first.work, usual.work),
            or_usual(first.answer, usual.answer),
        ),
    }
}

/// Returns `limit`, or the default one, `usual`, if `limit` is 0.
fn or_usual(limit: usize, usual: usize) -> usize
    ensures { result ≡ or_usual limit usual }
{
    if limit == 0 { usual } else { limit }
}
