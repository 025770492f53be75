//! Limits on questions.

ghost use Rattle.std.specs.Prelude.{◌≡◌, ◌≤◌, ◌↔◌, IsSome, IfSome};

/// Limits on each question that is put to a guard.
#[derive(Clone, Copy, Debug, PartialEq, Eq)]
pub struct Limits {
    /// The most octets of the four parts of a question together. At most 1,048,576.
    pub octets: usize,
    /// The most certificates of a sequence.
    pub certificates: usize,
    /// The most strings of a request, those in nested lists too.
    pub words: usize,
    /// For explanations and reductions: the greatest product of the numbers of nodes of two tags whose intersection is formed. The nodes of
    /// a tag are its strings, stars, prefixes, ranges, lists and sets. At most 1,000,000.
    pub nodes: usize,
    /// For explanations and reductions: the most work of joining all certificates with all entries, in the units of `spki_reduce::Work`. At
    /// most 1,000,000,000.
    pub work: usize,
    /// For explanations and reductions: the most octets of all lines of the answer together. The code that prints the lines tests this limit.
    pub answer: usize,
    ghost octets_within: { octets ≤ 1048576 },
    ghost nodes_within: { nodes ≤ 1000000 },
    ghost work_within: { work ≤ 1000000000 },
}

impl Limits {
    /// Makes limits from the values of the fields. None if `octets` is over 1,048,576, `nodes` over 1,000,000 or `work` over 1,000,000,000,
    /// for three reasons: the longest text that is read has 1,048,576 octets, `spki_reduce` intersects tags up to a product of 1,000,000
    /// nodes, and 1,000,000,000 of work takes up to some 5 s. The other fields may be any numbers.
    pub fn new(
        octets: usize,
        certificates: usize,
        words: usize,
        nodes: usize,
        work: usize,
        answer: usize,
    ) -> Option<Limits>
        ensures within { IsSome result ↔ ((octets ≤ 1048576) × (nodes ≤ 1000000) × (work ≤ 1000000000)) }
        ensures same { IfSome result (λ limits. (limits.octets ≡ octets) × (limits.certificates ≡ certificates)
            × (limits.words ≡ words) × (limits.nodes ≡ nodes) × (limits.work ≡ work) × (limits.answer ≡ answer)) }
    {
        if octets <= 1_048_576 && nodes <= 1_000_000 && work <= 1_000_000_000 {
            Some(Limits {
                octets,
                certificates,
                words,
                nodes,
                work,
                answer,
            })
        } else {
            None
        }
    }

    /// The highest limits: 1,048,576 octets, 1,000,000 as the product of the nodes of two tags, 1,000,000,000 of work, and 2^64 - 1
    /// certificates, strings and octets of an answer, which is no limit. On some questions within these limits an explanation takes seconds.
    pub fn highest() -> Limits
        ensures { (result.octets ≡ 1048576) × (result.certificates ≡ 18446744073709551615) × (result.words ≡ 18446744073709551615)
            × (result.nodes ≡ 1000000) × (result.work ≡ 1000000000) × (result.answer ≡ 18446744073709551615) }
    {
        Limits {
            octets: 1_048_576,
            certificates: usize::MAX,
            words: usize::MAX,
            nodes: 1_000_000,
            work: 1_000_000_000,
            answer: usize::MAX,
        }
    }
}

impl Default for Limits {
    ghost is_default = { λ limits. (limits.octets ≡ 65536) × (limits.certificates ≡ 16) × (limits.words ≡ 64)
        × (limits.nodes ≡ 1000000) × (limits.work ≡ 2000000) × (limits.answer ≡ 1048576) };

    /// The default limits: 65,536 octets of a question, 16 certificates, 64 strings of a request, 1,000,000 as the product of the nodes of two
    /// tags, 2,000,000 of work, and 1,048,576 octets of an answer. For comparison: an entry and five certificates for sets of 100 short strings
    /// take some 1,000,000 of work.
    fn default() -> Limits {
        Limits {
            octets: 65_536,
            certificates: 16,
            words: 64,
            nodes: 1_000_000,
            work: 2_000_000,
            answer: 1_048_576,
        }
    }
}
