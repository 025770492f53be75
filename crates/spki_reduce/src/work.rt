//! Bounds on the work of folding chains: on the sum of what the steps cost.

ghost use Rattle.std.specs.Prelude.{◌≡◌, ◌+◌, ◌<◌, OnOk, IfErr, OnErr, MatchOption, ℕ, List};
ghost use Rattle.spki_tag.specs.Tag.{Tag as Written};
ghost use Rattle.spki_reduce.specs.{Reduction.{five, four, five_tuple, four_tuple}, Chain.{left_of, Takes, IsNumber, IsOver, step_cost}};

use crate::fault::ReduceFault;
use crate::tuple::{Five, Four};
use spki_cert::Subject;
use spki_tag::Tag;

/// How much work the steps of chains may still take, in units. A step that joins two authorizations takes, for each node of the intersection
/// of the tags before it, 32 and the `Tag::node_cost` of its own tag (the cost of intersecting one node with that tag); and one for each name
/// of its subject. A step that applies a definition takes one, and one for each name of both subjects. A step that does not join takes
/// nothing, unless only the tags prevent it.
#[derive(Clone, Copy, Debug, PartialEq, Eq)]
pub struct Work {
    /// The units that may still be taken. None if there is no bound.
    left: Option<usize>,
}

impl Work {
    /// Allows at most `bound` units of work, or any amount if `bound` is None. The doc comment of `Work` says what a step costs.
    pub fn new(bound: Option<usize>) -> Work
        ensures { left_of result ≡ bound }
    {
        Work { left: bound }
    }

    /// Subtracts `work`, the cost of a step in units, from the work that may still be done. A `work` of None stands for 2^64 or more.
    /// Does nothing if there is no bound.
    ///
    /// # Errors
    ///
    /// `TooLarge` if `work` is more than may still be done. Then nothing is subtracted.
    pub(crate) fn take(&mut self, work: Option<usize>) -> Result<(), ReduceFault>
        ensures taken { OnOk result ((n : ℕ) → IsNumber work n → Takes (left_of self.old) (left_of self.new) n) }
        ensures over { OnErr result ((n : ℕ) → IsNumber work n → IsOver (left_of self.old) n) }
        ensures kept { OnErr result (left_of self.new ≡ left_of self.old) }
        ensures only { IfErr result (λ fault. fault ≡ ReduceFault.TooLarge) }
    {
        let Some(left) = self.left else {
            return Ok(());
        };
        let Some(rest) = rest_of(left, work) else {
            return Err(ReduceFault::TooLarge);
        };
        self.left = Some(rest);
        Ok(())
    }
}

/// What remains of `left` if `work` is subtracted. A `work` of None stands for 2^64 or more. The result is None if `work` is more
/// than `left`.
fn rest_of(left: usize, work: Option<usize>) -> Option<usize>
    ensures { (n : ℕ) → IsNumber work n → MatchOption result (left < n) (λ rest. rest + n ≡ left) }
{
    let Some(work) = work else {
        return None;
    };
    left.checked_sub(work)
}

/// What it costs, in units of `Work`, to join an authorization that has this tag with the next one. Each node of `tag` costs the `node_cost`
/// of the next tag (the cost of intersecting one node with it), and 32 for finding and storing what is left of the node. With the number 32 a
/// unit takes at most 5 ns, by measurement. Each name of the next subject costs one. None if the sum is 2^64 or more.
pub(crate) fn intersection_cost(tag: &Tag, next: &Five) -> Option<usize>
    ensures { (path : List (List ℕ)) → IsNumber result (step_cost tag.now path (five (five_tuple next.now))) }
{
    let Some(met) = next.tag.node_cost() else {
        return None;
    };
    let Some(each) = met.checked_add(32) else {
        return None;
    };
    let Some(product) = each.checked_mul(tag.nodes()) else {
        return None;
    };
    product.checked_add(next.subject.names.len())
}

/// What it costs, in units of `Work`, to resolve the first name of `subject`, that of an authorization, by a definition: one, and one for
/// each name of `subject` and of the definition's subject. None if the sum is 2^64 or more.
pub(crate) fn resolution_cost(subject: &Subject, definition: &Four) -> Option<usize>
    ensures { (tag : Written) → IsNumber result (step_cost tag subject.now.names (four (four_tuple definition.now))) }
{
    let Some(names) = subject.names.len().checked_add(1) else {
        return None;
    };
    names.checked_add(definition.subject.names.len())
}
