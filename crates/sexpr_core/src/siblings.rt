//! The members of a list, one after another.

ghost use Rattle.std.specs.{Prelude.{◌≡◌, ◌<◌, ◌∷◌, [], length, MatchOption, IsTrue, ◌↔◌}, Iterator.{YieldsFirst, item_count}};
ghost use Rattle.sexpr_core.specs.{Value.{list, size, values}, Nodes.{IsList, node_at}};

use crate::document::Doc;
use crate::handle::Node;
use std::marker::Model;

/// The members of a list that are still to be read: their nodes have the numbers from `from` to before `to`. The number
/// of a member plus its size, which is the number of all nodes in it and itself, is the number of the next member. In a
/// contract a `Members` is the list of the members' values.
#[derive(Drop)]
pub struct Members<'d, 'a> {
    document: &'d Doc<'a>,
    from: usize,
    to: usize,
}

impl<'d, 'a> Model for Members<'d, 'a> {
    ghost use Rattle.std.specs.{Prelude.{List}, Coded.{coded_list}};
    ghost use Rattle.sexpr_core.specs.Nodes.{value_code};
    ghost use Rattle.sexpr_core.specs.Value as sexpr;

    ghost Value = { List sexpr.Value };

    ghost coded = { coded_list value_code };

    ghost use Rattle.sexpr_core.specs.Nodes.{siblings_between, AreSiblings};

    ghost view = { λ m. siblings_between m.document.now m.from m.to };

    ghost invariant = { λ m. AreSiblings m.document.now m.from m.to (siblings_between m.document.now m.from m.to) };
}

impl<'d, 'a> Members<'d, 'a> {
    /// The members of the node with number `n`, from 0. The document must have this node, and the node must be a list. The
    /// nodes in a list have the numbers after its own.
    pub(crate) fn of(document: &'d Doc<'a>, n: usize) -> Members<'d, 'a>
        requires known { n < size document.now }
        requires listed { IsList (node_at document.now n) }
        ensures { node_at document.now n ≡ list (values result) }
    {
        let size = document.node_size(n);
        Members {
            document,
            from: n + 1,
            to: n + size,
        }
    }

    /// Returns a second handle to the same members, so that a caller can read them more than once. Nothing is allocated.
    pub fn share(&self) -> Members<'d, 'a>
        ensures { result ≡ self.now }
    {
        let Members { document, from, to } = *self;
        Members { document, from, to }
    }

    /// How many members are still to be read. A step is taken for each, over a second handle, so `self` does not
    /// change.
    pub fn len(&self) -> usize
        ensures { result ≡ length self.now }
    {
        let rest = Members {
            document: self.document,
            from: self.from,
            to: self.to,
        };
        rest.count()
    }

    /// Whether more than `i` members are still to be read. The call takes at most `i` steps, one for each member that it
    /// passes.
    pub(crate) fn is_longer_than(self, i: usize) -> bool
        ensures { IsTrue result ↔ (i < length self.entry) }
    {
        let mut rest = self;
        for _ in 0..i {
            let Some((_, others)) = rest.split_first() else {
                return false;
            };
            rest = others;
        }
        !rest.is_empty()
    }

    /// Whether no member is left: the list is empty, or this handle has passed all its members.
    pub fn is_empty(&self) -> bool
        ensures { IsTrue result ↔ (self.now ≡ []) }
    {
        self.from == self.to
    }

    /// Returns the next member and the members after it. None if no member is left. Unlike `next`, it consumes this
    /// handle, and returns the rest as a handle of its own.
    pub fn split_first(self) -> Option<(Node<'d, 'a>, Members<'d, 'a>)>
        ensures { MatchOption result (self.entry ≡ []) (λ p. self.entry ≡ p.0 ∷ p.1) }
    {
        if self.from == self.to {
            return None;
        }
        let Members { document, from, to } = self;
        let size = document.node_size(from);
        let first = Node::at(document, from);
        let others = Members {
            document,
            from: from + size,
            to,
        };
        Some((first, others))
    }
}

impl<'d, 'a> Iterator for Members<'d, 'a> {
    type Item = Node<'d, 'a>;

    ghost next_gives = { YieldsFirst (λ s. s) };

    ghost remaining = { item_count (λ s. s) };

    /// Returns the next member, and moves this handle past it. None if no member is left.
    fn next(&mut self) -> Option<Node<'d, 'a>> {
        if self.from == self.to {
            return None;
        }
        let document = self.document;
        let from = self.from;
        let size = document.node_size(from);
        self.from = from + size;
        Some(Node::at(document, from))
    }
}
