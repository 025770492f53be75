//! Lists that begin with a string, by which their form is known.

ghost use Rattle.std.specs.Prelude.{◌≡◌, ◌∷◌, Some, MatchOption};
ghost use Rattle.sexpr_core.specs.Value.{Value, plain, group, IsNotHeaded};
ghost use Rattle.spki_cert.specs.FieldFaults.{head_of};

use sexpr_core::syntax::{Members, Node};
use std::marker::Model;

/// A list whose first member, its head, is a string without a display hint. The head is read once, however many words it is compared with.
/// In a contract a `HeadedList` is the value of the list.
#[derive(Drop)]
pub(crate) struct HeadedList<'d, 'a> {
    /// The octets of the head.
    head: &'a [u8],
    /// The members after the head.
    members: Members<'d, 'a>,
}

impl<'d, 'a> Model for HeadedList<'d, 'a> {
    ghost use Rattle.std.specs.Prelude.{◌∷◌};
    ghost use Rattle.sexpr_core.specs.Nodes.{value_code};
    ghost use Rattle.sexpr_core.specs.Value as sexpr;

    ghost Value = { sexpr.Value };

    ghost coded = { value_code };

    ghost view = { λ l. sexpr.group (sexpr.plain l.head.now ∷ l.members) };
}

impl<'d, 'a> HeadedList<'d, 'a> {
    /// The list at a node. None if the node is no list that begins with a string without a display hint.
    pub(crate) fn of(node: &Node<'d, 'a>) -> Option<HeadedList<'d, 'a>>
        ensures { MatchOption result (head_of node.now ≡ None) (λ list. list ≡ node.now) }
    {
        let Some(all) = node.members() else {
            return None;
        };
        let (first, members) = all.split_first()?;
        let head = first.plain_octets()?;
        Some(HeadedList { head, members })
    }

    /// The octets of the head.
    pub(crate) fn head(&self) -> &'a [u8]
        ensures { head_of self.now ≡ Some result.now }
    {
        self.head
    }

    /// The members after the head, if the head is `word`. None if the head is another word.
    pub(crate) fn headed(&self, word: &[u8]) -> Option<Members<'d, 'a>>
        ensures { MatchOption result (IsNotHeaded self.now word.now) (λ vs. self.now ≡ group (plain word.now ∷ vs)) }
    {
        if self.head == word {
            Some(self.members.share())
        } else {
            None
        }
    }
}
