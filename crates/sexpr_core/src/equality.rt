//! Equality of trees.

ghost use Rattle.std.specs.{Prelude.{◌≡◌, ◌↔◌, map, option_map, IsTrue}, Cmp.{on_equiv, partial_equiv_from_equiv, Lexicographic.{nat_list_eq_equiv}}};
ghost use Rattle.sexpr_core.specs.Value.{canon, is_same, atom_value, sexp_value};

use crate::tree::{Atom, Sexp};

/// Strings are equal if their octets and their hints are equal. An empty hint is a hint.
impl PartialEq for Atom {
    ghost eq = { λ atom other. is_same (atom_value atom) (atom_value other) };

    ghost laws = { partial_equiv_from_equiv (on_equiv (λ atom. canon (atom_value atom)) nat_list_eq_equiv) };

    /// Whether both strings have the same octets, and the same display hint or both none.
    fn eq(&self, other: &Atom) -> bool
        ensures test { result ≡ is_same (atom_value self.now) (atom_value other.now) }
        ensures meaning { IsTrue result ↔ (atom_value self.now ≡ atom_value other.now) }
    {
        same_atoms(self, other)
    }
}

impl Eq for Atom {
    ghost laws = { on_equiv (λ atom. canon (atom_value atom)) nat_list_eq_equiv };
}

/// Trees are equal if their values are. The recursion is at most as deep as either tree.
impl PartialEq for Sexp {
    ghost eq = { λ tree other. is_same (sexp_value tree) (sexp_value other) };

    ghost laws = { partial_equiv_from_equiv (on_equiv (λ tree. canon (sexp_value tree)) nat_list_eq_equiv) };

    /// Whether both trees have the same value.
    fn eq(&self, other: &Sexp) -> bool
        ensures test { result ≡ is_same (sexp_value self.now) (sexp_value other.now) }
        ensures meaning { IsTrue result ↔ (sexp_value self.now ≡ sexp_value other.now) }
    {
        same_trees(self, other)
    }
}

impl Eq for Sexp {
    ghost laws = { on_equiv (λ tree. canon (sexp_value tree)) nat_list_eq_equiv };
}

/// Whether both hints have the same octets, or both are missing.
fn same_hints(hint: &Option<Vec<u8>>, other: &Option<Vec<u8>>) -> bool
    ensures { IsTrue result ↔ (option_map (λ h. h.items) hint.now ≡ option_map (λ h. h.items) other.now) }
{
    match hint {
        None => other.is_none(),
        Some(octets) => match other {
            None => false,
            Some(others) => octets.as_slice() == others.as_slice(),
        },
    }
}

/// Whether two strings have the same octets, and the same display hint or both none. `==` of strings returns this.
fn same_atoms(atom: &Atom, other: &Atom) -> bool
    ensures { IsTrue result ↔ (atom_value atom.now ≡ atom_value other.now) }
{
    same_hints(&atom.hint, &other.hint) && atom.body.as_slice() == other.body.as_slice()
}

/// Whether two trees have the same value: `==` of trees returns this. The recursion is at most as deep as either tree.
#[cycle(same)]
fn same_trees(tree: &Sexp, other: &Sexp) -> bool
    ensures { IsTrue result ↔ (sexp_value tree.now ≡ sexp_value other.now) }
{
    match tree {
        Sexp::Atom(atom) => match other {
            Sexp::Atom(second) => same_atoms(atom, second),
            Sexp::List(_) => false,
        },
        Sexp::List(members) => match other {
            Sexp::Atom(_) => false,
            Sexp::List(others) => same_members(members, others),
        },
    }
}

/// Whether both lists have equally many members, and those at each index have the same value.
#[cycle(same)]
fn same_members(members: &[Sexp], others: &[Sexp]) -> bool
    ensures { IsTrue result ↔ (map sexp_value members.now ≡ map sexp_value others.now) }
{
    if members.len() != others.len() {
        return false;
    }
    for (i, member) in members.iter().enumerate() {
        if !same_trees(member, &others[i]) {
            return false;
        }
    }
    true
}
