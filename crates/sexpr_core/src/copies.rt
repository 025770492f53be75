//! Copies of trees.

ghost use Rattle.std.specs.Prelude.{◌≡◌, map, IfOk};
ghost use Rattle.sexpr_core.specs.Value.{atom_value, sexp_value};

use crate::tree::{Atom, Sexp};
use std::alloc::{AllocError, Global};

/// A copy has the same hint, or none as well, and the same octets.
impl Clone for Atom {
    ghost is_clone = { λ atom copy. atom_value copy ≡ atom_value atom };

    /// Returns a copy of the string and its display hint. Err if memory ran out.
    fn clone(&self) -> Result<Atom, AllocError> {
        let body = self.body.clone()?;
        let Some(octets) = &self.hint else {
            return Ok(Atom { hint: None, body });
        };
        let hint = Some(octets.clone()?);
        Ok(Atom { hint, body })
    }
}

/// A copy has the same value. The recursion is as deep as the tree.
impl Clone for Sexp {
    ghost is_clone = { λ tree copy. sexp_value copy ≡ sexp_value tree };

    /// Returns a copy of the tree. Err if memory ran out.
    #[cycle(copy)]
    fn clone(&self) -> Result<Sexp, AllocError> {
        match self {
            Sexp::Atom(atom) => Ok(Sexp::Atom(atom.clone()?)),
            Sexp::List(members) => Ok(Sexp::List(copies_of(*members.allocator(), members)?)),
        }
    }
}

/// Returns copies of the trees, in order, as a vector. Err if memory ran out.
#[cycle(copy)]
fn copies_of(alloc: Global, trees: &[Sexp]) -> Result<Vec<Sexp>, AllocError>
    ensures { IfOk result (λ copies. map sexp_value copies.items ≡ map sexp_value trees.now) }
{
    let mut copies = Vec::new(alloc);
    for tree in trees {
        copies.push(tree.clone()?)?;
    }
    Ok(copies)
}
