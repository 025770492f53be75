//! Writes canonical form (RFC 9804, section 6.2).

ghost use Rattle.std.specs.Prelude.{◌≡◌, ◌++◌, length, take, IfOk, OnOk};
ghost use Rattle.sexpr_core.specs.Value.{canon, decimal, verbatim, atom_value, sexp_value};

use crate::tree::{Atom, Sexp};
use std::alloc::{AllocError, Global};

/// Returns the canonical form of a tree (RFC 9804, section 6.2). It may be longer, and the tree deeper, than what
/// `decode` reads. Err if memory ran out.
pub fn encode(alloc: Global, tree: &Sexp) -> Result<Vec<u8>, AllocError>
    ensures { IfOk result (λ octets. octets.items ≡ canon (sexp_value tree.now)) }
{
    let mut out = Vec::new(alloc);
    append_tree(tree, &mut out)?;
    Ok(out)
}

/// Appends a number in decimal to the output. Err if memory ran out: then some of its digits may have been appended.
#[tactic(auto, using(crate::proofs::TreeLaws::digit_written, crate::proofs::TreeLaws::digits_written))]
fn append_decimal(number: usize, out: &mut Vec<u8>) -> Result<(), AllocError>
    ensures written { OnOk result (out.new.items ≡ out.old.items ++ decimal number) }
    ensures kept { take (length out.old.items) out.new.items ≡ out.old.items }
{
    if number < 10 {
        out.push(b'0' + number as u8)?;
        return Ok(());
    }
    append_decimal(number / 10, out)?;
    out.push(b'0' + (number % 10) as u8)?;
    Ok(())
}

/// Appends the length of a string, which is its number of `octets`, in decimal to the output. A length of one digit has
/// a branch of its own only for speed: it saves the call of the recursive `append_decimal`. Err if memory ran out: then
/// some of its digits may have been appended.
#[tactic(auto, using(crate::proofs::TreeLaws::digit_written))]
fn append_length(octets: usize, out: &mut Vec<u8>) -> Result<(), AllocError>
    ensures written { OnOk result (out.new.items ≡ out.old.items ++ decimal octets) }
    ensures kept { take (length out.old.items) out.new.items ≡ out.old.items }
{
    if octets < 10 {
        out.push(b'0' + octets as u8)?;
        return Ok(());
    }
    append_decimal(octets, out)
}

/// Appends a string's verbatim form (RFC 9804, section 4.1) to the output: its length in decimal, a colon, its octets.
/// A string of one octet has a branch of its own only for speed. Err if memory ran out: then a part may have been
/// appended. The output before it does not change.
pub fn append_verbatim(octets: &[u8], out: &mut Vec<u8>) -> Result<(), AllocError>
    ensures written { OnOk result (out.new.items ≡ out.old.items ++ verbatim octets.now) }
    ensures kept { take (length out.old.items) out.new.items ≡ out.old.items }
{
    if let [octet] = octets {
        out.extend_from_slice(&[b'1', b':', *octet])?;
        return Ok(());
    }
    append_length(octets.len(), out)?;
    out.push(b':')?;
    out.extend_from_slice(octets)?;
    Ok(())
}

/// Appends the canonical form of a string to the output, with its display hint if it has one. Err if memory ran out:
/// then a part of it may have been appended.
fn append_atom(atom: &Atom, out: &mut Vec<u8>) -> Result<(), AllocError>
    ensures { OnOk result (out.new.items ≡ out.old.items ++ canon (atom_value atom.now)) }
{
    if let Some(hint) = &atom.hint {
        out.push(b'[')?;
        append_verbatim(hint, out)?;
        out.push(b']')?;
    }
    append_verbatim(&atom.body, out)
}

/// Appends the canonical form of a tree to the output. The recursion is as deep as the tree. Err if memory ran out:
/// then a part of it may have been appended.
fn append_tree(tree: &Sexp, out: &mut Vec<u8>) -> Result<(), AllocError>
    ensures { OnOk result (out.new.items ≡ out.old.items ++ canon (sexp_value tree.now)) }
{
    match tree {
        Sexp::Atom(atom) => append_atom(atom, out),
        Sexp::List(members) => {
            out.push(b'(')?;
            for member in members {
                append_tree(member, out)?;
            }
            out.push(b')')?;
            Ok(())
        }
    }
}
