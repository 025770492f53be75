//! The results of joining tuples (RFC 2693, sections 6.3 and 6.4).

use crate::tuple::Five;

/// Why two tuples do not reduce to one (RFC 2693, section 6.3). If there are several reasons, the first in this order.
#[derive(Clone, Copy, Debug, PartialEq, Eq)]
pub enum Cause {
    /// The left subject is not the issuer of the right authorization.
    NotIssuer,
    /// The left subject does not begin with the name that the right tuple defines.
    NotTheName,
    /// The left authorization may not be delegated.
    NoDelegation,
    /// No moment is within both windows.
    NoValidity,
    /// The intersection of both tags is `(* set)`: no request is in both.
    NoTag,
}

/// The reduction of two tuples: the tuple that they become, or why they do not reduce (RFC 2693, section 6.3).
#[derive(Drop)]
pub enum Joined<T> {
    /// The tuple that they become.
    Done(T),
    /// They do not join, for this cause.
    Stopped(Cause),
}

/// The result of joining a chain of tuples from the left.
#[derive(Drop)]
pub enum Fold<'a> {
    /// The one authorization that they become.
    Done(Five<'a>),
    /// A step of the chain does not join the result of those before it.
    Stopped {
        /// The number of the step, from 1. The first authorization of the chain is not counted.
        step: usize,
        /// Why it does not join.
        cause: Cause,
    },
}
