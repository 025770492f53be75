//! What an authorization lacks to grant a request (RFC 2693, section 6.3).

ghost use Rattle.std.specs.Prelude.{◌≡◌, ◌↔◌, List, IsNone};
ghost use Rattle.spki_reduce.specs.{Reduction.{FiveTuple, Tuple, own, issuer_of, Grants, IsMissingGrant, IsSupported}, Joining.{ReducesToFive}};
ghost use Rattle.spki_reduce.specs.Chain.{FoldsTo};

use crate::tuple::Five;
use spki_cert::{Date, Key, Policy};
use spki_tag::Ground;

/// What an authorization lacks to grant a key a request at a moment: the first of three tests that it does not pass.
#[derive(Clone, Copy, Debug, PartialEq, Eq)]
pub enum MissingGrant {
    /// Its subject has names left, or does not name the key.
    NotTheKey,
    /// Its tag does not contain the request.
    TagLacks,
    /// The moment is not within its window.
    WindowLacks,
}

impl<'a> Five<'a> {
    /// What the authorization lacks to grant the key the request at the moment: the first, in the order of `MissingGrant`, of the tests
    /// that it does not pass. None if it passes all three. Its issuer is not tested. Whether it may be delegated does not matter. `policy`
    /// says which hashes may name keys. Allocates nothing. `prove_well_formed` is only for the prover.
    pub fn missing_grant(
        &self,
        key: &Key,
        request: &Ground,
        moment: &Date,
        policy: Policy,
    ) -> Option<MissingGrant>
        // For every root that it is the reduced form of.
        ensures missing { (root : FiveTuple) → ReducesToFive root self.now →
            IsMissingGrant policy root key.now request.now moment.now result }
        ensures grants { (root : FiveTuple) → ReducesToFive root self.now → root.issuer ≡ own →
            (IsNone result ↔ Grants policy root key.now request.now moment.now) }
        // For every chain that folds to it, in any bracketing.
        ensures supported { (first : Tuple) (others : List Tuple) → FoldsTo policy first others self.now →
            issuer_of self.now.issuer ≡ own →
            (IsNone result ↔ IsSupported policy first others key.now request.now moment.now) }
    {
        request.prove_well_formed();
        if !self.is_for(key, policy) {
            Some(MissingGrant::NotTheKey)
        } else if !self.tag.holds(request) {
            Some(MissingGrant::TagLacks)
        } else if !self.window.holds(moment) {
            Some(MissingGrant::WindowLacks)
        } else {
            None
        }
    }
}
