//! Laws. Each function is a law: it does nothing, and its contract is the fact.

ghost use Rattle.std.specs.Prelude.{List};
ghost use Rattle.http_signature.specs.{Stores.{Store}, Nonces.{Take, IsHistory, TakenOnce}};

/// A nonce is taken at most once for as long as a signature with it can be accepted. This holds of the takes of one store in their order, each
/// at any moment: no signature can be accepted both at the moment of a take that succeeded and at that of a later one of the same nonce that
/// succeeded.
pub fn taken_once()
    ensures { (store : Store) (takes : List Take) → IsHistory store takes → TakenOnce takes }
{}
