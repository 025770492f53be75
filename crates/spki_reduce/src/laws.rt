//! Laws of derivations. A derivation joins tuples, its leaves, two at a time to one tuple, its root. Its bracketing says in which order: `(a b) c` or
//! `a (b c)`. Tuples support a request if the root of some derivation from them grants it.
//! Each function is a law: it does nothing, and its contract is the fact.

ghost use Rattle.std.specs.Prelude.{◌≡◌, ◌≢◌, ℕ, List, [], ◌∷◌, ◌++◌, flat_map};
ghost use Rattle.sexpr_core.specs.Value.{Value};
ghost use Rattle.spki_cert.specs.{declared.principal.Policy.{Policy, TheVariants.{Open, Strict}}, Time.{IsLimit}};
ghost use Rattle.spki_tag.specs.Request.{Request};
ghost use Rattle.spki_reduce.specs.Reduction.{Tuple, tags_of, windows_of, Tree, leaves, Derives, from_left, Supports};
ghost use Rattle.spki_reduce.specs.{declared.{fold.Cause.{Cause}, tuple.{Five.{Five}, Step.{Step}}}, Chain.{tuples_of, FoldsTo, HasMet, StopsAt}};
ghost use Rattle.spki_reduce.specs.Written.{IsWrittenFive};

/// What is derived or supported in any bracketing, such as `a (b c)`, is so when the same tuples are joined from the left, one
/// after another, as `(a b) c` (RFC 2693, sections 6.3 and 6.4). So it is enough to look for a derivation in that bracketing.
///
/// The converse does not hold: see `not_every_bracketing`.
pub fn any_bracketing()
    ensures leaves { (first : Tuple) (rest : List Tuple) → leaves (from_left first rest) ≡ first ∷ rest }
    ensures derives { (policy : Policy) (tree : Tree) (root first : Tuple) (rest : List Tuple) →
        Derives policy tree root → leaves tree ≡ first ∷ rest →
        Derives policy (from_left first rest) root }
    ensures supports { (policy : Policy) (tree : Tree) (holder : List ℕ) (request : Request) (moment : List ℕ)
        (first : Tuple) (rest : List Tuple) →
        Supports policy tree holder request moment → leaves tree ≡ first ∷ rest →
        Supports policy (from_left first rest) holder request moment }
{}

/// Two derivations from the same tuples in the same order, under the same policy, have the same root, whatever their bracketings.
#[tactic(auto, using(crate::proofs::Derivations::one_root))]
pub fn one_root()
    ensures { (policy : Policy) (tree other : Tree) (root another : Tuple) →
        leaves tree ≡ leaves other → Derives policy tree root → Derives policy other another →
        root ≡ another }
{}

/// A chain, which is tuples that are joined from the left, stops at most at one step, for one cause (`stop`). A chain that stops does not
/// also become an authorization with the tag that `fold_chain` gives it, the intersection of all tags, one after another (`nothing`). The
/// premise on the tag is needed: `FoldsTo` says which requests the tag contains, and more tags than `(* set)` contain none.
pub fn one_stop()
    ensures stop { (policy : Policy) (first : Tuple) (steps : List Step) (s t : ℕ) (a b : Cause) →
        StopsAt policy first (tuples_of steps) s a → StopsAt policy first (tuples_of steps) t b → (s ≡ t) × (a ≡ b) }
    ensures nothing { (policy : Policy) (first : Tuple) (steps : List Step) (s : ℕ) (cause : Cause) →
        StopsAt policy first (tuples_of steps) s cause →
        (f : Five) → FoldsTo policy first (tuples_of steps) f → HasMet first (tuples_of steps) f → ⊥ }
{}

/// A chain of at least two tuples becomes at most one authorization with the tag that `fold_chain` gives it: the intersection of all tags,
/// one after another. Its window is determined too: since two tuples joined, it contains a moment, and two windows that contain the same
/// moments, at least one, are equal. (The window of a single tuple may contain none.) The premises `IsLimit` always hold in a program: the
/// limits of every `Window` are dates (`Window::prove_limits`).
pub fn one_fold()
    ensures { (policy : Policy) (first : Tuple) (others : List Tuple) (f g : Five) → others ≢ [] →
        IsLimit f.window.not_before → IsLimit g.window.not_before →
        FoldsTo policy first others f → HasMet first others f → FoldsTo policy first others g → HasMet first others g →
        f ≡ g }
{}

/// An authorization is written by `Five::write` as at most one value.
pub fn one_writing()
    ensures { (f : Five) (v w : Value) → IsWrittenFive f v → IsWrittenFive f w → v ≡ w }
{}

/// Under every policy there are tuples that, in the same order, have a derivation in one bracketing and none in another. A name's definition
/// may join the authorization before it, and never the one after it.
#[tactic(auto, using(crate::proofs::Derivations::only_from_left))]
pub fn not_every_bracketing()
    ensures { (policy : Policy) → (tree other : Tree) × (root : Tuple) ×
        (leaves other ≡ leaves tree) × Derives policy tree root ×
        ((another : Tuple) → ¬ Derives policy other another) }
{}

/// No restriction is lost: the root of a derivation has the tags and the windows of all leaves, in their order
/// (RFC 2693, sections 6.3.1 and 6.3.2). In contracts a tuple has a list of tags and a list of windows, all of which apply.
#[tactic(auto, using(crate::proofs::Derivations::all_tags, crate::proofs::Derivations::all_windows))]
pub fn every_restriction()
    ensures tags { (policy : Policy) (tree : Tree) (root : Tuple) → Derives policy tree root →
        tags_of root ≡ flat_map tags_of (leaves tree) }
    ensures windows { (policy : Policy) (tree : Tree) (root : Tuple) → Derives policy tree root →
        windows_of root ≡ flat_map windows_of (leaves tree) }
{}

/// What is derived or supported under the strict policy, by which no SHA-1 hash names a key, is derived or supported under the open one.
#[tactic(auto, using(crate::proofs::Derivations::derived_openly, crate::proofs::Derivations::supported_openly))]
pub fn strict_implies_open()
    ensures derives { (tree : Tree) (root : Tuple) → Derives Strict tree root → Derives Open tree root }
    ensures supports { (tree : Tree) (holder : List ℕ) (request : Request) (moment : List ℕ) →
        Supports Strict tree holder request moment → Supports Open tree holder request moment }
{}

/// If a chain of tuples has a derivation, each beginning of the chain has one too. So if a tuple does not join the root of the tuples before
/// it, no chain that begins with these tuples has a derivation.
#[tactic(auto, using(crate::proofs::Derivations::front))]
pub fn fronts()
    ensures { (policy : Policy) (tree : Tree) (root first : Tuple) (before after : List Tuple) →
        Derives policy tree root → leaves tree ≡ first ∷ (before ++ after) →
        (begun : Tuple) × Derives policy (from_left first before) begun }
{}
