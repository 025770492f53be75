//! Keeps which nonces were taken, so that no signed request counts twice.

ghost use Rattle.std.specs.{Prelude.{◌≡◌, ◌≢◌, [], ◌∷◌, List, ℕ, None, Some, length, is_ok, IfErr, OnOk, OnErr}, Ordering.{nat_cmp}, Cmp.Lexicographic.{slice_cmp}, BTreeSet.{insert_key}};
ghost use Rattle.http_signature.specs.Nonces.{Take, is_among, new_store, refusal, refusal_in, begun, with_nonce, with_taken, IsHistory, IsFresh};

use std::alloc::{AllocError, Global};
use std::collections::BTreeSet;
use std::marker::Model;
use std::mem;
use thiserror::Error;

/// For how many seconds a generation is the young one, at least: a signature is accepted for at most 300 s after its `created`, which may be
/// 60 s ahead.
const GENERATION_SECONDS: u64 = 360;

/// Why a nonce is not taken.
#[derive(Clone, Copy, Debug, PartialEq, Eq, Error)]
pub enum NonceFault {
    /// The moment is over a second before the young generation began: the nonce may have been taken and forgotten.
    #[error("before-start")]
    BeforeStart,
    /// The nonce was taken, and is kept.
    #[error("nonce-seen")]
    NonceSeen,
    /// The young generation has as many nonces as it may have.
    #[error("store-full")]
    StoreFull,
    /// Memory ran out.
    #[error("out of memory")]
    Memory,
}

/// The nonces of one generation. A search tree, so that no choice of nonces makes it slow.
#[derive(Drop)]
struct Generation {
    nonces: BTreeSet<[u8; 32]>,
}

impl Model for Generation {
    ghost use Rattle.std.specs.Prelude.{List, ℕ};

    ghost Value = { List (List ℕ) };

    ghost view = { λ generation. generation.nonces.keys };
}

impl Generation {
    /// A generation without nonces.
    fn new(alloc: Global) -> Generation
        ensures { result ≡ [] }
    {
        Generation {
            nonces: BTreeSet::new(alloc),
        }
    }

    /// How many nonces it has.
    fn len(&self) -> usize
        ensures { result ≡ length self.now }
    {
        self.nonces.len()
    }

    /// Whether it has this nonce.
    #[tactic(auto, using(crate::proofs::Generations::among))]
    fn contains(&self, nonce: &[u8; 32]) -> bool
        ensures { result ≡ is_among nonce.now self.now }
    {
        self.nonces.contains(nonce)
    }

    /// Adds a nonce. If memory runs out, the generation is unchanged.
    fn add(&mut self, nonce: &[u8; 32]) -> Result<(), AllocError>
        ensures ok { OnOk result (self.new ≡ insert_key (slice_cmp nat_cmp) self.old nonce.now) }
        ensures err { OnErr result (self.new ≡ self.old) }
    {
        self.nonces.insert(*nonce)?;
        Ok(())
    }
}

/// Which nonces were taken, in two generations, each of at most `capacity` nonces. A nonce is given as 32 octets, the SHA-256 hash of the key
/// and its nonce. The next nonce that is taken 360 s or more after the young generation began begins a new one. The one before is then the
/// previous generation, or is forgotten if it began 720 s before or more.
#[derive(Drop)]
pub struct Nonces {
    alloc: Global,
    capacity: usize,
    /// When the young generation began, in seconds since 1970. 0 before the first nonce.
    began: u64,
    young: Generation,
    previous: Generation,
}

impl Model for Nonces {
    ghost use Rattle.http_signature.specs.Stores.{Store};

    ghost Value = { Store };

    ghost view = { λ s. record { capacity = s.capacity; began = s.began; young = s.young; previous = s.previous } };
}

impl Nonces {
    /// A store without nonces. Each generation has at most `capacity` nonces. Allocates nothing.
    pub fn new(alloc: Global, capacity: usize) -> Nonces
        ensures empty { result ≡ new_store capacity }
        ensures history { IsHistory result [] }
    {
        Nonces {
            alloc,
            capacity,
            began: 0,
            young: Generation::new(alloc),
            previous: Generation::new(alloc),
        }
    }

    /// Takes a nonce at a moment, in seconds since 1970: that at which its signature was judged. Ok if it is fresh: no signature that can be
    /// accepted at this moment could be accepted at a moment at which the nonce was taken before.
    ///
    /// # Errors
    ///
    /// `BeforeStart` if the moment is over a second before the young generation began. Otherwise `NonceSeen` if the nonce is kept. Otherwise
    /// `StoreFull` if the young generation is full. `Memory` if memory ran out. The store is then unchanged.
    pub fn take(&mut self, nonce: &[u8; 32], moment: u64) -> Result<(), NonceFault>
        ensures taken { OnOk result ((refusal self.old nonce.now moment ≡ None) × (self.new ≡ with_taken self.old nonce.now moment)) }
        ensures refused { IfErr result (λ fault. fault ≢ NonceFault.Memory → refusal self.old nonce.now moment ≡ Some fault) }
        ensures unchanged { OnErr result (self.new ≡ self.old) }

        // By all takes before, those refused too.
        ensures fresh { OnOk result ((takes : List Take) → IsHistory self.old takes → IsFresh takes nonce.now moment) }
        ensures history { (takes : List Take) → IsHistory self.old takes
            → IsHistory self.new (record { nonce = nonce.now; moment = moment; is_fresh = is_ok result } ∷ takes) }
    {
        if moment < self.began && self.began - moment > 1 {
            return Err(NonceFault::BeforeStart);
        }
        let age = moment.saturating_sub(self.began);
        if age < GENERATION_SECONDS {
            self.add(nonce)
        } else {
            self.begin(nonce, moment, age < 2 * GENERATION_SECONDS)
        }
    }

    /// Adds a nonce to the young generation.
    fn add(&mut self, nonce: &[u8; 32]) -> Result<(), NonceFault>
        ensures taken { OnOk result ((refusal_in self.old nonce.now ≡ None) × (self.new ≡ with_nonce self.old nonce.now)) }
        ensures refused { IfErr result (λ fault. fault ≢ NonceFault.Memory → refusal_in self.old nonce.now ≡ Some fault) }
        ensures unchanged { OnErr result (self.new ≡ self.old) }
    {
        if self.previous.contains(nonce) || self.young.contains(nonce) {
            return Err(NonceFault::NonceSeen);
        }
        if self.young.len() >= self.capacity {
            return Err(NonceFault::StoreFull);
        }
        match self.young.add(nonce) {
            Ok(()) => Ok(()),
            Err(_) => Err(NonceFault::Memory),
        }
    }

    /// Begins a generation at a moment with a nonce. The young one is then the previous one if it `is_kept`, and is forgotten otherwise.
    fn begin(&mut self, nonce: &[u8; 32], moment: u64, is_kept: bool) -> Result<(), NonceFault>
        ensures taken { OnOk result ((refusal_in (begun self.old moment is_kept) nonce.now ≡ None) × (self.new ≡ with_nonce (begun self.old moment is_kept) nonce.now)) }
        ensures refused { IfErr result (λ fault. fault ≢ NonceFault.Memory → refusal_in (begun self.old moment is_kept) nonce.now ≡ Some fault) }
        ensures unchanged { OnErr result (self.new ≡ self.old) }
    {
        if is_kept && self.young.contains(nonce) {
            return Err(NonceFault::NonceSeen);
        }
        if self.capacity == 0 {
            return Err(NonceFault::StoreFull);
        }
        let mut begun = Generation::new(self.alloc);
        match begun.add(nonce) {
            Err(_) => return Err(NonceFault::Memory),
            Ok(()) => {}
        }
        let young = mem::replace(&mut self.young, begun);
        self.previous = if is_kept {
            young
        } else {
            Generation::new(self.alloc)
        };
        self.began = moment;
        Ok(())
    }
}
