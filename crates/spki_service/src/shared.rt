//! Guards with several owners.

ghost use Rattle.std.specs.Prelude.{◌≡◌, IfOk};

use crate::guard::Guard;
use std::alloc::{AllocError, Global};
use std::marker::Model;
use std::sync::Arc;

/// A guard with several owners, in any threads. It is freed with the last of them.
///
/// In a contract it is the guard.
#[derive(Drop)]
pub struct SharedGuard {
    /// The guard, with the count of its owners.
    guard: Arc<Guard>,
}

impl Model for SharedGuard {
    ghost use Rattle.spki_service.specs.AccessLists.{GuardModel};

    ghost Value = { GuardModel };

    ghost view = { λ s. s.guard.value };
}

impl SharedGuard {
    /// Returns the first owner of a guard.
    ///
    /// # Errors
    ///
    /// `AllocError` if memory ran out. Then the guard is freed.
    pub fn new(alloc: Global, guard: Guard) -> Result<SharedGuard, AllocError>
        ensures { IfOk result (λ shared. shared ≡ guard) }
    {
        match Arc::new(alloc, guard) {
            Ok(guard) => Ok(SharedGuard { guard }),
            Err(_) => Err(AllocError),
        }
    }

    /// Returns another owner of the guard. Nothing is copied.
    ///
    /// # Errors
    ///
    /// `AllocError` if there are 2^63 - 1 owners, the most that are counted. Memory does not run out here: nothing is allocated.
    pub fn share(&self) -> Result<SharedGuard, AllocError>
        ensures { IfOk result (λ shared. shared ≡ self.now) }
    {
        let guard = Arc::try_clone(&self.guard)?;
        Ok(SharedGuard { guard })
    }

    /// The guard that the owners share.
    pub fn guard(&self) -> &Guard
        ensures { result.now ≡ self.now }
    {
        &self.guard
    }
}
