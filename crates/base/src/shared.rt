ghost use Rattle.std.specs.Prelude.{◌≡◌, IfOk};

use std::alloc::{AllocError, Global};
use std::marker::Model;
use std::rc::Rc;

/// A value that its clones share: a clone copies no value. Contracts see the value.
#[derive(Debug, Drop)]
pub struct Shared<T> {
    shared: Rc<T>,
}

impl<T> Model for Shared<T> {
    ghost Value = { T };

    ghost view = { λ s. s.shared.value };
}

impl<T: Drop> Shared<T> {
    /// Shares this value.
    ///
    /// # Errors
    /// Only out of memory.
    pub fn new(alloc: Global, value: T) -> Result<Self, AllocError>
        ensures { IfOk result (λ shared. shared ≡ value) }
    {
        let shared = Rc::new(alloc, value)?;
        Ok(Shared { shared })
    }

    /// The value.
    pub fn get(&self) -> &T
        ensures { result.now ≡ self.now }
    {
        &self.shared
    }
}

impl<T: Drop> Clone for Shared<T> {
    ghost is_clone = { λ value copy. copy ≡ value };

    fn clone(&self) -> Result<Self, AllocError> {
        let shared = self.shared.clone()?;
        Ok(Shared { shared })
    }
}
