ghost use Rattle.std.specs.Prelude.{◌≡◌, IfOk};

use std::alloc::AllocError;
use std::marker::Model;
use std::rc::RcSlice;

/// A list that its clones share: a clone copies no item. Contracts see the list.
#[derive(Debug, Drop)]
pub struct SharedList<T> {
    shared: RcSlice<T>,
}

impl<T> Model for SharedList<T> {
    ghost use Rattle.std.specs.Prelude.{List};
    ghost use Rattle.std.specs.Rc.{rc_slice_items};

    ghost Value = { List T };

    ghost view = { λ l. rc_slice_items l.shared };
}

impl<T: Drop> SharedList<T> {
    /// Shares the list of these items.
    ///
    /// # Errors
    /// Only out of memory.
    pub fn new(items: Vec<T>) -> Result<Self, AllocError>
        ensures { IfOk result (λ list. list ≡ items.items) }
    {
        let shared = RcSlice::from_vec(items)?;
        Ok(SharedList { shared })
    }

    /// The items, in order.
    pub fn items(&self) -> &[T]
        ensures { result.now ≡ self.now }
    {
        self.shared.as_slice()
    }
}

impl<T: Drop> Clone for SharedList<T> {
    ghost is_clone = { λ list copy. copy ≡ list };

    fn clone(&self) -> Result<Self, AllocError> {
        let shared = self.shared.clone()?;
        Ok(SharedList { shared })
    }
}
