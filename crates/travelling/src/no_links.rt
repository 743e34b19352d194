//! The empty set of links, which is kept once.
ghost use Rattle.std.specs.Prelude.{◌≡◌, IfOk};
ghost use Rattle.failover.specs.Links.{no_failover_links};

use journal::{DownSet, SharedLinks};
use std::alloc::{AllocError, Global};
use std::marker::Model;

/// The empty set of links, to be shared. It is made when it is first needed.
#[derive(Drop)]
pub struct NoLinks {
    made: Option<SharedLinks>,
}

impl Model for NoLinks {
    ghost use Rattle.std.specs.Prelude.{◌≡◌, List, ℕ, unwrap_or};
    ghost use Rattle.failover.specs.Links.{no_failover_links};

    ghost Value = { List ℕ };

    ghost view = { λ n. unwrap_or n.made no_failover_links };

    ghost invariant = { λ n. unwrap_or n.made no_failover_links ≡ no_failover_links };
}

impl NoLinks {
    /// A set that isn't made yet.
    pub fn new() -> NoLinks {
        NoLinks { made: None }
    }

    /// Shares the empty set.
    ///
    /// # Errors
    /// Only out of memory.
    pub fn share(&mut self, alloc: Global) -> Result<SharedLinks, AllocError>
        ensures { IfOk result (λ links. links ≡ no_failover_links) }
    {
        if let Some(links) = &self.made {
            return links.clone();
        }
        let links = SharedLinks::new(alloc, DownSet::empty())?;
        self.made = Some(links.clone()?);
        Ok(links)
    }
}
