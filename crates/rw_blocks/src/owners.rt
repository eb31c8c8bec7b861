// The tag of each block's section.
ghost use Rattle.std.specs.Prelude.{◌≡◌, None, Some, OnOk, nat_eq};
ghost use Rattle.std.specs.HashMap.{get, IsEmpty};
ghost use Rattle.rw_blocks.specs.Maps.{Sets};

use crate::hints::Hints;
use indexmap::IndexMap;
use std::alloc::{AllocError, Global};

/// The tag of each block's section, found by the block's serial.
#[derive(Drop)]
pub struct Owners {
    tags: IndexMap<u64, u64>,
    hints: Hints,
}

impl Owners {
    /// No block has a tag.
    pub fn new(alloc: Global) -> Owners
        ensures { IsEmpty result.tags }
    {
        Owners {
            tags: IndexMap::new(alloc),
            hints: Hints::new(alloc),
        }
    }

    /// The block's tag. `None` exactly where it has none.
    #[inline(always)]
    pub fn get(&self, serial: u64) -> Option<u64>
        ensures { result ≡ get nat_eq self.now.tags serial }
    {
        self.hints.get(&self.tags, serial).copied()
    }

    /// The block has this tag from now on.
    ///
    /// # Errors
    ///
    /// [`AllocError`] where memory was refused; nothing has changed then.
    pub fn insert(&mut self, serial: u64, tag: u64) -> Result<(), AllocError>
        ensures updates { OnOk result
            (Sets (get nat_eq self.old.tags) (get nat_eq self.new.tags) serial (Some tag)) }
    {
        self.hints.insert(&mut self.tags, serial, tag)
    }

    /// The block has no tag from now on.
    pub fn remove(&mut self, serial: u64)
        ensures updates { Sets (get nat_eq self.old.tags) (get nat_eq self.new.tags) serial None }
    {
        self.hints.remove(&mut self.tags, serial);
    }
}
