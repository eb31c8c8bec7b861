//! The first items of rings.
ghost use Rattle.std.specs.Prelude.{◌≡◌, Option, None, IfOk};
ghost use Rattle.rw_vt.specs.Words.{Worker};

use rw_vt::NoMemory;
use std::alloc::Global;

/// What the first item of each ring of an opening is, which both its ends know from the start.
pub trait FirstMessage<T> {
    /// The first item from a worker to another, in this order; `None` where none goes through at the opening.
    ghost first: { Self → Worker → Worker → Option T };

    /// Makes it.
    ///
    /// # Errors
    ///
    /// [`NoMemory`] where memory was refused.
    fn make(&self, alloc: Global, from: usize, to: usize) -> Result<Option<T>, NoMemory>
        ensures { IfOk result (λ item. item ≡ first self.now from to) };
}

// No ring has a first item.
#[derive(Drop)]
pub(crate) struct Silent;

impl<T> FirstMessage<T> for Silent {
    ghost first = { λ s from to. None };

    fn make(&self, _alloc: Global, _from: usize, _to: usize) -> Result<Option<T>, NoMemory> {
        Ok(None)
    }
}
