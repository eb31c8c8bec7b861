// What becomes of the marks of the primitives that are applied to a queue.
ghost use Rattle.std.specs.Prelude.{◌≡◌, ◌++◌, ◌∷◌, [], Bool, List, OnOk, true, false};
ghost use Rattle.rw_blocks.specs.declared.Mark.{Mark};

use rw_blocks::Mark;
use rw_vt::NoMemory;

/// What becomes of the marks of the primitives that are applied to a queue: a [`crate::Trail`] keeps them, so that the
/// operation can be taken back, and [`NoMarks`] keeps none.
pub trait Marks {
    /// Whether marks are kept.
    ghost keeps: { Bool };

    /// The marks that are kept, the first one first.
    ghost list: { Self → List Mark };

    /// Takes the mark of the last primitive.
    ///
    /// # Errors
    ///
    /// `NoMemory` only where memory was refused.
    fn push(&mut self, mark: Mark) -> Result<(), NoMemory>
        ensures { OnOk result (keeps ≡ true → list self.new ≡ list self.old ++ mark ∷ []) };
}

/// No marks: of an operation that is never taken back. It takes no memory.
#[derive(Drop)]
pub struct NoMarks;

impl Marks for NoMarks {
    ghost keeps = { false };

    ghost list = { λ _. [] };

    #[inline(always)]
    fn push(&mut self, _mark: Mark) -> Result<(), NoMemory> {
        Ok(())
    }
}
