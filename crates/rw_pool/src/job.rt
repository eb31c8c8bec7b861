ghost use Rattle.std.specs.Prelude.{◌≡◌, IfOk, map};
ghost use Rattle.std.specs.Thread.{IsSend};

use rw_vt::Refusal;
use std::alloc::Global;

/// A job that many threads may do at once, each with an input of its own.
pub trait Job<T> {
    /// With which inputs it may be done.
    ghost Takes: { Self → T → Type 0 };

    /// What becomes of an input.
    ghost Gives: { Self → T → T → Type 0 };

    /// Does the job with one input.
    fn run(&self, input: T) -> Result<T, Refusal>
        requires takes { Takes self.now input }
        ensures gives { IfOk result (λ done. Gives self.now input done) };
}

/// What came of each input, or the refusal of the first that was refused.
pub(crate) fn outputs_of<W: Drop>(
    alloc: Global,
    results: Vec<Result<W, Refusal>>,
) -> Result<Vec<W>, Refusal>
    ensures { IfOk result (λ outputs. map (λ w. Ok w) outputs.items ≡ results.items) }
{
    let mut outputs = Vec::with_capacity(alloc, results.len())?;
    for result in results {
        let output = result?;
        outputs.push_reserved(output);
    }
    Ok(outputs)
}

/// A value of type `T` may move to another thread: a fact for the proofs of those who call it. Does nothing.
pub fn may_move<T: Send>()
    ensures moves { IsSend T.row }
{}
