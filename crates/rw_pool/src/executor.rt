ghost use Rattle.std.specs.Prelude.{◌≡◌, ◌<◌, IfOk, All, length, slice_index_or};
ghost use Rattle.rw_vt.specs.Words.{Position};

use crate::halt::Halt;
use crate::job::Job;
use std::alloc::Global;

/// Threads that do a job, each with an input of its own, all at once.
pub trait Executor<J: Job<T>, T> {
    /// Does the job with each input, and gives it back with what became of the inputs, in order. The last one is done in the
    /// calling thread.
    ///
    /// # Errors
    ///
    /// `Memory` where memory was refused, and `NoThread` where there are fewer threads than inputs, or one is gone; else the
    /// refusal of the lowest input whose job was refused.
    fn run_each(&mut self, alloc: Global, job: J, inputs: Vec<T>) -> Result<(J, Vec<T>), Halt>
        requires takes { All (λ t. J.Takes job t) inputs.items }
        ensures job { IfOk result (λ r. r.0 ≡ job) }
        ensures count { IfOk result (λ r. length r.1.items ≡ length inputs.items) }
        ensures each { IfOk result (λ r. (i : Position) (d : _) (e : _) → i < length inputs.items
            → J.Gives job (slice_index_or inputs.items i d) (slice_index_or r.1.items i e)) };
}
