ghost use Rattle.std.specs.Prelude.{◌≡◌, ◌≤◌, All, OnOk};
ghost use Rattle.rw_windows.specs.Working.{CanBegin, HasWorked, IsAtWork, SameWorker};

use crate::share::Share;
use crate::worker::Worker;
use rw_pool::Job;
use rw_vt::{Event, Model as VtModel, Refusal};
use std::alloc::Global;
use std::sync::Wait;

/// What each worker does: window by window, until it has come to the end or another worker is gone. It has the model, so that
/// it may go to threads that stay.
#[derive(Drop)]
pub struct Work<'r, M: VtModel, R> {
    /// With what a worker waits.
    pub(crate) rt: &'r R,
    pub(crate) alloc: Global,
    /// The model that all execute.
    pub(crate) model: M,
}

impl<'r, M: VtModel, R: Wait> Work<'r, M, R> {
    /// Sends each other worker a batch, receives a batch that each sent some steps ago, and moves the end of the window on. Answers
    /// whether all are still there.
    fn go_on(&self, worker: &mut Worker<M>) -> Result<bool, Refusal>
        requires at_work { IsAtWork M.Model M.Body.cmp self.now.model worker.old }
        ensures at_work { OnOk result (IsAtWork M.Model M.Body.cmp self.now.model worker.new) }
        ensures same { OnOk result (SameWorker worker.old worker.new) }
    {
        if !worker.send_all(self.rt, self.alloc, &self.model)? {
            return Ok(false);
        }
        worker.note_idle();
        if !worker.leaves_unread() && !worker.receive_all(self.rt, &self.model)? {
            return Ok(false);
        }
        worker.go_further(&self.model);
        Ok(true)
    }

    /// Lets the worker work, and puts into `left` what is then still to be executed.
    ///
    /// After a refusal nothing is said of `worker` and `left`.
    fn work(&self, worker: &mut Worker<M>, left: &mut Vec<Event<M::Body>>) -> Result<(), Refusal>
        requires begins { CanBegin M.Model M.Body.cmp self.now.model worker.old }
        ensures worked { OnOk result (HasWorked M.Model M.Body.cmp self.now.model worker.old
            (record worker.new { waiting = left.new.items; reached = 0 })) }
    {
        worker.go_further(&self.model);
        self.go_to_the_end(worker)?;
        *left = worker.take_left(self.alloc)?;
        Ok(())
    }

    /// Executes window by window, until the worker has come to the end or another worker is gone.
    fn go_to_the_end(&self, worker: &mut Worker<M>) -> Result<(), Refusal>
        requires at_work { IsAtWork M.Model M.Body.cmp self.now.model worker.old }
        ensures at_work { OnOk result (IsAtWork M.Model M.Body.cmp self.now.model worker.new) }
        ensures same { OnOk result (SameWorker worker.old worker.new) }
        ensures none { OnOk result (All (λ a. worker.new.until ≤ a.time) worker.new.waiting) }
    {
        let mut sent = Vec::new(self.alloc);
        let mut are_there = true;
        for _ in self.rt.forever() {
            if worker.execute_next(self.alloc, &self.model, &mut sent)? {
                continue;
            }
            if !are_there || worker.is_at_the_end() {
                return Ok(());
            }
            are_there = self.go_on(worker)?;
        }
        unreachable!()
    }
}

impl<'r, M: VtModel, R: Wait> Job<Share<M>> for Work<'r, M, R> {
    ghost use Rattle.rw_windows.specs.Working.{CanBegin, HasWorked};

    ghost Takes = { λ r w. CanBegin M.Model M.Body.cmp r.model w };

    ghost Gives = { λ r before after. HasWorked M.Model M.Body.cmp r.model before after };

    fn run(&self, share: Share<M>) -> Result<Share<M>, Refusal> {
        let mut worker = Worker::of(self.alloc, share)?;
        let mut left = Vec::new(self.alloc);
        let worked = self.work(&mut worker, &mut left);
        let share = worker.with_left(left);
        match worked {
            Ok(()) => Ok(share),
            Err(refusal) => {
                drop(share);
                Err(refusal)
            }
        }
    }
}
