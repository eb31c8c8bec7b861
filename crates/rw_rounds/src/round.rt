ghost use Rattle.std.specs.Prelude.{◌≡◌, IfOk, length};
ghost use Rattle.rw_world.specs.Calls.{IsWhole};
ghost use Rattle.rw_world.specs.declared.parts.Parts.{Parts};
ghost use Rattle.rw_rounds.specs.Between.{RoundTo, IsBetween};
ghost use Rattle.rw_rounds.specs.Gathering.{AreDone, IsEnded};
ghost use Rattle.rw_rounds.specs.Plans.{IsInRanges};
ghost use Rattle.rw_rounds.specs.Setting.{IsBegun};

use crate::between::{Between, Rest};
use crate::gathering::gather;
use crate::plan::Plan;
use crate::setting_up::set_up;
use crate::traffic::Traffic;
use crate::worker::Worker;
use rw_board::Board;
use rw_pool::{Executor, Halt, Job};
use rw_vt::{Model as VtModel, NoMemory, Refusal};
use std::alloc::Global;

/// For tests: what each worker passes before each of its turns, so that a test may hold some back.
pub trait Gate {
    /// Lets worker `worker` pass to its turn `turn`, both counted from 0.
    fn pass(&self, worker: u32, turn: u32);
}

/// The gate through which all pass at once.
#[derive(Clone, Copy)]
pub struct Open;

impl Gate for Open {
    fn pass(&self, _worker: u32, _turn: u32) {}
}

impl<G: Gate> Gate for &G {
    fn pass(&self, worker: u32, turn: u32) {
        (**self).pass(worker, turn);
    }
}

/// Makes one round on existing threads: sets its workers up, with the processes that they have, lets each make its round, and
/// takes them apart. Gives the least time noted too.
pub(crate) fn go_round<M, G, H>(
    executor: &mut H,
    alloc: Global,
    between: Between<M, G>,
    plan: &Plan,
    traffic: &mut Traffic,
) -> Result<(Between<M, G>, u64), Halt>
where
    M: VtModel + Drop,
    G: Gate + Copy,
    H: Executor<RoundWork<M, G>, Worker<M>>,
    requires plan { IsInRanges plan.now }
    requires stands { (x : Parts M M.State M.Body M.Undo)
        × IsWhole M.Model M.Body.cmp x × IsBetween plan.now.workers x between }
    ensures round { IfOk result (λ r. (x : Parts M M.State M.Body M.Undo)
        → IsWhole M.Model M.Body.cmp x → IsBetween plan.now.workers x between
        → RoundTo M.Model M.Body.cmp plan.now x r.0 r.1) }
{
    let (work, workers, rest) = begin_round(alloc, plan, between)?;
    let (work, workers) = executor.run_each(alloc, work, workers)?;
    let (between, floor) = end_round(alloc, work, workers, rest, traffic)?;
    Ok((between, floor))
}

/// Sets the workers of a round up: what they work on, these, and the rest.
fn begin_round<M: VtModel + Drop, G: Copy>(
    alloc: Global,
    plan: &Plan,
    between: Between<M, G>,
) -> Result<(RoundWork<M, G>, Vec<Worker<M>>, Rest<M>), NoMemory>
    requires plan { IsInRanges plan.now }
    requires shares { length between.shares.items ≡ plan.now.workers }
    ensures begun { IfOk result (λ r. IsBegun plan.now between r.0 r.1.items r.2) }
{
    let Between {
        model,
        gate,
        shares,
        letters,
        rest,
    } = between;
    let (board, workers) = set_up(alloc, plan, rest.collected, shares, letters)?;
    let work = RoundWork {
        alloc,
        model,
        board,
        gate,
        turns: plan.turns,
    };
    Ok((work, workers, rest))
}

/// Takes the workers of a round apart, once all are done, and counts the round. Gives the least time noted too.
fn end_round<M: VtModel + Drop, G: Copy>(
    alloc: Global,
    work: RoundWork<M, G>,
    workers: Vec<Worker<M>>,
    rest: Rest<M>,
    traffic: &mut Traffic,
) -> Result<(Between<M, G>, u64), NoMemory>
    requires done { AreDone work.board workers.items }
    ensures ended { IfOk result (λ r. IsEnded work workers.items rest r.0 r.1) }
{
    let RoundWork {
        alloc: _,
        model,
        board,
        gate,
        turns: _,
    } = work;
    let gathered = gather(alloc, board, workers, traffic)?;
    traffic.rounds = traffic.rounds.wrapping_add(1);
    let between = Between {
        model,
        gate,
        shares: gathered.shares,
        letters: gathered.letters,
        rest,
    };
    Ok((between, gathered.floor))
}

/// The whole round of one worker: as many turns as `turns` says, each through the gate, and then its closing. It owns what the
/// workers of the round share, the model and the board, so it may go to threads that were there before it.
#[derive(Drop)]
pub struct RoundWork<M: VtModel, G> {
    pub(crate) alloc: Global,
    pub(crate) model: M,
    pub(crate) board: Board,
    pub(crate) gate: G,
    pub(crate) turns: u32,
}

impl<M: VtModel, G: Gate> Job<Worker<M>> for RoundWork<M, G> {
    ghost use Rattle.rw_rounds.specs.Rounds.{TookRound};
    ghost use Rattle.rw_rounds.specs.Seated.{IsSeated};

    ghost Takes = { λ r w. IsSeated M.Model M.Body.cmp r.model r.board w };

    ghost Gives = { λ r before after. TookRound M.Model M.Body.cmp r.model r.turns before after };

    fn run(&self, worker: Worker<M>) -> Result<Worker<M>, Refusal> {
        let worker = worker.turns(self.alloc, &self.model, &self.board, &self.gate, self.turns)?;
        Ok(worker.close(&self.board))
    }
}
