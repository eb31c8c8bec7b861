ghost use Rattle.std.specs.Prelude.{◌≡◌, ◌<◌, ◌≤◌, IfOk, length, map};
ghost use Rattle.rw_world.specs.declared.parts.Parts.{Parts};
ghost use Rattle.rw_rounds.specs.Between.{IsSameParts, IsBetween};

use crate::processes::Processes;
use rw_lp::Lp;
use rw_vt::{Event, Letter, Model as VtModel, NoMemory};
use rw_world::Parts;
use std::alloc::Global;
use std::collections::VecDeque;
use std::snapshot::Snapshot;

/// What a segment has between two rounds. The processes stay with their workers until the segment ends.
#[derive(Drop)]
pub(crate) struct Between<M: VtModel, G> {
    pub(crate) model: M,
    /// What each worker passes before each of its turns.
    pub(crate) gate: G,
    /// The processes of each worker.
    pub(crate) shares: VecDeque<Processes<M>>,
    /// The letters that are on their way.
    pub(crate) letters: Vec<Letter<M::Body>>,
    pub(crate) rest: Rest<M>,
}

/// What stays as it is until the segment ends, and how many processes there are.
#[derive(Drop)]
pub(crate) struct Rest<M: VtModel> {
    pub(crate) count: usize,
    /// The greatest time collected, in ticks.
    pub(crate) collected: u64,
    pub(crate) starts: Snapshot<Vec<M::State>>,
    pub(crate) initial: Snapshot<Vec<Event<M::Body>>>,
}

/// Deals the processes out to so many workers: process q goes to worker q modulo their number.
pub(crate) fn begin_segment<M: VtModel + Drop, G: Copy>(
    alloc: Global,
    workers: u32,
    parts: Parts<M>,
    gate: G,
) -> Result<Between<M, G>, NoMemory>
    requires workers { 1 ≤ workers }
    ensures stands { IfOk result (λ b. IsBetween workers parts b) }
{
    let Parts {
        model,
        processes,
        letters,
        collected,
        starts,
        initial,
    } = parts;
    let rest = Rest {
        count: processes.len(),
        collected,
        starts,
        initial,
    };
    let dealt = rw_pool::deal_out(alloc, workers, processes)?;
    let shares = shares_of(alloc, dealt)?;
    Ok(Between {
        model,
        gate,
        shares,
        letters,
        rest,
    })
}

/// Joins the processes of all workers again, in the order of their numbers.
pub(crate) fn end_segment<M: VtModel + Drop, G: Copy>(
    alloc: Global,
    between: Between<M, G>,
) -> Result<Parts<M>, NoMemory>
    requires some { 0 < length between.shares.items }
    requires stands { (x : Parts M M.State M.Body M.Undo)
        × IsBetween (length between.shares.items) x between }
    ensures same { IfOk result (λ z. (x : Parts M M.State M.Body M.Undo)
        → IsBetween (length between.shares.items) x between → IsSameParts x z) }
{
    let Between {
        model,
        gate: _,
        shares,
        letters,
        rest,
    } = between;
    let lists = lists_of(alloc, shares)?;
    let processes = rw_pool::join(alloc, rest.count, lists)?;
    Ok(Parts {
        model,
        processes,
        letters,
        collected: rest.collected,
        starts: rest.starts,
        initial: rest.initial,
    })
}

/// Each list as the processes of a worker.
fn shares_of<M: VtModel>(
    alloc: Global,
    lists: Vec<Vec<Lp<M>>>,
) -> Result<VecDeque<Processes<M>>, NoMemory>
    ensures { IfOk result (λ shares.
        map (λ h. h.items) shares.items ≡ map (λ l. l.items) lists.items) }
{
    let mut shares = VecDeque::with_capacity(alloc, lists.len())?;
    for list in lists {
        shares.push_back_reserved(Processes::of(alloc, list));
    }
    Ok(shares)
}

/// The processes of each worker as a list.
fn lists_of<M: VtModel>(
    alloc: Global,
    shares: VecDeque<Processes<M>>,
) -> Result<VecDeque<VecDeque<Lp<M>>>, NoMemory>
    ensures { IfOk result (λ lists.
        map (λ l. l.items) lists.items ≡ map (λ h. h.items) shares.items) }
{
    let mut lists = VecDeque::with_capacity(alloc, shares.len())?;
    for share in shares {
        lists.push_back_reserved(VecDeque::from(share.into_list()));
    }
    Ok(lists)
}
