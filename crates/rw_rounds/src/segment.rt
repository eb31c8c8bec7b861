ghost use Rattle.std.specs.Prelude.{◌≡◌, ◌≤◌, ◌↔◌, IfErr, IfOk, max, min};
ghost use Rattle.rw_world.specs.WorldState.{floor};
ghost use Rattle.rw_rounds.specs.Plans.{IsInRanges};
ghost use Rattle.rw_rounds.specs.Between.{LeadsFrom};
ghost use Rattle.rw_rounds.specs.Segments.{Advanced, IsSameSystem};
ghost use Rattle.rw_rounds.specs.Stops.{EndsRound};

use crate::between::{begin_segment, end_segment};
use crate::plan::Plan;
use crate::round::{Gate, RoundWork, go_round};
use crate::stop::Stop;
use crate::throttle::Throttle;
use crate::traffic::Traffic;
use crate::worker::Worker;
use rw_pool::Executor;
use rw_progress::Progress;
use rw_vt::Model as VtModel;
use rw_world::{Parts, Step, World, every_exchange, every_floor, every_sound_world, every_step};
use std::alloc::Global;

/// How a segment of rounds is run, and what bounds it.
#[derive(Clone, Copy)]
pub struct Bounds<G> {
    /// The plan within which each round is made.
    pub plan: Plan,
    /// The time from which on nothing is committed, in ticks: initial events of that time or later may still come from outside.
    pub until: u64,
    /// How many rounds are made at most, at least 1. The plan's own `max_rounds` does not count here.
    pub rounds: u32,
    /// What each worker passes before each of its turns.
    pub gate: G,
}

/// How far the rounds of a segment have come.
#[derive(Clone, Copy)]
pub(crate) struct Reached {
    /// What the last round gave as its floor, in ticks.
    pub(crate) floor: u64,
    /// What the rounds so far did, in counts.
    pub(crate) traffic: Traffic,
}

/// Where a segment of rounds has come to.
#[derive(Drop)]
pub struct Segment<M: VtModel> {
    /// The world after the last round.
    pub world: World<M>,
    /// What the last round gave as its floor, in ticks: nothing outstanding is earlier.
    pub floor: u64,
    /// What the rounds did, in counts.
    pub traffic: Traffic,
}

/// Makes rounds, at least one and at most `bounds.rounds`, until their floor is `bounds.until` or later. Commits all before the
/// last round's floor, but nothing from `bounds.until` on. `executor` does the work of each round; no thread is started here.
///
/// The processes are dealt out to the workers once, at the beginning, and joined once, at the end. What a round leaves in the
/// rings, or keeps since a ring had no room, is on its way to its process in the next round. Nothing is committed before the
/// segment ends.
///
/// Each round is by a plan within `bounds.plan`, as the throttle says, which goes on from segment to segment. After each round
/// whose floor is before `bounds.until`, `progress` is told up to which time all is final.
///
/// # Errors
///
/// `BadPlan` exactly where a field of the plan is out of its range; else those of [`run_round`](crate::run_round), `NoThread`
/// where `executor` has fewer threads than a round has workers, or one is gone.
pub fn run_segment<M, G, H, P>(
    executor: &mut H,
    alloc: Global,
    world: World<M>,
    bounds: Bounds<G>,
    throttle: &mut Throttle,
    progress: &mut P,
) -> Result<Segment<M>, Stop>
where
    M: VtModel + Drop,
    G: Gate + Copy,
    H: Executor<RoundWork<M, G>, Worker<M>>,
    P: Progress,
    requires before { world.world.collected ≤ bounds.until }
    requires rounds { 1 ≤ bounds.rounds }
    ensures system { IfOk result (λ s. IsSameSystem world s.world) }
    ensures before { IfOk result (λ s. s.world.world.collected ≤ bounds.until) }
    ensures floor { IfOk result (λ s. s.floor ≤ floor s.world.world) }
    ensures rises { IfOk result (λ s. floor world.world ≤ s.floor) }
    ensures collected { IfOk result (λ s. s.world.world.collected
        ≡ max world.world.collected (min s.floor bounds.until)) }
    ensures plan { (result ≡ Err Stop.BadPlan) ↔ (IsInRanges bounds.plan → ⊥) }
{
    if !bounds.plan.is_valid() {
        return Err(Stop::BadPlan);
    }
    make_rounds(executor, alloc, world, bounds, throttle, progress)
}

/// [`run_segment`] by a plan that is in its ranges, from any world.
pub(crate) fn make_rounds<M, G, H, P>(
    executor: &mut H,
    alloc: Global,
    world: World<M>,
    bounds: Bounds<G>,
    throttle: &mut Throttle,
    progress: &mut P,
) -> Result<Segment<M>, Stop>
where
    M: VtModel + Drop,
    G: Gate + Copy,
    H: Executor<RoundWork<M, G>, Worker<M>>,
    P: Progress,
    requires plan { IsInRanges bounds.plan }
    requires rounds { 1 ≤ bounds.rounds }
    ensures advanced { IfOk result (λ s.
        Advanced M.Model M.Body.cmp bounds.until world s.world s.floor) }
    ensures others { IfErr result (λ stop. EndsRound stop) }
{
    // What the world promises of every world of the model.
    every_exchange::<M>();
    every_floor::<M>();
    every_sound_world::<M>();
    every_step::<M>();
    let until = bounds.until;
    let (parts, reached) = go_rounds(executor, alloc, world, bounds, throttle, progress)?;
    let Reached { floor, traffic } = reached;
    let (world, _answer) = World::put(parts).apply(alloc, Step::Collect(floor.min(until)))?;
    Ok(Segment {
        world,
        floor,
        traffic,
    })
}

/// Deals the processes out, makes the rounds, and joins the processes again. Nothing is collected.
fn go_rounds<M, G, H, P>(
    executor: &mut H,
    alloc: Global,
    world: World<M>,
    bounds: Bounds<G>,
    throttle: &mut Throttle,
    progress: &mut P,
) -> Result<(Parts<M>, Reached), Stop>
where
    M: VtModel + Drop,
    G: Gate + Copy,
    H: Executor<RoundWork<M, G>, Worker<M>>,
    P: Progress,
    requires plan { IsInRanges bounds.plan }
    requires rounds { 1 ≤ bounds.rounds }
    ensures leads { IfOk result (λ r. LeadsFrom M.Model M.Body.cmp world r.0 r.1.floor) }
    ensures others { IfErr result (λ stop. EndsRound stop) }
{
    // What the world promises of every world of the model.
    every_exchange::<M>();
    every_floor::<M>();
    every_sound_world::<M>();
    every_step::<M>();
    let mut reached = Reached {
        floor: world.floor(),
        traffic: Traffic::default(),
    };
    let workers = bounds.plan.workers;
    let mut between = begin_segment(alloc, workers, world.take(), bounds.gate)?;
    let mut left = bounds.rounds;
    'rounds: loop {
        let before = reached;
        let plan = throttle.plan(&bounds.plan);
        let (next, floor) = go_round(executor, alloc, between, &plan, &mut reached.traffic)?;
        between = next;
        reached.floor = floor;
        left -= 1;
        let goes_on = may_go_on(&bounds, &before, &reached, throttle, progress);
        if left == 0 || !goes_on {
            let parts = end_segment(alloc, between)?;
            return Ok((parts, reached));
        }
    }
}

/// Whether the floor of a round that led from `before` to `after` is before the end of the segment. Then the throttle and
/// `progress` are told of that round.
fn may_go_on<G, P: Progress>(
    bounds: &Bounds<G>,
    before: &Reached,
    after: &Reached,
    throttle: &mut Throttle,
    progress: &mut P,
) -> bool {
    if after.floor >= bounds.until {
        return false;
    }
    throttle.note_round(&bounds.plan, before, after);
    progress.reach(after.floor);
    true
}
