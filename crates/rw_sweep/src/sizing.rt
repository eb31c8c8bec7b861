// How much flash reaches a hit ratio.
ghost use Rattle.std.specs.Prelude.{◌≡◌, ◌<◌, ◌≤◌, ◌+◌, ◌↔◌, All, IfErr, IfOk, IfSome, IsTrue, OnOk, None, true, false, [], length};
ghost use Rattle.rw_blocks.specs.Limits.{most_blocks};
ghost use Rattle.rw_blocks.specs.State.{shape_state};
ghost use Rattle.rw_vt.specs.Limits.{end_of_time};
ghost use Rattle.rw_vt.specs.System.{Meets};
ghost use Rattle.rw_trace.specs.Laws.{IsRow};
ghost use Rattle.rw_photo.specs.Cache.{is_exhausted};
ghost use Rattle.rw_photo.specs.Simulation.{simulation};
ghost use Rattle.rw_report.specs.Columns.{those_of};
ghost use Rattle.rw_report.specs.Report.{totals};
ghost use Rattle.rw_sweep.specs.Sizing.{AddsTry, AreCountersOf, IsCrossing, IsExhaustingSearch, IsSearch, IsTriedAt, IsTryOf, config_with, has_share, is_reached};

use rw_photo::{Config, Counters, Shape};
use rw_progress::{Progress, Silent};
use rw_report::{Caches, counters_of, last_states_of_rows, totals};
use rw_trace::Row;
use rw_vt::Refusal;
use std::alloc::Global;

/// A whole, in millionths.
const WHOLE: u64 = 1_000_000;

/// How often a range of 65536 block counts can be halved until one is left.
const HALVINGS: u64 = 16;

/// The most runs of a search: one at each end, and one for each halving.
const MOST_TRIES: u64 = 18;

/// The caches whose flash a search varies.
#[derive(Clone, Copy)]
pub enum Tier {
    /// The edges.
    Edges,
    /// The origins.
    Origins,
}

/// What a search for the flash that reaches a hit ratio goes over.
#[derive(Clone, Copy)]
pub struct Search {
    /// The configuration of which the flash is varied: all else stays as it is there.
    pub config: Config,
    /// The caches whose flash is varied, each cache of them alike.
    pub tier: Tier,
    /// The fewest sealed device blocks of a cache of the tier, 1 to `most`.
    pub least: u64,
    /// The most sealed device blocks of a cache of the tier, up to 65536.
    pub most: u64,
    /// The hit ratio to reach, in millionths, at most 1,000,000.
    pub target: u64,
    /// The caches whose hit ratio counts: their hits together, of their requests together.
    pub caches: Caches,
}

/// A run of a search.
#[derive(Drop)]
pub struct Try {
    /// The sealed device blocks of each cache of the tier.
    pub blocks: u64,
    /// What each cache has counted: the edges, then the origins.
    pub counters: Vec<Counters>,
}

/// What a search has found.
#[derive(Drop)]
pub struct Answer {
    /// Its runs, in their order.
    pub tries: Vec<Try>,
    /// A block count at which the hit ratio reaches the target, and with one block less does not, unless it is the fewest.
    /// `None`: it does not with the most.
    pub reached: Option<u64>,
}

impl Search {
    /// Whether the numbers are in their ranges: 1 to 65536 blocks, the fewest not over the most, and at most a whole as the
    /// target. Takes no memory.
    pub fn is_in_range(&self) -> bool
        ensures { IsTrue result ↔ IsSearch self.now }
    {
        1 <= self.least
            && self.least <= self.most
            && self.most <= Shape::MAX_BLOCKS
            && self.target <= WHOLE
    }

    /// The configuration in which each cache of the tier has so many blocks. Takes no memory.
    pub fn config_with(&self, blocks: u64) -> Config
        requires some { 1 ≤ blocks }
        requires few { blocks ≤ most_blocks }
        ensures { result ≡ config_with self.now.config self.now.tier blocks }
    {
        let mut config = self.config;
        match self.tier {
            Tier::Edges => config.edge_shape = with_blocks(config.edge_shape, blocks),
            Tier::Origins => config.origin_shape = with_blocks(config.origin_shape, blocks),
        }
        config
    }

    /// Whether the target is reached where each cache has counted so much. Takes no memory.
    pub fn is_reached(&self, all: &[Counters]) -> bool
        ensures { result ≡ is_reached self.now all.now }
    {
        has_share(self.target, &self.total(all))
    }

    /// Of what each cache has counted, that of the caches whose hit ratio counts, together. Takes no memory.
    pub fn total(&self, all: &[Counters]) -> Counters
        ensures { result ≡ totals (those_of self.now.config self.now.caches all.now) }
    {
        totals(self.counted(all))
    }

    /// Of what each cache has counted, that of the caches whose hit ratio counts.
    fn counted<'a>(&self, all: &'a [Counters]) -> &'a [Counters]
        ensures { result.now ≡ those_of self.now.config self.now.caches all.now }
    {
        let edges = (self.config.edges() as usize).min(all.len());
        match self.caches {
            Caches::Edges => &all[..edges],
            Caches::Origins => &all[edges..],
            Caches::All => all,
        }
    }
}

/// The shape with another number of blocks.
fn with_blocks(shape: Shape, blocks: u64) -> Shape
    requires some { 1 ≤ blocks }
    requires few { blocks ≤ most_blocks }
    ensures { result ≡ shape_state shape.sections shape.block blocks }
{
    let (sections, block, _) = shape.limits();
    let Some(shape) = Shape::new(sections, block, blocks) else {
        unreachable!()
    };
    shape
}

/// Whether there are requests, and at least so many millionths of them hit.
fn has_share(target: u64, total: &Counters) -> bool
    ensures { result ≡ has_share target total.now }
{
    let asked = u128::from(target) * u128::from(total.requests);
    0 < total.requests && asked <= u128::from(total.hits) * u128::from(WHOLE)
}

/// What each cache has counted after a run of these rows under a configuration.
fn counters_under(alloc: Global, rows: &[Row], config: &Config) -> Result<Vec<Counters>, Refusal>
    requires { All (IsRow config.now.edges) rows.now }
    ensures counted { IfOk result (λ counters.
        AreCountersOf config.now rows.now counters.items) }
    ensures exhausted { IfErr result (λ refusal. refusal ≡ Refusal.Exhausted
        → Meets (simulation config.now rows.now) end_of_time is_exhausted) }
{
    let states = last_states_of_rows(alloc, rows, config, &mut Silent)?;
    let counters = counters_of(alloc, states.as_slice())?;
    Ok(counters)
}

/// Runs the rows with so many blocks, and adds that to the tries. Returns whether the target is reached.
fn run(
    alloc: Global,
    rows: &[Row],
    search: &Search,
    blocks: u64,
    tries: &mut Vec<Try>,
) -> Result<bool, Refusal>
    requires rows { All (IsRow search.now.config.edges) rows.now }
    requires search { IsSearch search.now }
    requires least { search.now.least ≤ blocks }
    requires most { blocks ≤ search.now.most }
    ensures tried { IfOk result (λ reached.
        AddsTry search.now rows.now blocks reached tries.old.items tries.new.items) }
    ensures exhausted { IfErr result (λ refusal. refusal ≡ Refusal.Exhausted
        → IsExhaustingSearch search.now rows.now) }
{
    let config = search.config_with(blocks);
    let counters = counters_under(alloc, rows, &config)?;
    let reached = search.is_reached(counters.as_slice());
    tries.push(Try { blocks, counters })?;
    Ok(reached)
}

/// A block count at which the target is reached, and with one block less is not, between the fewest, with which it is not, and the
/// most, with which it is; both are tried already.
fn bisect<P: Progress>(
    alloc: Global,
    rows: &[Row],
    search: &Search,
    tries: &mut Vec<Try>,
    progress: &mut P,
) -> Result<u64, Refusal>
    requires rows { All (IsRow search.now.config.edges) rows.now }
    requires search { IsSearch search.now }
    requires tried { All (IsTryOf search.now rows.now) tries.old.items }
    requires missed { IsTriedAt search.now tries.old.items search.now.least false }
    requires reached { IsTriedAt search.now tries.old.items search.now.most true }
    requires in_order { search.now.least < search.now.most }
    ensures tried { OnOk result (All (IsTryOf search.now rows.now) tries.new.items) }
    ensures crossing { IfOk result (λ n. IsCrossing search.now tries.new.items n) }
    ensures few { OnOk result (length tries.new.items ≤ length tries.old.items + 16) }
    ensures exhausted { IfErr result (λ refusal. refusal ≡ Refusal.Exhausted
        → IsExhaustingSearch search.now rows.now) }
{
    let mut missed = search.least;
    let mut reached = search.most;
    for step in 0..HALVINGS {
        if reached - missed <= 1 {
            return Ok(reached);
        }
        let middle = missed + (reached - missed) / 2;
        if run(alloc, rows, search, middle, tries)? {
            reached = middle;
        } else {
            missed = middle;
        }
        progress.reach(step + 3);
    }
    Ok(reached)
}

/// The answer of a search, whose runs are added to the tries, of which there are none yet.
fn crossing<P: Progress>(
    alloc: Global,
    rows: &[Row],
    search: &Search,
    tries: &mut Vec<Try>,
    progress: &mut P,
) -> Result<Option<u64>, Refusal>
    requires rows { All (IsRow search.now.config.edges) rows.now }
    requires search { IsSearch search.now }
    requires empty { tries.old.items ≡ [] }
    ensures tried { OnOk result (All (IsTryOf search.now rows.now) tries.new.items) }
    ensures reached { IfOk result (λ reached.
        IfSome reached (IsCrossing search.now tries.new.items)) }
    ensures none { IfOk result (λ reached. reached ≡ None
        → IsTriedAt search.now tries.new.items search.now.most false) }
    ensures few { OnOk result (length tries.new.items ≤ 18) }
    ensures exhausted { IfErr result (λ refusal. refusal ≡ Refusal.Exhausted
        → IsExhaustingSearch search.now rows.now) }
{
    if run(alloc, rows, search, search.least, tries)? {
        return Ok(Some(search.least));
    }
    progress.reach(1);
    if search.least == search.most {
        return Ok(None);
    }
    if !run(alloc, rows, search, search.most, tries)? {
        return Ok(None);
    }
    progress.reach(2);
    Ok(Some(bisect(alloc, rows, search, tries, progress)?))
}

/// Searches for the least flash of a tier with which some caches reach a hit ratio, by bisection. It runs these rows with the fewest
/// blocks, with the most, and then with a block count in the middle between one that misses the target and one that reaches it. Each
/// run is on this thread. The rows are in the ranges of a trace of the configuration's edges.
///
/// The answer is a block count at which the hit ratio crosses the target: it was run and reaches the target, and one block less was
/// run and does not, unless there are no fewer. If the hit ratio never falls as the flash grows, it is the least that reaches the
/// target. That is not assumed; the tries tell what was run.
///
/// There are at most 18 runs, of up to 65536 block counts. Where the fewest blocks reach the target, there is no other run; where the
/// most do not, there is none in between. Reports to `progress` how many of the 18 are done.
///
/// # Errors
///
/// `Exhausted` only where one of those runs comes to a cache that can take no further event, and `Memory` only where memory was
/// refused.
pub fn size<P: Progress>(
    alloc: Global,
    rows: &[Row],
    search: &Search,
    progress: &mut P,
) -> Result<Answer, Refusal>
    requires rows { All (IsRow search.now.config.edges) rows.now }
    requires search { IsSearch search.now }
    ensures tried { IfOk result (λ a. All (IsTryOf search.now rows.now) a.tries.items) }
    ensures reached { IfOk result (λ a. IfSome a.reached (IsCrossing search.now a.tries.items)) }
    ensures none { IfOk result (λ a. a.reached ≡ None
        → IsTriedAt search.now a.tries.items search.now.most false) }
    ensures few { IfOk result (λ a. length a.tries.items ≤ 18) }
    ensures exhausted { IfErr result (λ refusal. refusal ≡ Refusal.Exhausted
        → IsExhaustingSearch search.now rows.now) }
{
    let mut tries = Vec::new(alloc);
    progress.begin(0, MOST_TRIES);
    let reached = crossing(alloc, rows, search, &mut tries, progress)?;
    Ok(Answer { tries, reached })
}
