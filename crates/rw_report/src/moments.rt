// What caches have counted by a time of a run.
ghost use Rattle.std.specs.Prelude.{◌≡◌, ◌<◌, ◌≤◌, IfOk, IfSome, IsSome, ◌↔◌, map};
ghost use Rattle.rw_vt.specs.Limits.{end_of_time};

use rw_photo::{CacheState, Counters};
use rw_vt::END;
use std::alloc::{AllocError, Global};

/// What each cache has counted by a time of a run: when all events of earlier times are executed, and no other.
#[derive(Drop)]
pub struct Moment {
    /// When, in ticks.
    pub time: u64,
    /// The counters of each cache, the edges before the origins.
    pub counters: Vec<Counters>,
}

/// When what is counted is looked at: at `start`, and from then on each `every` ticks.
#[derive(Clone, Copy)]
pub struct Marks {
    /// The first time, in ticks: at most [`END`].
    pub start: u64,
    /// Ticks from one to the next: 1 to [`END`].
    pub every: u64,
    ghost early: { start ≤ end_of_time },
    ghost some: { 0 < every },
    ghost few: { every ≤ end_of_time },
}

impl Marks {
    /// Marks at `start` and each `every` ticks from there, if both are in their ranges. Takes no memory.
    pub fn new(start: u64, every: u64) -> Option<Marks>
        ensures in_range { IsSome result
            ↔ ((start ≤ end_of_time) × (0 < every) × (every ≤ end_of_time)) }
        ensures marks { IfSome result (λ marks. (marks.start ≡ start) × (marks.every ≡ every)) }
    {
        if start > END || every == 0 || every > END {
            return None;
        }
        Some(Marks { start, every })
    }
}

/// The counters of each cache that is in these states.
///
/// # Errors
///
/// `AllocError` only where memory was refused.
pub fn counters_of(alloc: Global, states: &[CacheState]) -> Result<Vec<Counters>, AllocError>
    ensures { IfOk result (λ counters. counters.items ≡ map (λ s. s.counters) states.now) }
{
    let mut counters = Vec::with_capacity(alloc, states.len())?;
    for state in states {
        counters.push(state.counters())?;
    }
    Ok(counters)
}
