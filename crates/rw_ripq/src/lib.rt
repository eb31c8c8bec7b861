#![tactic(auto)]
//! The operations of RIPQ (Tang, Huang, Lloyd, Kumar and Li, FAST 2015) on the queue of blocks:
//! insertion, which may evict, merge and split, promotion on a hit, and purging an object.
//!
//! Each operation returns a [`Trail`], the undo log with which [`rewind`] reverses it as a whole
//! (reverse computation: Carothers, Perumalla and Fujimoto, 1999). The calls that end in `_with` are generic in what becomes of
//! the marks: one that is never taken back keeps none ([`NoMarks`]).
//!
//! Worked examples: `rw_cache_tests/src/insertions.rt`.

ghost use Rattle.std.specs.Prelude.{◌≡◌};
ghost use Rattle.rw_ripq.specs.Limits.{exhaustion};

mod adjusting;
mod change;
mod eviction;
mod insertion;
mod levels;
mod marks;
mod promotion;
mod purging;
mod putting;
mod sealed;
mod segments;
mod trail;

pub use change::Change;
pub use insertion::{insert, insert_with};
pub use levels::{level_of, resident, target};
pub use marks::{Marks, NoMarks};
pub use promotion::{promote, promote_row, promote_with};
pub use purging::{purge, purge_with};
pub use rw_blocks::{Kind, Mark, Place, Queue, Shape};
pub use rw_vt::{NoMemory, Refusal};
pub use segments::Levels;
pub use trail::{Trail, rewind};

/// A queue whose next serial is this or a greater one takes no further insertion or promotion: 2^62.
pub const EXHAUSTED: u64 = 1 << 62;

/// This constant is the limit that stands in `specs/Limits.antt`, which the definitions cite. The call itself does
/// nothing.
pub fn every_limit()
    ensures { EXHAUSTED ≡ exhaustion }
{}

/// Which section a miss and a hit go to.
#[derive(Clone, Copy, PartialEq, Eq)]
pub enum Policy {
    /// Nothing is stored.
    Off,
    /// Least recently used: always the head section.
    Lru,
    /// Segmented LRU: a miss goes to the lowest segment, a hit one up.
    Slru(Levels),
}

/// What an insertion did, in counts.
#[derive(Clone, Copy, Default, PartialEq, Eq)]
pub struct Tally {
    /// Rows that left.
    pub evicted: u64,
    /// Rows that the eviction wrote again, since their place was elsewhere.
    pub reinserted: u64,
    /// Device blocks that a put or a merge sealed: block writes.
    pub writes: u64,
    /// Sections that were split: 0 or 1.
    pub splits: u64,
    /// Pairs of sections that were merged: 0 or 1.
    pub merges: u64,
}
