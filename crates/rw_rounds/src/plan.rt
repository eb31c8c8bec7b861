ghost use Rattle.std.specs.Prelude.{◌≡◌, ◌↔◌, ◌^◌, IsTrue};
ghost use Rattle.rw_rounds.specs.Deeds.{way_of};
ghost use Rattle.rw_rounds.specs.Plans.{IsInRanges};

use rw_lp::Way;
use rw_vt::END;

/// How rounds are run. The first round of a run is by its plan as it is; later ones may have a smaller
/// batch and window.
#[derive(Clone, Copy)]
pub struct Plan {
    /// How many workers there are, 1 to 16. Process p belongs to worker p modulo this number.
    pub workers: u32,
    /// How many turns a worker takes in a round, 1 to 4096.
    pub turns: u32,
    /// How many events a worker may execute in a turn, 1 to 4096.
    pub batch: u32,
    /// How far a worker may execute ahead of the least time noted, in ticks, 1 to [`END`].
    pub window: u64,
    /// How many letters a ring between two workers has room for, 1 to 4096.
    pub ring: u32,
    /// After how many rounds a run is given up, 1 to 1048576.
    pub max_rounds: u32,
    /// Whether what an undone event had sent is held until the event is executed again or cancelled, and not cancelled at once
    /// (lazy cancellation).
    pub lazy: bool,
}

impl Plan {
    /// Whether each field is in its range. Takes no memory.
    pub fn is_valid(&self) -> bool
        ensures { IsTrue result ↔ IsInRanges self.now }
    {
        (1..=16).contains(&self.workers)
            && (1..=4096).contains(&self.turns)
            && (1..=4096).contains(&self.batch)
            && (1..=END).contains(&self.window)
            && (1..=4096).contains(&self.ring)
            && (1..=1_048_576).contains(&self.max_rounds)
    }

    /// How the processes take events back. Takes no memory.
    pub(crate) fn way(&self) -> Way
        ensures { result ≡ way_of self.now.lazy }
    {
        if self.lazy {
            Way::Lazy
        } else {
            Way::Aggressive
        }
    }
}
