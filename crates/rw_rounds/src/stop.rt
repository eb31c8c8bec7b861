ghost use Rattle.std.specs.Prelude.{◌≡◌};
ghost use Rattle.rw_rounds.specs.Stops.{stop_of, stop_of_halt, EndsRound};
ghost use Rattle.rw_rounds.specs.declared.stop.Stop.TheVariants.{Memory};

use rw_pool::Halt;
use rw_vt::{NoMemory, Refusal};
use std::alloc::{AllocError, AllocFailed};

/// Why a run, or a round of it, gave no result. Nothing is handed back then.
#[derive(Clone, Copy, Debug, PartialEq, Eq)]
pub enum Stop {
    /// A request for memory was refused.
    Memory,
    /// A process was to execute an event in a state that can take no further one.
    Exhausted,
    /// As many rounds were made as the plan allows, and the last one's floor was not yet the end of time.
    RoundsUsed,
    /// A field of the plan is out of its range.
    BadPlan,
    /// The start of a thread was refused, there were too few, or one was gone.
    NoThread,
}

impl From<Refusal> for Stop {
    ghost from_gives = { λ refusal stop. (stop ≡ stop_of refusal) × EndsRound stop };

    fn from(refusal: Refusal) -> Stop {
        match refusal {
            Refusal::Memory => Stop::Memory,
            Refusal::Exhausted => Stop::Exhausted,
        }
    }
}

impl From<Halt> for Stop {
    ghost from_gives = { λ halt stop. (stop ≡ stop_of_halt halt) × EndsRound stop };

    fn from(halt: Halt) -> Stop {
        match halt {
            Halt::Memory => Stop::Memory,
            Halt::Exhausted => Stop::Exhausted,
            Halt::NoThread => Stop::NoThread,
        }
    }
}

impl From<NoMemory> for Stop {
    ghost from_gives = { λ _ stop. stop ≡ Memory };

    fn from(_error: NoMemory) -> Stop {
        Stop::Memory
    }
}

impl From<AllocError> for Stop {
    ghost from_gives = { λ _ stop. stop ≡ Memory };

    fn from(_error: AllocError) -> Stop {
        Stop::Memory
    }
}

impl<T: Drop> From<AllocFailed<T>> for Stop {
    ghost from_gives = { λ _ stop. stop ≡ Memory };

    fn from(_error: AllocFailed<T>) -> Stop {
        Stop::Memory
    }
}
