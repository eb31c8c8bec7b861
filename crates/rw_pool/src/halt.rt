ghost use Rattle.std.specs.Prelude.{◌≡◌};
ghost use Rattle.rw_pool.specs.Halts.{halt_of};
ghost use Rattle.rw_pool.specs.declared.halt.Halt.TheVariants.{Memory};

use rw_vt::{NoMemory, Refusal};
use std::alloc::{AllocError, AllocFailed};

/// Why a pool's job came to nothing. Nothing is handed back then.
#[derive(Clone, Copy, Debug, PartialEq, Eq)]
pub enum Halt {
    /// A request for memory was refused.
    Memory,
    /// A process was to execute an event in a state that can take no further one.
    Exhausted,
    /// The start of a thread was refused, or a worker was lost.
    NoThread,
}

impl From<Refusal> for Halt {
    ghost from_gives = { λ refusal halt. halt ≡ halt_of refusal };

    fn from(refusal: Refusal) -> Halt {
        match refusal {
            Refusal::Memory => Halt::Memory,
            Refusal::Exhausted => Halt::Exhausted,
        }
    }
}

impl From<NoMemory> for Halt {
    ghost from_gives = { λ _ halt. halt ≡ Memory };

    fn from(_error: NoMemory) -> Halt {
        Halt::Memory
    }
}

impl From<AllocError> for Halt {
    ghost from_gives = { λ _ halt. halt ≡ Memory };

    fn from(_error: AllocError) -> Halt {
        Halt::Memory
    }
}

impl<T: Drop> From<AllocFailed<T>> for Halt {
    ghost from_gives = { λ _ halt. halt ≡ Memory };

    fn from(_error: AllocFailed<T>) -> Halt {
        Halt::Memory
    }
}
