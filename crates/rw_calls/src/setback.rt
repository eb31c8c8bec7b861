use rw_ripqwarp::{NoMemory, ScheduleFault, SimFault};
use rw_rounds::Stop;
use rw_vt::Refusal;
use std::alloc::{AllocError, AllocFailed};
use std::io;

/// Why a call has no right answer to tell.
#[derive(Clone, Copy, PartialEq, Eq)]
pub enum Setback {
    /// A request for memory was refused.
    Memory,
    /// The start of a thread was refused.
    NoThread,
    /// Any other answer, which no case asks for, or a setting that is none.
    Other,
}

impl Setback {
    /// The words for it.
    pub fn words(&self) -> &'static str {
        match self {
            Setback::Memory => "memory",
            Setback::NoThread => "no thread",
            Setback::Other => "other",
        }
    }
}

impl From<AllocError> for Setback {
    fn from(_error: AllocError) -> Setback {
        Setback::Memory
    }
}

impl<T: Drop> From<AllocFailed<T>> for Setback {
    fn from(_error: AllocFailed<T>) -> Setback {
        Setback::Memory
    }
}

impl From<NoMemory> for Setback {
    fn from(_error: NoMemory) -> Setback {
        Setback::Memory
    }
}

impl From<Refusal> for Setback {
    fn from(refusal: Refusal) -> Setback {
        match refusal {
            Refusal::Memory => Setback::Memory,
            Refusal::Exhausted => Setback::Other,
        }
    }
}

impl From<Stop> for Setback {
    fn from(stop: Stop) -> Setback {
        match stop {
            Stop::Memory => Setback::Memory,
            Stop::NoThread => Setback::NoThread,
            Stop::Exhausted | Stop::RoundsUsed | Stop::BadPlan => Setback::Other,
        }
    }
}

impl From<SimFault> for Setback {
    fn from(fault: SimFault) -> Setback {
        match fault {
            SimFault::Memory => Setback::Memory,
            SimFault::NoThread => Setback::NoThread,
            _ => Setback::Other,
        }
    }
}

impl From<ScheduleFault> for Setback {
    fn from(fault: ScheduleFault) -> Setback {
        match fault {
            ScheduleFault::Memory => Setback::Memory,
            ScheduleFault::Word(_) => Setback::Other,
        }
    }
}

impl From<io::Error> for Setback {
    fn from(_error: io::Error) -> Setback {
        Setback::Other
    }
}
