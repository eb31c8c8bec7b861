ghost use Rattle.std.specs.Prelude.{◌≡◌};
ghost use Rattle.rw_report.specs.declared.sim_fault.SimFault.TheVariants.{Memory};

use rw_trace::{RowsFault, TraceFault};
use rw_vt::{NoMemory, Refusal};

/// Why a run has no text, each shown as one line.
#[derive(Debug, Drop, thiserror::Error)]
pub enum SimFault {
    /// The trace was refused; never for want of memory, which is `Memory`.
    #[error("{0}")]
    Trace(TraceFault),
    /// The reader that a trace comes from answered an error.
    #[error("file: cannot read")]
    Read,
    /// A request for memory was refused.
    #[error("memory")]
    Memory,
    /// As many rounds were made as the plan allows, and the run was not done.
    #[error("rounds used")]
    Rounds,
    /// The start of a thread was refused.
    #[error("no thread")]
    NoThread,
    /// A cache can take no further event.
    #[error("exhausted")]
    Exhausted,
    /// A field of the plan is out of its range.
    #[error("plan")]
    Plan,
    /// The writer failed: what went out is a beginning of the text.
    #[error("output")]
    Output,
}

impl From<TraceFault> for SimFault {
    ghost from_gives = { λ fault sim. sim ≡ sim_fault_of fault };

    ghost use Rattle.rw_report.specs.Faults.{sim_fault_of};

    fn from(fault: TraceFault) -> SimFault {
        match fault {
            TraceFault::Memory => SimFault::Memory,
            fault => SimFault::Trace(fault),
        }
    }
}

impl From<RowsFault> for SimFault {
    ghost from_gives = { λ fault sim. sim ≡ sim_rows_fault_of fault };

    ghost use Rattle.rw_report.specs.Faults.{sim_rows_fault_of};

    fn from(fault: RowsFault) -> SimFault {
        match fault {
            RowsFault::Trace(fault) => SimFault::from(fault),
            RowsFault::Read => SimFault::Read,
        }
    }
}

impl From<Refusal> for SimFault {
    ghost from_gives = { λ refusal sim. sim ≡ sim_refusal_of refusal };

    ghost use Rattle.rw_report.specs.Faults.{sim_refusal_of};

    fn from(refusal: Refusal) -> SimFault {
        match refusal {
            Refusal::Memory => SimFault::Memory,
            Refusal::Exhausted => SimFault::Exhausted,
        }
    }
}

impl From<NoMemory> for SimFault {
    ghost from_gives = { λ _ sim. sim ≡ Memory };

    fn from(_refusal: NoMemory) -> SimFault {
        SimFault::Memory
    }
}
