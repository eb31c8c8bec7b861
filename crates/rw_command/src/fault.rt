ghost use Rattle.std.specs.Prelude.{◌≡◌};
ghost use Rattle.rw_command.specs.Status.{status_of};
ghost use Rattle.rw_command.specs.declared.fault.Fault.TheVariants as fault;

use crate::source::SourceFault;
use rw_import::ImportFault;
use rw_plot::PlotFault;
use rw_report::{ScheduleFault, SimFault};
use rw_sweep::JoinFault;
use std::alloc::AllocError;

/// Why a command did not do what its words ask, each shown as one line.
#[derive(Debug, Drop, thiserror::Error)]
pub enum Fault {
    /// The command line is none of the program's, for this reason.
    #[error("{}", .0.trim_end())]
    CommandLine(String),
    /// The options are out of their ranges.
    #[error("plan")]
    Plan,
    /// A request for memory was refused.
    #[error("memory")]
    Memory,
    /// A file cannot be read.
    #[error("{0}")]
    Source(SourceFault),
    /// The system gives no random bytes.
    #[error("random bytes: cannot read")]
    Random,
    /// The run has no report.
    #[error("{0}")]
    Run(SimFault),
    /// The schedule has a word that is no step.
    #[error("{0}")]
    Schedule(ScheduleFault),
    /// An option is given without another one.
    #[error("error: --{option}: only with {with}")]
    OnlyWith {
        /// The option's name.
        option: &'static str,
        /// The other one.
        with: &'static str,
    },
    /// An option is given with another one.
    #[error("error: --{option}: not with {other}")]
    NotWith {
        /// The option's name.
        option: &'static str,
        /// The other one.
        other: &'static str,
    },
    /// An option of other commands is given to one that does not take it.
    #[error("error: --{option}: {command} does not take it; serial and sweep do")]
    NotTaken {
        /// The option's name.
        option: &'static str,
        /// The command's name.
        command: &'static str,
    },
    /// A measure of the backend is to be drawn of edges, which never ask it.
    #[error("error: --of {0}: edges never ask the backend; give --caches origins or --caches all")]
    NotOfEdges(&'static str),
    /// The lists of a sweep have too many combinations.
    #[error("error: more than {0} combinations")]
    Combinations(u64),
    /// The log was refused.
    #[error("{0}")]
    Import(ImportFault),
    /// The table was refused.
    #[error("{0}")]
    Plot(PlotFault),
    /// The parts of a sweep were refused.
    #[error("{0}")]
    Join(JoinFault),
}

impl Fault {
    /// The exit status that tells it. Takes no memory.
    pub fn status(&self) -> u8
        ensures { result ≡ status_of self.now }
    {
        match self {
            Fault::CommandLine(_)
            | Fault::Plan
            | Fault::OnlyWith { .. }
            | Fault::NotWith { .. }
            | Fault::NotTaken { .. }
            | Fault::NotOfEdges(_)
            | Fault::Combinations(_)
            | Fault::Schedule(ScheduleFault::Word(_))
            | Fault::Run(SimFault::Plan) => 2,
            Fault::Run(SimFault::Trace(_)) => 3,
            Fault::Source(SourceFault::Read)
            | Fault::Random
            | Fault::Run(SimFault::Read)
            | Fault::Import(ImportFault::Read) => 4,
            Fault::Memory
            | Fault::Source(SourceFault::Memory)
            | Fault::Run(SimFault::Memory)
            | Fault::Schedule(ScheduleFault::Memory)
            | Fault::Import(ImportFault::Memory)
            | Fault::Plot(PlotFault::Memory)
            | Fault::Join(JoinFault::Memory) => 5,
            Fault::Run(SimFault::Rounds | SimFault::NoThread) => 6,
            Fault::Run(SimFault::Exhausted) => 7,
            Fault::Run(SimFault::Output) | Fault::Import(ImportFault::Output) => 8,
            Fault::Import(_) | Fault::Plot(_) | Fault::Join(_) => 3,
        }
    }
}

impl From<AllocError> for Fault {
    ghost from_gives = { λ _ f. f ≡ fault.Memory };

    fn from(_refusal: AllocError) -> Fault {
        Fault::Memory
    }
}

impl From<SourceFault> for Fault {
    ghost from_gives = { λ source f. f ≡ fault.Source source };

    fn from(fault: SourceFault) -> Fault {
        Fault::Source(fault)
    }
}

impl From<SimFault> for Fault {
    ghost from_gives = { λ run f. f ≡ fault.Run run };

    fn from(fault: SimFault) -> Fault {
        Fault::Run(fault)
    }
}

impl From<ScheduleFault> for Fault {
    ghost from_gives = { λ schedule f. f ≡ fault.Schedule schedule };

    fn from(fault: ScheduleFault) -> Fault {
        Fault::Schedule(fault)
    }
}

impl From<ImportFault> for Fault {
    ghost from_gives = { λ log f. f ≡ fault.Import log };

    fn from(fault: ImportFault) -> Fault {
        Fault::Import(fault)
    }
}

impl From<PlotFault> for Fault {
    ghost from_gives = { λ table f. f ≡ fault.Plot table };

    fn from(fault: PlotFault) -> Fault {
        Fault::Plot(fault)
    }
}

impl From<JoinFault> for Fault {
    ghost from_gives = { λ parts f. f ≡ fault.Join parts };

    fn from(fault: JoinFault) -> Fault {
        Fault::Join(fault)
    }
}
