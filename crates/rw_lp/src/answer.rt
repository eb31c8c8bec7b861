/// Why a step was refused. Where several apply, the one that stands first here is answered; a refused step changes nothing.
#[derive(Clone, Copy, PartialEq, Eq)]
pub enum StepFault {
    /// There is no process of that number.
    NoSuchProcess,
    /// No letter of that number is on its way.
    NoSuchLetter,
    /// The process has no pending event to execute.
    NothingPending,
    /// The least pending event is less than the last done one.
    Straggler,
    /// The process has no processed event that is not committed.
    NothingToUndo,
    /// The event of an anti-message is processed and not pending.
    StillDone,
    /// The time is greater than the least time of all that is outstanding.
    AboveFloor,
}

/// What a step answers.
#[derive(Clone, Copy, PartialEq, Eq)]
pub enum Answer {
    /// It was made.
    Done,
    /// It was refused, and nothing changed.
    Refused(StepFault),
}
