use rw_engine::{Plan, Step};

/// How a trace is run.
#[derive(Drop)]
pub enum Mode {
    /// On one thread, each event in order of time. The text is a report.
    Serial,
    /// In rounds of workers, each a thread that runs ahead of the others and takes back what it did too early (Time
    /// Warp: Jefferson 1985). The text is the report that `Serial` has.
    Warp(Plan),
    /// By these steps, of which those that do not apply are refused. The text is a journal: what was refused, and what
    /// each cache has committed.
    Journal(Vec<Step>),
}
