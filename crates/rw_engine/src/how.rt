ghost use Rattle.std.specs.Prelude.{◌≡◌, IfErr, OnOk};
ghost use Rattle.rw_rounds.specs.declared.stop.Stop.TheVariants.{BadPlan};
ghost use Rattle.rw_engine.specs.Runs.{IsByBadPlan};

use crate::alone::check;
use rw_rounds::{Plan, Stop};

/// How a model is run.
#[derive(Clone, Copy)]
pub enum How {
    /// On one thread, each event in order of time.
    InOrder,
    /// With workers under a plan, each a thread: in windows of the lookahead, in rounds in which they run ahead of one another and take back
    /// what they did too early, or in order, whichever is fastest.
    InRounds(Plan),
}

impl How {
    /// Refuses rounds by a plan of which a field is out of its range.
    pub(crate) fn check(&self) -> Result<(), Stop>
        ensures ok { OnOk result (IsByBadPlan self.now → ⊥) }
        ensures plan { IfErr result (λ stop. (stop ≡ BadPlan) × IsByBadPlan self.now) }
    {
        match self {
            How::InOrder => Ok(()),
            How::InRounds(plan) => check(plan),
        }
    }
}
