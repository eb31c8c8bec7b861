#![tactic(auto)]
//! Progress of a long run, shown as one line that is redrawn.
//!
//! A run reports how far it is to a [`Progress`]. A [`Line`] shows this on a terminal with an estimate
//! of the time left, and is erased at the end. A [`Progress`] never answers anything, so it cannot
//! change what a run computes or writes.
//!
//! Worked examples: `rw_program_tests/src/progress.rt`, and `checks/terminal`.

mod line;
mod progress;
mod standing;
mod text;

pub use line::Line;
pub use progress::{Progress, Silent};
pub use standing::{Measure, Standing};
