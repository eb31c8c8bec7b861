#![tactic(auto)]
//! Events, messages, and [`Model`], the trait of simulation models whose events can be reversed.
//!
//! `specs/System.antt` defines what a run of a model means: it cuts time into slices and sorts each
//! slice, and does not mention how a run is computed. The sequential engine, a logical process and the
//! world of all processes all state their contracts in these terms.
//!
//! Worked examples: `rw_process_tests/src/edge_process.rt`. Every other test uses a model too.

mod event;
mod lists;
mod lookahead;
mod model;
mod refusal;

pub use event::{END, Event, Letter, every_limit};
pub use lists::empty_lists;
pub use lookahead::Lookahead;
pub use model::{Model, Outcome, execute_and_reverse, in_order};
pub use refusal::{NoMemory, Refusal};
