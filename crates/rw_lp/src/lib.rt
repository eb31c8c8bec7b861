#![tactic(auto)]
//! A logical process of Time Warp (Jefferson 1985): it executes events speculatively and rolls back
//! those it executed too early.
//!
//! [`Lp`] has its executed events with their undo records, its pending events and its debts
//! (anti-messages that arrived before their messages), each in a [`Bag`](rw_bag::Bag), and the messages
//! that lazy cancellation holds back. Each call is one step of the relation in `specs/Process.antt`, or
//! an arrival: as few undo steps as possible, then a delivery. The crate does not depend on what a
//! model's events mean, only on the laws of [`rw_vt::Model`].
//!
//! Worked examples: `rw_process_tests/src/edge_process.rt` and `station_process.rt`.

ghost use Rattle.rw_lp.specs.Sound.{StepsKeepAll};

mod answer;
mod held;
mod held_back;
mod history;
mod least;
mod letters;
mod lp;
mod places;
mod runs;
mod sends;
mod undo_record;
mod way;

pub use answer::{Answer, StepFault};
pub use held::Held;
pub use least::least_of_processes;
pub use lp::Lp;
pub use places::put_back;
pub use runs::every_limit;
pub use rw_vt::{Event, Letter, Model, Refusal};
pub use way::Way;

/// Each step of a sound process that started well keeps it sound. It changes what is done and pending, less what is owed,
/// by exactly the letter that came, and what its done events sent by exactly the letters that it gives out. This is the
/// law of the definitions that the calls of [`Lp`] meet, for every model; the call itself does nothing.
pub fn every_turn<M: Model>()
    ensures { StepsKeepAll M.Model M.Body.cmp }
{}
