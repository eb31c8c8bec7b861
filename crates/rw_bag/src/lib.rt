#![tactic(auto)]
//! Multisets of events, in order. Whole events are compared, and equal copies count.
//!
//! [`Bag`] suits events that mostly arrive in order, or before all others, and whose least is asked for
//! most. [`CountedBag`] suits events that come and go in any order. Contracts treat both as their
//! events in order.
//!
//! Worked examples: `rw_process_tests/src/bags.rt`.

mod ascending;
mod bag;
mod counted;
mod descending;
mod stock;

pub use bag::Bag;
pub use counted::CountedBag;
