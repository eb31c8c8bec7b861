#![tactic(auto)]
//! The pending event set of a sequential run: the events still to be executed, least first.
//!
//! Initial events come from a [`Source`], which can create each of them on demand. Events that were
//! sent wait in [`Pending`] until their time comes. This crate does not execute events: `rw_serial`
//! does, and each worker of `rw_windows` has a pending set of its own.
//!
//! An initial event costs one or two comparisons. So does a sent event while a model uses at most four
//! different delays, since each delay has a queue of its own; other events wait in a hierarchical
//! timing wheel, where each is moved at most five times, however many wait. An event that is alone in
//! its time goes straight to whoever executes it. Several events of one time are brought together by
//! their sources and sorted, once.
//!
//! Worked examples: `rw_program_tests/src/reports.rt`, and the cases of `rw_cases`, through sequential
//! runs.

mod groups;
mod heap;
mod initial;
mod later;
mod marks;
mod pending;
mod slice;
mod slot;
mod slots;
mod source;
mod times;
mod wheel;

pub use pending::Pending;
pub use source::Source;
