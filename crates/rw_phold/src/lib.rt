#![tactic(auto)]
//! PHOLD, the usual benchmark of parallel simulators (Fujimoto 1990): a population of balls. A process
//! holds each ball for a random time and then sends it to a random process. Use this crate as the
//! pattern for a model of your own; `docs/MODELS.md` lists what a model has to provide.
//!
//! Random numbers come from a linear congruential generator in each process, which is reversed by its
//! inverse (reverse computation: Carothers, Perumalla and Fujimoto 1999). So an undo record only says
//! whether the ball was passed on.

mod opening;
mod phold;
mod report;

pub use opening::beginning;
pub use phold::{Ball, Holder, MAX_PROCESSES, MAX_TICKS, Passed, Phold};
pub use report::{Report, report_of};
