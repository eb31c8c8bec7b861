#![tactic(auto)]
//! Worked examples of traces and caches, each a test. Expected values are worked out by hand from the
//! definitions.
//!
//! The tests are above the crates that they use, so those crates are proved without tests.

#[cfg(test)]
mod insertions;
#[cfg(test)]
mod primitives;
#[cfg(test)]
mod queue_text;
#[cfg(test)]
mod traces;
