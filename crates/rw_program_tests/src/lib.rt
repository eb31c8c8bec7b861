#![tactic(auto)]
//! Worked examples of the program as a library, each a test: reports, the command line, imports, sweeps
//! and plots. Expected values are worked out by hand from the definitions.
//!
//! The tests are above the crates that they use, so those crates are proved without tests.

#[cfg(test)]
mod commands;
#[cfg(test)]
mod formats;
#[cfg(test)]
mod grids;
#[cfg(test)]
mod imports;
#[cfg(test)]
mod joins;
#[cfg(test)]
mod options;
#[cfg(test)]
mod parts;
#[cfg(test)]
mod pipe;
#[cfg(test)]
mod plots;
#[cfg(test)]
mod progress;
#[cfg(test)]
mod reports;
#[cfg(test)]
mod shown;
#[cfg(test)]
mod sizes;
#[cfg(test)]
mod sweeps;
#[cfg(test)]
mod workers;
