#![tactic(auto)]
//! Worked examples of many processes, each a test: worlds, what passes between workers, rounds and
//! whole runs. Expected values are worked out by hand from the definitions.
//!
//! The tests are above the crates that they use, so those crates are proved without tests.

#[cfg(test)]
mod board_of_two_seats;
#[cfg(test)]
mod made_models;
#[cfg(test)]
mod phold_runs;
#[cfg(test)]
mod photo_rounds;
#[cfg(test)]
mod relay_rounds;
#[cfg(test)]
mod relay_worker;
#[cfg(test)]
mod relay_world;
#[cfg(test)]
mod rings;
#[cfg(test)]
mod two_ports;
#[cfg(test)]
mod windows;
