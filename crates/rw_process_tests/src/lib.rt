#![tactic(auto)]
//! Worked examples of one Time Warp process and of the multisets that hold its events, each a test.
//! Expected values are worked out by hand from the definitions.
//!
//! The tests are above the crates that they use, so those crates are proved without tests.

/// The message of an event, for tables of constants.
macro_rules! message {
    ($event:expr) => {
        Letter {
            event: $event,
            anti: false,
        }
    };
}

/// The anti-message of an event, for tables of constants.
macro_rules! anti {
    ($event:expr) => {
        Letter {
            event: $event,
            anti: true,
        }
    };
}

#[cfg(test)]
mod bags;
#[cfg(test)]
mod desk;
#[cfg(test)]
mod edge_process;
#[cfg(test)]
mod held_messages;
#[cfg(test)]
mod notes;
#[cfg(test)]
mod purges;
#[cfg(test)]
mod station_process;
