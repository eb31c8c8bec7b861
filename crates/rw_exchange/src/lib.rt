#![tactic(auto)]
//! Rings between workers: one for each ordered pair of different workers, each first in, first out.
//!
//! Each worker of a round owns a [`Port`], which can move to the worker's thread. Ports never block: an
//! item that does not fit into a ring goes back to its sender, and [`settle`] hands out what is still
//! in the rings when the round is over. No item is lost, duplicated or invented. A port is generic in
//! its items; those of Time Warp are a [`Letter`], that is, a message or an anti-message.
//!
//! A port is also generic in a [`Protocol`], which says which items may follow the ones before them.
//! The sender has to keep it, so the receiver can rely on it in another thread. [`AnyItems`] allows all
//! items. [`open_with_first`] sends a first item through each ring, known at both ends, for protocols that
//! judge later items by it.
//!
//! Worked examples: `rw_round_tests/src/rings.rt`.

mod build;
mod first_message;
mod lane;
mod left;
mod opening;
mod port;
mod settling;

pub use first_message::FirstMessage;
pub use left::Left;
pub use opening::{MAX_CAPACITY, MAX_WORKERS, every_limit, open, open_with_first};
pub use port::Port;
pub use rtrb::{AnyItems, Protocol};
pub use rw_vt::{Letter, NoMemory};
pub use settling::settle;
