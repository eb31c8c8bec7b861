#![tactic(auto)]
//! An atomic word shared by threads: the least time that any of them has noted.
//!
//! While a round runs, each worker notes the time of every message that it sends and reads how far back
//! the others may still reach. After the round the word is a lower bound of global virtual time
//! (Jefferson 1985). There are no locks and no waiting: noting is one atomic `fetch_min`, reading one
//! atomic load.
//!
//! Worked examples: `rw_round_tests/src/board_of_two_seats.rt`.

mod board;
mod rule;

pub use board::{Board, MAX_SEATS, Seat, close, every_limit, open};
pub use rw_vt::NoMemory;
