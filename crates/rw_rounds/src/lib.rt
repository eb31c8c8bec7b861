#![tactic(auto)]
//! Rounds of workers over a world of Time Warp (Jefferson 1985), each with processes of its own.
//!
//! A [`Worker`] owns every process whose number is the worker's own modulo the number of workers. In
//! each turn it receives what the others sent, executes events as far ahead as the window allows, sends
//! its processes' messages through rings, and notes the time of each on the board. It takes no locks
//! and never waits. `inner.rt` has what a turn does, `processes.rt` and `tournament.rt` how the next
//! event is found without scanning all processes.
//!
//! A segment is several rounds. [`run_segment`] deals the processes out to the workers, makes the rounds
//! on existing threads (the last worker's part in the calling thread), joins the processes again, and
//! commits what is final. Between two rounds the workers keep their processes; only messages in transit
//! are collected and handed out anew. [`run_round`] is a segment of one round, and [`run`] one that ends
//! when nothing is outstanding; both start their threads themselves.
//!
//! `specs/Turns.antt` defines what a worker does in a turn, `specs/Rounds.antt` how one round leads to
//! the next, and `specs/Segments.antt` what a segment promises.
//!
//! Worked examples: `rw_round_tests/src/relay_worker.rt`, `relay_rounds.rt` and `photo_rounds.rt`.

ghost use Rattle.rw_rounds.specs.Laws.{NoneIsSetAside};

mod between;
mod gathering;
mod inner;
mod plan;
mod processes;
mod round;
mod running;
mod segment;
mod setting_up;
mod sim;
mod stop;
mod throttle;
mod tournament;
mod traffic;
mod worker;

pub use plan::Plan;
pub use round::{Gate, Open, RoundWork};
pub use running::{run, run_round};
pub use rw_board::{Board, Seat};
pub use rw_exchange::Port;
pub use rw_lp::Lp;
pub use rw_vt::{Letter, Model, Outcome, Refusal};
pub use rw_world::World;
pub use segment::{Bounds, Segment, run_segment};
pub use sim::Sim;
pub use stop::Stop;
pub use throttle::Throttle;
pub use traffic::Traffic;
pub use worker::{Worker, WorkerParts};

/// Whatever the workers of a round do, none of them sets a letter aside: after the round each letter is taken up by a process,
/// or it was left in a ring or kept, and then it is in transit in the world. This is a law of the definitions, for every
/// model; the call itself does nothing.
pub fn none_set_aside<M: Model>()
    ensures { NoneIsSetAside M.Model M.Body.cmp }
{}
