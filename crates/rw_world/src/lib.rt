#![tactic(auto)]
//! All logical processes of a model (Time Warp: Jefferson 1985), run one step at a time.
//!
//! [`World`] has the processes and the messages in transit. A [`Step`] executes an event, undoes one,
//! delivers a message or commits what is final. A schedule is any list of steps. Whatever the schedule,
//! the committed events are those of executing all events in order of time: the contract of
//! [`World::run_steps`] states this for every lawful model, and the functions on this page restate it
//! from the definitions.
//!
//! Worked examples: `rw_round_tests/src/relay_world.rt`.

ghost use Rattle.rw_world.specs.Laws.{ExchangesKeepSound, FloorIsGreatest, SchedulesLeadInOrder, SoundIsInOrder, StepsKeepSound};

mod drawing;
mod least;
mod opening;
mod parts;
mod rest;
mod step;
mod world;

pub use drawing::{draw, draw_mixed};
pub use parts::Parts;
pub use rest::Rest;
pub use rw_lp::{Answer, Lp, StepFault};
pub use rw_vt::{Event, Letter, Model, NoMemory, Refusal};
pub use step::Step;
pub use world::World;

/// Each step keeps a sound world sound; a refused one leaves it as it was, and no committed event is lost. This is a law of
/// the definitions, for every model; the call itself does nothing.
pub fn every_step<M: Model>()
    ensures { StepsKeepSound M.Model M.Body.cmp }
{}

/// In a sound world the committed events, and all that is done before the floor, are those of the run in order of time; a
/// finished sound world is the outcome of that run. This is a law of the definitions, for every model; the call itself does
/// nothing.
pub fn every_sound_world<M: Model>()
    ensures { SoundIsInOrder M.Model M.Body.cmp }
{}

/// Whatever the steps of a schedule, sensible or not, refused ones included: in the world to which they lead the committed
/// events, and all that is done before the floor, are those of the run in order of time (Jefferson 1985). This is a law of the
/// definitions, for every model; the call itself does nothing.
pub fn every_schedule<M: Model>()
    ensures { SchedulesLeadInOrder M.Model M.Body.cmp }
{}

/// The floor is the greatest time, up to the end, before which nothing is pending, owed, held or on its way. This is a law of
/// the definitions, for every model; the call itself does nothing.
pub fn every_floor<M: Model>()
    ensures { FloorIsGreatest M.Model M.Body.cmp }
{}

/// Whatever all processes of a sound world do at once, each keeping its own balance of letters, and in whatever order the
/// letters go: the world is sound afterwards. This is a law of the definitions, for every model; the call itself does
/// nothing.
pub fn every_exchange<M: Model>()
    ensures { ExchangesKeepSound M.Model M.Body.cmp }
{}
