#![tactic(auto)]
//! Models made from models: with an end time, and with a record of what they execute.
//!
//! [`Until`] is a model whose runs end at a time. [`Recorded`] is a model whose processes keep the events that they
//! execute, so that a run can give them out in order. Both implement [`Model`](rw_vt::Model) and
//! [`Lookahead`](rw_vt::Lookahead) with all their laws wherever the model inside does. So every engine runs them
//! unchanged, and one can stand in the other.
//!
//! What a run of each is, `specs/Until.antt` and `specs/Recorded.antt` say in terms of the model inside: the contracts
//! of [`Until::events_before`], [`Recorded::new`] and [`Recorded::take_executed`] name it. `specs/Committed.antt` says
//! what it means that events are given out in order while a run goes on.
//!
//! A run that ends at a tick, and gives out its events in order, for a model `M` and any engine `run`:
//!
//! ```text
//! let until = Until::new(model, end);
//! let initial = until.events_before(initial);
//! let records = Recorded::<Until<M>>::new_records(alloc, starts)?;
//! let mut records = run(alloc, &Recorded::new(until), records, initial)?;
//! let events = Recorded::<Until<M>>::take_executed(alloc, &mut records)?;
//! ```

mod cut;
mod executed;
mod recorded;
mod until;

pub use executed::Executed;
pub use recorded::{Record, Recorded};
pub use until::Until;
