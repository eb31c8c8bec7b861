use rw_exchange::{FirstMessage, Protocol};
use rw_vt::{Event, Model as VtModel, NoMemory};
use std::alloc::Global;
use std::marker::Model;
use std::snapshot::Snapshot;

/// What one worker sends another after a window.
#[derive(Drop)]
pub(crate) struct Batch<M: VtModel> {
    /// Events for processes of the other worker.
    pub(crate) events: Vec<Event<M::Body>>,
    /// No event of a later batch is before this time, in ticks. It never falls.
    pub(crate) bound: u64,
    /// Of which model they are. For contracts alone.
    pub(crate) model: Snapshot<M>,
    /// How many workers there are. For contracts alone.
    pub(crate) workers: Snapshot<u32>,
    /// The other worker. For contracts alone.
    pub(crate) to: Snapshot<u32>,
}

impl<M: VtModel> Model for Batch<M> {
    ghost use Rattle.rw_windows.specs.Batches.{BatchState};

    ghost Value = { BatchState M M.Body };

    ghost view = { λ b. record {
      events = b.events.items;
      bound = b.bound;
      model = b.model.value;
      workers = b.workers.value;
      to = b.to.value;
    } };
}

/// What a worker promises of its batches: the events of each are valid, for processes of the other worker, and not before
/// the bound of the batch before it; and no bound is less than the one before.
pub(crate) struct InTime;

impl<M: VtModel> Protocol<Batch<M>> for InTime {
    ghost use Rattle.rw_windows.specs.Batches.{MayFollow};

    ghost allows = { λ before batch. MayFollow M.Model before batch };
}
