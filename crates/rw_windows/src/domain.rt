use crate::batch::{Batch, InTime};
use crate::parkers::Parkers;
use rw_exchange::Port;
use rw_vt::{Event, Model as VtModel};
use std::snapshot::Snapshot;

/// What a worker has of a run, at work or not, beside the events that are still to be executed: the processes whose number is
/// its own modulo the number of workers, and its port.
#[derive(Drop)]
pub(crate) struct Domain<M: VtModel> {
    /// Which worker it is, counted from 0.
    pub(crate) number: u32,
    /// How many workers there are.
    pub(crate) workers: u32,
    /// Up to which time all execute, in ticks.
    pub(crate) end: u64,
    /// How far ahead of an event all is that it sends, in ticks.
    pub(crate) lookahead: u64,
    /// The states of its processes, in order.
    pub(crate) states: Vec<M::State>,
    /// Its ends of the rings to and from the others.
    pub(crate) port: Port<Batch<M>, InTime>,
    /// How it sleeps while its rings are empty.
    pub(crate) parkers: Parkers,
    /// The events that are still to be sent to each worker.
    pub(crate) outbox: Vec<Vec<Event<M::Body>>>,
    /// Up to which time it executes, in ticks.
    pub(crate) until: u64,
    /// Nothing that it receives later is before this time, in ticks (EIT, earliest input time).
    pub(crate) bound_in: u64,
    /// Nothing that it sends later is before this time, in ticks (EOT, earliest output time).
    pub(crate) bound_out: u64,
    /// How many events it executed.
    pub(crate) executed: u64,
    /// How many events it received.
    pub(crate) received: u64,
    /// Where all processes start, as it was seen before they were dealt out. For contracts alone.
    pub(crate) starts: Snapshot<Snapshot<Vec<M::State>>>,
    /// The events that it was dealt. For contracts alone.
    pub(crate) given: Snapshot<Vec<Event<M::Body>>>,
}
