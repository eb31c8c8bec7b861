#![tactic(auto)]
//! Small lawful models for testing generic code beside the photo caches: two stations that pass parcels
//! to each other, and a bus stop that calls its bus.

pub mod parcels;
mod stop;

use rw_vt::{END, Event, Model as VtModel, NoMemory, Refusal};
use std::alloc::Global;
pub use stop::{Note, Seen, Stop};

/// Two stations, processes 0 and 1. A parcel that has hops left is passed on to the other one with a hop less, `delay` ticks
/// later, as long as that is before the end of time.
#[derive(Clone, Copy)]
pub struct Relay {
    /// How long a parcel is on its way, in ticks, at least 1.
    pub delay: u64,
    /// A station that has passed on this many parcels takes no more.
    pub most: u64,
    ghost positive: { 0 < delay },
}

/// What a station keeps.
#[derive(Clone, Copy, Default, PartialEq, Eq)]
pub struct Station {
    /// The hops that all parcels had left when they came, added modulo 2^64.
    pub sum: u64,
    /// The hops of the one that came last.
    pub last: u32,
    /// How many parcels it passed on, modulo 2^64.
    pub sends: u64,
}

/// What comes to a station.
#[derive(Clone, Copy, PartialEq, Eq, PartialOrd, Ord)]
pub struct Parcel {
    /// How often it is still to be passed on.
    pub hops: u32,
}

/// What a parcel's coming destroyed, and which way it went.
#[derive(Clone, Copy)]
pub struct Track {
    /// The hops of the one that had come last before.
    pub last: u32,
    /// Whether the parcel was passed on.
    pub sent: bool,
}

ghost use Rattle.std.specs.Prelude.{◌≡◌, ◌≤◌, ◌<◌, IsSome, IfSome, ◌↔◌};

impl Relay {
    /// A relay; None exactly where the delay is 0. Takes no memory.
    pub fn new(delay: u64, most: u64) -> Option<Relay>
        ensures found { IsSome result ↔ 1 ≤ delay }
        ensures relay { IfSome result (λ relay. (relay.delay ≡ delay) × (relay.most ≡ most)) }
    {
        if delay == 0 {
            return None;
        }
        Some(Relay { delay, most })
    }
}

impl VtModel for Relay {
    type State = Station;

    type Body = Parcel;

    type Undo = Track;

    ghost use Rattle.std.specs.Prelude.{ℕ, nat_le, Bool};
    ghost use Rattle.std.proofs.Common.{arith};
    ghost use Rattle.rw_relay.specs.Parcels.{is_sound_event, IsStation, relay_step, IsTrackOf, relay_keeps, relay_future, relay_ranges, parcel_same};

    ghost process_count = { λ _. 2 };

    ghost is_valid = { λ _ e. is_sound_event e };

    ghost IsWellFormed = { λ _ _ s. IsStation s };

    ghost is_exhausted = { λ m s. nat_le m.most s.sends };

    ghost step = { relay_step };

    ghost Links = { IsTrackOf };

    ghost weight = { λ _. 1 };

    ghost weight_bound = { λ _ _ _ _. 1 };

    fn processes(&self) -> u32 {
        2
    }

    fn valid(&self, event: &Event<Parcel>) -> bool {
        let _number = event.number;
        let _hops = event.body.hops;
        event.time < END && event.source <= 2 && event.to < 2
    }

    fn exhausted(&self, state: &Station) -> bool {
        self.most <= state.sends
    }

    fn execute(
        &self,
        _alloc: Global,
        process: u32,
        state: &mut Station,
        event: &Event<Parcel>,
        out: &mut Vec<Event<Parcel>>,
    ) -> Result<Track, Refusal> {
        if self.exhausted(state) {
            return Err(Refusal::Exhausted);
        }
        let last = state.last;
        let sent = event.body.hops > 0 && self.delay < END - event.time;
        if sent {
            out.push(Event {
                time: event.time + self.delay,
                source: process + 1,
                number: state.sends,
                to: 1 - process,
                body: Parcel {
                    hops: event.body.hops - 1,
                },
            })?;
            state.sends = state.sends.wrapping_add(1);
        }
        state.sum = state.sum.wrapping_add(event.body.hops as u64);
        state.last = event.body.hops;
        Ok(Track { last, sent })
    }

    fn reverse(
        &self,
        _alloc: Global,
        _process: u32,
        state: &mut Station,
        event: &Event<Parcel>,
        undo: Track,
    ) -> Result<(), NoMemory> {
        state.sum = state.sum.wrapping_sub(event.body.hops as u64);
        state.last = undo.last;
        if undo.sent {
            state.sends = state.sends.wrapping_sub(1);
        }
        Ok(())
    }

    ghost ranges = { relay_ranges };

    ghost keeps = { relay_keeps };

    ghost future = { relay_future };

    ghost same = { parcel_same };

    ghost light = { λ _ _ _ _ _ _ _. Prim.omega arith };
}
