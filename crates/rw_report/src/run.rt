ghost use Rattle.std.specs.Prelude.{◌≡◌, ◌<◌, ◌≤◌, ◌+◌, ◌-◌, ◌^◌, ◌++◌, ◌↔◌, ◌⊎◌, [], false, All, IfErr, IfOk, IsPermutation, IsTrue, List, OnOk, length};
ghost use Rattle.rw_vt.specs.Limits.{end_of_time};
ghost use Rattle.rw_vt.specs.System.{Meets, map_from};
ghost use Rattle.rw_trace.specs.Laws.{IsRow};
ghost use Rattle.rw_trace.specs.Pieces.{RiseFrom};
ghost use Rattle.rw_trace.specs.declared.Row.{Row};
ghost use Rattle.rw_photo.specs.Cache.{is_exhausted};
ghost use Rattle.rw_photo.specs.Events.{event_of};
ghost use Rattle.rw_photo.specs.Rows.{AreInOrder};
ghost use Rattle.rw_photo.specs.Simulation.{simulation};
ghost use Rattle.rw_vt.specs.Words.{Time};
ghost use Rattle.rw_report.specs.Run.{AreApart, IsRunOn};

use crate::replaying::starts;
use rw_photo::{Body, CacheState, Config, NoMemory, Photo, PieceRequests, requests_from};
use rw_serial::{Pending, run_until};
use rw_trace::Row;
use rw_vt::{Event, Refusal};
use std::alloc::Global;
use std::marker::Model;

/// A run of the caches of a configuration on one thread, which takes rows in as they come and stops at any time.
///
/// It needs the memory of the caches, of what is on its way, and of the rows that it has taken in and not yet come to. Contracts see
/// where it stands.
pub struct Run {
    photo: Photo,
    states: Vec<CacheState>,
    pending: Pending<Body, PieceRequests>,
    /// Until the run leaves time 0, events from outside that came in any order, or after others: they are sorted once.
    first: Vec<Event<Body>>,
    /// How many rows were taken in.
    taken: u64,
    /// All events of earlier times are executed, in ticks.
    time: u64,
}

// Written by hand: where it is derived, other crates cannot drop a run that is in a list or in a result.
impl Drop for Run {
    fn drop(self) {
        let Run {
            photo: _,
            states: _,
            pending: _,
            first: _,
            taken: _,
            time: _,
        } = self;
    }
}

impl Model for Run {
    ghost use Rattle.std.specs.Prelude.{◌≤◌, ◌++◌, All};
    ghost use Rattle.rw_vt.specs.System.{IsReady};
    ghost use Rattle.rw_photo.specs.contracts.photo.PhotoVtModel.TheImpl as model;
    ghost use Rattle.rw_report.specs.Run.{AreApart, RunState};

    ghost Value = { RunState };

    ghost view = { λ r. record {
      config = r.photo.config;
      time = r.time;
      taken = r.taken;
      states = r.states.items;
      waiting = r.pending.events ++ r.first.items;
    } };

    ghost invariant = { λ r.
        IsReady model.ghosts r.photo r.states.items (r.pending.events ++ r.first.items)
        × All (λ e. r.time ≤ e.time) (r.pending.events ++ r.first.items)
        × AreApart r.time r.pending.time r.first.items };
}

impl Run {
    /// A run of these caches at time 0, which has taken in no row.
    ///
    /// # Errors
    ///
    /// `NoMemory` only where memory was refused.
    pub fn new(alloc: Global, config: &Config) -> Result<Run, NoMemory>
        ensures config { IfOk result (λ run. run.config ≡ config.now) }
        ensures time { IfOk result (λ run. run.time ≡ 0) }
        ensures none { IfOk result (λ run. IsRunOn [] run) }
    {
        let photo = Photo::new(*config);
        let states = starts(alloc, &photo)?;
        Ok(Run {
            photo,
            states,
            pending: Pending::new(alloc, PieceRequests::none(alloc)),
            first: Vec::new(alloc),
            taken: 0,
            time: 0,
        })
    }

    /// Takes in more rows, in any order, none of which is before the time that the run has reached. Nothing is executed.
    ///
    /// # Errors
    ///
    /// `NoMemory` only where memory was refused. The run is gone then.
    pub fn take(self, alloc: Global, rows: &[Row]) -> Result<Run, NoMemory>
        requires ranges { All (IsRow self.config.edges) rows.now }
        requires late { All (λ row. self.time ≤ row.time) rows.now }
        requires few { self.taken + length rows.now ≤ 2 ^ 64 - 1 }
        ensures config { IfOk result (λ run. run.config ≡ self.config) }
        ensures time { IfOk result (λ run. run.time ≡ self.time) }
        ensures count { IfOk result (λ run. run.taken ≡ self.taken + length rows.now) }
        ensures taken { IfOk result (λ run. (before : List Row) → IsRunOn before self
            → IsRunOn (before ++ rows.now) run) }
    {
        let Run {
            photo,
            states,
            mut pending,
            mut first,
            taken,
            time,
        } = self;
        let events = requests_from(alloc, taken, rows)?;
        add(&mut pending, &mut first, &events, time)?;
        Ok(Run {
            photo,
            states,
            pending,
            first,
            taken: taken + rows.len() as u64,
            time,
        })
    }

    /// Takes in more rows as [`take`](Self::take), where they stand in order of time: each waits as it is until its turn comes.
    ///
    /// # Errors
    ///
    /// `NoMemory` only where memory was refused. The run is gone then.
    pub fn take_in_order(self, alloc: Global, rows: Vec<Row>) -> Result<Run, NoMemory>
        requires ranges { All (IsRow self.config.edges) rows.items }
        requires rising { RiseFrom self.time rows.items }
        requires few { self.taken + length rows.items ≤ 2 ^ 64 - 1 }
        ensures config { IfOk result (λ run. run.config ≡ self.config) }
        ensures time { IfOk result (λ run. run.time ≡ self.time) }
        ensures count { IfOk result (λ run. run.taken ≡ self.taken + length rows.items) }
        ensures taken { IfOk result (λ run. (before : List Row) → IsRunOn before self
            → IsRunOn (before ++ rows.items) run) }
    {
        if !self.may_refill() {
            return self.take(alloc, rows.as_slice());
        }
        let Run {
            photo,
            states,
            mut pending,
            first,
            taken,
            time,
        } = self;
        let count = rows.len() as u64;
        refill(&mut pending, taken, rows)?;
        Ok(Run {
            photo,
            states,
            pending,
            first,
            taken: taken + count,
            time,
        })
    }

    /// Whether rows in order of time may come from a source: nothing waits, or the run has left time 0.
    fn may_refill(&self) -> bool
        ensures { IsTrue result → ((self.now.waiting ≡ []) ⊎ (0 < self.now.time)) }
    {
        self.time > 0 || self.is_done()
    }

    /// Goes on to a time, in ticks: executes all events of earlier times, in order, and no other.
    ///
    /// # Errors
    ///
    /// `Exhausted` only where some cache, on the way, would execute an event in a state that can take no further one, and `Memory`
    /// only where memory was refused. The run is gone then.
    pub fn run_until(self, alloc: Global, until: u64) -> Result<Run, Refusal>
        requires { self.time ≤ until }
        ensures config { IfOk result (λ run. run.config ≡ self.config) }
        ensures time { IfOk result (λ run. run.time ≡ until) }
        ensures taken { IfOk result (λ run. run.taken ≡ self.taken) }
        ensures reached { IfOk result (λ run. (rows : List Row) → IsRunOn rows self
            → IsRunOn rows run) }
        ensures exhausted { IfErr result (λ r. r ≡ Refusal.Exhausted
            → (rows : List Row) → IsRunOn rows self
            → Meets (simulation self.config rows) until is_exhausted) }
    {
        if until == 0 {
            return Ok(self);
        }
        let Run {
            photo,
            mut states,
            mut pending,
            first,
            taken,
            time,
        } = self;
        hand_over(&mut pending, first, time)?;
        run_until(alloc, &photo, &mut states, &mut pending, until)?;
        Ok(Run {
            photo,
            states,
            pending,
            first: Vec::new(alloc),
            taken,
            time: until,
        })
    }

    /// Whether nothing waits: all that the rows ask for is done. Takes no memory.
    pub fn is_done(&self) -> bool
        ensures done { IsTrue result ↔ (self.now.waiting ≡ []) }
        ensures soon { result ≡ false → self.now.time < end_of_time }
    {
        self.first.as_slice().is_empty() && self.pending.least_time().is_none()
    }

    /// The time that the run has reached, in ticks. Takes no memory.
    pub fn time(&self) -> u64
        ensures { result ≡ self.now.time }
    {
        self.time
    }

    /// The state of each cache, the edges before the origins. Takes no memory.
    pub fn states(&self) -> &[CacheState]
        ensures { result.now ≡ self.now.states }
    {
        self.states.as_slice()
    }
}

/// Adds events from outside, none of which is before the time that a run has reached, to those that wait.
fn add(
    pending: &mut Pending<Body, PieceRequests>,
    first: &mut Vec<Event<Body>>,
    events: &[Event<Body>],
    time: u64,
) -> Result<(), NoMemory>
    requires apart { AreApart time pending.old.time first.old.items }
    requires late { All (λ e. time ≤ e.time) events.now }
    ensures added { OnOk result (IsPermutation
        ((pending.old.events ++ first.old.items) ++ events.now)
        (pending.new.events ++ first.new.items)) }
    ensures apart { OnOk result
        (AreApart time pending.new.time first.new.items) }
{
    if time == 0 {
        first.extend_from_slice(events)?;
        return Ok(());
    }
    pending.extend(events)?;
    Ok(())
}

/// Puts the first events from outside to those that wait, when a run leaves time 0.
fn hand_over(
    pending: &mut Pending<Body, PieceRequests>,
    first: Vec<Event<Body>>,
    time: u64,
) -> Result<(), NoMemory>
    requires apart { AreApart time pending.old.time first.items }
    ensures moved { OnOk result
        (IsPermutation (pending.old.events ++ first.items) pending.new.events) }
    ensures before { OnOk result
        ((until : Time) → time ≤ until → 0 < until → pending.new.time < until) }
{
    if time == 0 {
        pending.put_back(first)?;
    }
    Ok(())
}

/// Adds the requests of a piece of a trace in order of time, of which the first row is row `first`, to those that wait: each is made
/// when it is taken.
#[inline(never)]
fn refill(
    pending: &mut Pending<Body, PieceRequests>,
    first: u64,
    rows: Vec<Row>,
) -> Result<(), NoMemory>
    requires few { first + length rows.items ≤ 2 ^ 64 - 1 }
    requires order { AreInOrder rows.items }
    requires later { All (λ e. pending.old.time < e.time) pending.old.events }
    ensures added { OnOk result (IsPermutation
        (pending.old.events ++ map_from first event_of rows.items) pending.new.events) }
    ensures time { OnOk result (pending.new.time ≡ 0) }
{
    pending.refill(PieceRequests::new(first, rows))?;
    Ok(())
}
