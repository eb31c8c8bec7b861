ghost use Rattle.std.specs.Prelude.{◌≡◌, ◌≢◌, ◌<◌, ◌≤◌, ◌++◌, [], ◌∷◌, All, HoldsAt, IfNone, IfSome, IsPermutation, IsTrue, OnErr, OnOk, length, vec_capacity, vec_len};
ghost use Rattle.rw_pending.specs.Later.{HasMoved, IsLeastOr, IsLeft, never};

use crate::times::NEVER;
use rw_vt::Event;
use std::alloc::{AllocError, Global};
use std::marker::Model;
use std::mem;

/// The events of one slot of a wheel, in no particular order. Contracts see them as a list.
#[derive(Drop)]
pub struct Slot<B: Copy> {
    events: Vec<Event<B>>,
    /// The least time of an event, or [`NEVER`].
    least: u64,
}

impl<B: Copy> Model for Slot<B> {
    ghost use Rattle.std.specs.Prelude.{List};
    ghost use Rattle.rw_vt.specs.declared.event.Event.{Event};
    ghost use Rattle.rw_pending.specs.Later.{IsLeastOr, never};

    ghost Value = { List (Event B) };

    ghost view = { λ s. s.events.items };

    ghost invariant = { λ s. IsLeastOr never s.events.items s.least };
}

impl<B: Copy> Slot<B> {
    /// No events. Takes no memory yet.
    pub fn new(alloc: Global) -> Self
        ensures { result ≡ [] }
    {
        Slot {
            events: Vec::new(alloc),
            least: NEVER,
        }
    }

    /// The least time of an event, or [`NEVER`] where there is no event.
    #[inline(always)]
    pub fn least(&self) -> u64
        ensures { IsLeastOr never self.now result }
    {
        self.least
    }

    /// How many events there are.
    #[inline(always)]
    pub fn count(&self) -> usize
        ensures { result ≡ length self.now }
    {
        self.events.len()
    }

    /// Adds an event. Where memory is refused, nothing has changed.
    #[inline(always)]
    pub fn push(&mut self, event: &Event<B>) -> Result<(), AllocError>
        ensures added { OnOk result (self.new ≡ self.old ++ event.now ∷ []) }
        ensures unchanged { OnErr result (self.new ≡ self.old) }
    {
        if self.events.len() == self.events.capacity() {
            make_room(&mut self.events)?;
        }
        self.events.push_reserved(*event);
        self.least = self.least.min(event.time);
        Ok(())
    }

    /// Takes an event of a time, than which none is earlier, into `next`. `None` only where there is none of that time.
    ///
    /// It costs a look at each event, but one of that time that came last is found at once.
    #[inline(always)]
    pub fn take_one(&mut self, time: u64, next: &mut Option<Event<B>>)
        requires { All (λ e. time ≤ e.time) self.old }
        ensures taken { IfSome next.new (λ e. IsPermutation self.old (e ∷ self.new)) }
        ensures of_time { IfSome next.new (λ e. e.time ≡ time) }
        ensures none { IfNone next.new (All (λ e. time < e.time) self.old) }
        ensures unchanged { IfNone next.new (self.new ≡ self.old) }
    {
        let Some(at) = last_of(&self.events, time) else {
            *next = None;
            return;
        };
        *next = Some(self.events.swap_remove(at));
        self.least = least_from(&self.events, time);
        if self.events.is_empty() {
            self.remove_all();
        }
    }

    /// Moves the events of a time, than which none is earlier, to the end of `taken`. Where memory is refused, some events
    /// are lost.
    pub fn take(&mut self, time: u64, taken: &mut Vec<Event<B>>) -> Result<(), AllocError>
        requires { All (λ e. time ≤ e.time) self.old }
        ensures moved { OnOk result
            (HasMoved time self.old self.new taken.old.items taken.new.items) }
        ensures left { OnErr result (IsLeft self.old self.new) }
    {
        if are_of(&self.events, time) {
            taken.extend_from_slice(&self.events)?;
            self.remove_all();
            return Ok(());
        }
        self.take_each(time, taken)
    }

    /// Moves the events of a time as [`take`](Self::take), one by one.
    fn take_each(&mut self, time: u64, taken: &mut Vec<Event<B>>) -> Result<(), AllocError>
        requires { All (λ e. time ≤ e.time) self.old }
        ensures moved { OnOk result
            (HasMoved time self.old self.new taken.old.items taken.new.items) }
        ensures left { OnErr result (IsLeft self.old self.new) }
    {
        let mut next = None;
        while self.least() == time {
            self.take_one(time, &mut next);
            let Some(event) = &next else {
                return Ok(());
            };
            taken.push(*event)?;
        }
        Ok(())
    }

    /// Takes all events out.
    pub fn take_out(&mut self) -> Vec<Event<B>>
        ensures events { result.items ≡ self.old }
        ensures none { self.new ≡ [] }
    {
        self.least = NEVER;
        let alloc = *self.events.allocator();
        mem::replace(&mut self.events, Vec::new(alloc))
    }

    /// Removes all events, and their room where it is much larger than they need.
    fn remove_all(&mut self)
        ensures { self.new ≡ [] }
    {
        if is_too_large(&self.events) {
            let alloc = *self.events.allocator();
            self.events = Vec::new(alloc);
        } else {
            self.events.clear();
        }
        self.least = NEVER;
    }

    /// Keeps the room of these events, where there are none, unless it is much larger than they need.
    pub fn keep_room(&mut self, events: Vec<Event<B>>)
        ensures { self.new ≡ self.old }
    {
        if self.events.is_empty() && !is_too_large(&events) {
            self.events = events;
            self.events.clear();
        }
    }
}

/// Makes room for one more event.
#[inline(never)]
fn make_room<B: Copy>(events: &mut Vec<Event<B>>) -> Result<(), AllocError>
    ensures same { events.new.items ≡ events.old.items }
    ensures room { OnOk result (vec_len events.new < vec_capacity events.new) }
{
    events.reserve(1)
}

/// Whether the room of these events is much larger than they need: more than four times as large, and room for more than 64.
fn is_too_large<B: Copy>(events: &Vec<Event<B>>) -> bool {
    events.capacity() / 4 > events.len().saturating_add(16)
}

/// Whether all these events are of this time.
#[inline(always)]
fn are_of<B: Copy>(events: &[Event<B>], time: u64) -> bool
    ensures { IsTrue result → All (λ e. e.time ≡ time) events.now }
{
    for event in events {
        if event.time != time {
            return false;
        }
    }
    true
}

/// Where the last event of a time stands. `None` only where there is none.
#[inline(always)]
fn last_of<B: Copy>(events: &[Event<B>], time: u64) -> Option<usize>
    ensures found { IfSome result (λ at. (at < length events.now)
        × HoldsAt (λ e. e.time ≡ time) events.now at) }
    ensures none { IfNone result (All (λ e. e.time ≢ time) events.now) }
{
    let mut at = events.len();
    while at > 0 {
        at -= 1;
        if events[at].time == time {
            return Some(at);
        }
    }
    None
}

/// The least time of these events, none of which is before this one, or [`NEVER`] where there is none. Where the last is of this
/// time, it looks at no other.
#[inline(always)]
fn least_from<B: Copy>(events: &[Event<B>], from: u64) -> u64
    requires { All (λ e. from ≤ e.time) events.now }
    ensures { IsLeastOr never events.now result }
{
    let count = events.len();
    if count > 0 && events[count - 1].time == from {
        return from;
    }
    least_of(events)
}

/// The least time of these events, or [`NEVER`] where there is none.
fn least_of<B: Copy>(events: &[Event<B>]) -> u64
    ensures { IsLeastOr never events.now result }
{
    let mut least = NEVER;
    for event in events {
        least = least.min(event.time);
    }
    least
}
