ghost use Rattle.std.specs.Prelude.{◌≡◌, ◌<◌, ◌≤◌, ◌↔◌, ◌++◌, [], ◌∷◌, All, IfNone, IfSome, IsPermutation, IsTrue, OnErr, OnOk, length};
ghost use Rattle.rw_vt.specs.Words.{Count};
ghost use Rattle.rw_pending.specs.Later.{HasMoved, IsLeft};
ghost use Rattle.rw_pending.specs.Wheel.{IsChangedAt, IsLeastOfFirst, all_of, slot_at, slots_of_wheel};

use crate::marks::Marks;
use crate::slot::Slot;
use crate::times::NEVER;
use rw_vt::Event;
use std::alloc::{AllocError, Global};
use std::marker::Model;

/// The slots of a wheel, and which of them have events. Contracts see them as a list of lists of events.
#[derive(Drop)]
pub struct Slots<B: Copy> {
    /// As many as were needed so far.
    slots: Vec<Slot<B>>,
    marks: Marks,
    alloc: Global,
}

impl<B: Copy> Model for Slots<B> {
    ghost use Rattle.std.specs.Prelude.{List};
    ghost use Rattle.rw_vt.specs.declared.event.Event.{Event};
    ghost use Rattle.rw_pending.specs.Wheel.{AreMarked};

    ghost Value = { List (List (Event B)) };

    ghost view = { λ s. s.slots.items };

    ghost invariant = { λ s. AreMarked s.marks s.slots.items };
}

impl<B: Copy> Slots<B> {
    /// No events. Takes no memory yet.
    pub fn new(alloc: Global) -> Self
        ensures { result ≡ [] }
    {
        Slots {
            slots: Vec::new(alloc),
            marks: Marks::new(),
            alloc,
        }
    }

    /// The least time in the first slot that has an event, or [`NEVER`] where none has.
    #[inline(always)]
    pub fn least(&self) -> u64
        ensures { IsLeastOfFirst self.now result }
    {
        let Some(at) = self.marks.first() else {
            return NEVER;
        };
        let Some(slot) = self.slots.get(at) else {
            return NEVER;
        };
        slot.least()
    }

    /// Whether no slot has an event.
    pub fn is_empty(&self) -> bool
        ensures { IsTrue result ↔ (all_of self.now ≡ []) }
    {
        match self.marks.first() {
            Some(_) => false,
            None => true,
        }
    }

    /// How many events a slot has.
    #[inline(always)]
    pub fn count(&self, at: usize) -> usize
        ensures { result ≡ length (slot_at self.now at) }
    {
        match self.slots.get(at) {
            Some(slot) => slot.count(),
            None => 0,
        }
    }

    /// Adds an event to a slot. Where memory is refused, no event has changed.
    #[inline(always)]
    pub fn put(&mut self, at: usize, event: &Event<B>) -> Result<(), AllocError>
        requires { at < slots_of_wheel }
        ensures changed { IsChangedAt at self.old self.new }
        ensures added { OnOk result (slot_at self.new at ≡ slot_at self.old at ++ event.now ∷ []) }
        ensures unchanged { OnErr result ((slot_at self.new at ≡ slot_at self.old at)
            × (all_of self.new ≡ all_of self.old)) }
    {
        grow(&mut self.slots, at, self.alloc)?;
        let slot = &mut self.slots[at];
        slot.push(event)?;
        self.marks.set(at);
        Ok(())
    }

    /// Takes an event of a time, than which none in a slot is earlier, into `next`. `None` only where that slot has none of that
    /// time.
    #[inline(always)]
    pub fn take_one(&mut self, at: usize, time: u64, next: &mut Option<Event<B>>)
        requires within { at < slots_of_wheel }
        requires least { All (λ e. time ≤ e.time) (slot_at self.old at) }
        ensures changed { IsChangedAt at self.old self.new }
        ensures taken { IfSome next.new (λ e.
            IsPermutation (slot_at self.old at) (e ∷ slot_at self.new at)) }
        ensures of_time { IfSome next.new (λ e. e.time ≡ time) }
        ensures none { IfNone next.new (All (λ e. time < e.time) (slot_at self.old at)) }
        ensures unchanged { IfNone next.new (self.new ≡ self.old) }
    {
        if at >= self.slots.len() {
            *next = None;
            return;
        }
        let slot = &mut self.slots[at];
        slot.take_one(time, next);
        if slot.count() == 0 {
            self.marks.clear(at);
        }
    }

    /// Moves the events of a time, than which none in a slot is earlier, to the end of `taken`. Where memory is refused, some
    /// events are lost.
    pub fn take(
        &mut self,
        at: usize,
        time: u64,
        taken: &mut Vec<Event<B>>,
    ) -> Result<(), AllocError>
        requires within { at < slots_of_wheel }
        requires least { All (λ e. time ≤ e.time) (slot_at self.old at) }
        ensures changed { IsChangedAt at self.old self.new }
        ensures moved { OnOk result (HasMoved time (slot_at self.old at) (slot_at self.new at)
            taken.old.items taken.new.items) }
        ensures left { OnErr result (IsLeft (slot_at self.old at) (slot_at self.new at)) }
    {
        if at >= self.slots.len() {
            return Ok(());
        }
        let slot = &mut self.slots[at];
        let result = slot.take(time, taken);
        if slot.count() == 0 {
            self.marks.clear(at);
        }
        result
    }

    /// Takes all events of a slot out.
    pub fn take_out(&mut self, at: usize) -> Vec<Event<B>>
        requires { at < slots_of_wheel }
        ensures changed { IsChangedAt at self.old self.new }
        ensures events { result.items ≡ slot_at self.old at }
        ensures none { slot_at self.new at ≡ [] }
    {
        if at >= self.slots.len() {
            return Vec::new(self.alloc);
        }
        let slot = &mut self.slots[at];
        let events = slot.take_out();
        self.marks.clear(at);
        events
    }

    /// Keeps the room of these events for a slot without events, unless it is much larger than they need.
    pub fn keep_room(&mut self, at: usize, events: Vec<Event<B>>)
        ensures { self.new ≡ self.old }
    {
        if at < self.slots.len() {
            let slot = &mut self.slots[at];
            slot.keep_room(events);
        }
    }
}

/// Adds slots without events until there is this one.
#[inline(always)]
fn grow<B: Copy>(slots: &mut Vec<Slot<B>>, at: usize, alloc: Global) -> Result<(), AllocError>
    ensures slots { (k : Count) → slot_at slots.new.items k ≡ slot_at slots.old.items k }
    ensures all { all_of slots.new.items ≡ all_of slots.old.items }
    ensures there { OnOk result (at < length slots.new.items) }
{
    while slots.len() <= at {
        slots.push(Slot::new(alloc))?;
    }
    Ok(())
}
