ghost use Rattle.std.specs.Prelude.{◌≡◌, ◌≢◌, ◌<◌, ◌≤◌, ◌↔◌, ◌++◌, [], ◌∷◌, All, IfNone, IfOk, IfSome, IsPermutation, IsTrue, OnErr, OnOk, take};
ghost use Rattle.rw_vt.specs.Limits.{end_of_time};
ghost use Rattle.rw_vt.specs.Words.{Count};
ghost use Rattle.rw_pending.specs.Later.{IsLeft};
ghost use Rattle.rw_pending.specs.Wheel.{AreInPlace, HasMovedFromSlots, all_of, levels, slot_at, slot_of, slots_of_wheel};

use crate::heap::Heap;
use crate::later::Store;
use crate::slots::Slots;
use rw_vt::{END, Event};
use std::alloc::{AllocError, Global};
use std::marker::Model;

/// How many slots a level has.
const SLOTS: usize = 256;

/// So many events of a slot are looked through where they are, and not dealt out.
const FEW: usize = 8;

/// A hierarchical timing wheel (Varghese and Lauck 1987): events by their times, which are whole ticks, in five levels of 256
/// slots. Contracts see them as a list, in no particular order.
///
/// An event waits at the level of the highest byte in which its time and the base differ, in the slot of that byte of its time. So
/// all events of a slot come before those of the slots behind it. Where a time is taken, the slot that has it is dealt out to lower
/// levels, unless it has few events, and that time becomes the base.
///
/// An event is put once, dealt out at most four times and taken once, whatever the number of events; what takes it looks at no more
/// than a few others. Putting and dealing out take memory, as slots come to have more events than before. An empty slot keeps its
/// room, unless that is much larger than what it had last.
#[derive(Drop)]
pub struct Wheel<B: Ord + Copy> {
    slots: Slots<B>,
    /// No event in a slot is earlier.
    base: u64,
    /// Events before the base or at the end of time, which have no slot.
    others: Heap<B>,
}

impl<B: Ord + Copy> Model for Wheel<B> {
    ghost use Rattle.std.specs.Prelude.{◌++◌, List};
    ghost use Rattle.rw_vt.specs.declared.event.Event.{Event};
    ghost use Rattle.rw_pending.specs.Wheel.{AreInPlace, all_of};

    ghost Value = { List (Event B) };

    ghost view = { λ w. all_of w.slots ++ w.others };

    ghost invariant = { λ w. AreInPlace w.base w.slots };
}

impl<B: Ord + Copy> Wheel<B> {
    /// No events. Takes no memory yet.
    pub fn new(alloc: Global) -> Self
        ensures { result ≡ [] }
    {
        Wheel {
            slots: Slots::new(alloc),
            base: 0,
            others: Heap::new(alloc),
        }
    }
}

impl<B: Ord + Copy> Store<B> for Wheel<B> {
    ghost events = { λ w. w };

    #[inline(always)]
    fn least(&self) -> u64 {
        self.slots.least().min(self.others.least())
    }

    fn is_empty(&self) -> bool {
        self.slots.is_empty() && self.others.is_empty()
    }

    #[inline(always)]
    fn put(&mut self, event: &Event<B>) -> Result<(), AllocError>
        ensures added { OnOk result (IsPermutation (self.old ++ event.now ∷ []) self.new) }
        ensures unchanged { OnErr result (self.new ≡ self.old) }
    {
        self.base = base_for(self.base, event.time, &self.slots);
        put_in_place(self.base, event, &mut self.slots, &mut self.others)
    }

    fn take_one(&mut self, time: u64, next: &mut Option<Event<B>>) -> Result<(), AllocError> {
        take_one_of_slots(
            &mut self.base,
            time,
            &mut self.slots,
            &mut self.others,
            next,
        )?;
        if next.is_some() {
            return Ok(());
        }
        self.others.take_one(time, next)
    }

    fn take(&mut self, time: u64, taken: &mut Vec<Event<B>>) -> Result<(), AllocError> {
        take_of_slots(
            &mut self.base,
            time,
            &mut self.slots,
            &mut self.others,
            taken,
        )?;
        self.others.take(time, taken)
    }
}

/// Whether a time that comes in has a slot.
#[inline(always)]
fn has_slot(base: u64, time: u64) -> bool
    ensures { IsTrue result ↔ ((base ≤ time) × (time < end_of_time)) }
{
    base <= time && time < END
}

/// The slot of a time.
#[inline(always)]
fn slot_of(base: u64, time: u64) -> usize
    requires from { base ≤ time }
    requires within { time < end_of_time }
    ensures slot { result ≡ slot_of levels base time }
    ensures within { result < slots_of_wheel }
{
    if time / 0x100 == base / 0x100 {
        (time % 0x100) as usize
    } else if time / 0x1_0000 == base / 0x1_0000 {
        SLOTS + (time / 0x100 % 0x100) as usize
    } else if time / 0x100_0000 == base / 0x100_0000 {
        2 * SLOTS + (time / 0x1_0000 % 0x100) as usize
    } else if time / 0x1_0000_0000 == base / 0x1_0000_0000 {
        3 * SLOTS + (time / 0x100_0000 % 0x100) as usize
    } else {
        4 * SLOTS + (time / 0x1_0000_0000) as usize
    }
}

/// The base with which an event comes in: where no slot has an event, one that is before the base begins anew.
#[inline(always)]
fn base_for<B: Copy>(base: u64, time: u64, slots: &Slots<B>) -> u64
    ensures { AreInPlace base slots.now → AreInPlace result slots.now }
{
    if time < base && slots.is_empty() {
        0
    } else {
        base
    }
}

/// Puts an event into its slot, or to the others where it has none. Where memory is refused, no event has changed.
#[inline(always)]
fn put_in_place<B: Ord + Copy>(
    base: u64,
    event: &Event<B>,
    slots: &mut Slots<B>,
    others: &mut Heap<B>,
) -> Result<(), AllocError>
    ensures placed { AreInPlace base slots.old → AreInPlace base slots.new }
    ensures added { OnOk result (IsPermutation ((all_of slots.old ++ others.old) ++ event.now ∷ [])
        (all_of slots.new ++ others.new)) }
    ensures unchanged { OnErr result
        (all_of slots.new ++ others.new ≡ all_of slots.old ++ others.old) }
{
    if has_slot(base, event.time) {
        slots.put(slot_of(base, event.time), event)
    } else {
        others.put(event)
    }
}

/// Puts events in place. Where memory is refused, some are not there.
fn put_all_in_place<B: Ord + Copy>(
    base: u64,
    events: &[Event<B>],
    slots: &mut Slots<B>,
    others: &mut Heap<B>,
) -> Result<(), AllocError>
    ensures placed { AreInPlace base slots.old → AreInPlace base slots.new }
    ensures added { OnOk result (IsPermutation ((all_of slots.old ++ others.old) ++ events.now)
        (all_of slots.new ++ others.new)) }
    ensures some { OnErr result ((n : Count)
        × IsPermutation ((all_of slots.old ++ others.old) ++ take n events.now)
        (all_of slots.new ++ others.new)) }
{
    for event in events {
        put_in_place(base, event, slots, others)?;
    }
    Ok(())
}

/// Deals out the slot of a time, than which no event in a slot is earlier, to lower levels, and makes it the base. Where memory is
/// refused, some events are lost.
#[inline(never)]
fn deal<B: Ord + Copy>(
    base: &mut u64,
    time: u64,
    at: usize,
    slots: &mut Slots<B>,
    others: &mut Heap<B>,
) -> Result<(), AllocError>
    requires from { base.old ≤ time }
    requires within { at < slots_of_wheel }
    requires slot { at ≡ slot_of levels base.old time }
    requires placed { AreInPlace base.old slots.old }
    requires least { All (λ e. time ≤ e.time) (all_of slots.old) }
    ensures base { base.new ≡ time }
    ensures placed { AreInPlace time slots.new }
    ensures dealt { OnOk result (IsPermutation (all_of slots.old ++ others.old)
        (all_of slots.new ++ others.new)) }
    ensures left { OnErr result
        (IsLeft (all_of slots.old ++ others.old) (all_of slots.new ++ others.new)) }
{
    let events = slots.take_out(at);
    *base = time;
    put_all_in_place(time, &events, slots, others)?;
    slots.keep_room(at, events);
    Ok(())
}

/// The slot that has all events of a time, than which no event is earlier. It is dealt out first, unless it has few
/// events. `None` where no slot can have one. Where memory is refused, some events are lost.
#[inline(always)]
fn open<B: Ord + Copy>(
    base: &mut u64,
    time: u64,
    slots: &mut Slots<B>,
    others: &mut Heap<B>,
) -> Result<Option<usize>, AllocError>
    requires placed { AreInPlace base.old slots.old }
    requires least { All (λ e. time ≤ e.time) (all_of slots.old ++ others.old) }
    ensures placed { AreInPlace base.new slots.new }
    ensures only { IfOk result (λ found. IfSome found (λ at. (at < slots_of_wheel)
        × ((k : Count) → k ≢ at → All (λ e. time < e.time) (slot_at slots.new k)))) }
    ensures none { IfOk result (λ found. IfNone found
        (All (λ e. time < e.time) (all_of slots.new))) }
    ensures same { OnOk result (IsPermutation (all_of slots.old ++ others.old)
        (all_of slots.new ++ others.new)) }
    ensures left { OnErr result
        (IsLeft (all_of slots.old ++ others.old) (all_of slots.new ++ others.new)) }
{
    if !has_slot(*base, time) {
        return Ok(None);
    }
    let at = slot_of(*base, time);
    if at < SLOTS || slots.count(at) <= FEW {
        return Ok(Some(at));
    }
    deal(base, time, at, slots, others)?;
    Ok(Some(slot_of(time, time)))
}

/// Takes an event of a time, than which none is earlier, out of the slots into `next`. `None` only where no slot has one of that
/// time. Where memory is refused, some events are lost.
#[inline(always)]
fn take_one_of_slots<B: Ord + Copy>(
    base: &mut u64,
    time: u64,
    slots: &mut Slots<B>,
    others: &mut Heap<B>,
    next: &mut Option<Event<B>>,
) -> Result<(), AllocError>
    requires placed { AreInPlace base.old slots.old }
    requires least { All (λ e. time ≤ e.time) (all_of slots.old ++ others.old) }
    ensures placed { AreInPlace base.new slots.new }
    ensures taken { OnOk result (IfSome next.new (λ e.
        IsPermutation (all_of slots.old ++ others.old) (e ∷ (all_of slots.new ++ others.new)))) }
    ensures of_time { OnOk result (IfSome next.new (λ e. e.time ≡ time)) }
    ensures none { OnOk result (IfNone next.new (All (λ e. time < e.time) (all_of slots.new))) }
    ensures same { OnOk result (IfNone next.new (IsPermutation (all_of slots.old ++ others.old)
        (all_of slots.new ++ others.new))) }
    ensures left { OnErr result
        (IsLeft (all_of slots.old ++ others.old) (all_of slots.new ++ others.new)) }
{
    let Some(at) = open(base, time, slots, others)? else {
        *next = None;
        return Ok(());
    };
    slots.take_one(at, time, next);
    Ok(())
}

/// Moves the events of a time, than which none is earlier, out of the slots to the end of `taken`. Where memory is refused, some
/// events are lost.
#[inline(always)]
fn take_of_slots<B: Ord + Copy>(
    base: &mut u64,
    time: u64,
    slots: &mut Slots<B>,
    others: &mut Heap<B>,
    taken: &mut Vec<Event<B>>,
) -> Result<(), AllocError>
    requires placed { AreInPlace base.old slots.old }
    requires least { All (λ e. time ≤ e.time) (all_of slots.old ++ others.old) }
    ensures placed { AreInPlace base.new slots.new }
    ensures moved { OnOk result (HasMovedFromSlots time (all_of slots.old ++ others.old)
        slots.new others.new taken.old.items taken.new.items) }
    ensures left { OnErr result
        (IsLeft (all_of slots.old ++ others.old) (all_of slots.new ++ others.new)) }
{
    let Some(at) = open(base, time, slots, others)? else {
        return Ok(());
    };
    slots.take(at, time, taken)
}
