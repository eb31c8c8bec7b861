ghost use Rattle.std.specs.Prelude.{◌≡◌, ◌≢◌, ◌⊎◌, ◌+◌, ◌<◌, ◌≤◌, ◌++◌, ◌∷◌, [], ℕ, List, All, Err, IfErr, IfOk, IfSome, MatchOption, OnOk, length, map, max, slice_index_or};
ghost use Rattle.std.specs.List.{concat};
ghost use Rattle.rw_sweep.specs.Joining.{PlacedLine, lines_of_place};
ghost use Rattle.rw_sweep.specs.Table.{header_line};
ghost use Rattle.rw_sweep.specs.JoinSlots.{AreSlotsOf, HaveGained, HaveGrown, IsFirstEmpty, IsFaultOfCount, IsFaultOfSlot, IsFaultOfSlots, OfHeld};

use crate::joiner::join_fault::JoinFault;
use crate::table::header_text;
use std::alloc::Global;

/// How many lines a place has.
const LINES: u64 = 3;

/// What has been read of a place.
#[derive(Drop)]
pub(crate) struct Slot {
    /// How many lines.
    pub(crate) count: u64,
    /// These lines, one after another.
    pub(crate) text: Vec<u8>,
}

/// Puts a line to those of its place.
pub(crate) fn add(
    alloc: Global,
    slots: &mut Vec<Slot>,
    place: u64,
    line: &[u8],
) -> Result<(), JoinFault>
    ensures gained { OnOk result (HaveGained (record { place = place; line = line.now } ∷ [])
        slots.old.items slots.new.items) }
    ensures grown { OnOk result (HaveGrown (record { place = place; line = line.now } ∷ [])
        slots.old.items slots.new.items) }
    ensures fault { IfErr result (λ e. e ≢ JoinFault.Memory → (e ≡ JoinFault.Twice place)
        × OfHeld slots.old.items (λ ls. length (lines_of_place ls place) ≡ 3)) }
{
    let index = place as usize;
    grow(alloc, slots, index)?;
    let slot = &mut slots[index];
    if slot.count >= LINES {
        return Err(JoinFault::Twice(place));
    }
    slot.text.extend_from_slice(line)?;
    slot.count += 1;
    Ok(())
}

/// Adds empty slots till there is one of this number.
fn grow(alloc: Global, slots: &mut Vec<Slot>, index: usize) -> Result<(), JoinFault>
    ensures gained { OnOk result (HaveGained [] slots.old.items slots.new.items) }
    ensures there { OnOk result
        (length slots.new.items ≡ max (length slots.old.items) (index + 1)) }
    ensures fault { IfErr result (λ e. e ≡ JoinFault.Memory) }
{
    while slots.len() <= index {
        let slot = Slot {
            count: 0,
            text: Vec::new(alloc),
        };
        if slots.push(slot).is_err() {
            return Err(JoinFault::Memory);
        }
    }
    Ok(())
}

/// That there are as many places as are asked for.
pub(crate) fn check_count(slots: &[Slot], count: Option<u64>) -> Result<(), JoinFault>
    ensures many { OnOk result (IfSome count (λ n. length slots.now ≡ n)) }
    ensures fault { IfErr result (λ e. IsFaultOfCount slots.now count e) }
{
    let places = slots.len() as u64;
    match count {
        Some(asked) if places < asked => Err(JoinFault::Missing(first_missing(slots))),
        Some(asked) if asked < places => Err(JoinFault::Beyond(asked)),
        _ => Ok(()),
    }
}

/// The first place that has no line.
fn first_missing(slots: &[Slot]) -> u64
    ensures { IsFirstEmpty slots.now result }
{
    for (place, slot) in slots.iter().enumerate() {
        if slot.count == 0 {
            return place as u64;
        }
    }
    slots.len() as u64
}

/// The header and the lines of all places, in order, of which each has three.
pub(crate) fn put_together(alloc: Global, slots: &[Slot]) -> Result<Vec<u8>, JoinFault>
    ensures three { OnOk result (All (λ slot. slot.count ≡ 3) slots.now) }
    ensures told { IfOk result (λ text.
        text.items ≡ header_line ++ concat (map (λ slot. slot.text.items) slots.now)) }
    ensures fault { IfErr result (λ e. e ≢ JoinFault.Memory → IsFaultOfSlots slots.now e) }
{
    let mut text = Vec::from_slice(alloc, header_text())?;
    for (place, slot) in slots.iter().enumerate() {
        check_lines(slot.count, place as u64)?;
        text.extend_from_slice(slot.text.as_slice())?;
    }
    Ok(text)
}

/// That a place has three lines.
fn check_lines(count: u64, place: u64) -> Result<(), JoinFault>
    ensures three { OnOk result (count ≡ 3) }
    ensures fault { IfErr result (λ e. IsFaultOfSlot place count e) }
{
    match count {
        3 => Ok(()),
        0 => Err(JoinFault::Missing(place)),
        _ => Err(JoinFault::Lines(place)),
    }
}
