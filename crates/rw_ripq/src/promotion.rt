// Promote: a hit raises an object's priority by a virtual block, without writing it.
ghost use Rattle.std.specs.Prelude.{◌≡◌, true, ◌≤◌, ◌<◌, ◌+◌, ◌^◌, ◌≢◌, ◌↔◌, length, not, nat_eq, OnOk, IfOk, IsSome, Some, Err, []};
ghost use Rattle.rw_blocks.specs.State.{row_at, row_or, QueueState};
ghost use Rattle.rw_blocks.specs.Loose.{IsLoose, IsWellFormedQueue};
ghost use Rattle.rw_blocks.specs.Sums.{total};
ghost use Rattle.rw_blocks.specs.Tags.{StandsIn};
ghost use Rattle.rw_vt.specs.declared.refusal.Refusal.{Refusal};
ghost use Rattle.rw_ripq.specs.Limits.{exhaustion};
ghost use Rattle.rw_ripq.specs.Levels.{hit_target_from};
ghost use Rattle.rw_ripq.specs.Promote.{is_active_in, promote_to, promote};
ghost use Rattle.rw_ripq.specs.Laws.{KeepsHome, KeepsOthers, LeavesWithBlock};
ghost use Rattle.rw_ripq.specs.Order.{KeepsOrder, LeavesFromTail};
ghost use Rattle.rw_ripq.specs.Weight.{IsShort};
ghost use Rattle.rw_ripq.specs.Trail.{Leads};

use crate::levels::{level_of_section, slru_target};
use crate::putting::make_room;
use crate::sealed::clear;
use crate::{EXHAUSTED, Marks, Policy, Trail};
use rw_blocks::{Kind, Place, Queue};
use rw_vt::{NoMemory, Refusal};
use std::alloc::Global;

/// The section that a hit goes to of an object whose place is a block of the section `from`, by the level that it has
/// before anything moves.
fn hit_target(queue: &Queue, policy: Policy, from: usize) -> usize
    requires loose { IsLoose queue.now }
    requires there { from < length queue.now.sections }
    requires some { 1 ≤ total queue.now }
    ensures target { result ≡ hit_target_from policy queue.now from }
    ensures there { result < length queue.now.sections }
{
    match policy {
        Policy::Off | Policy::Lru => 0,
        Policy::Slru(levels) => {
            let level = level_of_section(queue, levels, from);
            slru_target(queue, levels, (level + 1).min(levels.segments))
        }
    }
}

/// Raises an object's priority, a hit: where its place is not already an active block of the target section, its place
/// becomes that section's active virtual block, which is sealed first where the size does not fit, and the place before
/// is taken out where it is a sealed virtual block without rows then. The object is not written again: its home stays.
///
/// Hands back the trail that takes it back, and whether the place changed. The object is stored and the policy is not
/// `Off`.
///
/// # Errors
///
/// `Exhausted` exactly where the next serial is [`EXHAUSTED`] or more, which is tested first, and `Memory` only where memory was
/// refused. Nothing is said of the queue then: it is only dropped.
pub fn promote(
    alloc: Global,
    queue: &mut Queue,
    policy: Policy,
    object: u64,
) -> Result<(Trail, bool), Refusal>
    requires well_formed { IsWellFormedQueue queue.old }
    requires resident { IsSome (row_at queue.old object) }
    requires stores { policy ≢ Policy.Off }
    ensures exhausted { (result ≡ Err Refusal.Exhausted) ↔ (exhaustion ≤ queue.old.next) }
    ensures effect { OnOk result (queue.new ≡ promote policy queue.old object) }
    ensures changed { IfOk result (λ done.
        done.1 ≡ not (nat_eq (row_or queue.new object).place (row_or queue.old object).place)) }
    ensures leads { IfOk result (λ done. Leads done.0 queue.old queue.new) }
    ensures short { IfOk result (λ done. IsShort done.0 queue.old queue.new) }
    ensures kept { OnOk result (IsWellFormedQueue queue.new) }
    ensures home { OnOk result (KeepsHome queue.old object queue.new) }
    ensures others { OnOk result (KeepsOthers queue.old object queue.new) }
    ensures order { OnOk result (KeepsOrder queue.old queue.new) }
    ensures leaves { OnOk result (LeavesWithBlock queue.old queue.new) }
    ensures tail { OnOk result (LeavesFromTail queue.old queue.new) }
{
    let row = queue.row(object).unwrap();
    promote_row(alloc, queue, policy, object, row)
}

/// [`promote`] of an object whose row is `row`, which is not looked up again.
///
/// # Errors
///
/// As [`promote`].
pub fn promote_row(
    alloc: Global,
    queue: &mut Queue,
    policy: Policy,
    object: u64,
    row: Place,
) -> Result<(Trail, bool), Refusal>
    requires well_formed { IsWellFormedQueue queue.old }
    requires row { row_at queue.old object ≡ Some row }
    requires stores { policy ≢ Policy.Off }
    ensures exhausted { (result ≡ Err Refusal.Exhausted) ↔ (exhaustion ≤ queue.old.next) }
    ensures effect { OnOk result (queue.new ≡ promote policy queue.old object) }
    ensures changed { IfOk result (λ done.
        done.1 ≡ not (nat_eq (row_or queue.new object).place (row_or queue.old object).place)) }
    ensures leads { IfOk result (λ done. Leads done.0 queue.old queue.new) }
    ensures short { IfOk result (λ done. IsShort done.0 queue.old queue.new) }
    ensures kept { OnOk result (IsWellFormedQueue queue.new) }
    ensures home { OnOk result (KeepsHome queue.old object queue.new) }
    ensures others { OnOk result (KeepsOthers queue.old object queue.new) }
    ensures order { OnOk result (KeepsOrder queue.old queue.new) }
    ensures leaves { OnOk result (LeavesWithBlock queue.old queue.new) }
    ensures tail { OnOk result (LeavesFromTail queue.old queue.new) }
{
    let mut trail = Trail::new(alloc);
    let changed = promote_with(queue, &mut trail, policy, object, row)?;
    Ok((trail, changed))
}

/// [`promote_row`] with a trail of the caller's, which has no mark yet, or with [`crate::NoMarks`], which keeps none. Answers
/// whether the place changed.
///
/// # Errors
///
/// As [`promote`]. Nothing is said of the trail then.
#[inline(always)]
pub fn promote_with<M: Marks>(
    queue: &mut Queue,
    trail: &mut M,
    policy: Policy,
    object: u64,
    row: Place,
) -> Result<bool, Refusal>
    requires well_formed { IsWellFormedQueue queue.old }
    requires row { row_at queue.old object ≡ Some row }
    requires stores { policy ≢ Policy.Off }
    requires none { M.list trail.old ≡ [] }
    ensures exhausted { (result ≡ Err Refusal.Exhausted) ↔ (exhaustion ≤ queue.old.next) }
    ensures effect { OnOk result (queue.new ≡ promote policy queue.old object) }
    ensures changed { IfOk result (λ changed.
        changed ≡ not (nat_eq (row_or queue.new object).place (row_or queue.old object).place)) }
    ensures leads { OnOk result (M.keeps ≡ true
        → Leads (M.list trail.new) queue.old queue.new) }
    ensures short { OnOk result (M.keeps ≡ true
        → IsShort (M.list trail.new) queue.old queue.new) }
    ensures kept { OnOk result (IsWellFormedQueue queue.new) }
    ensures home { OnOk result (KeepsHome queue.old object queue.new) }
    ensures others { OnOk result (KeepsOthers queue.old object queue.new) }
    ensures order { OnOk result (KeepsOrder queue.old queue.new) }
    ensures leaves { OnOk result (LeavesWithBlock queue.old queue.new) }
    ensures tail { OnOk result (LeavesFromTail queue.old queue.new) }
{
    if queue.next_serial() >= EXHAUSTED {
        return Err(Refusal::Exhausted);
    }
    let from = queue.section_of(row.place).unwrap();
    let section = hit_target(queue, policy, from);
    let changed = promote_to(queue, trail, object, row, from, section)?;
    Ok(changed)
}

/// Makes the section's active virtual block the object's place, unless that is an active block of the section already.
/// The object's place before is a block of the section `from`. Answers whether the place changed.
#[inline(always)]
fn promote_to<M: Marks>(
    queue: &mut Queue,
    trail: &mut M,
    object: u64,
    row: Place,
    from: usize,
    section: usize,
) -> Result<bool, NoMemory>
    requires loose { IsLoose queue.old }
    requires row { row_at queue.old object ≡ Some row }
    requires stands { StandsIn row.place from queue.old.sections }
    requires there { section < length queue.old.sections }
    requires fresh { queue.old.next < 2 ^ 63 }
    ensures effect { OnOk result (queue.new ≡ promote_to queue.old object section) }
    ensures changed { IfOk result (λ changed.
        changed ≡ not (is_active_in queue.old (row_or queue.old object).place section)) }
    ensures leads { OnOk result (M.keeps ≡ true → (start : QueueState)
        → Leads (M.list trail.old) start queue.old → Leads (M.list trail.new) start queue.new) }
    ensures marks { OnOk result (M.keeps ≡ true
        → length (M.list trail.new) ≤ length (M.list trail.old) + 3) }
{
    if row.place == queue.active(section, Kind::Device)
        || row.place == queue.active(section, Kind::Virtual)
    {
        return Ok(false);
    }
    if let Some((mark, left)) = queue.replace_within(object, row, from, section)? {
        trail.push(mark)?;
        if !left {
            clear(queue, trail, row.place)?;
        }
        return Ok(true);
    }
    make_room(queue, trail, section, Kind::Virtual, row.size)?;
    let mark = queue.replace_row(object, row, section)?;
    trail.push(mark)?;
    clear(queue, trail, row.place)?;
    Ok(true)
}
