// Insert: a miss puts an object at the target of its level, and the queue is adjusted where that sealed a device block.
ghost use Rattle.std.specs.Prelude.{◌≡◌, true, ◌≤◌, ◌<◌, ◌+◌, ◌^◌, ◌≢◌, ◌↔◌, length, None, OnOk, IfOk, Err, []};
ghost use Rattle.rw_blocks.specs.State.{row_at, QueueState};
ghost use Rattle.rw_blocks.specs.Loose.{IsWellFormedQueue};
ghost use Rattle.rw_vt.specs.declared.refusal.Refusal.{Refusal};
ghost use Rattle.rw_ripq.specs.Limits.{exhaustion};
ghost use Rattle.rw_ripq.specs.Work.{work_of, work_before, no_tally};
ghost use Rattle.rw_ripq.specs.Insert.{insert, insert_at};
ghost use Rattle.rw_ripq.specs.Levels.{highest_level};
ghost use Rattle.rw_ripq.specs.Trail.{Leads};
ghost use Rattle.rw_ripq.specs.Record.{IsInsertable};
ghost use Rattle.rw_ripq.specs.Laws.{KeepsSizes, AddsOnly, LeavesWithBlock};
ghost use Rattle.rw_ripq.specs.Order.{KeepsOrder, LeavesFromTail};
ghost use Rattle.rw_ripq.specs.Weight.{Spends, IsShort};

use crate::adjusting::adjust;
use crate::levels::target;
use crate::putting::make_room;
use crate::{Change, EXHAUSTED, Marks, Policy, Tally, Trail};
use rw_blocks::{Kind, Queue};
use rw_vt::{NoMemory, Refusal};
use std::alloc::Global;

/// Stores an object of `size` bytes, a miss: it is put into the target section of the level, whose active device
/// block is sealed first where the size does not fit. Where that sealed a block the queue is adjusted: from the tail
/// blocks are evicted while more device blocks are sealed than the shape allows, and at most one pair of sections is
/// merged and at most one section split.
///
/// Hands back the trail that takes it back, and the counts. Where r rows left or have another home now, and m sealed
/// blocks are gone, the trail has at most 8 + 4r + m marks.
///
/// The policy is not `Off`, the object is not stored, the size is 1 to the block size, and the level 1 to the number of
/// segments, under `Lru` 1 to 3.
///
/// # Errors
///
/// `Exhausted` exactly where the next serial is [`EXHAUSTED`] or more, which is tested first, and `Memory` only where memory was
/// refused. Nothing is said of the queue then: it is only dropped.
pub fn insert(
    alloc: Global,
    queue: &mut Queue,
    policy: Policy,
    object: u64,
    size: u64,
    level: u8,
) -> Result<(Trail, Tally), Refusal>
    requires well_formed { IsWellFormedQueue queue.old }
    requires stores { policy ≢ Policy.Off }
    requires new { row_at queue.old object ≡ None }
    requires some { 1 ≤ size }
    requires small { size ≤ queue.old.shape.block }
    requires from_one { 1 ≤ level }
    requires to_highest { level ≤ highest_level policy }
    ensures exhausted { (result ≡ Err Refusal.Exhausted) ↔ (exhaustion ≤ queue.old.next) }
    ensures effect { OnOk result (queue.new ≡ (insert policy queue.old object size level).queue) }
    ensures tally { IfOk result (λ done.
        done.1 ≡ (insert policy queue.old object size level).tally) }
    ensures leads { IfOk result (λ done. Leads done.0 queue.old queue.new) }
    ensures short { IfOk result (λ done. IsShort done.0 queue.old queue.new) }
    ensures kept { OnOk result (IsWellFormedQueue queue.new) }
    ensures sizes { OnOk result (KeepsSizes queue.old queue.new) }
    ensures adds { OnOk result (AddsOnly queue.old object size queue.new) }
    ensures rows { IfOk result (λ done.
        length queue.new.rows + done.1.evicted ≡ length queue.old.rows + 1) }
    ensures order { OnOk result (KeepsOrder queue.old queue.new) }
    ensures leaves { OnOk result (LeavesWithBlock queue.old queue.new) }
    ensures tail { OnOk result (LeavesFromTail queue.old queue.new) }
{
    let mut change = Change::new(alloc, Tally::default());
    insert_with(queue, &mut change, policy, object, size, level)?;
    let Change { trail, counts } = change;
    Ok((trail, counts))
}

/// [`insert`] with a change of the caller's, which has no mark and no count yet. With [`crate::NoMarks`] it keeps none, and the
/// insertion cannot be taken back.
///
/// # Errors
///
/// As [`insert`]. Nothing is said of the change then.
pub fn insert_with<M: Marks>(
    queue: &mut Queue,
    change: &mut Change<Tally, M>,
    policy: Policy,
    object: u64,
    size: u64,
    level: u8,
) -> Result<(), Refusal>
    requires well_formed { IsWellFormedQueue queue.old }
    requires stores { policy ≢ Policy.Off }
    requires new { row_at queue.old object ≡ None }
    requires some { 1 ≤ size }
    requires small { size ≤ queue.old.shape.block }
    requires from_one { 1 ≤ level }
    requires to_highest { level ≤ highest_level policy }
    requires none { M.list change.old.trail ≡ [] }
    requires uncounted { change.old.counts ≡ no_tally }
    ensures exhausted { (result ≡ Err Refusal.Exhausted) ↔ (exhaustion ≤ queue.old.next) }
    ensures effect { OnOk result (queue.new ≡ (insert policy queue.old object size level).queue) }
    ensures tally { OnOk result
        (change.new.counts ≡ (insert policy queue.old object size level).tally) }
    ensures leads { OnOk result (M.keeps ≡ true
        → Leads (M.list change.new.trail) queue.old queue.new) }
    ensures short { OnOk result (M.keeps ≡ true
        → IsShort (M.list change.new.trail) queue.old queue.new) }
    ensures kept { OnOk result (IsWellFormedQueue queue.new) }
    ensures sizes { OnOk result (KeepsSizes queue.old queue.new) }
    ensures adds { OnOk result (AddsOnly queue.old object size queue.new) }
    ensures rows { OnOk result
        (length queue.new.rows + change.new.counts.evicted ≡ length queue.old.rows + 1) }
    ensures order { OnOk result (KeepsOrder queue.old queue.new) }
    ensures leaves { OnOk result (LeavesWithBlock queue.old queue.new) }
    ensures tail { OnOk result (LeavesFromTail queue.old queue.new) }
{
    if queue.next_serial() >= EXHAUSTED {
        return Err(Refusal::Exhausted);
    }
    let section = target(queue, policy, level) as usize;
    insert_at(queue, change, object, size, section)?;
    Ok(())
}

/// Puts a new object into the section, and adjusts where that sealed a device block.
fn insert_at<M: Marks>(
    queue: &mut Queue,
    change: &mut Change<Tally, M>,
    object: u64,
    size: u64,
    section: usize,
) -> Result<(), NoMemory>
    requires insertable { IsInsertable queue.old object size }
    requires there { section < length queue.old.sections }
    requires fresh { queue.old.next < exhaustion }
    requires none { change.old.counts ≡ no_tally }
    ensures effect { OnOk result (work_of queue.new change.new.counts
        ≡ insert_at queue.old object size section) }
    ensures leads { OnOk result (M.keeps ≡ true → (start : QueueState)
        → Leads (M.list change.old.trail) start queue.old
        → Leads (M.list change.new.trail) start queue.new) }
    ensures spends { OnOk result (M.keeps ≡ true
        → Spends (length (M.list change.old.trail) + 1) (work_before queue.old)
        (length (M.list change.new.trail)) (work_of queue.new change.new.counts)) }
{
    if let Some(mark) = queue.add_within(object, size, section)? {
        change.trail.push(mark)?;
        return Ok(());
    }
    let full = make_room(queue, &mut change.trail, section, Kind::Device, size)?;
    let mark = queue.add(object, size, section)?;
    change.trail.push(mark)?;
    if full {
        change.counts.writes += 1;
        adjust(queue, change)?;
    }
    Ok(())
}
