// Sealed blocks that leave their lists.
ghost use Rattle.std.specs.Prelude.{◌≡◌, ◌<◌, ◌≤◌, ◌+◌, length, position, true, false, OnOk, IfSome, IsNone, IsTrue, ◌-◌, slice_index_or};
ghost use Rattle.rw_blocks.specs.State.{section_at};
ghost use Rattle.rw_blocks.specs.Sections.{has_serial, is_virtual};
ghost use Rattle.rw_blocks.specs.Loose.{IsLoose, IsFree};
ghost use Rattle.rw_ripq.specs.Work.{work_before};
ghost use Rattle.rw_ripq.specs.Sealed.{is_sealed, sealed_section, sealed_position, without_block, is_abandoned, is_emptied, without_if_abandoned, without_if_emptied};
ghost use Rattle.rw_ripq.specs.Promote.{is_active_in};
ghost use Rattle.rw_ripq.specs.Record.{Recorded};

use crate::Marks;
use rw_blocks::{Kind, Queue};
use rw_vt::NoMemory;

/// Whether the block is the last one in the section's sealed list.
fn is_last(queue: &Queue, section: usize, block: u64) -> bool
    requires { section < length queue.now.sections }
    ensures some { IsTrue result → 0 < length (section_at queue.now section).sealed }
    ensures last { IsTrue result → (slice_index_or (section_at queue.now section).sealed
        (length (section_at queue.now section).sealed - 1) (0, Kind.Device)).0 ≡ block }
{
    let sealed = queue.sealed(section);
    if sealed == 0 {
        return false;
    }
    let (serial, _) = queue.sealed_at(section, sealed - 1);
    serial == block
}

/// How many positions before and behind a guess a block is looked for.
const REACH: usize = 16;

/// About where the block stands in the section's sealed list, if it does: what was sealed later stands nearer the
/// front, and mostly has a greater serial.
fn guess(queue: &Queue, section: usize, block: u64) -> usize
    requires { section < length queue.now.sections }
    ensures { result ≤ length (section_at queue.now section).sealed }
{
    let mut from = 0;
    let mut to = queue.sealed(section);
    while from < to {
        let middle = from + (to - from) / 2;
        let (serial, _) = queue.sealed_at(section, middle);
        if serial > block {
            from = middle + 1;
        } else {
            to = middle;
        }
    }
    from
}

/// Where the block stands in the section's sealed list, if that is near the position `near`.
fn position_near(queue: &Queue, section: usize, block: u64, near: usize) -> Option<usize>
    requires { section < length queue.now.sections }
    ensures within { IfSome result (λ p. p < length (section_at queue.now section).sealed) }
    ensures here { IfSome result (λ p.
        (slice_index_or (section_at queue.now section).sealed p (0, Kind.Device)).0 ≡ block) }
{
    let end = queue.sealed(section).min(near.saturating_add(REACH));
    for position in near.saturating_sub(REACH)..end {
        let (serial, _) = queue.sealed_at(section, position);
        if serial == block {
            return Some(position);
        }
    }
    None
}

/// Where the block stands in the section's sealed list. An eviction asks for the last one, which is tried first; a
/// promotion for one that is mostly near where its serial leads. Only a block that is neither is searched for.
fn position_in(queue: &Queue, section: usize, block: u64) -> Option<usize>
    requires loose { IsLoose queue.now }
    requires there { section < length queue.now.sections }
    ensures { result ≡ position (has_serial block) (section_at queue.now section).sealed }
{
    if is_last(queue, section, block) {
        return Some(queue.sealed(section) - 1);
    }
    let near = guess(queue, section, block);
    if let Some(position) = position_near(queue, section, block, near) {
        return Some(position);
    }
    for position in 0..queue.sealed(section) {
        let (serial, _) = queue.sealed_at(section, position);
        if serial == block {
            return Some(position);
        }
    }
    None
}

/// Whether the block is one of the section's two active ones.
fn is_active_in(queue: &Queue, block: u64, section: usize) -> bool
    requires { section < length queue.now.sections }
    ensures { result ≡ is_active_in queue.now block section }
{
    block == queue.active(section, Kind::Device) || block == queue.active(section, Kind::Virtual)
}

/// Where a sealed block stands, as section and position; `None` exactly where no sealed block has the serial. An active
/// block is not searched for.
fn find_sealed(queue: &Queue, block: u64) -> Option<(usize, usize)>
    requires { IsLoose queue.now }
    ensures sealed { IfSome result (λ at. is_sealed queue.now block ≡ true) }
    ensures section { IfSome result (λ at. at.0 ≡ sealed_section queue.now block) }
    ensures position { IfSome result (λ at. at.1 ≡ sealed_position queue.now block) }
    ensures none { IsNone result → is_sealed queue.now block ≡ false }
{
    let Some(section) = queue.section_of(block) else {
        return None;
    };
    if is_active_in(queue, block, section) {
        return None;
    }
    let Some(position) = position_in(queue, section, block) else {
        return None;
    };
    Some((section, position))
}

/// Takes a sealed block out of its list. It is no row's home or place.
pub fn take_out<M: Marks>(queue: &mut Queue, trail: &mut M, block: u64) -> Result<(), NoMemory>
    requires loose { IsLoose queue.old }
    requires sealed { is_sealed queue.old block ≡ true }
    requires free { IsFree queue.old block }
    ensures effect { OnOk result (queue.new ≡ without_block queue.old block) }
    ensures trail { OnOk result (M.keeps ≡ true
        → Recorded (M.list trail.old) (work_before queue.old)
        (M.list trail.new) (work_before queue.new)) }
    ensures marks { OnOk result (M.keeps ≡ true
        → length (M.list trail.new) ≤ length (M.list trail.old) + 1) }
    ensures kept { OnOk result (IsLoose queue.new) }
{
    let (section, position) = find_sealed(queue, block).unwrap();
    let mark = queue.take_out(section, position)?;
    trail.push(mark)?;
    Ok(())
}

/// Whether the kind is virtual.
fn is_virtual(kind: Kind) -> bool
    ensures { result ≡ is_virtual kind }
{
    kind == Kind::Virtual
}

/// Whether the block is a sealed virtual one that no row has as its place.
fn is_emptied(queue: &Queue, block: u64) -> bool
    requires { IsLoose queue.now }
    ensures { result ≡ is_emptied queue.now block }
{
    if queue.is_placed(block) {
        return false;
    }
    let Some((section, position)) = find_sealed(queue, block) else {
        return false;
    };
    let (_, kind) = queue.sealed_at(section, position);
    is_virtual(kind)
}

/// Takes the block out where it is a sealed virtual one that no row has as its place.
pub fn clear<M: Marks>(queue: &mut Queue, trail: &mut M, block: u64) -> Result<(), NoMemory>
    requires { IsLoose queue.old }
    ensures effect { OnOk result (queue.new ≡ without_if_emptied queue.old block) }
    ensures trail { OnOk result (M.keeps ≡ true
        → Recorded (M.list trail.old) (work_before queue.old)
        (M.list trail.new) (work_before queue.new)) }
    ensures marks { OnOk result (M.keeps ≡ true
        → length (M.list trail.new) ≤ length (M.list trail.old) + 1) }
    ensures kept { OnOk result (IsLoose queue.new) }
{
    if is_emptied(queue, block) {
        take_out(queue, trail, block)?;
    }
    Ok(())
}

/// Whether the block is a sealed device one that is the home of no row.
fn is_abandoned(queue: &Queue, block: u64) -> bool
    requires { IsLoose queue.now }
    ensures { result ≡ is_abandoned queue.now block }
{
    // each row has some bytes
    if queue.fill(block) != 0 {
        return false;
    }
    let Some((section, position)) = find_sealed(queue, block) else {
        return false;
    };
    let (_, kind) = queue.sealed_at(section, position);
    !is_virtual(kind)
}

/// Takes the block out where it is a sealed device one that is the home of no row.
pub fn clear_home<M: Marks>(queue: &mut Queue, trail: &mut M, block: u64) -> Result<(), NoMemory>
    requires { IsLoose queue.old }
    ensures effect { OnOk result (queue.new ≡ without_if_abandoned queue.old block) }
    ensures trail { OnOk result (M.keeps ≡ true
        → Recorded (M.list trail.old) (work_before queue.old)
        (M.list trail.new) (work_before queue.new)) }
    ensures marks { OnOk result (M.keeps ≡ true
        → length (M.list trail.new) ≤ length (M.list trail.old) + 1) }
    ensures kept { OnOk result (IsLoose queue.new) }
{
    if is_abandoned(queue, block) {
        take_out(queue, trail, block)?;
    }
    Ok(())
}
