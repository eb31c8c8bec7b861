// Evict: the last sealed block goes, while more device blocks are sealed than the shape allows.
ghost use Rattle.std.specs.Prelude.{◌≡◌, ◌<◌, ◌^◌, fold, true, false, OnOk, IfSome, IsSome, IsNone, Some};
ghost use Rattle.std.specs.Option.{option_map};
ghost use Rattle.rw_blocks.specs.State.{row_at};
ghost use Rattle.rw_blocks.specs.Loose.{IsLoose};
ghost use Rattle.rw_blocks.specs.Questions.{last_block};
ghost use Rattle.rw_ripq.specs.Work.{work_of};
ghost use Rattle.rw_ripq.specs.Evict.{leave, objects_placed, objects_homed, reinsert, evict_last, is_over, evict};
ghost use Rattle.rw_ripq.specs.Victim.{IsVictim};
ghost use Rattle.rw_ripq.specs.Record.{Recorded, HasHeadroom};

use crate::putting::{count_write, make_room};
use crate::sealed::{clear, take_out};
use crate::{Change, Marks, Tally};
use rw_blocks::{Kind, Queue};
use rw_vt::NoMemory;

/// Removes the objects whose place is the block, the least first, and counts them as evicted.
fn leave<M: Marks>(
    queue: &mut Queue,
    change: &mut Change<Tally, M>,
    block: u64,
) -> Result<(), NoMemory>
    requires loose { IsLoose queue.old }
    requires headroom { HasHeadroom (work_of queue.old change.old.counts) }
    ensures effect { OnOk result (work_of queue.new change.new.counts
        ≡ leave (work_of queue.old change.old.counts) (objects_placed queue.old block)) }
    ensures trail { OnOk result (M.keeps ≡ true
        → Recorded (M.list change.old.trail) (work_of queue.old change.old.counts)
        (M.list change.new.trail) (work_of queue.new change.new.counts)) }
{
    let objects = queue.placed(block)?;
    for object in &objects {
        let mark = queue.remove(*object)?;
        change.trail.push(mark)?;
        change.counts.evicted += 1;
    }
    Ok(())
}

/// Writes an object again, into the section that holds its place; its place before is taken out where that empties it.
fn reinsert<M: Marks>(
    queue: &mut Queue,
    change: &mut Change<Tally, M>,
    object: u64,
) -> Result<(), NoMemory>
    requires loose { IsLoose queue.old }
    requires resident { IsSome (row_at queue.old object) }
    requires fresh { queue.old.next < 2 ^ 63 }
    requires reinserted { change.old.counts.reinserted < 2 ^ 63 }
    requires writes { change.old.counts.writes < 2 ^ 63 }
    ensures effect { OnOk result (work_of queue.new change.new.counts
        ≡ reinsert (work_of queue.old change.old.counts) object) }
    ensures trail { OnOk result (M.keeps ≡ true
        → Recorded (M.list change.old.trail) (work_of queue.old change.old.counts)
        (M.list change.new.trail) (work_of queue.new change.new.counts)) }
{
    let row = queue.row(object).unwrap();
    let section = queue.section_of(row.place).unwrap();
    if let Some(mark) = queue.rehome_within(object, row, section, section)? {
        change.trail.push(mark)?;
        clear(queue, &mut change.trail, row.place)?;
        change.counts.reinserted += 1;
        return Ok(());
    }
    let full = make_room(queue, &mut change.trail, section, Kind::Device, row.size)?;
    let mark = queue.rehome(object, section)?;
    change.trail.push(mark)?;
    clear(queue, &mut change.trail, row.place)?;
    change.counts.reinserted += 1;
    count_write(&mut change.counts, full);
    Ok(())
}

/// Writes the objects again whose home is the block, the least first.
fn reinsert_all<M: Marks>(
    queue: &mut Queue,
    change: &mut Change<Tally, M>,
    block: u64,
) -> Result<(), NoMemory>
    requires victim { IsVictim block queue.old }
    requires headroom { HasHeadroom (work_of queue.old change.old.counts) }
    ensures effect { OnOk result (work_of queue.new change.new.counts
        ≡ fold reinsert (work_of queue.old change.old.counts) (objects_homed queue.old block)) }
    ensures trail { OnOk result (M.keeps ≡ true
        → Recorded (M.list change.old.trail) (work_of queue.old change.old.counts)
        (M.list change.new.trail) (work_of queue.new change.new.counts)) }
{
    let objects = queue.homed(block)?;
    for object in &objects {
        reinsert(queue, change, *object)?;
    }
    Ok(())
}

/// Evicts the last sealed block: the objects whose place it is leave, and the others whose home it is are written
/// again. A virtual block is no object's home.
fn evict_last<M: Marks>(
    queue: &mut Queue,
    change: &mut Change<Tally, M>,
    block: u64,
) -> Result<(), NoMemory>
    requires loose { IsLoose queue.old }
    requires last { option_map (λ b. b.0) (last_block queue.old) ≡ Some block }
    requires headroom { HasHeadroom (work_of queue.old change.old.counts) }
    ensures effect { OnOk result (work_of queue.new change.new.counts
        ≡ evict_last (work_of queue.old change.old.counts)) }
    ensures trail { OnOk result (M.keeps ≡ true
        → Recorded (M.list change.old.trail) (work_of queue.old change.old.counts)
        (M.list change.new.trail) (work_of queue.new change.new.counts)) }
{
    leave(queue, change, block)?;
    reinsert_all(queue, change, block)?;
    take_out(queue, &mut change.trail, block)?;
    Ok(())
}

/// The last sealed block, where more device blocks are sealed than the shape allows.
fn victim(queue: &Queue) -> Option<u64>
    requires { IsLoose queue.now }
    ensures some { IfSome result (λ block. (is_over queue.now ≡ true)
        × (option_map (λ b. b.0) (last_block queue.now) ≡ Some block)) }
    ensures none { IsNone result → is_over queue.now ≡ false }
{
    if queue.sealed_devices() as u64 <= queue.allowed_blocks() {
        return None;
    }
    let (section, position) = queue.last_sealed()?;
    let (block, _) = queue.sealed_at(section, position);
    Some(block)
}

/// Evicts from the tail until no more device blocks are sealed than the shape allows.
pub fn evict<M: Marks>(queue: &mut Queue, change: &mut Change<Tally, M>) -> Result<(), NoMemory>
    requires loose { IsLoose queue.old }
    requires headroom { HasHeadroom (work_of queue.old change.old.counts) }
    ensures effect { OnOk result (work_of queue.new change.new.counts
        ≡ evict (work_of queue.old change.old.counts)) }
    ensures trail { OnOk result (M.keeps ≡ true
        → Recorded (M.list change.old.trail) (work_of queue.old change.old.counts)
        (M.list change.new.trail) (work_of queue.new change.new.counts)) }
    ensures kept { OnOk result (IsLoose queue.new) }
{
    while let Some(block) = victim(queue) {
        evict_last(queue, change, block)?;
    }
    Ok(())
}
