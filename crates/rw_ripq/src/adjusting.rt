// Adjust: evict, at most one merge of two sections with few bytes, evict, and at most one split of a section with many.
ghost use Rattle.std.specs.Prelude.{◌≡◌, true, ◌<◌, ◌+◌, ◌^◌, length, OnOk};
ghost use Rattle.rw_blocks.specs.Loose.{IsLoose};
ghost use Rattle.rw_ripq.specs.Work.{work_of};
ghost use Rattle.rw_ripq.specs.Adjust.{is_light, light_pair, is_heavy, heavy_section, merge_once, split_once, adjust};
ghost use Rattle.rw_ripq.specs.Record.{Recorded, HasHeadroom};

use crate::eviction::evict;
use crate::putting::count_write;
use crate::{Change, Marks, Tally};
use rw_blocks::{Kind, Queue};
use rw_vt::NoMemory;

/// Whether the section and the next one towards the tail together hold less than one share of all bytes, of which there
/// are as many as there may be sections.
fn is_light(queue: &Queue, section: usize) -> bool
    requires loose { IsLoose queue.now }
    requires there { section + 1 < length queue.now.sections }
    ensures { result ≡ is_light queue.now section }
{
    (queue.bytes(section) + queue.bytes(section + 1)) * queue.allowed_sections() < queue.total()
}

/// The first such pair, counted from the head, by its upper section.
fn light_pair(queue: &Queue) -> Option<usize>
    requires { IsLoose queue.now }
    ensures { result ≡ light_pair queue.now }
{
    (0..queue.sections() - 1).find(|section| is_light(queue, *section))
}

/// Whether the section holds more than two shares of all bytes, and at least two sealed blocks.
fn is_heavy(queue: &Queue, section: usize) -> bool
    requires loose { IsLoose queue.now }
    requires there { section < length queue.now.sections }
    ensures { result ≡ is_heavy queue.now section }
{
    2 * queue.total() < queue.bytes(section) * queue.allowed_sections()
        && queue.sealed(section) >= 2
}

/// The first such section, counted from the head.
fn heavy_section(queue: &Queue) -> Option<usize>
    requires { IsLoose queue.now }
    ensures { result ≡ heavy_section queue.now }
{
    (0..queue.sections()).find(|section| is_heavy(queue, *section))
}

/// Merges the first pair of neighbours with few bytes, if there is one, and evicts.
fn merge_once<M: Marks>(queue: &mut Queue, change: &mut Change<Tally, M>) -> Result<(), NoMemory>
    requires loose { IsLoose queue.old }
    requires headroom { HasHeadroom (work_of queue.old change.old.counts) }
    requires first { change.old.counts.merges ≡ 0 }
    ensures effect { OnOk result (work_of queue.new change.new.counts
        ≡ merge_once (work_of queue.old change.old.counts)) }
    ensures trail { OnOk result (M.keeps ≡ true
        → Recorded (M.list change.old.trail) (work_of queue.old change.old.counts)
        (M.list change.new.trail) (work_of queue.new change.new.counts)) }
    ensures kept { OnOk result (IsLoose queue.new) }
{
    let Some(section) = light_pair(queue) else {
        return Ok(());
    };
    let written = queue.fill(queue.active(section + 1, Kind::Device)) > 0;
    let mark = queue.merge(section)?;
    change.trail.push(mark)?;
    change.counts.merges += 1;
    count_write(&mut change.counts, written);
    evict(queue, change)?;
    Ok(())
}

/// Splits the first section with many bytes, if there is one and the shape allows one section more.
fn split_once<M: Marks>(queue: &mut Queue, change: &mut Change<Tally, M>) -> Result<(), NoMemory>
    requires loose { IsLoose queue.old }
    requires fresh { queue.old.next + 1 < 2 ^ 63 }
    requires first { change.old.counts.splits ≡ 0 }
    ensures effect { OnOk result (work_of queue.new change.new.counts
        ≡ split_once (work_of queue.old change.old.counts)) }
    ensures trail { OnOk result (M.keeps ≡ true
        → Recorded (M.list change.old.trail) (work_of queue.old change.old.counts)
        (M.list change.new.trail) (work_of queue.new change.new.counts)) }
    ensures kept { OnOk result (IsLoose queue.new) }
{
    if queue.sections() as u64 >= queue.allowed_sections() {
        return Ok(());
    }
    let Some(section) = heavy_section(queue) else {
        return Ok(());
    };
    let mark = queue.split(section, queue.sealed(section).div_ceil(2))?;
    change.trail.push(mark)?;
    change.counts.splits += 1;
    Ok(())
}

/// Adjusts the queue after a put that sealed a device block: evicts, merges at most one pair of sections, evicts
/// again, and splits at most one section.
pub fn adjust<M: Marks>(queue: &mut Queue, change: &mut Change<Tally, M>) -> Result<(), NoMemory>
    requires loose { IsLoose queue.old }
    requires headroom { HasHeadroom (work_of queue.old change.old.counts) }
    requires merges { change.old.counts.merges ≡ 0 }
    requires splits { change.old.counts.splits ≡ 0 }
    ensures effect { OnOk result (work_of queue.new change.new.counts
        ≡ adjust (work_of queue.old change.old.counts)) }
    ensures trail { OnOk result (M.keeps ≡ true
        → Recorded (M.list change.old.trail) (work_of queue.old change.old.counts)
        (M.list change.new.trail) (work_of queue.new change.new.counts)) }
    ensures kept { OnOk result (IsLoose queue.new) }
{
    evict(queue, change)?;
    merge_once(queue, change)?;
    split_once(queue, change)?;
    Ok(())
}
