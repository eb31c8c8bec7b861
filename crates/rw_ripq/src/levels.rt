// Which section a level goes to, and the level of a row.
ghost use Rattle.std.specs.Prelude.{◌≡◌, ◌≤◌, ◌<◌, ◌≢◌, ◌*◌, ◌^◌, length, is_some, nat_le, IfSome, Some};
ghost use Rattle.rw_blocks.specs.State.{row_at};
ghost use Rattle.rw_blocks.specs.Sums.{total};
ghost use Rattle.rw_blocks.specs.Loose.{IsLoose};
ghost use Rattle.rw_ripq.specs.Levels.{level_of_section, level_of, slru_target, target, highest_level};

use crate::{Levels, Policy};
use rw_blocks::{Place, Queue};

/// Whether the object is stored. Takes no memory.
pub fn resident(queue: &Queue, object: u64) -> bool
    ensures { result ≡ is_some (row_at queue.now object) }
{
    queue.row(object).is_some()
}

/// The level of an object, 1 to the number of segments: in which of that many equal parts of all bytes, counted from the
/// tail, the section begins that holds the object's place. `None` exactly where the object is not stored. Takes no
/// memory.
pub fn level_of(queue: &Queue, levels: Levels, object: u64) -> Option<u8>
    requires { IsLoose queue.now }
    ensures level { result ≡ level_of levels queue.now object }
    ensures from_one { IfSome result (λ level. 1 ≤ level) }
    ensures to_highest { IfSome result (λ level. level ≤ levels.segments) }
{
    let row = queue.row(object)?;
    let section = queue.section_of(row.place).unwrap();
    Some(level_of_section(queue, levels, section))
}

/// The level of the objects whose place is one of the section's blocks.
pub fn level_of_section(queue: &Queue, levels: Levels, section: usize) -> u8
    requires loose { IsLoose queue.now }
    requires there { section < length queue.now.sections }
    requires some { 1 ≤ total queue.now }
    ensures level { result ≡ level_of_section levels queue.now section }
    ensures from_one { 1 ≤ result }
    ensures to_highest { result ≤ levels.segments }
{
    let segments = levels.segments as u64;
    1 + (segments * queue.below(section) / queue.total()).min(segments - 1) as u8
}

/// Whether `held` bytes of `total` are `level` segments or more.
fn reaches(levels: Levels, level: u8, held: u64, total: u64) -> bool
    requires held { held ≤ 2 ^ 53 }
    requires total { total ≤ 2 ^ 48 }
    ensures { result ≡ nat_le (level * total) (levels.segments * held) }
{
    level as u64 * total <= levels.segments as u64 * held
}

/// The section, counted from 0 at the head, that an object of `level` goes to. Under `Lru` it is the head. Under `Slru`
/// it is the head for the highest level, and for a lower one the section nearest the tail that, together with the
/// sections behind it, holds `level` segments of all bytes. The policy is not `Off`, and the level is 1 to the number of
/// segments, under `Lru` 1 to 3. Takes no memory.
pub fn target(queue: &Queue, policy: Policy, level: u8) -> u32
    requires loose { IsLoose queue.now }
    requires stores { policy ≢ Policy.Off }
    requires from_one { 1 ≤ level }
    requires to_highest { level ≤ highest_level policy }
    ensures target { result ≡ target policy queue.now level }
    ensures there { result < length queue.now.sections }
{
    match policy {
        Policy::Off | Policy::Lru => 0,
        Policy::Slru(levels) => slru_target(queue, levels, level) as u32,
    }
}

/// The target of a level under segmented LRU, found in one walk over the sections from the tail.
pub fn slru_target(queue: &Queue, levels: Levels, level: u8) -> usize
    requires { IsLoose queue.now }
    ensures target { result ≡ slru_target levels queue.now level }
    ensures there { result < length queue.now.sections }
{
    if level >= levels.segments {
        return 0;
    }
    let total = queue.total();
    let mut section = queue.sections() - 1;
    let mut held = queue.bytes(section);
    while section > 0 && !reaches(levels, level, held, total) {
        section -= 1;
        held += queue.bytes(section);
    }
    section
}
