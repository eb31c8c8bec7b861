// Room for an object in an active block.
ghost use Rattle.std.specs.Prelude.{◌≡◌, true, ◌≤◌, ◌<◌, ◌+◌, ◌^◌, length, not, OnOk, IfOk};
ghost use Rattle.rw_blocks.specs.Loose.{IsLoose};
ghost use Rattle.rw_ripq.specs.Work.{work_before, one_if};
ghost use Rattle.rw_ripq.specs.Put.{is_room, with_room};
ghost use Rattle.rw_ripq.specs.Record.{Recorded};

use crate::{Marks, Tally};
use rw_blocks::{Kind, Queue};
use rw_vt::NoMemory;

/// Counts one block write more, where `written`.
pub fn count_write(tally: &mut Tally, written: bool)
    requires { tally.old.writes < 2 ^ 63 }
    ensures { tally.new ≡ record tally.old { writes = tally.old.writes + one_if written } }
{
    if written {
        tally.writes += 1;
    }
}

/// Seals the section's active block of the kind where `size` bytes do not fit it. Answers whether it was sealed.
pub fn make_room<M: Marks>(
    queue: &mut Queue,
    trail: &mut M,
    section: usize,
    kind: Kind,
    size: u64,
) -> Result<bool, NoMemory>
    requires loose { IsLoose queue.old }
    requires there { section < length queue.old.sections }
    requires small { size ≤ queue.old.shape.block }
    requires fresh { queue.old.next < 2 ^ 63 }
    ensures full { IfOk result (λ full. full ≡ not (is_room queue.old kind section size)) }
    ensures effect { OnOk result (queue.new ≡ with_room queue.old kind section size) }
    ensures trail { OnOk result (M.keeps ≡ true
        → Recorded (M.list trail.old) (work_before queue.old)
        (M.list trail.new) (work_before queue.new)) }
    ensures marks { OnOk result (M.keeps ≡ true
        → length (M.list trail.new) ≤ length (M.list trail.old) + 1) }
    ensures kept { OnOk result (IsLoose queue.new) }
{
    if queue.active_fill(section, kind) <= queue.block_size() - size {
        return Ok(false);
    }
    let mark = queue.seal(section, kind)?;
    trail.push(mark)?;
    Ok(true)
}
