// Purge: an object leaves, whatever its priority.
ghost use Rattle.std.specs.Prelude.{◌≡◌, true, false, ◌≤◌, length, None, OnOk, IfOk, IsSome, []};
ghost use Rattle.rw_blocks.specs.State.{row_at, row_or};
ghost use Rattle.rw_blocks.specs.Loose.{IsWellFormedQueue};
ghost use Rattle.rw_ripq.specs.Purge.{purge, purge_by};
ghost use Rattle.rw_ripq.specs.Trail.{Leads};
ghost use Rattle.rw_ripq.specs.Laws.{IsReclaimed, KeepsOthers};
ghost use Rattle.rw_ripq.specs.Order.{KeepsOrder};

use crate::sealed::{clear, clear_home};
use crate::{Marks, Trail};
use rw_blocks::Queue;
use rw_vt::NoMemory;
use std::alloc::Global;

/// Lets an object go: its row leaves, and its place is taken out where that is a sealed virtual block without rows then.
/// Nothing else changes: no block is written or evicted, and no section is merged or split, whatever its bytes are then.
///
/// Hands back the trail that takes it back, of at most two marks. The object is stored.
///
/// # Errors
///
/// `NoMemory` only where memory was refused. Nothing is said of the queue then: it is only dropped.
pub fn purge(alloc: Global, queue: &mut Queue, object: u64) -> Result<Trail, NoMemory>
    requires well_formed { IsWellFormedQueue queue.old }
    requires resident { IsSome (row_at queue.old object) }
    ensures effect { OnOk result (queue.new ≡ purge queue.old object) }
    ensures leads { IfOk result (λ trail. Leads trail queue.old queue.new) }
    ensures short { IfOk result (λ trail. length trail ≤ 2) }
    ensures kept { OnOk result (IsWellFormedQueue queue.new) }
    ensures gone { OnOk result (row_at queue.new object ≡ None) }
    ensures others { OnOk result (KeepsOthers queue.old object queue.new) }
    ensures order { OnOk result (KeepsOrder queue.old queue.new) }
{
    let mut trail = Trail::new(alloc);
    purge_with(queue, &mut trail, object, false)?;
    Ok(trail)
}

/// [`purge`] with a trail of the caller's, which has no mark yet, or with [`crate::NoMarks`], which keeps none. With
/// `reclaim` the object's home is taken out too, where that is a sealed device block that is the home of no row then: its
/// flash is free again. There are at most three marks then.
///
/// # Errors
///
/// As [`purge`]. Nothing is said of the trail then.
pub fn purge_with<M: Marks>(
    queue: &mut Queue,
    trail: &mut M,
    object: u64,
    reclaim: bool,
) -> Result<(), NoMemory>
    requires well_formed { IsWellFormedQueue queue.old }
    requires resident { IsSome (row_at queue.old object) }
    requires none { M.list trail.old ≡ [] }
    ensures effect { OnOk result (queue.new ≡ purge_by reclaim queue.old object) }
    ensures leads { OnOk result (M.keeps ≡ true
        → Leads (M.list trail.new) queue.old queue.new) }
    ensures short { OnOk result (M.keeps ≡ true → length (M.list trail.new) ≤ 3) }
    ensures shorter { OnOk result (M.keeps ≡ true
        → reclaim ≡ false → length (M.list trail.new) ≤ 2) }
    ensures kept { OnOk result (IsWellFormedQueue queue.new) }
    ensures gone { OnOk result (row_at queue.new object ≡ None) }
    ensures others { OnOk result (KeepsOthers queue.old object queue.new) }
    ensures order { OnOk result (KeepsOrder queue.old queue.new) }
    ensures reclaimed { OnOk result (reclaim ≡ true
        → IsReclaimed queue.old (row_or queue.old object).home queue.new) }
{
    let row = queue.row(object).unwrap();
    let mark = queue.remove(object)?;
    trail.push(mark)?;
    clear(queue, trail, row.place)?;
    if reclaim {
        clear_home(queue, trail, row.home)?;
    }
    Ok(())
}
