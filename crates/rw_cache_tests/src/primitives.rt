// The primitives of a queue of blocks, as steps: run forwards with each state compared, and undone mark by mark.
ghost use Rattle.std.specs.Prelude.{◌≡◌, ◌≤◌, ◌<◌, ◌+◌, ◌∷◌, [], length, OnOk, IfOk, IfSome, IsTrue, slice_get, Some};
ghost use Rattle.rw_blocks.specs.Primitives.{HasRoom};
ghost use Rattle.rw_blocks.specs.Loose.{IsLoose, IsFree};
ghost use Rattle.rw_blocks.specs.Undo.{Undoes};

use crate::queue_text::must_read;
use rw_blocks::{Kind, Mark, NoMemory, Queue, Shape};
use std::alloc::Global;
use std::process::Abort;
use std::test::Fail;

/// A primitive with its arguments.
#[derive(Clone, Copy)]
enum Step {
    Add(u64, u64, usize),
    Remove(u64),
    Rehome(u64, usize),
    Replace(u64, usize),
    Seal(usize, Kind),
    TakeOut(usize, usize),
    Split(usize, usize),
    Merge(usize),
}

/// Whether the section is there and the size fits its active block of the kind.
fn fits(queue: &Queue, section: usize, kind: Kind, size: u64) -> bool
    requires { IsLoose queue.now }
    ensures there { IsTrue result → section < length queue.now.sections }
    ensures fits { IsTrue result → HasRoom kind queue.now section size }
{
    if section >= queue.sections() {
        return false;
    }
    let block = queue.block_size();
    let fill = queue.fill(queue.active(section, kind));
    size <= block && fill <= block - size
}

/// Whether the block has no row.
fn is_free(queue: &Queue, serial: u64) -> Result<bool, NoMemory>
    ensures { IfOk result (λ free. IsTrue free → IsFree queue.now serial) }
{
    if queue.is_placed(serial) {
        return Ok(false);
    }
    let homed = queue.homed(serial)?;
    Ok(homed.is_empty())
}

fn add(queue: &mut Queue, object: u64, size: u64, section: usize) -> Result<Option<Mark>, NoMemory>
    requires { IsLoose queue.old }
    ensures undoes { IfOk result (λ done. IfSome done (λ mark. Undoes mark queue.old queue.new)) }
    ensures kept { OnOk result (IsLoose queue.new) }
{
    if size == 0 || queue.row(object).is_some() || !fits(queue, section, Kind::Device, size) {
        return Ok(None);
    }
    if queue.total() > (1 << 48) - size {
        return Ok(None);
    }
    Ok(Some(queue.add(object, size, section)?))
}

fn rehome(queue: &mut Queue, object: u64, section: usize) -> Result<Option<Mark>, NoMemory>
    requires { IsLoose queue.old }
    ensures undoes { IfOk result (λ done. IfSome done (λ mark. Undoes mark queue.old queue.new)) }
    ensures kept { OnOk result (IsLoose queue.new) }
{
    let Some(row) = queue.row(object) else {
        return Ok(None);
    };
    if !fits(queue, section, Kind::Device, row.size) {
        return Ok(None);
    }
    Ok(Some(queue.rehome(object, section)?))
}

fn replace(queue: &mut Queue, object: u64, section: usize) -> Result<Option<Mark>, NoMemory>
    requires { IsLoose queue.old }
    ensures undoes { IfOk result (λ done. IfSome done (λ mark. Undoes mark queue.old queue.new)) }
    ensures kept { OnOk result (IsLoose queue.new) }
{
    let Some(row) = queue.row(object) else {
        return Ok(None);
    };
    if !fits(queue, section, Kind::Virtual, row.size) {
        return Ok(None);
    }
    Ok(Some(queue.replace(object, section)?))
}

fn take_out(queue: &mut Queue, section: usize, position: usize) -> Result<Option<Mark>, NoMemory>
    requires { IsLoose queue.old }
    ensures undoes { IfOk result (λ done. IfSome done (λ mark. Undoes mark queue.old queue.new)) }
    ensures kept { OnOk result (IsLoose queue.new) }
{
    if section >= queue.sections() || position >= queue.sealed(section) {
        return Ok(None);
    }
    let (serial, _) = queue.sealed_at(section, position);
    if !is_free(queue, serial)? {
        return Ok(None);
    }
    Ok(Some(queue.take_out(section, position)?))
}

fn split(queue: &mut Queue, section: usize, keep: usize) -> Result<Option<Mark>, NoMemory>
    requires { IsLoose queue.old }
    ensures undoes { IfOk result (λ done. IfSome done (λ mark. Undoes mark queue.old queue.new)) }
    ensures kept { OnOk result (IsLoose queue.new) }
{
    if section >= queue.sections() || queue.sections() as u64 >= queue.allowed_sections() {
        return Ok(None);
    }
    if keep > queue.sealed(section) || queue.next_serial() >= (1 << 63) - 1 {
        return Ok(None);
    }
    Ok(Some(queue.split(section, keep)?))
}

/// Makes the step, where its condition holds.
fn make(queue: &mut Queue, step: Step) -> Result<Option<Mark>, NoMemory>
    requires { IsLoose queue.old }
    ensures undoes { IfOk result (λ done. IfSome done (λ mark. Undoes mark queue.old queue.new)) }
    ensures kept { OnOk result (IsLoose queue.new) }
{
    match step {
        Step::Add(object, size, section) => add(queue, object, size, section),
        Step::Remove(object) if queue.row(object).is_some() => Ok(Some(queue.remove(object)?)),
        Step::Rehome(object, section) => rehome(queue, object, section),
        Step::Replace(object, section) => replace(queue, object, section),
        Step::Seal(section, kind) if section < queue.sections() && queue.next_serial() < 1 << 63 =>
            { Ok(Some(queue.seal(section, kind)?)) }
        Step::TakeOut(section, position) => take_out(queue, section, position),
        Step::Split(section, keep) => split(queue, section, keep),
        Step::Merge(section) if queue.sections() > 1 && section < queue.sections() - 1 => {
            Ok(Some(queue.merge(section)?))
        }
        _ => Ok(None),
    }
}

/// Makes the steps, each of which leads to the state beside it, and undoes them, the last one first, back to the state
/// before them.
fn replay<R: Abort>(
    rt: &R,
    alloc: Global,
    queue: &mut Queue,
    before: &str,
    steps: &[(Step, &str)],
) -> Result<(), NoMemory>
    requires { IsLoose queue.old }
    ensures { OnOk result (queue.new ≡ queue.old) }
{
    let [(step, after), rest @ ..] = steps else {
        return Ok(());
    };
    let mark = make(queue, *step)?.expect(rt, "the step's condition holds");
    must_read(rt, alloc, queue, after)?;
    replay(rt, alloc, queue, after, rest)?;
    queue.undo(mark)?;
    must_read(rt, alloc, queue, before)
}

/// Makes the steps.
fn forward<R: Abort>(rt: &R, queue: &mut Queue, steps: &[(Step, &str)]) -> Result<(), NoMemory>
    requires { IsLoose queue.old }
    ensures { OnOk result (IsLoose queue.new) }
{
    for (step, _) in steps {
        make(queue, *step)?.expect(rt, "the step's condition holds");
    }
    Ok(())
}

/// One section of 10 bytes a block: an object that is replaced, another, and their eviction by a third and a fourth.
const ONE_SECTION: [(Step, &str); 12] = [
    (Step::Add(1, 6, 0), "S0 {0, 1, []}, 1 (6, 0, 0), next 2"),
    (Step::Replace(1, 0), "S0 {0, 1, []}, 1 (6, 0, 1), next 2"),
    (
        Step::Seal(0, Kind::Virtual),
        "S0 {0, 2, [1v]}, 1 (6, 0, 1), next 3",
    ),
    (
        Step::Add(2, 4, 0),
        "S0 {0, 2, [1v]}, 1 (6, 0, 1), 2 (4, 0, 0), next 3",
    ),
    (
        Step::Seal(0, Kind::Device),
        "S0 {3, 2, [0d, 1v]}, 1 (6, 0, 1), 2 (4, 0, 0), next 4",
    ),
    (
        Step::Add(3, 6, 0),
        "S0 {3, 2, [0d, 1v]}, 1 (6, 0, 1), 2 (4, 0, 0), 3 (6, 3, 3), next 4",
    ),
    (
        Step::Seal(0, Kind::Device),
        "S0 {4, 2, [3d, 0d, 1v]}, 1 (6, 0, 1), 2 (4, 0, 0), 3 (6, 3, 3), next 5",
    ),
    (
        Step::Add(4, 6, 0),
        "S0 {4, 2, [3d, 0d, 1v]}, 1 (6, 0, 1), 2 (4, 0, 0), 3 (6, 3, 3), 4 (6, 4, 4), next 5",
    ),
    (
        Step::Remove(1),
        "S0 {4, 2, [3d, 0d, 1v]}, 2 (4, 0, 0), 3 (6, 3, 3), 4 (6, 4, 4), next 5",
    ),
    (
        Step::TakeOut(0, 2),
        "S0 {4, 2, [3d, 0d]}, 2 (4, 0, 0), 3 (6, 3, 3), 4 (6, 4, 4), next 5",
    ),
    (
        Step::Remove(2),
        "S0 {4, 2, [3d, 0d]}, 3 (6, 3, 3), 4 (6, 4, 4), next 5",
    ),
    (
        Step::TakeOut(0, 1),
        "S0 {4, 2, [3d]}, 3 (6, 3, 3), 4 (6, 4, 4), next 5",
    ),
];

/// One section: an object that is replaced and then written again, when its home is evicted.
const WRITTEN_AGAIN: [(Step, &str); 11] = [
    (Step::Add(1, 6, 0), "S0 {0, 1, []}, 1 (6, 0, 0), next 2"),
    (
        Step::Seal(0, Kind::Device),
        "S0 {2, 1, [0d]}, 1 (6, 0, 0), next 3",
    ),
    (
        Step::Add(2, 6, 0),
        "S0 {2, 1, [0d]}, 1 (6, 0, 0), 2 (6, 2, 2), next 3",
    ),
    (
        Step::Replace(1, 0),
        "S0 {2, 1, [0d]}, 1 (6, 0, 1), 2 (6, 2, 2), next 3",
    ),
    (
        Step::Seal(0, Kind::Device),
        "S0 {3, 1, [2d, 0d]}, 1 (6, 0, 1), 2 (6, 2, 2), next 4",
    ),
    (
        Step::Add(3, 6, 0),
        "S0 {3, 1, [2d, 0d]}, 1 (6, 0, 1), 2 (6, 2, 2), 3 (6, 3, 3), next 4",
    ),
    (
        Step::Seal(0, Kind::Device),
        "S0 {4, 1, [3d, 2d, 0d]}, 1 (6, 0, 1), 2 (6, 2, 2), 3 (6, 3, 3), next 5",
    ),
    (
        Step::Rehome(1, 0),
        "S0 {4, 1, [3d, 2d, 0d]}, 1 (6, 4, 4), 2 (6, 2, 2), 3 (6, 3, 3), next 5",
    ),
    (
        Step::TakeOut(0, 2),
        "S0 {4, 1, [3d, 2d]}, 1 (6, 4, 4), 2 (6, 2, 2), 3 (6, 3, 3), next 5",
    ),
    (
        Step::Remove(2),
        "S0 {4, 1, [3d, 2d]}, 1 (6, 4, 4), 3 (6, 3, 3), next 5",
    ),
    (
        Step::TakeOut(0, 1),
        "S0 {4, 1, [3d]}, 1 (6, 4, 4), 3 (6, 3, 3), next 5",
    ),
];

/// Three sections: splits, and a merge whose lower active blocks vanish.
const THREE_SECTIONS: [(Step, &str); 16] = [
    (Step::Add(1, 6, 0), "S0 {0, 1, []}, 1 (6, 0, 0), next 2"),
    (
        Step::Seal(0, Kind::Device),
        "S0 {2, 1, [0d]}, 1 (6, 0, 0), next 3",
    ),
    (
        Step::Add(2, 6, 0),
        "S0 {2, 1, [0d]}, 1 (6, 0, 0), 2 (6, 2, 2), next 3",
    ),
    (
        Step::Seal(0, Kind::Device),
        "S0 {3, 1, [2d, 0d]}, 1 (6, 0, 0), 2 (6, 2, 2), next 4",
    ),
    (
        Step::Add(3, 6, 0),
        "S0 {3, 1, [2d, 0d]}, 1 (6, 0, 0), 2 (6, 2, 2), 3 (6, 3, 3), next 4",
    ),
    (
        Step::Split(0, 1),
        "S0 {3, 1, [2d]}, S1 {4, 5, [0d]}, 1 (6, 0, 0), 2 (6, 2, 2), 3 (6, 3, 3), next 6",
    ),
    (
        Step::Seal(0, Kind::Device),
        "S0 {6, 1, [3d, 2d]}, S1 {4, 5, [0d]}, 1 (6, 0, 0), 2 (6, 2, 2), 3 (6, 3, 3), next 7",
    ),
    (
        Step::Add(4, 6, 0),
        "S0 {6, 1, [3d, 2d]}, S1 {4, 5, [0d]}, 1 (6, 0, 0), 2 (6, 2, 2), 3 (6, 3, 3), 4 (6, 6, 6), next 7",
    ),
    (
        Step::Split(0, 1),
        "S0 {6, 1, [3d]}, S1 {7, 8, [2d]}, S2 {4, 5, [0d]}, 1 (6, 0, 0), 2 (6, 2, 2), 3 (6, 3, 3), 4 (6, 6, 6), next 9",
    ),
    (
        Step::Replace(1, 0),
        "S0 {6, 1, [3d]}, S1 {7, 8, [2d]}, S2 {4, 5, [0d]}, 1 (6, 0, 1), 2 (6, 2, 2), 3 (6, 3, 3), 4 (6, 6, 6), next 9",
    ),
    (
        Step::Seal(0, Kind::Virtual),
        "S0 {6, 9, [1v, 3d]}, S1 {7, 8, [2d]}, S2 {4, 5, [0d]}, 1 (6, 0, 1), 2 (6, 2, 2), 3 (6, 3, 3), 4 (6, 6, 6), next 10",
    ),
    (
        Step::Replace(2, 0),
        "S0 {6, 9, [1v, 3d]}, S1 {7, 8, [2d]}, S2 {4, 5, [0d]}, 1 (6, 0, 1), 2 (6, 2, 9), 3 (6, 3, 3), 4 (6, 6, 6), next 10",
    ),
    (
        Step::Seal(0, Kind::Device),
        "S0 {10, 9, [6d, 1v, 3d]}, S1 {7, 8, [2d]}, S2 {4, 5, [0d]}, 1 (6, 0, 1), 2 (6, 2, 9), 3 (6, 3, 3), 4 (6, 6, 6), next 11",
    ),
    (
        Step::Add(5, 6, 0),
        "S0 {10, 9, [6d, 1v, 3d]}, S1 {7, 8, [2d]}, S2 {4, 5, [0d]}, 1 (6, 0, 1), 2 (6, 2, 9), 3 (6, 3, 3), 4 (6, 6, 6), 5 (6, 10, 10), next 11",
    ),
    (
        Step::Merge(1),
        "S0 {10, 9, [6d, 1v, 3d]}, S1 {7, 8, [2d, 0d]}, 1 (6, 0, 1), 2 (6, 2, 9), 3 (6, 3, 3), 4 (6, 6, 6), 5 (6, 10, 10), next 11",
    ),
    (
        Step::Split(0, 2),
        "S0 {10, 9, [6d, 1v]}, S1 {11, 12, [3d]}, S2 {7, 8, [2d, 0d]}, 1 (6, 0, 1), 2 (6, 2, 9), 3 (6, 3, 3), 4 (6, 6, 6), 5 (6, 10, 10), next 13",
    ),
];

/// From there a fourth section, and merges whose lower active blocks stay, vanish, and of which one vanishes.
const FOUR_SECTIONS: [(Step, &str); 7] = [
    (
        Step::Split(2, 1),
        "S0 {10, 9, [6d, 1v]}, S1 {11, 12, [3d]}, S2 {7, 8, [2d]}, S3 {13, 14, [0d]}, 1 (6, 0, 1), 2 (6, 2, 9), 3 (6, 3, 3), 4 (6, 6, 6), 5 (6, 10, 10), next 15",
    ),
    (
        Step::Add(6, 4, 2),
        "S0 {10, 9, [6d, 1v]}, S1 {11, 12, [3d]}, S2 {7, 8, [2d]}, S3 {13, 14, [0d]}, 1 (6, 0, 1), 2 (6, 2, 9), 3 (6, 3, 3), 4 (6, 6, 6), 5 (6, 10, 10), 6 (4, 7, 7), next 15",
    ),
    (
        Step::Replace(3, 2),
        "S0 {10, 9, [6d, 1v]}, S1 {11, 12, [3d]}, S2 {7, 8, [2d]}, S3 {13, 14, [0d]}, 1 (6, 0, 1), 2 (6, 2, 9), 3 (6, 3, 8), 4 (6, 6, 6), 5 (6, 10, 10), 6 (4, 7, 7), next 15",
    ),
    (
        Step::Merge(1),
        "S0 {10, 9, [6d, 1v]}, S1 {11, 12, [3d, 7d, 8v, 2d]}, S2 {13, 14, [0d]}, 1 (6, 0, 1), 2 (6, 2, 9), 3 (6, 3, 8), 4 (6, 6, 6), 5 (6, 10, 10), 6 (4, 7, 7), next 15",
    ),
    (
        Step::Merge(0),
        "S0 {10, 9, [6d, 1v, 3d, 7d, 8v, 2d]}, S1 {13, 14, [0d]}, 1 (6, 0, 1), 2 (6, 2, 9), 3 (6, 3, 8), 4 (6, 6, 6), 5 (6, 10, 10), 6 (4, 7, 7), next 15",
    ),
    (
        Step::Replace(4, 1),
        "S0 {10, 9, [6d, 1v, 3d, 7d, 8v, 2d]}, S1 {13, 14, [0d]}, 1 (6, 0, 1), 2 (6, 2, 9), 3 (6, 3, 8), 4 (6, 6, 14), 5 (6, 10, 10), 6 (4, 7, 7), next 15",
    ),
    (
        Step::Merge(0),
        "S0 {10, 9, [6d, 1v, 3d, 7d, 8v, 2d, 14v, 0d]}, 1 (6, 0, 1), 2 (6, 2, 9), 3 (6, 3, 8), 4 (6, 6, 14), 5 (6, 10, 10), 6 (4, 7, 7), next 15",
    ),
];

/// A queue that holds nothing.
const NOTHING: &str = "S0 {0, 1, []}, next 2";

fn opened(alloc: Global, sections: u64, blocks: u64) -> Result<Queue, Fail>
    ensures { IfOk result (λ q. IsLoose q) }
{
    let shape = Shape::new(sections, 10, blocks).ok_or("shape")?;
    Ok(Queue::new(alloc, shape)?)
}

/// The queue of up to four sections to which the steps lead.
fn three_sections<R: Abort>(rt: &R, alloc: Global) -> Result<Queue, Fail>
    ensures { IfOk result (λ q. IsLoose q) }
{
    let mut queue = opened(alloc, 4, 8)?;
    forward(rt, &mut queue, &THREE_SECTIONS)?;
    Ok(queue)
}

/// The queue of three sections.
const SPLIT: &str =
    "S0 {10, 9, [6d, 1v]}, S1 {11, 12, [3d]}, S2 {7, 8, [2d, 0d]}, 1 (6, 0, 1), 2 (6, 2, 9), 3 (6, 3, 3), 4 (6, 6, 6), 5 (6, 10, 10), next 13";

/// Goes to and fro through steps.
fn to_and_fro<R: Abort>(
    rt: &R,
    alloc: Global,
    before: &str,
    steps: &[(Step, &str)],
    queue: Queue,
) -> Result<(), Fail>
    requires { IsLoose queue }
{
    let mut queue = queue;
    replay(rt, alloc, &mut queue, before, steps)?;
    Ok(())
}

#[test]
fn objects_come_and_go(rt: HostRuntime) -> Result<(), Fail> {
    let queue = opened(rt.alloc(), 1, 1)?;
    to_and_fro(&rt, rt.alloc(), NOTHING, &ONE_SECTION, queue)
}

#[test]
fn an_object_is_written_again(rt: HostRuntime) -> Result<(), Fail> {
    let queue = opened(rt.alloc(), 1, 1)?;
    to_and_fro(&rt, rt.alloc(), NOTHING, &WRITTEN_AGAIN, queue)
}

#[test]
fn sections_are_split_and_merged(rt: HostRuntime) -> Result<(), Fail> {
    let queue = opened(rt.alloc(), 4, 8)?;
    to_and_fro(&rt, rt.alloc(), NOTHING, &THREE_SECTIONS, queue)
}

#[test]
fn sections_are_merged_to_one(rt: HostRuntime) -> Result<(), Fail> {
    let queue = three_sections(&rt, rt.alloc())?;
    to_and_fro(&rt, rt.alloc(), SPLIT, &FOUR_SECTIONS, queue)
}

/// What a queue answers of a block: the first object whose home it is, the first whose place it is, its bytes, its
/// section.
type Block = (Option<u64>, Option<u64>, u64, Option<usize>);

/// The blocks of the three sections by their serials; there are no blocks 4 and 5 any more.
const BLOCKS: [Block; 13] = [
    (Some(1), None, 6, Some(2)),
    (None, Some(1), 6, Some(0)),
    (Some(2), None, 6, Some(2)),
    (Some(3), Some(3), 6, Some(1)),
    (None, None, 0, None),
    (None, None, 0, None),
    (Some(4), Some(4), 6, Some(0)),
    (None, None, 0, Some(2)),
    (None, None, 0, Some(2)),
    (None, Some(2), 6, Some(0)),
    (Some(5), Some(5), 6, Some(0)),
    (None, None, 0, Some(1)),
    (None, None, 0, Some(1)),
];

/// The answers for the block with the serial.
fn block(queue: &Queue, serial: u64) -> Result<Block, NoMemory>
    requires { IsLoose queue.now }
{
    let homed = queue.homed(serial)?;
    let placed = queue.placed(serial)?;
    Ok((
        homed.first().copied(),
        placed.first().copied(),
        queue.fill(serial),
        queue.section_of(serial),
    ))
}

#[test]
fn a_block_answers_for_its_rows(rt: HostRuntime) -> Result<(), Fail> {
    let queue = three_sections(&rt, rt.alloc())?;
    for (serial, want) in (0..).zip(&BLOCKS) {
        assert!(rt; block(&queue, serial)? == *want, "of block {serial}");
    }
    Ok(())
}

/// Whether `want` has, for each section of a queue, its bytes and those below it.
fn has_bytes(queue: &Queue, want: &[(u64, u64)]) -> bool
    requires { IsLoose queue.now }
{
    queue.sections() == want.len()
        && (0..queue.sections()).all(|section| want[section]
            == (queue.bytes(section), queue.below(section)))
}

#[test]
fn a_section_answers_its_bytes_and_those_below(rt: HostRuntime) -> Result<(), Fail> {
    let queue = three_sections(&rt, rt.alloc())?;
    assert!(rt; has_bytes(&queue, &[(24, 6), (6, 0), (0, 0)]));
    Ok(())
}

/// What a queue answers of itself: its bytes, its last sealed block, and how many device blocks are sealed.
fn whole(queue: &Queue) -> (u64, Option<(usize, usize)>, usize)
    requires { IsLoose queue.now }
{
    (queue.total(), queue.last_sealed(), queue.sealed_devices())
}

#[test]
fn a_queue_answers_for_all_its_blocks(rt: HostRuntime) -> Result<(), Fail> {
    let queue = three_sections(&rt, rt.alloc())?;
    assert!(rt; queue.shape() == (4, 10, 8));
    assert!(rt; whole(&queue) == (30, Some((2, 1)), 4));
    Ok(())
}
