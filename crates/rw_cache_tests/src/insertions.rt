// Insertions, promotions and purges, as calls whose states, answers and marks are compared, and whose trails are
// rewound.
ghost use Rattle.std.specs.Prelude.{◌≡◌, ◌≢◌, OnOk, IfOk, IfSome};
ghost use Rattle.rw_blocks.specs.Loose.{IsWellFormedQueue};
ghost use Rattle.rw_blocks.specs.State.{start_of};
ghost use Rattle.rw_ripq.specs.Trail.{Leads};
ghost use Rattle.rw_ripq.specs.declared.Policy.TheVariants.{Off};

use crate::queue_text::must_read;
use rw_ripq::{
    Kind, Levels, NoMemory, Policy, Queue, Refusal, Shape, Tally, Trail, insert, level_of, promote,
    purge, purge_with, resident, rewind, target,
};
use std::alloc::Global;
use std::process::Abort;
use std::test::Fail;

/// A call: an insertion of an object of that size at level 1, a promotion, a purge, or a purge that also takes out the
/// sealed block that it leaves without objects.
#[derive(Clone, Copy)]
enum Call {
    Insert(u64, u64),
    Promote(u64),
    Purge(u64),
    Reclaim(u64),
}

/// What a call answers beside its trail: rows that left, rows written again, block writes, splits and merges, or
/// whether the place changed; a purge nothing.
#[derive(Clone, Copy, Debug, PartialEq, Eq)]
enum Answer {
    Counts([u64; 5]),
    Changed(bool),
    Nothing,
}

/// A call, the state that it leads to, its answer and the length of its trail.
#[derive(Clone, Copy)]
struct Example {
    call: Call,
    after: &'static str,
    answer: Answer,
    marks: usize,
}

/// What a call did: its trail, and what it answers beside that.
#[derive(Drop)]
struct Done {
    trail: Trail,
    answer: Answer,
}

/// Makes the call, where its condition holds.
fn make(
    alloc: Global,
    queue: &mut Queue,
    policy: Policy,
    call: Call,
) -> Result<Option<Done>, Refusal>
    requires well_formed { IsWellFormedQueue queue.old }
    requires stores { policy ≢ Off }
    ensures leads { IfOk result (λ done. IfSome done (λ d. Leads d.trail queue.old queue.new)) }
    ensures kept { OnOk result (IsWellFormedQueue queue.new) }
{
    let block = queue.block_size();
    match call {
        Call::Insert(object, size) if size >= 1 && size <= block && !resident(queue, object) => {
            let (trail, tally) = insert(alloc, queue, policy, object, size, 1)?;
            let Tally {
                evicted,
                reinserted,
                writes,
                splits,
                merges,
            } = tally;
            let answer = Answer::Counts([evicted, reinserted, writes, splits, merges]);
            Ok(Some(Done { trail, answer }))
        }
        Call::Promote(object) if resident(queue, object) => {
            let (trail, changed) = promote(alloc, queue, policy, object)?;
            let answer = Answer::Changed(changed);
            Ok(Some(Done { trail, answer }))
        }
        Call::Purge(object) if resident(queue, object) => {
            let trail = purge(alloc, queue, object)?;
            let answer = Answer::Nothing;
            Ok(Some(Done { trail, answer }))
        }
        Call::Reclaim(object) if resident(queue, object) => {
            let mut trail = Trail::new(alloc);
            purge_with(queue, &mut trail, object, true)?;
            let answer = Answer::Nothing;
            Ok(Some(Done { trail, answer }))
        }
        _ => Ok(None),
    }
}

/// Makes a call, which is as its example says.
fn follow<R: Abort>(
    rt: &R,
    alloc: Global,
    queue: &mut Queue,
    policy: Policy,
    example: &Example,
) -> Result<Trail, Refusal>
    requires well_formed { IsWellFormedQueue queue.old }
    requires stores { policy ≢ Off }
    ensures leads { IfOk result (λ trail. Leads trail queue.old queue.new) }
    ensures kept { OnOk result (IsWellFormedQueue queue.new) }
{
    let Done { trail, answer } = make(alloc, queue, policy, example.call)?.expect(
        rt,
        "the condition holds",
    );
    assert_eq!(rt; (answer, trail.len()), (example.answer, example.marks));
    must_read(rt, alloc, queue, example.after)?;
    Ok(trail)
}

/// Makes the calls, each of which is as its example says, and rewinds them, the last one first, back to the state
/// before them.
fn replay<R: Abort>(
    rt: &R,
    alloc: Global,
    queue: &mut Queue,
    policy: Policy,
    before: &str,
    examples: &[Example],
) -> Result<(), Refusal>
    requires well_formed { IsWellFormedQueue queue.old }
    requires stores { policy ≢ Off }
    ensures { OnOk result (queue.new ≡ queue.old) }
{
    let [example, rest @ ..] = examples else {
        return Ok(());
    };
    let trail = follow(rt, alloc, queue, policy, example)?;
    replay(rt, alloc, queue, policy, example.after, rest)?;
    rewind(queue, trail)?;
    must_read(rt, alloc, queue, before)?;
    Ok(())
}

/// Makes the calls.
fn forward<R: Abort>(
    rt: &R,
    alloc: Global,
    queue: &mut Queue,
    policy: Policy,
    examples: &[Example],
) -> Result<(), Refusal>
    requires well_formed { IsWellFormedQueue queue.old }
    requires stores { policy ≢ Off }
    ensures { OnOk result (IsWellFormedQueue queue.new) }
{
    for example in examples {
        make(alloc, queue, policy, example.call)?.expect(rt, "the condition holds");
    }
    Ok(())
}

/// One section, one sealed device block: the third insertion evicts the first object.
const EVICTS: [Example; 3] = [
    Example {
        call: Call::Insert(1, 6),
        after: "S0 {0, 1, []}, 1 (6, 0, 0), next 2",
        answer: Answer::Counts([0, 0, 0, 0, 0]),
        marks: 1,
    },
    Example {
        call: Call::Insert(2, 6),
        after: "S0 {2, 1, [0d]}, 1 (6, 0, 0), 2 (6, 2, 2), next 3",
        answer: Answer::Counts([0, 0, 1, 0, 0]),
        marks: 2,
    },
    Example {
        call: Call::Insert(3, 6),
        after: "S0 {3, 1, [2d]}, 2 (6, 2, 2), 3 (6, 3, 3), next 4",
        answer: Answer::Counts([1, 0, 1, 0, 0]),
        marks: 4,
    },
];

/// With a promotion of the first object before it: the first object is written again, and the second one leaves.
const WRITES_AGAIN: [Example; 4] = [
    Example {
        call: Call::Insert(1, 6),
        after: "S0 {0, 1, []}, 1 (6, 0, 0), next 2",
        answer: Answer::Counts([0, 0, 0, 0, 0]),
        marks: 1,
    },
    Example {
        call: Call::Insert(2, 6),
        after: "S0 {2, 1, [0d]}, 1 (6, 0, 0), 2 (6, 2, 2), next 3",
        answer: Answer::Counts([0, 0, 1, 0, 0]),
        marks: 2,
    },
    Example {
        call: Call::Promote(1),
        after: "S0 {2, 1, [0d]}, 1 (6, 0, 1), 2 (6, 2, 2), next 3",
        answer: Answer::Changed(true),
        marks: 1,
    },
    Example {
        call: Call::Insert(3, 6),
        after: "S0 {4, 1, [3d]}, 1 (6, 4, 4), 3 (6, 3, 3), next 5",
        answer: Answer::Counts([1, 1, 2, 0, 0]),
        marks: 7,
    },
];

/// From a queue with a sealed virtual block: it goes, and then the device block before it.
const EVICTS_BOTH: [Example; 2] = [
    Example {
        call: Call::Insert(3, 6),
        after: "S0 {3, 2, [0d, 1v]}, 1 (6, 0, 1), 2 (4, 0, 0), 3 (6, 3, 3), next 4",
        answer: Answer::Counts([0, 0, 0, 0, 0]),
        marks: 1,
    },
    Example {
        call: Call::Insert(4, 6),
        after: "S0 {4, 2, [3d]}, 3 (6, 3, 3), 4 (6, 4, 4), next 5",
        answer: Answer::Counts([2, 0, 1, 0, 0]),
        marks: 6,
    },
];

/// Promotions: of an object in the active block, of another, and one that empties a sealed virtual block.
const PROMOTES: [Example; 7] = [
    Example {
        call: Call::Insert(1, 6),
        after: "S0 {0, 1, []}, 1 (6, 0, 0), next 2",
        answer: Answer::Counts([0, 0, 0, 0, 0]),
        marks: 1,
    },
    Example {
        call: Call::Insert(2, 6),
        after: "S0 {2, 1, [0d]}, 1 (6, 0, 0), 2 (6, 2, 2), next 3",
        answer: Answer::Counts([0, 0, 1, 0, 0]),
        marks: 2,
    },
    Example {
        call: Call::Insert(3, 6),
        after: "S0 {3, 1, [2d, 0d]}, 1 (6, 0, 0), 2 (6, 2, 2), 3 (6, 3, 3), next 4",
        answer: Answer::Counts([0, 0, 1, 0, 0]),
        marks: 2,
    },
    Example {
        call: Call::Promote(3),
        after: "S0 {3, 1, [2d, 0d]}, 1 (6, 0, 0), 2 (6, 2, 2), 3 (6, 3, 3), next 4",
        answer: Answer::Changed(false),
        marks: 0,
    },
    Example {
        call: Call::Promote(1),
        after: "S0 {3, 1, [2d, 0d]}, 1 (6, 0, 1), 2 (6, 2, 2), 3 (6, 3, 3), next 4",
        answer: Answer::Changed(true),
        marks: 1,
    },
    Example {
        call: Call::Promote(2),
        after: "S0 {3, 4, [1v, 2d, 0d]}, 1 (6, 0, 1), 2 (6, 2, 4), 3 (6, 3, 3), next 5",
        answer: Answer::Changed(true),
        marks: 2,
    },
    Example {
        call: Call::Promote(1),
        after: "S0 {3, 5, [4v, 2d, 0d]}, 1 (6, 0, 5), 2 (6, 2, 4), 3 (6, 3, 3), next 6",
        answer: Answer::Changed(true),
        marks: 3,
    },
];

/// From the queue before the last of them: a purge that empties the sealed virtual block.
const PURGES_PLACE: [Example; 1] = [Example {
    call: Call::Purge(1),
    after: "S0 {3, 4, [2d, 0d]}, 2 (6, 2, 4), 3 (6, 3, 3), next 5",
    answer: Answer::Nothing,
    marks: 2,
}];

/// And one of the object in the active device block, which holds nothing then, and stays.
const PURGES_ROW: [Example; 1] = [Example {
    call: Call::Purge(3),
    after: "S0 {3, 4, [1v, 2d, 0d]}, 1 (6, 0, 1), 2 (6, 2, 4), next 5",
    answer: Answer::Nothing,
    marks: 1,
}];

/// From the same queue: a purge that also takes out the home, which is the home of no object then, and one whose place
/// is active, so that the home alone goes.
const RECLAIMS: [Example; 2] = [
    Example {
        call: Call::Reclaim(1),
        after: "S0 {3, 4, [2d]}, 2 (6, 2, 4), 3 (6, 3, 3), next 5",
        answer: Answer::Nothing,
        marks: 3,
    },
    Example {
        call: Call::Reclaim(2),
        after: "S0 {3, 4, []}, 3 (6, 3, 3), next 5",
        answer: Answer::Nothing,
        marks: 2,
    },
];

/// And one of the object in the active device block, which stays.
const RECLAIMS_ROW: [Example; 1] = [Example {
    call: Call::Reclaim(3),
    after: "S0 {3, 4, [1v, 2d, 0d]}, 1 (6, 0, 1), 2 (6, 2, 4), next 5",
    answer: Answer::Nothing,
    marks: 1,
}];

/// From a queue whose sealed device block is the home of two objects: it stays while it is the home of one, and goes
/// with the last one.
const RECLAIMS_LAST: [Example; 2] = [
    Example {
        call: Call::Reclaim(1),
        after: "S0 {3, 2, [0d]}, 2 (4, 0, 0), next 4",
        answer: Answer::Nothing,
        marks: 2,
    },
    Example {
        call: Call::Reclaim(2),
        after: "S0 {3, 2, []}, next 4",
        answer: Answer::Nothing,
        marks: 2,
    },
];

/// Four insertions, two of which split the head.
const SPLITS: [Example; 4] = [
    Example {
        call: Call::Insert(1, 6),
        after: "S0 {0, 1, []}, 1 (6, 0, 0), next 2",
        answer: Answer::Counts([0, 0, 0, 0, 0]),
        marks: 1,
    },
    Example {
        call: Call::Insert(2, 6),
        after: "S0 {2, 1, [0d]}, 1 (6, 0, 0), 2 (6, 2, 2), next 3",
        answer: Answer::Counts([0, 0, 1, 0, 0]),
        marks: 2,
    },
    Example {
        call: Call::Insert(3, 6),
        after: "S0 {3, 1, [2d]}, S1 {4, 5, [0d]}, 1 (6, 0, 0), 2 (6, 2, 2), 3 (6, 3, 3), next 6",
        answer: Answer::Counts([0, 0, 1, 1, 0]),
        marks: 3,
    },
    Example {
        call: Call::Insert(4, 6),
        after: "S0 {6, 1, [3d]}, S1 {7, 8, [2d]}, S2 {4, 5, [0d]}, 1 (6, 0, 0), 2 (6, 2, 2), 3 (6, 3, 3), 4 (6, 6, 6), next 9",
        answer: Answer::Counts([0, 0, 1, 1, 0]),
        marks: 3,
    },
];

/// From there two promotions, and an insertion that merges the two lower sections and splits the head.
const MERGES: [Example; 3] = [
    Example {
        call: Call::Promote(1),
        after: "S0 {6, 1, [3d]}, S1 {7, 8, [2d]}, S2 {4, 5, [0d]}, 1 (6, 0, 1), 2 (6, 2, 2), 3 (6, 3, 3), 4 (6, 6, 6), next 9",
        answer: Answer::Changed(true),
        marks: 1,
    },
    Example {
        call: Call::Promote(2),
        after: "S0 {6, 9, [1v, 3d]}, S1 {7, 8, [2d]}, S2 {4, 5, [0d]}, 1 (6, 0, 1), 2 (6, 2, 9), 3 (6, 3, 3), 4 (6, 6, 6), next 10",
        answer: Answer::Changed(true),
        marks: 2,
    },
    Example {
        call: Call::Insert(5, 6),
        after: "S0 {10, 9, [6d, 1v]}, S1 {11, 12, [3d]}, S2 {7, 8, [2d, 0d]}, 1 (6, 0, 1), 2 (6, 2, 9), 3 (6, 3, 3), 4 (6, 6, 6), 5 (6, 10, 10), next 13",
        answer: Answer::Counts([0, 0, 1, 1, 1]),
        marks: 4,
    },
];

/// With three segments a miss goes to the middle section.
const SEGMENTS_MISS: [Example; 1] = [Example {
    call: Call::Insert(5, 6),
    after: "S0 {6, 1, [3d]}, S1 {7, 8, [2d]}, S2 {4, 5, [0d]}, 1 (6, 0, 0), 2 (6, 2, 2), 3 (6, 3, 3), 4 (6, 6, 6), 5 (6, 7, 7), next 9",
    answer: Answer::Counts([0, 0, 0, 0, 0]),
    marks: 1,
}];

/// And a hit of the lowest level to the head.
const SEGMENTS_HIT: [Example; 1] = [Example {
    call: Call::Promote(1),
    after: "S0 {6, 1, [3d]}, S1 {7, 8, [2d]}, S2 {4, 5, [0d]}, 1 (6, 0, 1), 2 (6, 2, 2), 3 (6, 3, 3), 4 (6, 6, 6), next 9",
    answer: Answer::Changed(true),
    marks: 1,
}];

/// Purges of all that the three sections hold: the sections stay.
const EMPTIES: [Example; 4] = [
    Example {
        call: Call::Purge(1),
        after: "S0 {6, 1, [3d]}, S1 {7, 8, [2d]}, S2 {4, 5, [0d]}, 2 (6, 2, 2), 3 (6, 3, 3), 4 (6, 6, 6), next 9",
        answer: Answer::Nothing,
        marks: 1,
    },
    Example {
        call: Call::Purge(2),
        after: "S0 {6, 1, [3d]}, S1 {7, 8, [2d]}, S2 {4, 5, [0d]}, 3 (6, 3, 3), 4 (6, 6, 6), next 9",
        answer: Answer::Nothing,
        marks: 1,
    },
    Example {
        call: Call::Purge(3),
        after: "S0 {6, 1, [3d]}, S1 {7, 8, [2d]}, S2 {4, 5, [0d]}, 4 (6, 6, 6), next 9",
        answer: Answer::Nothing,
        marks: 1,
    },
    Example {
        call: Call::Purge(4),
        after: "S0 {6, 1, [3d]}, S1 {7, 8, [2d]}, S2 {4, 5, [0d]}, next 9",
        answer: Answer::Nothing,
        marks: 1,
    },
];

/// A queue that holds nothing.
const NOTHING: &str = "S0 {0, 1, []}, next 2";

/// The queue of one section to which the promotions but the last lead.
const PROMOTED: &str = "S0 {3, 4, [1v, 2d, 0d]}, 1 (6, 0, 1), 2 (6, 2, 4), 3 (6, 3, 3), next 5";

/// The queue of three sections to which the splits lead.
const SPLIT: &str =
    "S0 {6, 1, [3d]}, S1 {7, 8, [2d]}, S2 {4, 5, [0d]}, 1 (6, 0, 0), 2 (6, 2, 2), 3 (6, 3, 3), 4 (6, 6, 6), next 9";

/// The queue of one section that primitives make.
const SEALED_BOTH: &str = "S0 {3, 2, [0d, 1v]}, 1 (6, 0, 1), 2 (4, 0, 0), next 4";

fn opened(alloc: Global, sections: u64, blocks: u64) -> Result<Queue, Fail>
    ensures { IfOk result (λ q. IsWellFormedQueue q) }
{
    let shape = Shape::new(sections, 10, blocks).ok_or("shape")?;
    Ok(Queue::new(alloc, shape)?)
}

/// The queue after the splits.
fn split<R: Abort>(rt: &R, alloc: Global) -> Result<Queue, Fail>
    ensures { IfOk result (λ q. IsWellFormedQueue q) }
{
    let mut queue = opened(alloc, 4, 8)?;
    forward(rt, alloc, &mut queue, Policy::Lru, &SPLITS)?;
    Ok(queue)
}

/// The queue after the splits and the purges of all that it held.
fn emptied<R: Abort>(rt: &R, alloc: Global) -> Result<Queue, Fail>
    ensures { IfOk result (λ q. IsWellFormedQueue q) }
{
    let mut queue = split(rt, alloc)?;
    forward(rt, alloc, &mut queue, Policy::Lru, &EMPTIES)?;
    Ok(queue)
}

/// The queue after the promotions but the last.
fn promoted<R: Abort>(rt: &R, alloc: Global) -> Result<Queue, Fail>
    ensures { IfOk result (λ q. IsWellFormedQueue q) }
{
    let mut queue = opened(alloc, 1, 4)?;
    forward(rt, alloc, &mut queue, Policy::Lru, &PROMOTES[..6])?;
    Ok(queue)
}

/// Segmented LRU.
fn slru(segments: u8) -> Result<Policy, Fail>
    ensures { IfOk result (λ p. p ≢ Off) }
{
    Ok(Policy::Slru(Levels::new(segments).ok_or("levels")?))
}

/// Makes a sealed virtual block behind a sealed device block, by primitives.
fn seal_both(queue: &mut Queue) -> Result<(), NoMemory>
    requires well_formed { IsWellFormedQueue queue.old }
    requires start { queue.old ≡ start_of (record { sections = 1; block = 10; blocks = 1 }) }
    ensures { OnOk result (IsWellFormedQueue queue.new) }
{
    queue.add(1, 6, 0)?;
    queue.replace(1, 0)?;
    queue.seal(0, Kind::Virtual)?;
    queue.add(2, 4, 0)?;
    queue.seal(0, Kind::Device)?;
    Ok(())
}

/// A queue of one section with them.
fn with_sealed_virtual(alloc: Global) -> Result<Queue, Fail>
    ensures { IfOk result (λ q. IsWellFormedQueue q) }
{
    let shape = Shape::new(1, 10, 1).ok_or("shape")?;
    let mut queue = Queue::new(alloc, shape)?;
    seal_both(&mut queue)?;
    Ok(queue)
}

/// Goes to and fro through examples.
fn to_and_fro<R: Abort>(
    rt: &R,
    alloc: Global,
    policy: Policy,
    before: &str,
    examples: &[Example],
    queue: Queue,
) -> Result<(), Fail>
    requires well_formed { IsWellFormedQueue queue }
    requires stores { policy ≢ Off }
{
    let mut queue = queue;
    replay(rt, alloc, &mut queue, policy, before, examples)?;
    Ok(())
}

#[test]
fn a_third_insertion_evicts(rt: HostRuntime) -> Result<(), Fail> {
    let queue = opened(rt.alloc(), 1, 1)?;
    to_and_fro(&rt, rt.alloc(), Policy::Lru, NOTHING, &EVICTS, queue)
}

#[test]
fn a_promoted_object_is_written_again(rt: HostRuntime) -> Result<(), Fail> {
    let queue = opened(rt.alloc(), 1, 1)?;
    to_and_fro(&rt, rt.alloc(), Policy::Lru, NOTHING, &WRITES_AGAIN, queue)
}

#[test]
fn an_eviction_takes_a_virtual_block_too(rt: HostRuntime) -> Result<(), Fail> {
    let queue = with_sealed_virtual(rt.alloc())?;
    to_and_fro(
        &rt,
        rt.alloc(),
        Policy::Lru,
        SEALED_BOTH,
        &EVICTS_BOTH,
        queue,
    )
}

#[test]
fn promotions_move_places(rt: HostRuntime) -> Result<(), Fail> {
    let queue = opened(rt.alloc(), 1, 4)?;
    to_and_fro(&rt, rt.alloc(), Policy::Lru, NOTHING, &PROMOTES, queue)
}

#[test]
fn a_purge_takes_an_emptied_block_out(rt: HostRuntime) -> Result<(), Fail> {
    let queue = promoted(&rt, rt.alloc())?;
    to_and_fro(&rt, rt.alloc(), Policy::Lru, PROMOTED, &PURGES_PLACE, queue)
}

#[test]
fn a_purge_leaves_an_active_block(rt: HostRuntime) -> Result<(), Fail> {
    let queue = promoted(&rt, rt.alloc())?;
    to_and_fro(&rt, rt.alloc(), Policy::Lru, PROMOTED, &PURGES_ROW, queue)
}

#[test]
fn a_purge_takes_an_abandoned_home_out(rt: HostRuntime) -> Result<(), Fail> {
    let queue = promoted(&rt, rt.alloc())?;
    to_and_fro(&rt, rt.alloc(), Policy::Lru, PROMOTED, &RECLAIMS, queue)
}

#[test]
fn a_reclaiming_purge_leaves_an_active_block(rt: HostRuntime) -> Result<(), Fail> {
    let queue = promoted(&rt, rt.alloc())?;
    to_and_fro(&rt, rt.alloc(), Policy::Lru, PROMOTED, &RECLAIMS_ROW, queue)
}

#[test]
fn a_reclaiming_purge_leaves_a_home(rt: HostRuntime) -> Result<(), Fail> {
    let queue = with_sealed_virtual(rt.alloc())?;
    to_and_fro(
        &rt,
        rt.alloc(),
        Policy::Lru,
        SEALED_BOTH,
        &RECLAIMS_LAST,
        queue,
    )
}

#[test]
fn purges_leave_sections(rt: HostRuntime) -> Result<(), Fail> {
    let queue = split(&rt, rt.alloc())?;
    to_and_fro(&rt, rt.alloc(), Policy::Lru, SPLIT, &EMPTIES, queue)
}

#[test]
fn insertions_split(rt: HostRuntime) -> Result<(), Fail> {
    let queue = opened(rt.alloc(), 4, 8)?;
    to_and_fro(&rt, rt.alloc(), Policy::Lru, NOTHING, &SPLITS, queue)
}

#[test]
fn an_insertion_merges_and_splits(rt: HostRuntime) -> Result<(), Fail> {
    let queue = split(&rt, rt.alloc())?;
    to_and_fro(&rt, rt.alloc(), Policy::Lru, SPLIT, &MERGES, queue)
}

#[test]
fn segments_take_a_miss(rt: HostRuntime) -> Result<(), Fail> {
    let queue = split(&rt, rt.alloc())?;
    to_and_fro(&rt, rt.alloc(), slru(3)?, SPLIT, &SEGMENTS_MISS, queue)
}

#[test]
fn segments_take_a_hit(rt: HostRuntime) -> Result<(), Fail> {
    let queue = split(&rt, rt.alloc())?;
    to_and_fro(&rt, rt.alloc(), slru(3)?, SPLIT, &SEGMENTS_HIT, queue)
}

/// The levels of objects 1 to 5.
fn levels_of(queue: &Queue, levels: Levels) -> [Option<u8>; 5]
    requires { IsWellFormedQueue queue.now }
{
    [
        level_of(queue, levels, 1),
        level_of(queue, levels, 2),
        level_of(queue, levels, 3),
        level_of(queue, levels, 4),
        level_of(queue, levels, 5),
    ]
}

/// Where each level of segments goes, the lowest first.
fn targets(alloc: Global, queue: &Queue, levels: Levels) -> Result<Vec<u32>, NoMemory>
    requires { IsWellFormedQueue queue.now }
{
    let mut targets = Vec::new(alloc);
    for lower in 0..levels.segments {
        targets.push(target(queue, Policy::Slru(levels), lower + 1))?;
    }
    Ok(targets)
}

/// Segments, the levels of objects 1 to 5 under so many, and where each level goes, the lowest first.
type Aim = (u8, [Option<u8>; 5], &'static [u32]);

/// After the splits.
const AIMS: [Aim; 4] = [
    (2, [Some(1), Some(1), Some(2), Some(2), None], &[1, 0]),
    (3, [Some(1), Some(1), Some(2), Some(2), None], &[1, 0, 0]),
    (4, [Some(1), Some(2), Some(3), Some(3), None], &[2, 1, 0, 0]),
    (
        8,
        [Some(1), Some(3), Some(5), Some(5), None],
        &[2, 2, 1, 1, 0, 0, 0, 0],
    ),
];

/// Where nothing is stored, as after purges, each level but the highest goes to the tail.
const AIM_OF_NOTHING: Aim = (3, [None; 5], &[2, 2, 0]);

/// Asserts that the levels of objects and the targets of levels are these.
fn must_aim<R: Abort>(rt: &R, alloc: Global, queue: &Queue, aim: Aim) -> Result<(), Fail>
    requires { IsWellFormedQueue queue.now }
{
    let (segments, of_objects, of_levels) = aim;
    let levels = Levels::new(segments).ok_or("levels")?;
    assert!(rt; levels_of(queue, levels) == of_objects);
    assert!(rt; targets(alloc, queue, levels)?.as_slice() == of_levels);
    Ok(())
}

/// Asserts it of each after the splits, and that without segments all goes to the head.
fn must_aim_each<R: Abort>(rt: &R, alloc: Global, aims: &[Aim]) -> Result<(), Fail> {
    let queue = split(rt, alloc)?;
    for aim in aims {
        must_aim(rt, alloc, &queue, *aim)?;
    }
    assert_eq!(rt; target(&queue, Policy::Lru, 3), 0);
    Ok(())
}

#[test]
fn an_object_has_a_level_and_a_level_its_target(rt: HostRuntime) -> Result<(), Fail> {
    must_aim_each(&rt, rt.alloc(), &AIMS)
}

#[test]
fn a_level_of_nothing_goes_to_the_tail(rt: HostRuntime) -> Result<(), Fail> {
    let queue = emptied(&rt, rt.alloc())?;
    must_aim(&rt, rt.alloc(), &queue, AIM_OF_NOTHING)
}

#[test]
fn segments_are_two_to_eight(rt: HostRuntime) {
    for (segments, there_are) in [
        (0, false),
        (1, false),
        (2, true),
        (8, true),
        (9, false),
        (255, false),
    ] {
        assert_eq!(rt;
            Levels::new(segments).is_some(),
            there_are,
            "for {segments}"
        );
    }
}
