// How much flash reaches a hit ratio, worked out by hand.
use rw_photo::{Config, Policy, Shape};
use rw_progress::Silent;
use rw_sweep::{Answer, Caches, Search, Tier, size};
use rw_trace::read;
use std::alloc::Global;

/// Four objects, each as large as a block, asked for in turn, twice.
///
/// An edge has an active block and so many sealed ones. From three sealed ones on it stores all four, and the second round hits: half
/// of all requests. With fewer the one that is asked for next was evicted last, and nothing ever hits.
const ROUNDS: &[u8] =
    b"time,edge,object,size\n0,0,1,10\n100,0,2,10\n200,0,3,10\n300,0,4,10\n400,0,1,10\n500,0,2,10\n600,0,3,10\n700,0,4,10\n";

/// The answer for an edge and an origin of one section, where the edge has 1 to 16 blocks and its hit ratio is to reach so many
/// millionths.
fn answer_to(alloc: Global, target: u64) -> Option<Answer> {
    let rows = read(alloc, ROUNDS, 1).ok()?;
    let shape = Shape::new(1, 10, 4)?;
    let config = Config::new(1, 1, Policy::Lru, shape, shape, 3, 3, 10)?;
    let search = Search {
        config,
        tier: Tier::Edges,
        least: 1,
        most: 16,
        target,
        caches: Caches::Edges,
    };
    if !search.is_in_range() {
        return None;
    }
    size(alloc, rows.as_slice(), &search, &mut Silent).ok()
}

/// Whether so much is answered, after runs with so many blocks.
fn is_answer(answer: Option<Answer>, reached: Option<u64>, blocks: &[u64]) -> bool {
    let Some(answer) = answer else {
        return false;
    };
    let mut same = answer.tries.len() == blocks.len() && answer.reached == reached;
    for (a, b) in answer.tries.iter().zip(blocks) {
        same = same && a.blocks == *b;
    }
    same
}

#[test]
fn half_of_the_requests_hit_from_three_blocks_on(rt: HostRuntime) {
    let answer = answer_to(rt.alloc(), 500_000);
    assert!(rt; is_answer(answer, Some(3), &[1, 16, 8, 4, 2, 3]));
}

#[test]
fn more_than_half_never_hit(rt: HostRuntime) {
    let answer = answer_to(rt.alloc(), 500_001);
    assert!(rt; is_answer(answer, None, &[1, 16]));
}

#[test]
fn nothing_is_reached_at_once(rt: HostRuntime) {
    let answer = answer_to(rt.alloc(), 0);
    assert!(rt; is_answer(answer, Some(1), &[1]));
}
