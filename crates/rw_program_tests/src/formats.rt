// Tables and JSON of what is reported, sweeps of several numbers of caches, and the least size that reaches a hit ratio.
use crate::commands::{APART, is_answered, write_the_same, written};
use std::alloc::Global;
use std::random::RandomSource;
use std::sync::Wait;
use std::thread::Threads;
use std::time::Clock;

/// What each cache counts of two requests of 4 bytes, where nothing is stored: both miss at the edge and at the origin, and the
/// backend answers with 8 bytes.
const CSV: &[u8] =
    b"cache,requests,hits,misses,coalesced,late,bypassed,inserted,evicted,reinserted,promoted,writes,splits,merges,hit_bytes,request_bytes,hit_ratio,byte_hit_ratio,flash_bytes,written_bytes,backend_requests,backend_bytes,inserted_bytes\nedge 0,2,0,2,0,2,0,0,0,0,0,0,0,0,0,8,0.000000,0.000000,10,0,0,0,0\norigin 0,2,0,2,0,0,0,0,0,0,0,0,0,0,0,8,0.000000,0.000000,20,0,2,8,0\nedges,2,0,2,0,2,0,0,0,0,0,0,0,0,0,8,0.000000,0.000000,10,0,0,0,0\norigins,2,0,2,0,0,0,0,0,0,0,0,0,0,0,8,0.000000,0.000000,20,0,2,8,0\nall,4,0,4,0,2,0,0,0,0,0,0,0,0,0,16,0.000000,0.000000,30,0,2,8,0\n";

/// The same as JSON.
const JSON: &[u8] =
    b"{\"cache\":\"edge 0\",\"requests\":2,\"hits\":0,\"misses\":2,\"coalesced\":0,\"late\":2,\"bypassed\":0,\"inserted\":0,\"evicted\":0,\"reinserted\":0,\"promoted\":0,\"writes\":0,\"splits\":0,\"merges\":0,\"hit_bytes\":0,\"request_bytes\":8,\"hit_ratio\":0.000000,\"byte_hit_ratio\":0.000000,\"flash_bytes\":10,\"written_bytes\":0,\"backend_requests\":0,\"backend_bytes\":0,\"inserted_bytes\":0}\n{\"cache\":\"origin 0\",\"requests\":2,\"hits\":0,\"misses\":2,\"coalesced\":0,\"late\":0,\"bypassed\":0,\"inserted\":0,\"evicted\":0,\"reinserted\":0,\"promoted\":0,\"writes\":0,\"splits\":0,\"merges\":0,\"hit_bytes\":0,\"request_bytes\":8,\"hit_ratio\":0.000000,\"byte_hit_ratio\":0.000000,\"flash_bytes\":20,\"written_bytes\":0,\"backend_requests\":2,\"backend_bytes\":8,\"inserted_bytes\":0}\n{\"cache\":\"edges\",\"requests\":2,\"hits\":0,\"misses\":2,\"coalesced\":0,\"late\":2,\"bypassed\":0,\"inserted\":0,\"evicted\":0,\"reinserted\":0,\"promoted\":0,\"writes\":0,\"splits\":0,\"merges\":0,\"hit_bytes\":0,\"request_bytes\":8,\"hit_ratio\":0.000000,\"byte_hit_ratio\":0.000000,\"flash_bytes\":10,\"written_bytes\":0,\"backend_requests\":0,\"backend_bytes\":0,\"inserted_bytes\":0}\n{\"cache\":\"origins\",\"requests\":2,\"hits\":0,\"misses\":2,\"coalesced\":0,\"late\":0,\"bypassed\":0,\"inserted\":0,\"evicted\":0,\"reinserted\":0,\"promoted\":0,\"writes\":0,\"splits\":0,\"merges\":0,\"hit_bytes\":0,\"request_bytes\":8,\"hit_ratio\":0.000000,\"byte_hit_ratio\":0.000000,\"flash_bytes\":20,\"written_bytes\":0,\"backend_requests\":2,\"backend_bytes\":8,\"inserted_bytes\":0}\n{\"cache\":\"all\",\"requests\":4,\"hits\":0,\"misses\":4,\"coalesced\":0,\"late\":2,\"bypassed\":0,\"inserted\":0,\"evicted\":0,\"reinserted\":0,\"promoted\":0,\"writes\":0,\"splits\":0,\"merges\":0,\"hit_bytes\":0,\"request_bytes\":16,\"hit_ratio\":0.000000,\"byte_hit_ratio\":0.000000,\"flash_bytes\":30,\"written_bytes\":0,\"backend_requests\":2,\"backend_bytes\":8,\"inserted_bytes\":0}\n";

/// The same of a sweep over one configuration, as JSON.
const SWEPT: &[u8] =
    b"{\"policy\":\"off\",\"sections\":1,\"block\":10,\"edge_blocks\":1,\"origin_blocks\":2,\"edges\":1,\"origins\":1,\"up\":3,\"down\":3,\"back\":10,\"caches\":\"edges\",\"requests\":2,\"hits\":0,\"misses\":2,\"coalesced\":0,\"late\":2,\"bypassed\":0,\"inserted\":0,\"evicted\":0,\"reinserted\":0,\"promoted\":0,\"writes\":0,\"splits\":0,\"merges\":0,\"hit_bytes\":0,\"request_bytes\":8,\"hit_ratio\":0.000000,\"byte_hit_ratio\":0.000000,\"flash_bytes\":10,\"written_bytes\":0,\"backend_requests\":0,\"backend_bytes\":0,\"inserted_bytes\":0,\"drive_writes_a_day\":null,\"reclaim\":0,\"warm_up\":0,\"ticks_a_second\":0,\"rows\":2,\"span\":95,\"digest\":2635451442}\n{\"policy\":\"off\",\"sections\":1,\"block\":10,\"edge_blocks\":1,\"origin_blocks\":2,\"edges\":1,\"origins\":1,\"up\":3,\"down\":3,\"back\":10,\"caches\":\"origins\",\"requests\":2,\"hits\":0,\"misses\":2,\"coalesced\":0,\"late\":0,\"bypassed\":0,\"inserted\":0,\"evicted\":0,\"reinserted\":0,\"promoted\":0,\"writes\":0,\"splits\":0,\"merges\":0,\"hit_bytes\":0,\"request_bytes\":8,\"hit_ratio\":0.000000,\"byte_hit_ratio\":0.000000,\"flash_bytes\":20,\"written_bytes\":0,\"backend_requests\":2,\"backend_bytes\":8,\"inserted_bytes\":0,\"drive_writes_a_day\":null,\"reclaim\":0,\"warm_up\":0,\"ticks_a_second\":0,\"rows\":2,\"span\":95,\"digest\":2635451442}\n{\"policy\":\"off\",\"sections\":1,\"block\":10,\"edge_blocks\":1,\"origin_blocks\":2,\"edges\":1,\"origins\":1,\"up\":3,\"down\":3,\"back\":10,\"caches\":\"all\",\"requests\":4,\"hits\":0,\"misses\":4,\"coalesced\":0,\"late\":2,\"bypassed\":0,\"inserted\":0,\"evicted\":0,\"reinserted\":0,\"promoted\":0,\"writes\":0,\"splits\":0,\"merges\":0,\"hit_bytes\":0,\"request_bytes\":16,\"hit_ratio\":0.000000,\"byte_hit_ratio\":0.000000,\"flash_bytes\":30,\"written_bytes\":0,\"backend_requests\":2,\"backend_bytes\":8,\"inserted_bytes\":0,\"drive_writes_a_day\":null,\"reclaim\":0,\"warm_up\":0,\"ticks_a_second\":0,\"rows\":2,\"span\":95,\"digest\":2635451442}\n";

/// Three requests for one object of 4 bytes, each after the one before it is answered.
const AGAIN: &[u8] = b"time,edge,object,size\n0,0,7,4\n100,0,7,4\n200,0,7,4\n";

/// Command lines, each with its trace and what it writes. Of three requests for one object the second and the third hit.
const WRITTEN: [(&str, &[u8], &[u8]); 9] = [
    (
        "ripqwarp serial - --policy off --block 10 --edge-blocks 1 --origin-blocks 2 --format csv",
        APART,
        CSV,
    ),
    (
        "ripqwarp serial - --policy off --block 10 --edge-blocks 1 --origin-blocks 2 --format json --stream",
        APART,
        JSON,
    ),
    (
        "ripqwarp sweep - --policy off --sections 1 --block 10 --edge-blocks 1 --origin-blocks 2 --format json",
        APART,
        SWEPT,
    ),
    (
        "ripqwarp sweep - --policy off --sections 1 --block 10 --edge-blocks 1 --origin-blocks 2 --format json --stream",
        APART,
        SWEPT,
    ),
    (
        "ripqwarp size - --target 0.5 --policy lru --block 10 --edge-blocks 1..4",
        AGAIN,
        b"blocks 1 flash 10 requests 3 hits 2 hit_ratio 0.666666\nleast blocks 1 flash 10 requests 3 hits 2 hit_ratio 0.666666\n",
    ),
    (
        "ripqwarp size - --target 0.7 --policy lru --block 10 --edge-flash 10..20",
        AGAIN,
        b"blocks 1 flash 10 requests 3 hits 2 hit_ratio 0.666666\nblocks 2 flash 20 requests 3 hits 2 hit_ratio 0.666666\nleast none\n",
    ),
    (
        "ripqwarp size - --target 0 --policy off --block 10 --origin-blocks 3..4 --caches origins --format csv",
        AGAIN,
        b"blocks,flash,requests,hits,hit_ratio,reaches,least\n3,30,3,0,0.000000,1,1\n",
    ),
    (
        "ripqwarp size - --target 1 --policy lru --block 10 --edge-blocks 1..2 --caches all --format json",
        AGAIN,
        b"{\"blocks\":1,\"flash\":10,\"requests\":4,\"hits\":2,\"hit_ratio\":0.500000,\"reaches\":0,\"least\":0}\n{\"blocks\":2,\"flash\":20,\"requests\":4,\"hits\":2,\"hit_ratio\":0.500000,\"reaches\":0,\"least\":0}\n",
    ),
    (
        "ripqwarp sweep --list --policy lru --sections 1 --block 10 --edge-blocks 1 --origin-blocks 2 --edges 1,2 --origins 3 --up 4..8x2 --down 5 --back 6",
        APART,
        b"place,policy,sections,block,edge_blocks,origin_blocks,edges,origins,up,down,back\n0,lru,1,10,1,2,1,3,4,5,6\n1,lru,1,10,1,2,1,3,8,5,6\n2,lru,1,10,1,2,2,3,4,5,6\n3,lru,1,10,1,2,2,3,8,5,6\n",
    ),
];

/// Whether a command line writes this of a trace.
fn is_written<R: Threads + Wait + Clock + RandomSource + Sync>(
    rt: &R,
    alloc: Global,
    words: &str,
    trace: &'static [u8],
    text: &[u8],
) -> bool {
    matches!(written(rt, alloc, words, trace), Some(written) if written.as_slice() == text)
}

#[test]
fn answers_for_programs_and_for_people(rt: HostRuntime) {
    for (words, trace, text) in &WRITTEN {
        assert!(rt;
            is_written(&rt, rt.alloc(), words, *trace, *text),
            "for {words}"
        );
    }
}

/// Command lines that write the same of two requests.
const SAME: [(&str, &str); 3] = [
    (
        "ripqwarp serial - --every 50 --format csv",
        "ripqwarp serial - --every 50",
    ),
    ("ripqwarp serial - --format text", "ripqwarp serial -"),
    (
        "ripqwarp sweep - --policy lru --edges 1,2 --up 2 --format csv",
        "ripqwarp sweep - --policy lru --edges 1,2 --up 2",
    ),
];

#[test]
fn tables_are_csv_by_themselves(rt: HostRuntime) {
    let alloc = rt.alloc();
    for (one, other) in &SAME {
        assert!(rt;
            write_the_same(&rt, alloc, (*one, APART), (*other, APART)),
            "for {one}"
        );
    }
}

/// Command lines that are refused, each with its fault.
const REFUSED: [(&str, &str); 5] = [
    (
        "ripqwarp warp - --format json",
        "error: --format: warp does not take it; serial and sweep do\n",
    ),
    (
        "ripqwarp sweep - --part 0/2 --format json",
        "error: --part: not with --format json\n",
    ),
    (
        "ripqwarp size - --target 0.5",
        "error: give exactly one size as a range to search, as --edge-flash 1G..64G\n",
    ),
    (
        "ripqwarp size - --target 0.5 --edge-blocks 1..2 --origin-blocks 1..2",
        "error: give exactly one size as a range to search, as --edge-flash 1G..64G\n",
    ),
    (
        "ripqwarp size - --target 1.5 --edge-blocks 1..2",
        "error: invalid value '1.5' for '--target': a ratio from 0 to 1 with up to six decimals, as 0.8\n",
    ),
];

#[test]
fn what_does_not_go_together_is_refused(rt: HostRuntime) {
    let alloc = rt.alloc();
    for (words, told) in &REFUSED {
        assert!(rt;
            is_answered(&rt, alloc, words, APART, (2, 0), told),
            "for {words}"
        );
    }
}
