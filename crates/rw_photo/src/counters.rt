ghost use Rattle.std.specs.Prelude.{◌≡◌};
ghost use Rattle.rw_photo.specs.Counts.{AreCounts, no_counts, sum_of, with_late, difference_of, one_bypassed, one_coalesced, one_hit, one_inserted, one_miss, one_purge};

use rw_ripq::Tally;

/// What one cache has counted; every count is modulo 2^64.
#[derive(Clone, Copy, Debug, Default, PartialEq, Eq)]
pub struct Counters {
    /// Requests, hits and misses together.
    pub requests: u64,
    /// Requests for an object that was stored.
    pub hits: u64,
    /// Requests for an object that was not.
    pub misses: u64,
    /// Misses at an edge whose object was on its way already.
    pub coalesced: u64,
    /// Requests at an edge that were answered by a fill.
    pub late: u64,
    /// Objects too large for a block.
    pub bypassed: u64,
    /// Objects stored.
    pub inserted: u64,
    /// Objects evicted.
    pub evicted: u64,
    /// Objects written again when their block was evicted.
    pub reinserted: u64,
    /// Hits that moved an object to another place.
    pub promoted: u64,
    /// Blocks written to flash.
    pub writes: u64,
    /// Sections split.
    pub splits: u64,
    /// Sections merged.
    pub merges: u64,
    /// Bytes that were asked for by requests that hit.
    pub hit_bytes: u64,
    /// Bytes that were asked for by requests, hits and misses together.
    pub request_bytes: u64,
    /// Bytes of the objects stored.
    pub inserted_bytes: u64,
    /// Purges, of an object that was stored and of one that was not.
    pub purges: u64,
    /// Objects that left by a purge.
    pub purged: u64,
}

/// The counters of which each count is made, by a method of `u64`, of that count on the left and on the right.
macro_rules! each_count {
    ($left:expr, $method:ident, $right:expr) => {
        Counters {
            requests: $left.requests.$method($right.requests),
            hits: $left.hits.$method($right.hits),
            misses: $left.misses.$method($right.misses),
            coalesced: $left.coalesced.$method($right.coalesced),
            late: $left.late.$method($right.late),
            bypassed: $left.bypassed.$method($right.bypassed),
            inserted: $left.inserted.$method($right.inserted),
            evicted: $left.evicted.$method($right.evicted),
            reinserted: $left.reinserted.$method($right.reinserted),
            promoted: $left.promoted.$method($right.promoted),
            writes: $left.writes.$method($right.writes),
            splits: $left.splits.$method($right.splits),
            merges: $left.merges.$method($right.merges),
            hit_bytes: $left.hit_bytes.$method($right.hit_bytes),
            request_bytes: $left.request_bytes.$method($right.request_bytes),
            inserted_bytes: $left.inserted_bytes.$method($right.inserted_bytes),
            purges: $left.purges.$method($right.purges),
            purged: $left.purged.$method($right.purged),
        }
    };
}

/// What one event counts, added in place: only the counts that grow are read and written.
impl Counters {
    /// A hit by a request for `size` bytes, which moved its object to another place or not.
    pub(crate) fn hit(&mut self, moved: bool, size: u64)
        requires { AreCounts self.old }
        ensures { self.new ≡ sum_of self.old (one_hit moved size) }
    {
        self.requests = self.requests.wrapping_add(1);
        self.hits = self.hits.wrapping_add(1);
        self.promoted = self.promoted.wrapping_add(u64::from(moved));
        self.hit_bytes = self.hit_bytes.wrapping_add(size);
        self.request_bytes = self.request_bytes.wrapping_add(size);
    }

    /// A miss by a request for `size` bytes.
    pub(crate) fn miss(&mut self, size: u64)
        requires { AreCounts self.old }
        ensures { self.new ≡ sum_of self.old (one_miss size no_counts) }
    {
        self.requests = self.requests.wrapping_add(1);
        self.misses = self.misses.wrapping_add(1);
        self.request_bytes = self.request_bytes.wrapping_add(size);
    }

    /// A miss by a request for `size` bytes, whose object is on its way already.
    pub(crate) fn coalesced(&mut self, size: u64)
        requires { AreCounts self.old }
        ensures { self.new ≡ sum_of self.old (one_coalesced size) }
    {
        self.requests = self.requests.wrapping_add(1);
        self.misses = self.misses.wrapping_add(1);
        self.coalesced = self.coalesced.wrapping_add(1);
        self.request_bytes = self.request_bytes.wrapping_add(size);
    }

    /// A fill that answers `late` requests.
    pub(crate) fn late(&mut self, late: u64)
        requires { AreCounts self.old }
        ensures { self.new ≡ sum_of self.old (with_late late no_counts) }
    {
        self.late = self.late.wrapping_add(late);
    }

    /// A purge, of an object that was stored or not.
    pub(crate) fn purge(&mut self, stored: bool)
        requires { AreCounts self.old }
        ensures { self.new ≡ sum_of self.old (one_purge stored) }
    {
        self.purges = self.purges.wrapping_add(1);
        self.purged = self.purged.wrapping_add(u64::from(stored));
    }

    /// An object that is too large for a block.
    pub(crate) fn bypass(&mut self)
        requires { AreCounts self.old }
        ensures { self.new ≡ sum_of self.old one_bypassed }
    {
        self.bypassed = self.bypassed.wrapping_add(1);
    }

    /// An object of `size` bytes that was stored, with what its insertion counted.
    pub(crate) fn insert(&mut self, tally: Tally, size: u64)
        requires { AreCounts self.old }
        ensures { self.new ≡ sum_of self.old (one_inserted tally size) }
    {
        self.inserted = self.inserted.wrapping_add(1);
        self.evicted = self.evicted.wrapping_add(tally.evicted);
        self.reinserted = self.reinserted.wrapping_add(tally.reinserted);
        self.writes = self.writes.wrapping_add(tally.writes);
        self.splits = self.splits.wrapping_add(tally.splits);
        self.merges = self.merges.wrapping_add(tally.merges);
        self.inserted_bytes = self.inserted_bytes.wrapping_add(size);
    }

    /// Each count grows by what was counted, modulo 2^64. Takes no memory.
    pub fn add(&mut self, counted: &Counters)
        ensures { self.new ≡ sum_of self.old counted.now }
    {
        *self = each_count!(self, wrapping_add, counted);
    }

    /// Each count falls by what was counted, modulo 2^64: undoes [`Counters::add`]. Takes no memory.
    pub fn take_off(&mut self, counted: &Counters)
        ensures { self.new ≡ difference_of self.old counted.now }
    {
        *self = each_count!(self, wrapping_sub, counted);
    }
}
