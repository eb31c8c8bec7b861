use rw_rounds::Gate;
use std::sync::atomic::{AtomicU64, Ordering};

/// How often a worker that is held back looks whether it may go on.
const TRIES: u64 = 10_000_000;

/// A gate that holds one worker back in its first turn of each round until another one has come to its last turn of that
/// round. After [`TRIES`] looks it lets go, so also where a round has the one worker alone.
#[derive(Drop)]
pub struct Hold {
    held: u32,
    other: u32,
    /// The last turn of a round.
    last: u32,
    /// How often the other worker has come to its last turn.
    ends: AtomicU64,
    /// How often it had when the held one was last let go.
    known: AtomicU64,
    /// How often the held one waited.
    waits: AtomicU64,
    /// How often it was let go though the other one had not come.
    misses: AtomicU64,
}

impl Hold {
    /// The gate that holds worker `held` back for worker `other`, in rounds of so many turns.
    pub fn new(held: u32, other: u32, turns: u32) -> Hold {
        Hold {
            held,
            other,
            last: turns.saturating_sub(1),
            ends: AtomicU64::new(0),
            known: AtomicU64::new(0),
            waits: AtomicU64::new(0),
            misses: AtomicU64::new(0),
        }
    }

    /// How often the held worker waited.
    pub fn waits(&self) -> u64 {
        self.waits.load(Ordering::SeqCst)
    }

    /// How often the held worker was let go though the other one had not come to its last turn.
    pub fn misses(&self) -> u64 {
        self.misses.load(Ordering::SeqCst)
    }

    /// Waits until the other worker has come to its last turn.
    fn wait(&self) {
        let known = self.known.load(Ordering::SeqCst);
        let found = self.ends.load(Ordering::SeqCst);
        self.waits.fetch_add(1, Ordering::SeqCst);
        // More than one end since then: the other worker had rounds of its own, and is to come anew.
        let from = if found > known.saturating_add(1) {
            found
        } else {
            known
        };
        for _ in 0..TRIES {
            if self.ends.load(Ordering::SeqCst) > from {
                break;
            }
        }
        let ends = self.ends.load(Ordering::SeqCst);
        if ends == from {
            self.misses.fetch_add(1, Ordering::SeqCst);
        }
        self.known.store(ends, Ordering::SeqCst);
    }
}

impl Gate for Hold {
    fn pass(&self, worker: u32, turn: u32) {
        if worker == self.other && turn == self.last {
            self.ends.fetch_add(1, Ordering::SeqCst);
        }
        if worker == self.held && turn == 0 {
            self.wait();
        }
    }
}
