/// What rounds did, in counts modulo 2^64. No theorem speaks of it.
#[derive(Clone, Copy, Default, PartialEq, Eq)]
pub struct Traffic {
    /// Rounds.
    pub rounds: u64,
    /// Events executed, also those that were undone later.
    pub executed: u64,
    /// Events undone.
    pub undone: u64,
    /// Letters received through rings.
    pub ring: u64,
    /// Letters kept or set aside at ends of rounds.
    pub kept: u64,
}

impl Traffic {
    /// Adds the counts of `more`.
    pub fn add(&mut self, more: &Traffic) {
        self.rounds = self.rounds.wrapping_add(more.rounds);
        self.executed = self.executed.wrapping_add(more.executed);
        self.undone = self.undone.wrapping_add(more.undone);
        self.ring = self.ring.wrapping_add(more.ring);
        self.kept = self.kept.wrapping_add(more.kept);
    }
}
