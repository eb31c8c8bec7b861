/// How many runs agreed with what was expected of them, and how many did not.
#[derive(Clone, Copy, Default)]
pub struct Tally {
    pub agree: u64,
    pub differ: u64,
}

impl Tally {
    /// Counts a run.
    pub fn count(&mut self, agrees: bool) {
        let counter = if agrees {
            &mut self.agree
        } else {
            &mut self.differ
        };
        *counter = counter.wrapping_add(1);
    }
}
