/// Who is told how far a long run has come, by the thread alone that called for the run.
///
/// A run goes from one number to another: of a trace's ticks or rows, of bytes, or of pieces of work. It is told seldom enough
/// that reading a clock each time costs nothing to speak of.
pub trait Progress {
    /// A run begins that goes from `from` to `to`: to `u64::MAX` where it is not known how far.
    fn begin(&mut self, from: u64, to: u64);

    /// So far has the run come that began last.
    fn reach(&mut self, at: u64);

    /// Something is about to go out to the run's writer.
    fn about_to_write(&mut self);
}

/// Nobody is told.
#[derive(Drop)]
pub struct Silent;

impl Progress for Silent {
    fn begin(&mut self, _from: u64, _to: u64) {}

    fn reach(&mut self, _at: u64) {}

    fn about_to_write(&mut self) {}
}
