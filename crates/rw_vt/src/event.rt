ghost use Rattle.std.specs.Prelude.{◌≡◌, ℕ};
ghost use Rattle.rw_vt.specs.Limits.{end_of_time};

/// The end of virtual time, in ticks: 2^40. Every event is earlier.
pub const END: u64 = 1 << 40;

/// This constant is the limit that stands in `specs/Limits.antt`, which the definitions cite. The call itself does
/// nothing.
pub fn every_limit()
    ensures { END ≡ end_of_time }
{}

/// Something that happens at one process at one virtual time (Jefferson 1985).
///
/// Events are compared by their fields in this order, whole: two events that compare as equal are the same event.
#[derive(Clone, Copy, Debug, PartialEq, Eq, PartialOrd, Ord)]
pub struct Event<B> {
    /// When it happens, in ticks, below [`END`].
    pub time: u64,
    /// Who sent it: 0 is the outside, `p + 1` is process `p`.
    pub source: u32,
    /// How many events its source had sent before it.
    pub number: u64,
    /// The process at which it happens.
    pub to: u32,
    /// What happens.
    pub body: B,
}

/// A message that carries an event, or the anti-message that cancels it (Jefferson 1985).
#[derive(Clone, Copy, Debug, PartialEq, Eq)]
pub struct Letter<B> {
    /// The event that is sent or cancelled.
    pub event: Event<B>,
    /// Whether it is cancelled.
    pub anti: bool,
}
