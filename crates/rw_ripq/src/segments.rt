// How many segments a segmented LRU has.
ghost use Rattle.std.specs.Prelude.{◌≡◌, ◌↔◌, IsSome, IfSome};
ghost use Rattle.rw_ripq.specs.Words.{IsSegmentCount};

/// Into how many segments a segmented LRU parts the bytes of a queue, from the tail on; an object has the level of its
/// segment, from 1 on.
#[derive(Clone, Copy, PartialEq, Eq)]
pub struct Levels {
    /// How many, 2 to 8.
    pub segments: u8,
    ghost in_range: { IsSegmentCount segments },
}

impl Levels {
    /// The fewest segments.
    pub const MIN_SEGMENTS: u8 = 2;

    /// The most segments.
    pub const MAX_SEGMENTS: u8 = 8;

    /// Levels of `segments` segments; `None` exactly where that is not 2 to 8. Takes no memory.
    pub fn new(segments: u8) -> Option<Levels>
        ensures in_range { IsSome result ↔ IsSegmentCount segments }
        ensures segments { IfSome result (λ levels. levels.segments ≡ segments) }
    {
        if (Self::MIN_SEGMENTS..=Self::MAX_SEGMENTS).contains(&segments) {
            Some(Levels { segments })
        } else {
            None
        }
    }
}
