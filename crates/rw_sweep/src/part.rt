ghost use Rattle.std.specs.Prelude.{◌≡◌, ◌<◌, ◌↔◌, IsSome, IfSome};
ghost use Rattle.rw_sweep.specs.Joining.{PartsMakeTheSweep};
ghost use Rattle.rw_sweep.specs.Parts.{is_in_part};

/// One of the parts of a sweep: the configurations whose place in the grid, from 0, is `index` modulo `count`.
///
/// Part 0 of 1 has them all.
#[derive(Clone, Copy)]
pub struct Part {
    /// Which of the parts, below `count`.
    pub index: u32,
    /// How many parts there are, from 1.
    pub count: u32,
    ghost within: { index < count },
}

impl Part {
    /// Part `index` of `count`, if that is below it. Takes no memory.
    pub fn new(index: u32, count: u32) -> Option<Part>
        ensures within { IsSome result ↔ (index < count) }
        ensures part { IfSome result (λ part. (part.index ≡ index) × (part.count ≡ count)) }
    {
        if index < count {
            Some(Part { index, count })
        } else {
            None
        }
    }

    /// All of a sweep. Takes no memory.
    pub fn whole() -> Part
        ensures { (result.index ≡ 0) × (result.count ≡ 1) }
    {
        Part { index: 0, count: 1 }
    }

    /// Whether the configuration at a place is in the part.
    pub(crate) fn has(self, place: usize) -> bool
        ensures { result ≡ is_in_part self.index self.count place }
    {
        place as u64 % u64::from(self.count) == u64::from(self.index)
    }
}

/// The lines of the parts of a sweep, put in the order of their places and without them, are those of the sweep, byte for byte, in
/// whatever order the parts come. This is a law of the definitions; the call itself does nothing.
pub fn parts_make_the_sweep()
    ensures { PartsMakeTheSweep }
{}
