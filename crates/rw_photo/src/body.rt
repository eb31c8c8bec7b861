ghost use Rattle.std.specs.Prelude.{◌≡◌};
ghost use Rattle.rw_photo.specs.Events.{object_of};

/// What happens at a cache. Sizes are in bytes, 1 to 4294967295.
#[derive(Clone, Copy, Debug, PartialEq, Eq, PartialOrd, Ord)]
pub enum Body {
    /// A user asks an edge for an object.
    Request { object: u64, size: u64 },
    /// An edge asks an origin for an object that it lacks.
    Miss { object: u64, size: u64, edge: u32 },
    /// An origin sends an edge the object that it asked for.
    Fill { object: u64, size: u64 },
    /// A user has an edge let go of an object, and tell its origin.
    Purge { object: u64 },
    /// An edge has an origin let go of an object, and tell the other edges.
    Drop { object: u64, edge: u32 },
    /// An origin has an edge let go of an object.
    Clear { object: u64 },
}

impl Body {
    /// The object that it is about.
    pub(crate) fn object(&self) -> u64
        ensures { result ≡ object_of self.now }
    {
        match *self {
            Body::Request { object, .. }
            | Body::Miss { object, .. }
            | Body::Fill { object, .. }
            | Body::Purge { object }
            | Body::Drop { object, .. }
            | Body::Clear { object } => object,
        }
    }
}
