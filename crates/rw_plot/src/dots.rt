/// How the points of polylines look.
#[derive(Clone, Copy)]
pub(crate) enum Dots {
    /// As dots that are wider than the line.
    Large,
    /// As small dots.
    Small,
    /// Not at all: there are so many that dots would hide the line.
    Hidden,
}

/// The most points of a polyline that are drawn as large dots.
const MOST_LARGE: usize = 70;

/// The most points of a polyline that are drawn as dots.
const MOST_SMALL: usize = 140;

impl Dots {
    /// How points look where a polyline has at most so many.
    pub(crate) fn for_points(most: usize) -> Dots {
        if most <= MOST_LARGE {
            Dots::Large
        } else if most <= MOST_SMALL {
            Dots::Small
        } else {
            Dots::Hidden
        }
    }

    /// The radius of a dot, in pixels.
    pub(crate) fn radius(self) -> Option<&'static str> {
        match self {
            Dots::Large => Some("3.5"),
            Dots::Small => Some("2"),
            Dots::Hidden => None,
        }
    }
}
