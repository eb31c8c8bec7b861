//! Where the parts of a picture stand.

use crate::scale::Hundredths;

/// The width of the picture.
pub(crate) const PICTURE: Hundredths = 960_00;

/// The left end of the lower axis, and of the title.
pub(crate) const LEFT: Hundredths = 96_00;

/// The length of the axis of the values.
pub(crate) const HEIGHT: Hundredths = 420_00;

/// How much stands below the lower axis.
const BELOW: Hundredths = 76_00;

/// The most lines that a legend above the chart has.
const MOST_ABOVE: usize = 3;

/// The most lines that a legend beside the chart has.
pub(crate) const MOST_ENTRIES: usize = 60;

/// How far apart the lines of a legend beside the chart stand.
const STEP_DOWN: Hundredths = 20_00;

/// How far apart the lines of a legend above the chart stand.
const STEP_RIGHT: Hundredths = 280_00;

/// Where the legend stands, and so how much room the chart has.
#[derive(Clone, Copy)]
pub(crate) enum Frame {
    /// In a row above the chart, which is as wide as the picture.
    Above,
    /// In a column to the right of the chart.
    Beside,
}

impl Frame {
    /// The frame for so many polylines.
    pub(crate) fn for_series(many: usize) -> Frame {
        if many <= MOST_ABOVE {
            Frame::Above
        } else {
            Frame::Beside
        }
    }

    /// The upper end of the axis of the values.
    pub(crate) fn top(self) -> Hundredths {
        match self {
            Frame::Above => 104_00,
            Frame::Beside => 80_00,
        }
    }

    /// The lower end of the axis of the values.
    pub(crate) fn bottom(self) -> Hundredths {
        self.top().saturating_add(HEIGHT)
    }

    /// The length of the lower axis.
    pub(crate) fn width(self) -> Hundredths {
        match self {
            Frame::Above => PICTURE - LEFT - 32_00,
            Frame::Beside => 560_00,
        }
    }

    /// The right end of the lower axis.
    pub(crate) fn right(self) -> Hundredths {
        self.width().saturating_add(LEFT)
    }

    /// Where a line of the legend begins, counted from 0: from the left, and from the top.
    pub(crate) fn entry(self, place: usize) -> (Hundredths, Hundredths) {
        let place = u32::try_from(place.min(MOST_ENTRIES)).unwrap_or(0);
        match self {
            Frame::Above => (LEFT.saturating_add(STEP_RIGHT.saturating_mul(place)), 82_00),
            Frame::Beside => (
                680_00,
                STEP_DOWN.saturating_mul(place).saturating_add(88_00),
            ),
        }
    }

    /// The height of a picture with this many polylines.
    pub(crate) fn height(self, many: usize) -> Hundredths {
        let (_, below_legend) = self.entry(many);
        let below_chart = self.bottom().saturating_add(BELOW);
        below_chart.max(below_legend.saturating_add(STEP_DOWN))
    }
}
