ghost use Rattle.std.specs.Prelude.{◌≡◌};
ghost use Rattle.rw_plot.specs.Layouts.{tells_intervals};
ghost use Rattle.rw_plot.specs.Tables.{lacks_flash_axis};

use crate::measure::FlashOf;

/// Which of the tables that are drawn one is.
#[derive(Clone, Copy)]
pub enum Layout {
    /// The table of a sweep: a row for each configuration and caches.
    Sweep,
    /// The table of one configuration over time: a row for each interval and caches.
    OverTime,
    /// The table of a sweep over time: a row for each configuration, interval and caches.
    SweepOverTime,
}

impl Layout {
    /// Whether the flash is asked for on its x axis, which is the time.
    pub(crate) fn lacks_flash_axis(self, x: Option<FlashOf>) -> bool
        ensures { result ≡ lacks_flash_axis self x }
    {
        match x {
            None => false,
            Some(_) => self.is_over_time(),
        }
    }

    /// Whether its rows are those of intervals.
    pub fn is_over_time(self) -> bool
        ensures { result ≡ tells_intervals self }
    {
        match self {
            Layout::Sweep => false,
            Layout::OverTime | Layout::SweepOverTime => true,
        }
    }
}
