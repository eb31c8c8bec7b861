ghost use Rattle.std.specs.Prelude.{◌≡◌};
ghost use Rattle.rw_phold.specs.Reports.{no_report_yet, report_of, with_holder};

use crate::phold::{Holder, draw};
use std::fmt;

/// What a run comes to, in two numbers.
#[derive(Clone, Copy, PartialEq, Eq)]
pub struct Report {
    /// How many events were executed, modulo 2^64.
    pub events: u64,
    /// What all processes keep, mixed in their order.
    pub checksum: u64,
}

impl fmt::Display for Report {
    fn fmt<W: fmt::Write>(&self, f: &mut fmt::Formatter<W>) -> fmt::Result {
        let events = self.events;
        let checksum = self.checksum;
        write!(f, "events {events} checksum {checksum:016x}")
    }
}

/// One process more.
fn add(report: Report, holder: &Holder) -> Report
    ensures { result ≡ with_holder report holder.now }
{
    let mixed = draw(report.checksum.wrapping_add(holder.random));
    Report {
        events: report.events.wrapping_add(holder.events),
        checksum: draw(mixed.wrapping_add(holder.sum)),
    }
}

/// The report of processes in these states.
pub fn report_of(holders: &[Holder]) -> Report
    ensures { result ≡ report_of holders.now }
{
    let mut report = Report {
        events: 0,
        checksum: 0,
    };
    for holder in holders {
        report = add(report, holder);
    }
    report
}
