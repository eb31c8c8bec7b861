ghost use Rattle.std.specs.Prelude.{◌≡◌, ◌<◌, ◌≤◌, ◌-◌, ◌*◌, ◌/◌, IsSome, ◌↔◌};

use std::fmt;
use std::fmt::{Display, Formatter};
use std::time::Duration;

/// What a run is measured in, and so how its line tells how much of it is done.
#[derive(Clone, Copy)]
pub enum Measure {
    /// Ticks of a trace's virtual time, told as the share that is final: `serial 7%`.
    Time,
    /// Bytes: `import 21561553 of 40332754 bytes read`.
    Bytes,
    /// Bytes, where it is not known how many there are: `import 21561553 bytes read`.
    BytesSoFar,
    /// Pieces of work: `sweep 1 of 3`.
    Pieces,
    /// Rows of a trace, where it is not known how many there are: `serial 10000000 rows read`.
    RowsSoFar,
}

/// How far a run has come, shown as the text of its line. Where it is known how much there is to do, and something is done and not
/// all, what is done is followed by how long the rest takes if it goes as what went before did, as `M:SS` or `H:MM:SS`.
#[derive(Clone, Copy)]
pub struct Standing<'a> {
    name: &'a str,
    measure: Measure,
    done: u64,
    of: u64,
    spent: Duration,
    ghost within: { done ≤ of },
}

impl<'a> Standing<'a> {
    /// So much of a whole is done by the run of this name, in the time that is spent. More than the whole is taken for all of it.
    pub fn new(
        name: &'a str,
        measure: Measure,
        done: u64,
        of: u64,
        spent: Duration,
    ) -> Standing<'a> {
        Standing {
            name,
            measure,
            done: done.min(of),
            of,
            spent,
        }
    }
}

impl Display for Standing<'_> {
    fn fmt<W: fmt::Write>(&self, formatter: &mut Formatter<W>) -> fmt::Result {
        let name = self.name;
        let done = self.done;
        let of = self.of;
        match self.measure {
            Measure::Time => write!(formatter, "{name} {}%", percent(done, of))?,
            Measure::Bytes => write!(formatter, "{name} {done} of {of} bytes read")?,
            Measure::BytesSoFar => return write!(formatter, "{name} {done} bytes read"),
            Measure::Pieces => write!(formatter, "{name} {done} of {of}")?,
            Measure::RowsSoFar => return write!(formatter, "{name} {done} rows read"),
        }
        match seconds_left(self.spent, done, of) {
            Some(seconds) => write!(formatter, ", {} left", Left { seconds }),
            None => Ok(()),
        }
    }
}

/// The share of all that is done, in hundredths, rounded down; all of nothing.
fn percent(done: u64, of: u64) -> u64
    requires { done ≤ of }
    ensures share { 0 < of → result ≡ done * 100 / of }
    ensures most { result ≤ 100 }
{
    if of == 0 {
        return 100;
    }
    (u128::from(done) * 100 / u128::from(of)) as u64
}

/// How many whole seconds the rest takes if it goes as what is done did; None where nothing is done, or all.
fn seconds_left(spent: Duration, done: u64, of: u64) -> Option<u64>
    requires { done ≤ of }
    ensures { IsSome result ↔ ((0 < done) × (done < of)) }
{
    if done == 0 || done == of {
        return None;
    }
    let rest = spent.as_millis().saturating_mul(u128::from(of - done));
    let seconds = rest / u128::from(done) / 1000;
    Some(u64::try_from(seconds).unwrap_or(u64::MAX))
}

/// A time, shown as `M:SS` or `H:MM:SS`.
#[derive(Clone, Copy)]
struct Left {
    seconds: u64,
}

impl Display for Left {
    fn fmt<W: fmt::Write>(&self, formatter: &mut Formatter<W>) -> fmt::Result {
        let hours = self.seconds / 3600;
        let minutes = self.seconds / 60 % 60;
        let seconds = self.seconds % 60;
        if hours == 0 {
            write!(formatter, "{minutes}:{seconds:02}")
        } else {
            write!(formatter, "{hours}:{minutes:02}:{seconds:02}")
        }
    }
}
