use crate::progress::Progress;
use crate::standing::{Measure, Standing};
use crate::text::Text;
use std::fmt::{Display, Write as _};
use std::io::Write;
use std::time::{Clock, Duration, Instant};

/// How many milliseconds a line stands at least before it is drawn anew.
const STAY: u64 = 250;

/// A line of a terminal that shows how far a run has come.
///
/// It is drawn when the run begins, at most four times a second from then on, and when the run has come to its end. It is taken
/// away before the run writes, and when the value is dropped. Each drawing is one write, of which what the writer does not take
/// is let go, as is a failure: nothing is tried again, and no run fails by it. Where the clock fails nothing is drawn. Takes no
/// memory.
pub struct Line<'a, E: Write, C: Clock> {
    err: &'a mut E,
    clock: &'a C,
    name: &'a str,
    measure: Measure,
    /// Whether there is anything to draw on.
    shown: bool,
    /// The number from which the run goes.
    from: u64,
    /// How far it goes from there.
    length: u64,
    /// When it began.
    begun: Option<Instant>,
    /// When it was drawn last.
    drawn: Option<Instant>,
    /// Whether it stands there.
    stands: bool,
}

impl<'a, E: Write, C: Clock> Line<'a, E, C> {
    /// The line of the run of this name; where it is not to be shown, nothing is ever written.
    pub fn new(
        err: &'a mut E,
        clock: &'a C,
        name: &'a str,
        measure: Measure,
        shown: bool,
    ) -> Line<'a, E, C> {
        Line {
            err,
            clock,
            name,
            measure,
            shown,
            from: 0,
            length: 0,
            begun: None,
            drawn: None,
            stands: false,
        }
    }

    /// What the clock says, if there is anything to draw on.
    fn now(&self) -> Option<Instant> {
        if self.shown {
            Instant::now(self.clock).ok()
        } else {
            None
        }
    }

    /// Whether the line is to be drawn anew where the run has come to `at`.
    fn is_due(&self, at: u64, now: Instant) -> bool {
        match self.drawn {
            Some(_) if at.saturating_sub(self.from) >= self.length => true,
            Some(drawn) => now.duration_since(drawn) >= Duration::from_millis(STAY),
            None => true,
        }
    }

    /// Draws how far the run has come.
    fn draw(&mut self, at: u64, begun: Instant, now: Instant) {
        let done = at.saturating_sub(self.from);
        let spent = now.duration_since(begun);
        let standing = Standing::new(self.name, self.measure, done, self.length, spent);
        put(self.err, standing);
        self.drawn = Some(now);
        self.stands = true;
    }

    /// Takes the line away, if one stands there.
    fn clear(&mut self) {
        if self.stands {
            put(self.err, "");
            self.stands = false;
        }
    }
}

/// Writes a text over the line in which a terminal stands.
fn put<E: Write, D: Display + Drop>(err: &mut E, text: D) {
    let mut line = Text::new();
    let _ = write!(line, "\r\x1b[K{text}");
    let _ = err.write(line.as_bytes());
    let _ = err.flush();
}

impl<E: Write, C: Clock> Progress for Line<'_, E, C> {
    fn begin(&mut self, from: u64, to: u64) {
        self.from = from;
        self.length = to.saturating_sub(from);
        self.begun = self.now();
        if let Some(begun) = self.begun {
            self.draw(from, begun, begun);
        }
    }

    fn reach(&mut self, at: u64) {
        let Some(begun) = self.begun else {
            return;
        };
        let Some(now) = self.now() else {
            return;
        };
        if self.is_due(at, now) {
            self.draw(at, begun, now);
        }
    }

    fn about_to_write(&mut self) {
        self.clear();
    }
}

impl<E: Write, C: Clock> Drop for Line<'_, E, C> {
    fn drop(self) {
        let Line {
            err,
            clock: _,
            name: _,
            measure: _,
            shown: _,
            from: _,
            length: _,
            begun: _,
            drawn: _,
            stands,
        } = self;
        if stands {
            put(err, "");
        }
    }
}
