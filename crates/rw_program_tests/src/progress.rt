// The line that shows how far a run has come: its words, when it is drawn, and that it goes away.
use crate::pipe::Pipe;
use crate::shown::is_shown;
use rw_progress::{Line, Measure, Progress, Standing};
use std::alloc::Global;
use std::cell::Cell;
use std::io;
use std::io::Write;
use std::time::{Clock, Duration};

/// A clock that stands where it is set, in milliseconds.
#[derive(Drop)]
struct Watch {
    millis: Cell<u64>,
}

impl Clock for Watch {
    fn monotonic(&self) -> io::Result<Duration> {
        Ok(Duration::from_millis(self.millis.get()))
    }

    fn since_1970(&self) -> io::Result<Duration> {
        self.monotonic()
    }
}

/// So much of a whole, the milliseconds spent, and how this is told of a run `a`.
const TOLD: [(Measure, u64, u64, u64, &str); 8] = [
    (Measure::Time, 0, 100, 500, "a 0%"),
    (Measure::Time, 7, 100, 500, "a 7%, 0:06 left"),
    (Measure::Time, 0, 0, 500, "a 100%"),
    (
        Measure::Bytes,
        300,
        400,
        600000,
        "a 300 of 400 bytes read, 3:20 left",
    ),
    (Measure::Pieces, 1, 3, 3661000, "a 1 of 3, 2:02:02 left"),
    (Measure::Pieces, 5, 3, 1000, "a 3 of 3"),
    (Measure::BytesSoFar, 300, u64::MAX, 1000, "a 300 bytes read"),
    (Measure::RowsSoFar, 0, u64::MAX, 1000, "a 0 rows read"),
];

/// Whether so much of a whole is told so, after so many milliseconds.
fn is_told(measure: Measure, done: u64, of: u64, millis: u64, text: &str) -> bool {
    let standing = Standing::new("a", measure, done, of, Duration::from_millis(millis));
    is_shown(&standing, text)
}

#[test]
fn how_far_a_run_has_come_in_words(rt: HostRuntime) {
    for (measure, done, of, millis, text) in &TOLD {
        assert!(rt; is_told(*measure, *done, *of, *millis, text), "for {text}");
    }
}

/// Tells a line of a run from 100 to 300 that writes when it has come to 200.
fn tell<E: Write>(err: &mut E, shown: bool) {
    let watch = Watch {
        millis: Cell::new(1000),
    };
    let mut line = Line::new(err, &watch, "serial", Measure::Time, shown);
    line.reach(5);
    line.begin(100, 300);
    watch.millis.set(1249);
    line.reach(150);
    watch.millis.set(2000);
    line.reach(200);
    line.about_to_write();
    line.reach(240);
    watch.millis.set(2250);
    line.reach(250);
    line.reach(260);
    line.reach(300);
}

/// Whether this is drawn of such a run.
fn is_drawn(alloc: Global, shown: bool, drawn: &[u8]) -> bool {
    let mut err = Vec::new(alloc);
    tell(&mut err, shown);
    err.as_slice() == drawn
}

// Not before a run begins, at once when it does, not within a quarter of a second, and at once when it has come to its end.
#[test]
fn when_a_line_is_drawn(rt: HostRuntime) {
    let drawn =
        b"\r\x1b[Kserial 0%\r\x1b[Kserial 50%, 0:01 left\r\x1b[K\r\x1b[Kserial 75%, 0:00 left\r\x1b[Kserial 100%\r\x1b[K";
    assert!(rt; is_drawn(rt.alloc(), true, drawn));
    assert!(rt; is_drawn(rt.alloc(), false, b""));
}

#[test]
fn a_line_that_cannot_be_written_is_let_be(rt: HostRuntime) {
    let mut err = Pipe::new(rt.alloc(), 100, 1, true);
    tell(&mut err, true);
    assert!(rt; err.held.as_slice() == b"\r\x1b[Kserial 0%".as_slice());
}
