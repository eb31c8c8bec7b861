use crate::lines::write_line;
use rw_progress::{Line, Measure};
use std::fmt::Display;
use std::io::Write;
use std::time::Clock;

/// Standard error: where faults, counts and progress go. Write errors are ignored.
#[derive(Drop)]
pub struct Stderr<E> {
    /// Where they are written.
    pub writer: E,
    /// Whether it is a terminal, where one line shows how far a command has come, and a hint follows a fault.
    pub is_terminal: bool,
}

impl<E: Write> Stderr<E> {
    /// Writes a line and flushes the writer, up to the first failure: see [`write_line`].
    pub fn tell<D: Display + Drop>(&mut self, line: D) {
        write_line(&mut self.writer, line);
    }

    /// The line that shows how far a command has come: on a terminal alone, and not where the command is quiet.
    pub(crate) fn progress<'a, C: Clock>(
        &'a mut self,
        clock: &'a C,
        command: &'a str,
        measure: Measure,
        is_quiet: bool,
    ) -> Line<'a, E, C> {
        let shown = self.is_terminal && !is_quiet;
        Line::new(&mut self.writer, clock, command, measure, shown)
    }
}
