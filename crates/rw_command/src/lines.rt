// Lines on standard error.
ghost use Rattle.std.specs.Prelude.{◌≡◌, ◌≤◌};
ghost use Rattle.rw_command.specs.declared.lines.TheConstants.{ROOM};

use rw_report::Out;
use std::fmt;
use std::fmt::{Display, Write as _};
use std::io::Write;

/// How many bytes of a line go out in one write.
const ROOM: usize = 512;

/// Writes a line and flushes the writer, up to the first failure. Write errors are ignored.
///
/// The line goes out in one write where the writer takes it whole and it has at most 512 bytes, so that lines of several
/// programs are not mixed; else in pieces. A failure is what it is for [`Out`]: an error, of an interrupted write too, or a
/// write that takes nothing. So it ends at every writer. Takes no memory.
pub fn write_line<E: Write, D: Display + Drop>(err: &mut E, line: D) {
    let mut unsent = Unsent::new(err);
    if writeln!(unsent, "{line}").is_ok() {
        let _ = unsent.send();
    }
}

/// What is still to go out.
#[derive(Drop)]
struct Unsent<W> {
    out: Out<W>,
    bytes: [u8; ROOM],
    used: usize,
    ghost fits: { used ≤ ROOM },
}

impl<W: Write> Unsent<W> {
    /// Nothing yet, for this writer.
    fn new(writer: W) -> Unsent<W> {
        Unsent {
            out: Out::new(writer),
            bytes: [0; ROOM],
            used: 0,
        }
    }

    /// Writes what is there; whether the writer took it.
    fn send(&mut self) -> bool
        ensures { self.new.used ≡ 0 }
    {
        let went = self.out.write_text(&self.bytes[..self.used]);
        self.used = 0;
        went
    }
}

impl<W: Write> fmt::Write for Unsent<W> {
    fn write_str(&mut self, text: &str) -> fmt::Result {
        for byte in text.bytes() {
            if self.used == ROOM && !self.send() {
                return Err(fmt::Error);
            }
            self.bytes[self.used] = byte;
            self.used += 1;
        }
        Ok(())
    }
}
