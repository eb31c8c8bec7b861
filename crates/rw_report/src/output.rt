ghost use Rattle.std.specs.Prelude.{◌≡◌, MatchBool};
ghost use Rattle.std.specs.Io.KnownBytes.{Appends};
ghost use Rattle.rw_report.specs.Sink.{AppendsBeginning, OutState, one_more};

use std::io::{ErrorKind, Result, Write};
use std::marker::Model;

/// A writer that counts its failures, so that a caller can tell a text that went out whole from one that was cut off.
///
/// A failure is a write that answers an error (an interrupted one too: nothing is tried again) or takes none of at least
/// one byte, or a flush that answers an error.
#[derive(Drop)]
pub struct Out<W> {
    writer: W,
    failures: u64,
    /// Whether a write failed since nobody reads any more.
    closed: bool,
}

impl<W> Model for Out<W> {
    ghost use Rattle.rw_report.specs.Sink.{OutState};

    ghost Value = { OutState W };

    ghost view = { λ o. record { writer = o.writer; failures = o.failures } };
}

impl<W> Out<W> {
    /// A writer that has not failed. Takes no memory.
    pub fn new(writer: W) -> Out<W>
        ensures { result ≡ record { writer = writer; failures = 0 } }
    {
        Out {
            writer,
            failures: 0,
            closed: false,
        }
    }

    /// How often the writer failed, modulo 2^64. Takes no memory.
    pub fn failures(&self) -> u64
        ensures { result ≡ self.now.failures }
    {
        self.failures
    }

    /// Whether the writer was a pipe or a socket that nobody reads any more. Takes no memory.
    pub fn is_closed(&self) -> bool {
        self.closed
    }

    /// The writer. Takes no memory.
    pub fn into_inner(self) -> W
        ensures { result ≡ self.writer }
    {
        let Out {
            writer,
            failures: _,
            closed: _,
        } = self;
        writer
    }
}

impl<W: Write> Out<W> {
    /// Writes a text by a loop over `write` and then flushes the writer, up to the first failure; whether there was none. Takes
    /// no memory.
    pub fn write_text(&mut self, text: &[u8]) -> bool
        ensures failures { MatchBool result (self.new.failures ≡ self.old.failures)
            (self.new.failures ≡ one_more self.old.failures) }
        ensures whole { MatchBool result
            (Appends (W.contents self.old.writer) (W.contents self.new.writer) text.now)
            (Unit {0}) }
        ensures beginning { AppendsBeginning (W.contents self.old.writer)
            (W.contents self.new.writer) text.now }
    {
        let whole = write_whole(&mut self.writer, text, &mut self.closed)
            && self.writer.flush().is_ok();
        if !whole {
            let failures = &mut self.failures;
            *failures = failures.wrapping_add(1);
        }
        whole
    }
}

/// Writes a text by a loop over `write`, up to the first failure; whether there was none. Notes in `closed` where it failed since
/// nobody reads any more.
fn write_whole<W: Write>(writer: &mut W, text: &[u8], closed: &mut bool) -> bool
    ensures whole { MatchBool result
        (Appends (W.contents writer.old) (W.contents writer.new) text.now) (Unit {0}) }
    ensures beginning { AppendsBeginning (W.contents writer.old) (W.contents writer.new) text.now }
{
    let mut written = 0;
    while written < text.len() {
        let wrote = writer.write(&text[written..]);
        *closed = is_unread(&wrote);
        let taken = wrote.unwrap_or(0);
        if taken == 0 {
            return false;
        }
        written += taken;
    }
    true
}

/// Whether a write failed since nobody reads any more.
fn is_unread(wrote: &Result<usize>) -> bool {
    match wrote {
        Ok(_) => false,
        Err(error) => error.kind() == ErrorKind::BrokenPipe,
    }
}
