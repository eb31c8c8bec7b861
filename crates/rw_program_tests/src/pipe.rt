// Writers that fail.
use rw_ripqwarp::Out;
use std::alloc::Global;
use std::io;
use std::io::{ErrorKind, Write};

/// A writer that takes at most `most` bytes a write, and is interrupted from write `fails_in` on, counted from 0, or
/// fails at its flush.
#[derive(Drop)]
pub struct Pipe {
    pub held: Vec<u8>,
    pub most: usize,
    pub fails_in: u32,
    pub flush_fails: bool,
}

impl Pipe {
    pub fn new(alloc: Global, most: usize, fails_in: u32, flush_fails: bool) -> Pipe {
        Pipe {
            held: Vec::new(alloc),
            most,
            fails_in,
            flush_fails,
        }
    }
}

impl Write for Pipe {
    fn write(&mut self, buf: &[u8]) -> io::Result<usize> {
        if self.fails_in == 0 {
            return Err(io::Error::from(ErrorKind::Interrupted));
        }
        self.fails_in -= 1;
        let taken = buf.len().min(self.most);
        self.held.extend_from_slice(&buf[..taken])?;
        Ok(taken)
    }

    fn flush(&mut self) -> io::Result<()> {
        if self.flush_fails {
            return Err(io::Error::from(ErrorKind::BrokenPipe));
        }
        Ok(())
    }
}

/// Whether what was written to such a writer and taken by it is this text.
pub fn holds(out: Out<Pipe>, text: &[u8]) -> bool {
    out.into_inner().held.as_slice() == text
}

/// A writer that takes at most 100 bytes a write and fails at one of its calls, a write or a flush, counted from 0. It then
/// takes everything, and counts on.
#[derive(Drop)]
pub struct Hiccup {
    pub held: Vec<u8>,
    pub calls: u32,
    pub fails_at: u32,
}

impl Hiccup {
    pub fn new(alloc: Global, fails_at: u32) -> Hiccup {
        Hiccup {
            held: Vec::new(alloc),
            calls: 0,
            fails_at,
        }
    }

    /// Counts a call, and answers whether it is the one that fails.
    fn fails(&mut self) -> bool {
        let call = self.calls;
        self.calls = call.saturating_add(1);
        call == self.fails_at
    }
}

impl Write for Hiccup {
    fn write(&mut self, buf: &[u8]) -> io::Result<usize> {
        if self.fails() {
            return Err(io::Error::from(ErrorKind::BrokenPipe));
        }
        let taken = buf.len().min(100);
        self.held.extend_from_slice(&buf[..taken])?;
        Ok(taken)
    }

    fn flush(&mut self) -> io::Result<()> {
        if self.fails() {
            return Err(io::Error::from(ErrorKind::BrokenPipe));
        }
        Ok(())
    }
}
