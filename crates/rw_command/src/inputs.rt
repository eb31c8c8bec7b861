// The program's files, and its standard input.
use crate::reader::Reader;
use crate::source::{Source, SourceFault};
use std::alloc::Global;
use std::fs;
use std::io::{self, ErrorKind, Read};
use std::rt::Files;

/// Bytes in files, and `-` for those of standard input.
#[derive(Drop)]
pub struct Inputs<'a, R> {
    /// What opens them.
    pub rt: &'a R,
}

impl<R: Files + Input + AllocGlobal> Source for Inputs<'_, R> {
    type Reader = Reader<R::File, R::Reader>;

    fn open(&mut self, path: &str) -> Result<Reader<R::File, R::Reader>, SourceFault> {
        if path == "-" {
            return Ok(Reader::Input(self.rt.reader()));
        }
        match fs::open(self.rt, path) {
            Ok(file) => Ok(Reader::File(file)),
            Err(error) if error.kind() == ErrorKind::OutOfMemory => Err(SourceFault::Memory),
            Err(_) => Err(SourceFault::Read),
        }
    }

    fn bytes(&mut self, alloc: Global, path: &str) -> Result<Vec<u8>, SourceFault> {
        let read = if path == "-" {
            read_input(self.rt, alloc)
        } else {
            fs::read(self.rt, path)
        };
        match read {
            Ok(bytes) => Ok(bytes),
            Err(error) if error.kind() == ErrorKind::OutOfMemory => Err(SourceFault::Memory),
            Err(_) => Err(SourceFault::Read),
        }
    }

    fn reopen(&mut self, path: &str) -> Option<Reader<R::File, R::Reader>> {
        if path == "-" || !is_regular(self.rt, path) {
            return None;
        }
        self.open(path).ok()
    }

    fn why_not(&mut self, path: &str) -> Option<&'static str> {
        if path == "-" {
            return None;
        }
        let error = match fs::metadata(self.rt, path) {
            Ok(metadata) if metadata.is_dir() => return Some("this is a directory"),
            // To open a pipe may wait for ever.
            Ok(metadata) if !metadata.is_file() => return None,
            Ok(_) => fs::open(self.rt, path).err()?,
            Err(error) => error,
        };
        match error.kind() {
            ErrorKind::NotFound => Some("no such file"),
            ErrorKind::PermissionDenied => Some("permission denied"),
            ErrorKind::NotADirectory => Some("a part of the path is no directory"),
            _ => None,
        }
    }
}

/// Whether there is a regular file at a path, or at the end of a link there.
fn is_regular<R: Files>(rt: &R, path: &str) -> bool {
    match fs::metadata(rt, path) {
        Ok(metadata) => metadata.is_file(),
        Err(_) => false,
    }
}

/// All bytes of standard input.
fn read_input<R: Input>(rt: &R, alloc: Global) -> io::Result<Vec<u8>> {
    let mut bytes = Vec::new(alloc);
    rt.reader().read_to_end(&mut bytes)?;
    Ok(bytes)
}
