use std::io::{Read, Result};

/// What gives the bytes of a file, or of standard input, one after another.
#[derive(Drop)]
pub enum Reader<F, I> {
    /// A file.
    File(F),
    /// Standard input.
    Input(I),
}

impl<F: Read, I: Read> Read for Reader<F, I> {
    fn read(&mut self, buffer: &mut [u8]) -> Result<usize> {
        match self {
            Reader::File(file) => file.read(buffer),
            Reader::Input(input) => input.read(buffer),
        }
    }
}
