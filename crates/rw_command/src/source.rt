use std::alloc::Global;
use std::io::Read;

/// Where the bytes of a trace come from.
pub trait Source {
    /// What gives the bytes at a path one after another.
    type Reader: Read + Drop;

    /// A reader of the bytes at a path, or of standard input where the path is `-`.
    fn open(&mut self, path: &str) -> Result<Self::Reader, SourceFault>;

    /// All bytes at a path, or of standard input where the path is `-`.
    fn bytes(&mut self, alloc: Global, path: &str) -> Result<Vec<u8>, SourceFault>;

    /// A reader of the bytes at a path from which a reader was had before. `None` where they are gone by then, as those of a pipe, and
    /// where the path cannot be read.
    fn reopen(&mut self, path: &str) -> Option<Self::Reader> {
        self.open(path).ok()
    }

    /// Why a path cannot be read, in words, if that is known.
    fn why_not(&mut self, _path: &str) -> Option<&'static str> {
        None
    }
}

/// Why there are no bytes, each shown as one line.
#[derive(Clone, Copy, Debug, PartialEq, Eq, thiserror::Error)]
pub enum SourceFault {
    /// The path cannot be read.
    #[error("file: cannot read")]
    Read,
    /// A request for memory was refused.
    #[error("memory")]
    Memory,
}
