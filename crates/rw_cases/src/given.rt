use rw_command::{Source, SourceFault};
use serde_json::Value;
use std::alloc::Global;

/// The bytes of standard input, and texts by the names of their files, where there are some.
#[derive(Drop)]
pub struct Given<'a> {
    pub bytes: &'a [u8],
    pub files: Option<&'a Value>,
}

impl<'a> Given<'a> {
    /// The bytes at a path.
    fn find(&self, path: &str) -> Result<&'a [u8], SourceFault> {
        if path == "-" {
            return Ok(self.bytes);
        }
        let Some(files) = self.files else {
            return Err(SourceFault::Read);
        };
        match files.get(path).and_then(Value::as_str) {
            Some(text) => Ok(text.as_bytes()),
            None => Err(SourceFault::Read),
        }
    }
}

impl<'a> Source for Given<'a> {
    type Reader = &'a [u8];

    fn open(&mut self, path: &str) -> Result<&'a [u8], SourceFault> {
        self.find(path)
    }

    fn bytes(&mut self, alloc: Global, path: &str) -> Result<Vec<u8>, SourceFault> {
        match Vec::from_slice(alloc, self.find(path)?) {
            Ok(bytes) => Ok(bytes),
            Err(_) => Err(SourceFault::Memory),
        }
    }

    fn reopen(&mut self, path: &str) -> Option<&'a [u8]> {
        if path == "-" {
            None
        } else {
            self.open(path).ok()
        }
    }
}
