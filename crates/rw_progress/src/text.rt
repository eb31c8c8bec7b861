ghost use Rattle.std.specs.Prelude.{◌≤◌};
ghost use Rattle.rw_progress.specs.declared.text.TheConstants.{ROOM};

use std::fmt;

/// How many bytes a line has at most, with those that take the old one away.
const ROOM: usize = 128;

/// A text that is put together before it goes out. Takes no memory.
#[derive(Drop)]
pub(crate) struct Text {
    bytes: [u8; ROOM],
    used: usize,
    ghost fits: { used ≤ ROOM },
}

impl Text {
    /// No text yet.
    pub(crate) fn new() -> Text {
        Text {
            bytes: [0; ROOM],
            used: 0,
        }
    }

    /// The text.
    pub(crate) fn as_bytes(&self) -> &[u8] {
        &self.bytes[..self.used]
    }
}

impl fmt::Write for Text {
    /// Adds a text; what there is no room for is cut off, and answered as an error.
    fn write_str(&mut self, text: &str) -> fmt::Result {
        for byte in text.bytes() {
            if self.used == ROOM {
                return Err(fmt::Error);
            }
            self.bytes[self.used] = byte;
            self.used += 1;
        }
        Ok(())
    }
}
