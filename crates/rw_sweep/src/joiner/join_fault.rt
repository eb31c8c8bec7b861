ghost use Rattle.std.specs.Prelude.{◌≡◌};

use std::alloc::AllocError;

/// Why parts do not make a table, each shown as one line. Files, rows, columns and places are numbered from 0, headers not counted.
#[derive(Clone, Copy, Debug, PartialEq, Eq, thiserror::Error)]
pub enum JoinFault {
    /// The file does not begin with the header of a part.
    #[error("join: file {0}: header")]
    Header(u64),
    /// The last line of the file has no end.
    #[error("join: file {0}: cut off")]
    CutOff(u64),
    /// The row of the file has not as many fields as the header.
    #[error("join: file {0} row {1}: length")]
    Length(u64, u64),
    /// The field at this column of the row of the file is the first that is none of its column: a place below 2^16, as a table
    /// writes it, a number of 1 to 40 digits, a ratio, a number with six decimals or nothing, or one of the words for policies and
    /// caches.
    #[error("join: file {0} row {1} column {2}: number")]
    Number(u64, u64, u64),
    /// The place has more than three lines.
    #[error("join: place {0}: twice")]
    Twice(u64),
    /// The place has no line.
    #[error("join: place {0}: missing")]
    Missing(u64),
    /// The place has one line or two.
    #[error("join: place {0}: not three lines")]
    Lines(u64),
    /// There is this place, though fewer configurations are asked for.
    #[error("join: place {0}: more than are asked for")]
    Beyond(u64),
    /// A request for memory was refused.
    #[error("memory")]
    Memory,
}

impl From<AllocError> for JoinFault {
    ghost from_gives = { λ _ fault. fault ≡ Memory };

    ghost use Rattle.rw_sweep.specs.declared.joiner.join_fault.JoinFault.TheVariants.{Memory};

    fn from(_refusal: AllocError) -> JoinFault {
        JoinFault::Memory
    }
}
