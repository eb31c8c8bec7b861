//! The records of bytes in memory, one at a time.
ghost use Rattle.std.specs.Prelude.{◌≡◌, ◌∷◌, [], IfOk, MatchBool, true};
ghost use Rattle.csv.specs.Reading.{error_kind, stops_reader};
ghost use Rattle.csv.specs.Records.{fields_of};
ghost use Rattle.rw_trace.specs.Unread.{Steady, records_of, unread};

use csv::{ByteRecord, Error, ErrorKind, Reader, ReaderBuilder};
use std::alloc::{AllocError, Global};

/// A reader of the records of `bytes`, of any number of fields with commas between them. The first record is one as any other.
#[tactic(auto, unfolding(crate::specs::Unread::unread))]
pub fn open_records(alloc: Global, bytes: &[u8]) -> Reader<&[u8]>
    ensures steady { Steady result }
    ensures all { unread result ≡ records_of bytes.now }
{
    ReaderBuilder::new()
        .has_headers(false)
        .flexible(true)
        .from_reader(alloc, bytes)
}

/// Reads the next record into `fields`, and answers whether there was one.
///
/// # Errors
///
/// Where a request for memory was refused.
pub fn next_record(reader: &mut Reader<&[u8]>, fields: &mut ByteRecord) -> Result<bool, AllocError>
    requires { Steady reader.old }
    ensures steady { IfOk result (λ found. found ≡ true → Steady reader.new) }
    ensures gives { IfOk result (λ found. MatchBool found
        (unread reader.old ≡ fields_of fields.new ∷ unread reader.new)
        (unread reader.old ≡ [])) }
{
    match reader.read_byte_record(fields) {
        Ok(found) => Ok(found),
        Err(error) => Err(refusal(error)),
    }
}

/// What a read was refused by that gave no record: memory, or bytes in memory that can't be read, of which there are none.
fn refusal(error: Error) -> AllocError
    requires { stops_reader (error_kind error) ≡ true }
{
    match error.into_kind() {
        ErrorKind::Io(_) | ErrorKind::OutOfMemory => AllocError,
        _ => unreachable!(),
    }
}
