//! Formats that no log is read in, and by which bytes each begins.

ghost use Rattle.std.specs.Prelude.{◌≡◌, ◌≢◌, IfErr, IfOk, Some};
ghost use Rattle.std.specs.Io.Chain.{chain_remaining};
ghost use Rattle.std.specs.Io.Cursor.{cursor_remaining};
ghost use Rattle.std.specs.Io.KnownBytes.{Keeps};
ghost use Rattle.rw_import.specs.Formats.{begins, format_in, magic_of};

use crate::fault::ImportFault;
use crate::oracle_stream::fill;
use std::alloc::Global;
use std::fmt;
use std::io::{Chain, Cursor, Read};

/// A format that no log is read in, shown with what can be done about it.
#[derive(Clone, Copy, PartialEq, Eq, Debug)]
pub enum Format {
    /// Compressed by gzip (RFC 1952).
    Gzip,
    /// Compressed by Zstandard (RFC 8878).
    Zstandard,
    /// Compressed by xz.
    Xz,
    /// The format `lcs` of libCacheSim.
    Lcs,
}

impl fmt::Display for Format {
    fn fmt<W: fmt::Write>(&self, f: &mut fmt::Formatter<W>) -> fmt::Result {
        f.write_str(match self {
            Format::Gzip => "gzip; pipe it through gzip -dc",
            Format::Zstandard => "zstd; pipe it through zstd -dc",
            Format::Xz => "xz; pipe it through xz -dc",
            Format::Lcs => "libCacheSim's lcs; convert it to oracle-general or to CSV",
        })
    }
}

/// The most bytes by which a format begins.
const HEAD: usize = 8;

/// The bytes by which a format begins.
fn magic_of(format: Format) -> &'static [u8]
    ensures { result.now ≡ magic_of format }
{
    match format {
        Format::Gzip => &[0x1f, 0x8b],
        Format::Zstandard => &[0x28, 0xb5, 0x2f, 0xfd],
        Format::Xz => &[0xfd, 0x37, 0x7a, 0x58, 0x5a, 0x00],
        Format::Lcs => &[0xf0, 0xde, 0xbc, 0x9a, 0x78, 0x56, 0x34, 0x12],
    }
}

/// Whether some bytes begin as a format does.
fn begins(bytes: &[u8], format: Format) -> bool
    ensures { result ≡ begins bytes.now format }
{
    bytes.starts_with(magic_of(format))
}

/// The format by which some bytes begin, if it is one of these. Takes no memory.
pub fn format_of(bytes: &[u8]) -> Option<Format>
    ensures { result ≡ format_in bytes.now }
{
    if begins(bytes, Format::Gzip) {
        Some(Format::Gzip)
    } else if begins(bytes, Format::Zstandard) {
        Some(Format::Zstandard)
    } else if begins(bytes, Format::Xz) {
        Some(Format::Xz)
    } else if begins(bytes, Format::Lcs) {
        Some(Format::Lcs)
    } else {
        None
    }
}

/// A log whose first bytes were looked at.
pub type Opened<R> = Chain<Cursor<Vec<u8>>, R>;

/// The log in the bytes of a reader, which are all still to come.
///
/// # Errors
///
/// `Format` where it begins as one of these formats does; `Read` where the reader answers an error, and `Memory`.
pub fn open_log<R: Read + Drop>(alloc: Global, mut log: R) -> Result<Opened<R>, ImportFault>
    ensures same { IfOk result (λ opened. Keeps (R.remaining log)
        (chain_remaining (cursor_remaining (λ v. Some v.items)) R.remaining opened)) }
    ensures output { IfErr result (λ e. e ≢ ImportFault.Output) }
{
    let mut head = [0; HEAD];
    let filled = fill(&mut log, &mut head)?;
    if let Some(format) = format_of(&head[..filled]) {
        return Err(ImportFault::Format(format));
    }
    let front = Vec::from_slice(alloc, &head[..filled])?;
    Ok(Cursor::new(front).chain(log))
}
