// The program's words, and what `clap` answers in place of a command.
ghost use Rattle.std.specs.Prelude.{◌≡◌, ◌≢◌, ◌↔◌, IfErr, IsErrAnd};
ghost use Rattle.rw_command.specs.Status.{status_of};

use crate::fault::Fault;
use crate::files::write;
use clap::error::ErrorKind;
use rw_report::Out;
use std::alloc::Global;
use std::io::Write;
use std::rt::Env;
use std::{env, io};

/// The program's words, its name first.
///
/// # Errors
///
/// [`Fault::CommandLine`] where one of them is no text, and [`Fault::Memory`].
pub fn words<R: Env + AllocGlobal>(rt: &R, alloc: Global) -> Result<Vec<String>, Fault> {
    match env::args(rt) {
        Ok(words) => Ok(words.collect(alloc)?),
        Err(error) if error.kind() == io::ErrorKind::OutOfMemory => Err(Fault::Memory),
        Err(_) => {
            let text = "error: a word of the command line is no text";
            Err(Fault::CommandLine(String::from_str(alloc, text)?))
        }
    }
}

/// Deals with what `clap` answers in place of a command: help, which is written, or a fault.
///
/// # Errors
///
/// [`Fault::CommandLine`] where the words are none of the program's, and `Memory`: nothing was written then. `Output` exactly where
/// the writer fails.
pub(crate) fn answer<W: Write>(
    alloc: Global,
    error: clap::Error,
    out: &mut Out<W>,
) -> Result<(), Fault>
    ensures output { IsErrAnd result (λ e. status_of e ≡ 8)
        ↔ (out.new.failures ≢ out.old.failures) }
    ensures nothing { IfErr result (λ e. status_of e ≢ 8 → out.new ≡ out.old) }
{
    if error.kind() == ErrorKind::OutOfMemory {
        return Err(Fault::Memory);
    }
    let text = format!(in alloc; "{error}")?;
    if error.use_stderr() {
        return Err(Fault::CommandLine(text));
    }
    write(text.as_bytes(), out)
}
