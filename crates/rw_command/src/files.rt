// What commands read and write.
ghost use Rattle.std.specs.Prelude.{◌≡◌, ◌≢◌, ◌↔◌, IfErr, IsErrAnd, OnOk};
ghost use Rattle.std.specs.Io.KnownBytes.{Appends};
ghost use Rattle.rw_report.specs.Sink.{AppendsBeginning};
ghost use Rattle.rw_command.specs.Status.{status_of};

use crate::fault::Fault;
use crate::source::Source;
use clap::ArgMatches;
use rw_report::{Out, SimFault};
use std::alloc::Global;
use std::io::Write;

/// The path that an argument names.
///
/// # Errors
///
/// [`Fault::Plan`] where the argument is missing, which the command line rules out.
pub(crate) fn path<'a>(options: &ArgMatches<'a>, argument: &str) -> Result<&'a str, Fault>
    ensures unwritten { IfErr result (λ e. status_of e ≢ 8) }
{
    options.get_str(argument).ok_or(Fault::Plan)
}

/// All bytes of the file that an argument names.
///
/// # Errors
///
/// Those of the source, and those of [`path`].
pub(crate) fn read<S: Source>(
    alloc: Global,
    options: &ArgMatches<'_>,
    argument: &str,
    source: &mut S,
) -> Result<Vec<u8>, Fault>
    ensures unwritten { IfErr result (λ e. status_of e ≢ 8) }
{
    let path = path(options, argument)?;
    Ok(source.bytes(alloc, path)?)
}

/// A reader of the file that an argument names.
///
/// # Errors
///
/// Those of the source, and those of [`path`].
pub(crate) fn open<S: Source>(
    options: &ArgMatches<'_>,
    argument: &str,
    source: &mut S,
) -> Result<S::Reader, Fault>
    ensures unwritten { IfErr result (λ e. status_of e ≢ 8) }
{
    let path = path(options, argument)?;
    Ok(source.open(path)?)
}

/// Writes a text whole.
///
/// # Errors
///
/// `Output` exactly where the writer fails; what went out is then a beginning of the text.
pub(crate) fn write<W: Write>(text: &[u8], out: &mut Out<W>) -> Result<(), Fault>
    ensures whole { OnOk result
        (Appends (W.contents out.old.writer) (W.contents out.new.writer) text.now) }
    ensures beginning { AppendsBeginning (W.contents out.old.writer) (W.contents out.new.writer)
        text.now }
    ensures fault { IfErr result (λ e. status_of e ≡ 8) }
    ensures output { IsErrAnd result (λ e. status_of e ≡ 8)
        ↔ (out.new.failures ≢ out.old.failures) }
{
    if out.write_text(text) {
        Ok(())
    } else {
        Err(Fault::Run(SimFault::Output))
    }
}
