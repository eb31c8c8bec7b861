// What goes with an installed program: its manual page, and completions for shells.
ghost use Rattle.std.specs.Prelude.{◌≡◌, ◌≢◌, ◌↔◌, IfErr, IsErrAnd};
ghost use Rattle.rw_command.specs.Status.{status_of};

use crate::arguments::{Argument, Given, Value};
use crate::completions::{write_bash, write_fish, write_zsh};
use crate::entries::{Entry, Hints};
use crate::fault::Fault;
use crate::files::write;
use crate::manual::write_manual;
use clap::ArgMatches;
use rw_report::Out;
use std::alloc::Global;
use std::fmt;
use std::io::Write;

/// The command.
static ENTRY: Entry = Entry {
    name: "generate",
    about: "Prints the manual page, or completions for a shell",
    examples: "Examples:
  ripqwarp generate man > ripqwarp.1
  ripqwarp generate bash > ~/.local/share/bash-completion/completions/ripqwarp",
    hints: Hints::OnTerminal,
    own: &[Argument {
        name: "what",
        value: Value::Choice("WHAT", &["man", "bash", "zsh", "fish"]),
        given: Given::Always,
        help: "The manual page in the macros of man(7), or completions for this shell",
    }],
    shared: &[],
};

/// The command.
pub(crate) fn entry() -> &'static Entry {
    &ENTRY
}

/// Writes what the options ask for.
///
/// # Errors
///
/// [`Fault::Plan`] where they ask for nothing, which the command line rules out, and `Memory`: nothing was written then. `Output`
/// exactly where the writer failed.
pub(crate) fn generate<W: Write>(
    alloc: Global,
    options: &ArgMatches<'_>,
    out: &mut Out<W>,
) -> Result<(), Fault>
    ensures output { IsErrAnd result (λ e. status_of e ≡ 8)
        ↔ (out.new.failures ≢ out.old.failures) }
    ensures nothing { IfErr result (λ e. status_of e ≢ 8 → out.new ≡ out.old) }
{
    let mut text = String::new(alloc);
    let what = options.get_str("what").ok_or(Fault::Plan)?;
    // A text in memory is refused only for want of memory.
    write_what(what, &mut text).map_err(|_| Fault::Memory)?;
    write(text.as_bytes(), out)
}

/// Appends what is asked for.
fn write_what(what: &str, text: &mut String) -> fmt::Result {
    match what {
        "bash" => write_bash(text),
        "zsh" => write_zsh(text),
        "fish" => write_fish(text),
        _ => write_manual(text),
    }
}
