use crate::arguments::Argument;
use crate::{generate, import, join, journal, plot, serial, size, sweep, warp};
use clap::{Arg, Command};
use std::alloc::{AllocError, Global};

/// A command.
pub(crate) struct Entry {
    /// Its name.
    pub(crate) name: &'static str,
    /// What the help says of it.
    pub(crate) about: &'static str,
    /// Examples, which its help ends with.
    pub(crate) examples: &'static str,
    /// When a hint follows its faults.
    pub(crate) hints: Hints,
    /// The arguments of its own, which the help names first.
    pub(crate) own: &'static [Argument],
    /// The arguments that other commands take too, which the help names last.
    pub(crate) shared: &'static [Argument],
}

/// When a hint follows a fault.
#[derive(Clone, Copy)]
pub(crate) enum Hints {
    /// Always. Where the output is a pipe that was closed, nothing is said at all.
    Always,
    /// Where standard error is a terminal: elsewhere a fault is one line.
    OnTerminal,
}

/// What the program is for.
pub(crate) const ABOUT: &str = "Simulates edge and origin photo caches from a trace";

/// The version of the program.
pub(crate) const VERSION: &str = "1.0.0";

/// The commands, in the order of the help. Each is a `static`: a constant would be built in the frame of each function that goes over
/// them, and to prove one static of all takes too many steps.
pub(crate) fn entries() -> [&'static Entry; 9] {
    [
        serial::entry(),
        warp::entry(),
        journal::entry(),
        import::entry(),
        sweep::entry(),
        size::entry(),
        join::entry(),
        plot::entry(),
        generate::entry(),
    ]
}

/// The program with its commands, as `clap` knows it, under its name whatever its file is called. The fault is memory that was
/// refused.
pub(crate) fn program<'a>(alloc: Global) -> Result<Command<'a>, AllocError> {
    let commands = commands(alloc)?;
    Command::new(alloc, "ripqwarp")
        .bin_name("ripqwarp")?
        .version(VERSION)
        .about(ABOUT)
        .subcommand_required(true)
        .arg_required_else_help(true)
        .subcommands(commands)
}

/// Whether a hint follows each fault of the command of this name.
pub(crate) fn always_hints(name: &str) -> bool {
    for entry in entries() {
        if entry.name == name {
            return matches!(entry.hints, Hints::Always);
        }
    }
    false
}

/// The commands as `clap` knows them.
fn commands<'a>(alloc: Global) -> Result<Vec<Command<'a>>, AllocError> {
    let mut commands = Vec::new(alloc);
    for entry in entries() {
        entry.add_to(alloc, &mut commands)?;
    }
    Ok(commands)
}

impl Entry {
    /// Appends the command, as `clap` knows it.
    fn add_to<'a>(&self, alloc: Global, commands: &mut Vec<Command<'a>>) -> Result<(), AllocError> {
        let arguments = self.arguments(alloc)?;
        let command = Command::new(alloc, self.name)
            .about(self.about)
            .after_help(self.examples)
            .args(arguments)?;
        commands.push(command)?;
        Ok(())
    }

    /// Its arguments, as `clap` knows them.
    fn arguments<'a>(&self, alloc: Global) -> Result<Vec<Arg<'a>>, AllocError> {
        let mut arguments = Vec::new(alloc);
        add_each(alloc, self.own, &mut arguments)?;
        add_each(alloc, self.shared, &mut arguments)?;
        Ok(arguments)
    }
}

/// Appends these arguments, as `clap` knows them.
fn add_each<'a>(
    alloc: Global,
    added: &[Argument],
    arguments: &mut Vec<Arg<'a>>,
) -> Result<(), AllocError> {
    for argument in added {
        argument.add_to(alloc, arguments)?;
    }
    Ok(())
}
