// What commands take, as `clap` knows it.
use clap::{Arg, ArgAction, value_parser};
use std::alloc::{AllocError, Global};

/// An argument of a command: an option, a flag or a file.
pub(crate) struct Argument {
    /// Its name: behind `--`, unless it is a file.
    pub(crate) name: &'static str,
    /// What values it takes.
    pub(crate) value: Value,
    /// Whether it has to be given.
    pub(crate) given: Given,
    /// What the help says of it.
    pub(crate) help: &'static str,
}

/// What values an argument takes. The first text is what the help shows in place of a value.
pub(crate) enum Value {
    /// A file, or `-` for standard input; not an option.
    File(&'static str),
    /// One file or more, or `-` for standard input; not an option.
    Files(&'static str),
    /// One of these words; not an option.
    Choice(&'static str, &'static [&'static str]),
    /// Any text. The command checks it.
    Text(&'static str),
    /// One of these words.
    Word(&'static str, &'static [&'static str]),
    /// A number of things, from 1 to this, of 32 bits.
    Count(i64),
    /// A number, from 1 to this.
    Number(i64),
    /// A percentage, from 0 to 100.
    Percent,
    /// No value: a flag.
    Flag,
}

/// How an argument is written.
#[derive(Clone, Copy)]
pub(crate) enum Form {
    /// As this value, in its place.
    Place(&'static str),
    /// As its name and this value.
    Option(&'static str),
    /// As its name.
    Flag,
}

/// Whether an argument has to be given.
pub(crate) enum Given {
    /// Always.
    Always,
    /// Unless this flag is given.
    Unless(&'static str),
    /// No: this is its default.
    Or(&'static str),
    /// No, and it has no default.
    Maybe,
}

impl Argument {
    /// How the argument is written.
    pub(crate) fn form(&self) -> Form {
        match self.value {
            Value::File(file) => Form::Place(file),
            Value::Files(files) => Form::Place(files),
            Value::Choice(word, _) => Form::Place(word),
            Value::Text(text) => Form::Option(text),
            Value::Word(word, _) => Form::Option(word),
            Value::Count(_) | Value::Number(_) => Form::Option("N"),
            Value::Percent => Form::Option("PERCENT"),
            Value::Flag => Form::Flag,
        }
    }

    /// The words that it may be, if it is one of some.
    pub(crate) fn choices(&self) -> Option<&'static [&'static str]> {
        match self.value {
            Value::Word(_, words) | Value::Choice(_, words) => Some(words),
            _ => None,
        }
    }

    /// Appends the argument, as `clap` knows it.
    pub(crate) fn add_to<'a>(
        &self,
        alloc: Global,
        arguments: &mut Vec<Arg<'a>>,
    ) -> Result<(), AllocError> {
        arguments.push(self.arg(alloc)?)?;
        Ok(())
    }

    /// The argument as `clap` knows it.
    fn arg<'a>(&self, alloc: Global) -> Result<Arg<'a>, AllocError> {
        let arg = self.optional(alloc);
        match self.given {
            Given::Always => Ok(arg.required(true)),
            Given::Unless(flag) => arg.required_unless_present(flag),
            Given::Or(value) => Ok(arg.default_value(value)),
            Given::Maybe => Ok(arg),
        }
    }

    /// The argument, as one that need not be given.
    fn optional<'a>(&self, alloc: Global) -> Arg<'a> {
        match self.value {
            Value::File(file) => self.shown_as(alloc, file),
            Value::Files(files) => self.shown_as(alloc, files).num_args(1..),
            Value::Choice(word, words) => self.shown_as(alloc, word).value_parser(words),
            Value::Text(text) => self.option(alloc, text),
            Value::Word(word, words) => self.option(alloc, word).value_parser(words),
            Value::Count(most) => {
                let parser = value_parser!(u32).range(1..=most);
                self.option(alloc, "N").value_parser(parser)
            }
            Value::Number(most) => {
                let parser = value_parser!(u64).range(1..=most);
                self.option(alloc, "N").value_parser(parser)
            }
            Value::Percent => {
                let parser = value_parser!(u64).range(0..=100);
                self.option(alloc, "PERCENT").value_parser(parser)
            }
            Value::Flag => Arg::new(alloc, self.name)
                .long(self.name)
                .action(ArgAction::SetTrue)
                .help(self.help),
        }
    }

    /// An option; the help shows `value` in place of its value.
    fn option<'a>(&self, alloc: Global, value: &'static str) -> Arg<'a> {
        self.shown_as(alloc, value).long(self.name)
    }

    /// An argument that is not an option; the help shows `value` in its place.
    fn shown_as<'a>(&self, alloc: Global, value: &'static str) -> Arg<'a> {
        Arg::new(alloc, self.name).value_name(value).help(self.help)
    }
}
