// The manual page, in the macros of man(7).
use crate::arguments::{Argument, Form, Given};
use crate::entries::{ABOUT, Entry, VERSION, entries};
use std::fmt::{self, Display, Formatter, Write};

/// Appends the manual page.
pub(crate) fn write_manual<W: Write>(page: &mut W) -> fmt::Result {
    writeln!(page, ".TH RIPQWARP 1 \"\" \"ripqwarp {VERSION}\"")?;
    writeln!(page, ".SH NAME\nripqwarp \\- {}", Text(ABOUT))?;
    page.write_str(".SH SYNOPSIS\n")?;
    for entry in entries() {
        write_synopsis(page, entry)?;
    }
    page.write_str(".SH COMMANDS\n")?;
    for entry in entries() {
        write_command(page, entry)?;
    }
    page.write_str(END)
}

/// What the page ends with.
const END: &str = ".SH \"EXIT STATUS\"
.TP
.B 0
done, also after help
.TP
.B 2
the command line, or the schedule
.TP
.B 3
the trace, log, table or parts were refused
.TP
.B 4
a file, or random bytes of the system, cannot be read
.TP
.B 5
memory
.TP
.B 6
all rounds of the plan are used, or the start of a thread was refused
.TP
.B 7
a cache is exhausted
.TP
.B 8
output failed
";

/// Appends a command as it is called.
fn write_synopsis<W: Write>(page: &mut W, entry: &Entry) -> fmt::Result {
    write!(
        page,
        ".br\n\\fBripqwarp {}\\fR [\\fIOPTION\\fR]...",
        entry.name
    )?;
    for argument in entry.own {
        if let Form::Place(value) = argument.form() {
            write!(page, " \\fI{value}\\fR")?;
        }
    }
    page.write_str("\n")
}

/// Appends what the page says of a command.
fn write_command<W: Write>(page: &mut W, entry: &Entry) -> fmt::Result {
    writeln!(page, ".SS {}\n{}.", entry.name, Text(entry.about))?;
    write_arguments(page, entry.own)?;
    write_arguments(page, entry.shared)?;
    writeln!(page, ".PP\n.nf\n{}\n.fi", Text(entry.examples))
}

/// Appends what the page says of some arguments.
fn write_arguments<W: Write>(page: &mut W, arguments: &[Argument]) -> fmt::Result {
    for argument in arguments {
        write_argument(page, argument)?;
    }
    Ok(())
}

/// Appends what the page says of an argument.
fn write_argument<W: Write>(page: &mut W, argument: &Argument) -> fmt::Result {
    let name = Text(argument.name);
    match argument.form() {
        Form::Place(value) => writeln!(page, ".TP\n\\fI{value}\\fR")?,
        Form::Option(value) => writeln!(page, ".TP\n\\fB\\-\\-{name}\\fR \\fI{value}\\fR")?,
        Form::Flag => writeln!(page, ".TP\n\\fB\\-\\-{name}\\fR")?,
    }
    write!(page, "{}", Text(argument.help))?;
    if let Given::Or(value) = argument.given {
        write!(page, " [default: {}]", Text(value))?;
    }
    if let Form::Option(_) = argument.form() {
        write_choices(page, argument)?;
    }
    page.write_str("\n")
}

/// Appends the words that an option may be, if it is one of some.
fn write_choices<W: Write>(page: &mut W, argument: &Argument) -> fmt::Result {
    let Some(choices) = argument.choices() else {
        return Ok(());
    };
    let mut before = " [one of: ";
    for choice in choices {
        write!(page, "{before}{}", Text(choice))?;
        before = ", ";
    }
    page.write_str("]")
}

/// A text as troff reads it: each character stands for itself.
#[derive(Clone, Copy)]
struct Text<'a>(&'a str);

impl Display for Text<'_> {
    fn fmt<W: fmt::Write>(&self, formatter: &mut Formatter<W>) -> fmt::Result {
        let mut is_first = true;
        for c in self.0.chars() {
            if is_first && (c == '.' || c == '\'') {
                formatter.write_str("\\&")?;
            }
            match c {
                '-' => formatter.write_str("\\-")?,
                '\\' => formatter.write_str("\\e")?,
                c => formatter.write_char(c)?,
            }
            is_first = c == '\n';
        }
        Ok(())
    }
}
