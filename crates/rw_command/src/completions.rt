// Completions of the command line for shells.
use crate::arguments::{Argument, Form};
use crate::entries::{Entry, entries};
use std::fmt::{self, Display, Formatter, Write};

/// Appends completions for bash.
pub(crate) fn write_bash<W: Write>(text: &mut W) -> fmt::Result {
    text.write_str(BASH_BEGIN)?;
    write_bash_names(text)?;
    text.write_str(BASH_VALUES)?;
    write_bash_choices(text)?;
    text.write_str(BASH_OPTIONS)?;
    write_bash_commands(text)?;
    text.write_str(BASH_END)
}

/// Appends the names of commands.
fn write_bash_names<W: Write>(text: &mut W) -> fmt::Result {
    for entry in entries() {
        write!(text, " {}", entry.name)?;
    }
    Ok(())
}

/// Appends, for each command, the words that its options may be.
fn write_bash_choices<W: Write>(text: &mut W) -> fmt::Result {
    for entry in entries() {
        write_bash_values(text, entry.name, entry.own)?;
        write_bash_values(text, entry.name, entry.shared)?;
    }
    Ok(())
}

/// Appends, for each command, the names of its options.
fn write_bash_commands<W: Write>(text: &mut W) -> fmt::Result {
    for entry in entries() {
        write!(text, "            {}) words='--help", entry.name)?;
        write_bash_options(text, entry.own)?;
        write_bash_options(text, entry.shared)?;
        text.write_str("' ;;\n")?;
    }
    Ok(())
}

/// What completions for bash begin with, up to the names of commands.
const BASH_BEGIN: &str = "_ripqwarp() {
    local current=${COMP_WORDS[COMP_CWORD]} previous=${COMP_WORDS[COMP_CWORD-1]}
    local command=${COMP_WORDS[1]} words=
    if [ \"$COMP_CWORD\" -lt 2 ]; then
        words='--help --version help";

/// What stands between the names of commands and the words that options may be.
const BASH_VALUES: &str = "'
    else
        case $command$previous in
";

/// What stands between the words that options may be and the names of options.
const BASH_OPTIONS: &str = "        *)
            case $current in
            -*) ;;
            *) COMPREPLY=($(compgen -f -- \"$current\")); return ;;
            esac
            case $command in
";

/// What completions for bash end with, behind the names of options.
const BASH_END: &str = "            esac ;;
        esac
    fi
    COMPREPLY=($(compgen -W \"$words\" -- \"$current\"))
}
complete -o filenames -F _ripqwarp ripqwarp
";

/// Appends the words that options of a command may be.
fn write_bash_values<W: Write>(text: &mut W, command: &str, arguments: &[Argument]) -> fmt::Result {
    for argument in arguments {
        let Some(choices) = argument.choices() else {
            continue;
        };
        match argument.form() {
            Form::Option(_) => write!(text, "        {command}--{}) words='", argument.name)?,
            _ => write!(text, "        {command}{command}) words='")?,
        }
        write_words(text, choices)?;
        text.write_str("' ;;\n")?;
    }
    Ok(())
}

/// Appends the names of options.
fn write_bash_options<W: Write>(text: &mut W, arguments: &[Argument]) -> fmt::Result {
    for argument in arguments {
        if !matches!(argument.form(), Form::Place(_)) {
            write!(text, " --{}", argument.name)?;
        }
    }
    Ok(())
}

/// Appends some words, with blanks between them.
fn write_words<W: Write>(text: &mut W, words: &[&str]) -> fmt::Result {
    let mut before = "";
    for word in words {
        write!(text, "{before}{word}")?;
        before = " ";
    }
    Ok(())
}

/// Appends completions for zsh.
pub(crate) fn write_zsh<W: Write>(text: &mut W) -> fmt::Result {
    text.write_str(ZSH_BEGIN)?;
    for entry in entries() {
        writeln!(text, "        '{}:{}'", entry.name, Quoted(entry.about))?;
    }
    text.write_str(ZSH_MIDDLE)?;
    for entry in entries() {
        write_zsh_command(text, entry)?;
    }
    text.write_str(ZSH_END)
}

/// What completions for zsh begin with, up to the names of commands.
const ZSH_BEGIN: &str = "#compdef ripqwarp
_ripqwarp() {
    local -a commands=(
";

/// What stands between the commands and their options.
const ZSH_MIDDLE: &str = "    )
    if (( CURRENT == 2 )); then
        _describe command commands
        return
    fi
    local command=$words[2]
    shift words
    (( CURRENT-- ))
    case $command in
";

/// What completions for zsh end with, behind the options.
const ZSH_END: &str = "    esac
}
_ripqwarp \"$@\"
";

/// Appends the options of a command.
fn write_zsh_command<W: Write>(text: &mut W, entry: &Entry) -> fmt::Result {
    writeln!(text, "    {}) _arguments \\", entry.name)?;
    write_zsh_arguments(text, entry.own)?;
    write_zsh_arguments(text, entry.shared)?;
    text.write_str("        '--help[Print help]' ;;\n")
}

/// Appends some arguments of a command.
fn write_zsh_arguments<W: Write>(text: &mut W, arguments: &[Argument]) -> fmt::Result {
    for argument in arguments {
        let (name, help) = (argument.name, Quoted(argument.help));
        match argument.form() {
            Form::Flag => write!(text, "        '--{name}[{help}]")?,
            Form::Option(value) => write!(text, "        '--{name}=[{help}]:{value}:")?,
            Form::Place(value) => write!(text, "        '*:{value}:")?,
        }
        match (argument.choices(), argument.form()) {
            (Some(choices), _) => {
                text.write_str("(")?;
                write_words(text, choices)?;
                text.write_str(")")?;
            }
            (None, Form::Place(_)) => text.write_str("_files")?,
            (None, _) => {}
        }
        text.write_str("' \\\n")?;
    }
    Ok(())
}

/// Appends completions for fish.
pub(crate) fn write_fish<W: Write>(text: &mut W) -> fmt::Result {
    for entry in entries() {
        write_fish_command(text, entry)?;
    }
    Ok(())
}

/// Appends a command and its options.
fn write_fish_command<W: Write>(text: &mut W, entry: &Entry) -> fmt::Result {
    writeln!(
        text,
        "complete -c ripqwarp -n __fish_use_subcommand -f -a {} -d '{}'",
        entry.name,
        Quoted(entry.about)
    )?;
    write_fish_arguments(text, entry.name, entry.own)?;
    write_fish_arguments(text, entry.name, entry.shared)
}

/// Appends some arguments of a command.
fn write_fish_arguments<W: Write>(
    text: &mut W,
    command: &str,
    arguments: &[Argument],
) -> fmt::Result {
    for argument in arguments {
        let name = argument.name;
        write!(
            text,
            "complete -c ripqwarp -n '__fish_seen_subcommand_from {command}'"
        )?;
        match argument.form() {
            Form::Flag => write!(text, " -l {name}")?,
            Form::Option(_) => write!(text, " -l {name} -r")?,
            Form::Place(_) => {}
        }
        if let Some(choices) = argument.choices() {
            text.write_str(" -f -a '")?;
            write_words(text, choices)?;
            text.write_str("'")?;
        }
        writeln!(text, " -d '{}'", Quoted(argument.help))?;
    }
    Ok(())
}

/// A text within single quotes and square brackets: what would end them, or part it there, is left out.
#[derive(Clone, Copy)]
struct Quoted<'a>(&'a str);

impl Display for Quoted<'_> {
    fn fmt<W: fmt::Write>(&self, formatter: &mut Formatter<W>) -> fmt::Result {
        for c in self.0.chars() {
            match c {
                '\'' | '[' | ']' | '\\' => {}
                ':' => formatter.write_str(" -")?,
                c => formatter.write_char(c)?,
            }
        }
        Ok(())
    }
}
