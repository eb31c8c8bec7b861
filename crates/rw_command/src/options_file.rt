// Options out of a file: `--options FILE`.
ghost use Rattle.std.specs.Prelude.{◌≢◌, IfErr};
ghost use Rattle.rw_command.specs.Status.{status_of};

use crate::arguments::{Argument, Given, Value};
use crate::entries::entries;
use crate::fault::Fault;
use crate::source::Source;
use crate::values::invalid;
use std::alloc::{AllocError, Global};

/// The name of the option.
const NAME: &str = "options";

/// A file of options.
pub(crate) const OPTIONS: Argument = Argument {
    name: NAME,
    value: Value::Text("FILE"),
    given: Given::Maybe,
    help: "Read options from this file too, one a line, as --policy=lru; # starts a comment",
};

/// The words of the program, with those of the file that `--options FILE` names behind the name of the command. Without that option
/// they are the same.
///
/// Each line of the file is a word, without the blanks around it; an empty line and one that starts with `#` say nothing. An option
/// that stands on the command line too is left out of the file, with its value.
///
/// # Errors
///
/// Those of the source, [`Fault::CommandLine`] where there are two files, or where the file is no text or names another one, and
/// `Memory`.
pub(crate) fn with_options_of_file<S: Source>(
    alloc: Global,
    words: Vec<String>,
    source: &mut S,
) -> Result<Vec<String>, Fault>
    ensures unwritten { IfErr result (λ e. status_of e ≢ 8) }
{
    let Some(path) = path_of(&words) else {
        return Ok(words);
    };
    if are_several(&words) {
        return Err(invalid(alloc, path, NAME, "one file of options"));
    }
    let bytes = source.bytes(alloc, path)?;
    let Ok(text) = str::from_utf8(bytes.as_slice()) else {
        return Err(invalid(alloc, path, NAME, "a file of text"));
    };
    if names_a_file(text) {
        let expected = "a file without the option --options";
        return Err(invalid(alloc, path, NAME, expected));
    }
    Ok(joined(alloc, &words, text)?)
}

/// The file of options that the words name.
fn path_of(words: &[String]) -> Option<&str> {
    let mut is_next = false;
    for word in words.get(2..)? {
        let word = word.as_str();
        if is_next {
            return Some(word);
        }
        if word == "--" {
            return None;
        }
        if let Some(path) = word.strip_prefix("--options=") {
            return Some(path);
        }
        is_next = word == "--options";
    }
    None
}

/// Whether the words name more than one file of options.
fn are_several(words: &[String]) -> bool {
    let named = words
        .iter()
        .filter(|word| option_of(word.as_str()) == Some(NAME));
    named.count() > 1
}

/// Whether a line of a file names a file of options.
fn names_a_file(text: &str) -> bool {
    text.lines()
        .any(|line| option_of(line.trim()) == Some(NAME))
}

/// The words, with those of a file behind the first two, and without the name of the file.
fn joined(alloc: Global, words: &[String], text: &str) -> Result<Vec<String>, AllocError> {
    let mut all = Vec::new(alloc);
    let command = words.get(1).map_or("", |word| word.as_str());
    let own = words.get(2..).unwrap_or(&[]);
    for word in words.iter().take(2) {
        all.push(String::from_str(alloc, word.as_str())?)?;
    }
    add_lines(alloc, &mut all, command, own, text)?;
    let mut is_path = false;
    for word in own {
        let word = word.as_str();
        let is_option = option_of(word) == Some(NAME);
        if !is_path && !is_option {
            all.push(String::from_str(alloc, word)?)?;
        }
        is_path = is_option && !word.contains('=');
    }
    Ok(all)
}

/// Appends the lines of a file, but for the options that `own` has.
fn add_lines(
    alloc: Global,
    words: &mut Vec<String>,
    command: &str,
    own: &[String],
    text: &str,
) -> Result<(), AllocError> {
    let mut is_left_out = false;
    for line in text.lines() {
        let line = line.trim();
        if line.is_empty() || line.starts_with('#') {
            continue;
        }
        if let Some(name) = option_of(line) {
            let is_given = own
                .iter()
                .any(|word| option_of(word.as_str()) == Some(name));
            is_left_out = is_given && takes_value(command, name) && !line.contains('=');
            if !is_given {
                words.push(String::from_str(alloc, line)?)?;
            }
        } else if is_left_out {
            is_left_out = false;
        } else {
            words.push(String::from_str(alloc, line)?)?;
        }
    }
    Ok(())
}

/// The name of the option that a word is, if it is one.
fn option_of(word: &str) -> Option<&str> {
    let option = word.strip_prefix("--")?;
    match option.split_once('=') {
        Some((name, _)) => Some(name),
        None => Some(option),
    }
}

/// Whether an option of a command takes a value.
fn takes_value(command: &str, name: &str) -> bool {
    for entry in entries() {
        if entry.name == command {
            return is_with_value(entry.own, name) || is_with_value(entry.shared, name);
        }
    }
    false
}

/// Whether one of these arguments has this name, and takes a value.
fn is_with_value(arguments: &[Argument], name: &str) -> bool {
    for argument in arguments {
        if argument.name == name {
            return !matches!(argument.value, Value::Flag);
        }
    }
    false
}
