#![tactic(auto)]
//! The program `ripqwarp`: passes its arguments, files and streams to the library, and exits with the
//! status that the library answers.

use rw_command::{Inputs, Out, Stderr, command_at, words};
use std::io::IsTerminal;
use std::process::ExitCode;

fn main(rt: HostRuntime) -> ExitCode {
    let alloc = rt.alloc();
    let writer = rt.stderr();
    let is_terminal = writer.is_terminal();
    let mut err = Stderr {
        writer,
        is_terminal,
    };
    let words = match words(&rt, alloc) {
        Ok(words) => words,
        Err(fault) => {
            err.tell(&fault);
            return ExitCode::from(fault.status());
        }
    };
    let mut inputs = Inputs { rt: &rt };
    let mut out = Out::new(rt.stdout());
    let status = command_at(&rt, alloc, words, &mut inputs, &mut out, &mut err);
    ExitCode::from(status)
}
