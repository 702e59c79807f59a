//! The lister's program: its arguments, files and words, over the library.
#![tactic(auto)]

mod check;
mod command;
mod command_error;
mod copy;
mod property_command;
mod show;

use crate::command::obey;
use crate::command_error::CommandError;
use std::process::ExitCode;
use std::rt::{Env, Files};
use std::{env, io};

/// Carries out the command that the arguments give; where it fails, what is wrong is told. The error of a stream is left to `main`.
fn run(rt: &(impl Env + Files + Print + Eprint + AllocGlobal)) -> io::Result<ExitCode> {
    let words: Vec<String> = env::args(rt)?.skip(1).collect(rt.alloc())?;
    match obey(rt, &words) {
        Ok(()) => Ok(ExitCode::SUCCESS),
        Err(CommandError::Io(error)) => Err(error),
        Err(error) => {
            error.tell(rt)?;
            Ok(ExitCode::FAILURE)
        }
    }
}

fn main(rt: HostRuntime) -> ExitCode {
    match run(&rt) {
        Ok(code) => code,
        Err(e) => {
            let _ = eprintln!(rt; "lister: {e}");
            ExitCode::FAILURE
        }
    }
}
