//! Why a command was not carried out.
use crate::command::USAGE;
use inputs::{FileError, RefusedProperty};
use packed_writer::WriteFault;
use refusal::{Fault, Refusal};
use std::io;
use thiserror::Error;

/// Why a command was not carried out.
#[derive(Debug, Drop, Error)]
pub(crate) enum CommandError<'a> {
    #[error(transparent)]
    File(#[from] FileError<'a>),
    #[error(transparent)]
    Property(#[from] RefusedProperty<'a>),
    #[error("REFUSED WRITER {} {}", .0.fault.number(), .0.place)]
    Writer(#[from] Refusal<WriteFault>),
    #[error("the file {path} cannot be written: {cause}")]
    Unwritten { path: &'a str, cause: io::Error },
    #[error("these words are no command; this is how it is used:")]
    WrongUsage,
    #[error(transparent)]
    Io(#[from] io::Error),
}

impl CommandError<'_> {
    /// A refusal is an answer, and told on the standard output; any other error is told on the standard error.
    pub(crate) fn tell(&self, rt: &(impl Print + Eprint)) -> io::Result<()> {
        match self {
            CommandError::File(FileError::Refused(_))
            | CommandError::Property(_)
            | CommandError::Writer(_) => println!(rt; "{self}"),
            CommandError::WrongUsage => {
                eprintln!(rt; "lister: {self}")?;
                println!(rt; "{USAGE}")
            }
            _ => eprintln!(rt; "lister: {self}"),
        }
    }
}
