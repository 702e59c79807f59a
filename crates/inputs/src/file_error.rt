//! Why a file is not accepted, in words.
use packed_file::FileFault;
use refusal::{Fault, Refusal};
use std::{error, fmt, io};
use thiserror::Error;

/// Why a file is not accepted.
#[derive(Debug, Drop, Error)]
pub enum FileError<'a> {
    #[error(transparent)]
    Refused(#[from] RefusedFile),
    #[error("the file {path} cannot be read: {cause}")]
    Unread { path: &'a str, cause: io::Error },
}

/// A file that the check refuses, told in a line to a machine and in one to a person.
#[derive(Clone, Copy, Debug)]
pub struct RefusedFile(pub Refusal<FileFault>);

/// What it is that the place says, up to the place.
// A text beside that of the fault, which has one Display.
fn what_begins(fault: FileFault) -> &'static str {
    match fault {
        FileFault::ReversedMark => "The mark begins",
        FileFault::NoMark => "The mark should begin",
        FileFault::WrongSum => "The edge count of that row begins",
        FileFault::Leftover => "What follows the row begins",
        _ => "The field begins",
    }
}

impl fmt::Display for RefusedFile {
    fn fmt<W: fmt::Write>(&self, f: &mut fmt::Formatter<W>) -> fmt::Result {
        let Refusal { fault, place } = self.0;
        let number = fault.number();
        let begins = what_begins(fault);
        let byte = place / 8;
        let bit = place % 8;
        writeln!(f, "REFUSED FILE {number} {place}")?;
        write!(
            f,
            "{fault} {begins} at bit {place}, that is at bit {bit} of byte {byte}, counted from 0."
        )
    }
}

impl error::Error for RefusedFile {}
