//! What can keep a file from being written.
ghost use Rattle.packed_writer.specs.Number.{number};

use refusal::Fault;
use thiserror::Error;

#[derive(Clone, Copy, PartialEq, Eq, Debug, Error)]
pub enum WriteFault {
    #[error("The buffer is too short for the file.")]
    BufferTooShort = 30,
}

impl Fault for WriteFault {
    ghost numbered = { number };

    fn number(self) -> u32 {
        self as u32
    }
}
