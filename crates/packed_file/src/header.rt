//! The header of a body.
use crate::fault::FileFault;
use crate::fields::Fields;
use refusal::{Refusal, demand};

/// What the header says of the rows.
#[derive(Clone, Copy)]
pub(crate) struct Header {
    pub(crate) states: usize,
    pub(crate) denominator: u32,
}

impl Fields<'_> {
    ghost use Rattle.std.specs.Prelude.{◌≡◌};
    ghost use Rattle.packed_file.specs.Format.{first_row};
    ghost use Rattle.packed_file.specs.Faults.{header_demands};
    ghost use Rattle.packed_file.specs.Reading.{Reads, header_of};

    /// The number of states, the denominator and the start.
    pub(crate) fn header(&mut self) -> Result<Header, Refusal<FileFault>>
        requires { self.old.at ≡ 0 }
        ensures { Reads self.old self.new result (header_demands self.old.body.now) (header_of self.old.body.now) first_row }
    {
        let states = self.take(10)? as usize + 1;
        let place = self.place();
        let denominator = self.take(16)?;
        demand(denominator > 0, FileFault::ZeroDenominator, place)?;
        let place = self.place();
        let start = self.take(10)? as usize;
        demand(start < states, FileFault::StartOutside, place)?;
        Ok(Header {
            states,
            denominator,
        })
    }
}
