//! The fields of a file's body, read from the front.
ghost use Rattle.std.specs.Prelude.{◌*◌, ◌^◌, ◌<◌, ◌≤◌, length};

use crate::fault::FileFault;
use crate::file::DECIDING_BYTES;
use bits::fields::get;
use refusal::{Refusal, demand};

const MARK_BYTES: usize = 2;

/// The fields of a body that are still to be read.
#[derive(Drop)]
pub(crate) struct Fields<'a> {
    body: &'a [u8],
    at: usize,
    ghost short: { length body.now < 2 ^ 15 },
    ghost inside: { at ≤ 8 * length body.now },
}

impl<'a> Fields<'a> {
    ghost use Rattle.std.specs.Prelude.{◌≡◌, ◌+◌, ◌-◌, [], ◌∷◌, take, IfOk};
    ghost use Rattle.bits.specs.Fields.{field};
    ghost use Rattle.refusal.specs.Demands.{told};
    ghost use Rattle.packed_file.specs.Faults.{deciding_bytes, there, end_demands};
    ghost use Rattle.packed_file.specs.Reading.{Reads};

    /// The fields of a body. Of a long one the front alone is looked at, which decides.
    pub(crate) fn new(body: &'a [u8]) -> Fields<'a>
        ensures front { result.body.now ≡ take (deciding_bytes - 2) body.now }
        ensures first { result.at ≡ 0 }
    {
        let front = (DECIDING_BYTES - MARK_BYTES).min(body.len());
        Fields {
            body: &body[..front],
            at: 0,
        }
    }

    /// The place of the next field in the file.
    pub(crate) fn place(&self) -> usize
        ensures { result ≡ 16 + self.now.at }
    {
        8 * MARK_BYTES + self.at
    }

    /// The next field, of `width` bits.
    // Why a width is no type of its own: see `bits::fields`.
    pub(crate) fn take(&mut self, width: usize) -> Result<u32, Refusal<FileFault>>
        requires { width ≤ 16 }
        ensures bound { IfOk result (λ value. value < 2 ^ width) }
        ensures read { let body = self.old.body.now in let at = self.old.at in
            Reads self.old self.new result (there body at width ∷ []) (field body at width) width }
    {
        let end = self.at + width;
        demand(
            end <= 8 * self.body.len(),
            FileFault::EndsInField,
            self.place(),
        )?;
        let value = get(self.body, self.at, width);
        self.at = end;
        Ok(value)
    }

    /// Demands that nothing but zero bits up to the next byte is left.
    pub(crate) fn end(self) -> Result<(), Refusal<FileFault>>
        ensures { result ≡ told (end_demands self.entry.body.now self.entry.at) tt }
    {
        let left = 8 * self.body.len() - self.at;
        let nothing_left = left < 8 && get(self.body, self.at, left) == 0;
        demand(nothing_left, FileFault::Leftover, self.place())
    }
}
