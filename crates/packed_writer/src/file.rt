//! A whole file.
ghost use Rattle.std.specs.Prelude.{◌≡◌, ◌∷◌};
ghost use Rattle.packed_file.specs.Format.{header_fields};
ghost use Rattle.packed_writer.specs.Writing.{Room, Writes};
ghost use Rattle.packed_writer.specs.Written.{Written, ReadBack};

use crate::bit_writer::BitWriter;
use crate::fault::WriteFault;
use chain::Chain;
use refusal::{Refusal, demand};

impl BitWriter<'_> {
    /// Writes the mark and the header.
    fn put_header<C: Chain>(&mut self, chain: &C)
        requires { Room self.old ((16, 0xFEFF) ∷ header_fields (C.Chain.meaning chain.now)) }
        ensures { Writes self.old self.new ((16, 0xFEFF) ∷ header_fields (C.Chain.meaning chain.now)) }
    {
        self.put(16, 0xFEFF);
        self.put(10, chain.states() as u32 - 1);
        self.put(16, chain.denominator());
        self.put(10, chain.start() as u32);
    }
}

/// Writes the file of a chain to the front of the buffer, and answers how many bytes it has.
pub fn write<C: Chain>(chain: &C, buffer: &mut [u8]) -> Result<usize, Refusal<WriteFault>>
    ensures written { Written (C.Chain.meaning chain.now) buffer.old buffer.new result }
    ensures read_back { ReadBack (C.Chain.meaning chain.now) buffer.new result }
{
    let bits = 16 + 36 + 27 * chain.states() + 26 * chain.edges();
    let length = bits.div_ceil(8);
    demand(length <= buffer.len(), WriteFault::BufferTooShort, 0)?;
    let mut file = BitWriter::new(buffer);
    file.put_header(chain);
    file.put_rows(chain);
    file.put(8 * length - bits, 0);
    Ok(length)
}
