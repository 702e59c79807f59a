//! A buffer that is written from its front, field by field.
ghost use Rattle.std.specs.Prelude.{◌≡◌, ◌^◌, ◌<◌, ◌≤◌, [], ◌∷◌};
ghost use Rattle.packed_writer.specs.Writing.{Room, Writes};

use bits::fields::put;

/// A buffer, and the bit at which its next field begins.
#[derive(Drop)]
pub(crate) struct BitWriter<'a> {
    buffer: &'a mut [u8],
    at: usize,
}

impl<'a> BitWriter<'a> {
    pub(crate) fn new(buffer: &'a mut [u8]) -> BitWriter<'a>
        ensures same_reference { result.buffer.ghost_name ≡ buffer.entry.ghost_name }
        ensures bytes { result.buffer.now ≡ buffer.old }
        ensures front { result.at ≡ 0 }
    {
        BitWriter { buffer, at: 0 }
    }

    /// Writes the field `value` of `width` bits.
    // Why a width and a value are no type of their own: see `bits::fields`.
    pub(crate) fn put(&mut self, width: usize, value: u32)
        requires narrow { width ≤ 16 }
        requires fits { value < 2 ^ width }
        requires room { Room self.old ((width, value) ∷ []) }
        ensures { Writes self.old self.new ((width, value) ∷ []) }
    {
        put(self.buffer, self.at, width, value);
        self.at += width;
    }
}
