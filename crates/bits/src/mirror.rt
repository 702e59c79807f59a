//! The bits of a number in the other order.
ghost use Rattle.std.specs.Prelude.{◌≡◌, ◌^◌, ◌<◌};
ghost use Rattle.bits.specs.Mirror.{mirrored};

/// The sixteen bits in the other order: the lowest becomes the highest.
pub fn mirror(bits: u16) -> u16
    ensures { result ≡ mirrored 16 bits }
{
    bits.reverse_bits()
}
