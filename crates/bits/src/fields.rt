//! Fields of bits in a slice of bytes, the most significant bit first.
ghost use Rattle.std.specs.Prelude.{◌≡◌, ◌+◌, ◌*◌, ◌^◌, ◌<◌, ◌≤◌, [], ◌∷◌, length, slice_index};
ghost use Rattle.bits.specs.Fields.{field};
ghost use Rattle.bits.specs.Wrote.{Stored, Wrote};

// A place goes with the bytes, since fields are read anywhere; who reads or writes from the front has a struct for both.
// A width and a value go on their own: as a struct they would owe the same two bounds where it is made.

/// The byte at a place, or 0 past the end.
// A number and no option: a field's word takes in what stands behind it, and 0 is what does past the end.
fn byte_or_zero(bytes: &[u8], place: usize) -> u8
    ensures { result ≡ slice_index bytes.now place }
{
    bytes.get(place).copied().unwrap_or(0)
}

/// The number that the `width` bits from the bit `at` on write.
pub fn get(bytes: &[u8], at: usize, width: usize) -> u32
    requires narrow { width ≤ 16 }
    requires within { at + width ≤ 8 * length bytes.now }
    requires near { at < 2 ^ 40 }
    ensures value { result ≡ field bytes.now at width }
    ensures bound { result < 2 ^ width }
{
    let first = at / 8;
    let word = u32::from_be_bytes([
        0,
        byte_or_zero(bytes, first),
        byte_or_zero(bytes, first + 1),
        byte_or_zero(bytes, first + 2),
    ]);
    (word >> (24 - at % 8 - width)) % (1u32 << width)
}

/// The bits of `head`, then `value` in `width` bits, then `fill` zero bits, as one number.
fn joined(head: u32, width: usize, value: u32, fill: usize) -> u32
    requires short { head < 2 ^ 8 }
    requires narrow { width ≤ 16 }
    requires fits { value < 2 ^ width }
    requires few { fill < 8 }
    ensures { result ≡ (head * 2 ^ width + value) * 2 ^ fill }
{
    ((head << width) + value) << fill
}

/// Writes the `count` lowest bytes of `word` from the byte `first` on, the highest of them first.
fn store(bytes: &mut [u8], first: usize, count: usize, word: u32)
    requires few { count ≤ 3 }
    requires within { first + count ≤ length bytes.old }
    ensures { Stored bytes.old bytes.new first count word }
{
    let part = &mut bytes[first..first + count];
    let [_, high, middle, low] = word.to_be_bytes();
    match count {
        0 => {}
        1 => part.copy_from_slice(&[low]),
        2 => part.copy_from_slice(&[middle, low]),
        _ => part.copy_from_slice(&[high, middle, low]),
    }
}

/// Writes the field `value` of `width` bits at the bit `at`. The bits after it in its last byte become 0.
pub fn put(bytes: &mut [u8], at: usize, width: usize, value: u32)
    requires narrow { width ≤ 16 }
    requires fits { value < 2 ^ width }
    requires within { at + width ≤ 8 * length bytes.old }
    requires near { at < 2 ^ 40 }
    ensures { Wrote bytes.old bytes.new at (at + width) ((width, value) ∷ []) }
{
    let first = at / 8;
    let used = at % 8;
    let count = (used + width).div_ceil(8);
    let head = byte_or_zero(bytes, first) as u32 >> (8 - used);
    let word = joined(head, width, value, 8 * count - used - width);
    store(bytes, first, count, word);
}
