//! What bytes begin with: spaces, and digits.
ghost use Rattle.std.specs.Prelude.{◌≡◌, ◌≤◌, ◌==◌, length, take};
ghost use Rattle.std.specs.Char.{is_ascii_digit};
ghost use Rattle.std.specs.List.{prefix_len};
ghost use Rattle.property_text.specs.Tokens.{digits, worth};

/// One more than a number may have: enough to know that it has too many.
const DIGITS_LOOKED_AT: usize = 6;

/// How many spaces the bytes begin with.
// It and `digit_count` are two, since the check does not find the value of such a chain where its count is used, in `go_past` and `leading_digits`.
pub(crate) fn space_count(bytes: &[u8]) -> usize
    ensures value { result ≡ prefix_len (λ b. b == 32) bytes.now }
    ensures within { result ≤ length bytes.now }
{
    bytes.iter().take_while(|byte| **byte == b' ').count()
}

/// How many digits the bytes begin with.
fn digit_count(bytes: &[u8]) -> usize
    ensures value { result ≡ prefix_len is_ascii_digit bytes.now }
    ensures within { result ≤ length bytes.now }
{
    bytes
        .iter()
        .take_while(|byte| byte.is_ascii_digit())
        .count()
}

/// The digits that the bytes begin with, or the first six of them.
pub(crate) fn leading_digits(bytes: &[u8]) -> &[u8]
    ensures digits { digits result.now ≡ take 6 (digits bytes.now) }
    ensures all { prefix_len is_ascii_digit result.now ≡ length result.now }
    ensures within { length result.now ≤ length bytes.now }
{
    let front = &bytes[..DIGITS_LOOKED_AT.min(bytes.len())];
    &front[..digit_count(front)]
}

/// The number that so many digits write.
pub(crate) fn number_written(bytes: &[u8]) -> u32
    requires all { prefix_len is_ascii_digit bytes.now ≡ length bytes.now }
    requires few { length bytes.now ≤ 5 }
    ensures { result ≡ worth 0 (digits bytes.now) }
{
    let mut value = 0;
    for byte in bytes {
        value = value * 10 + (byte - b'0') as u32;
    }
    value
}
