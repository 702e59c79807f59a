//! The check of a packed file, from its front.
ghost use Rattle.std.specs.Prelude.{◌≡◌, take, Err, MatchResult};
ghost use Rattle.refusal.specs.Demands.{told};
ghost use Rattle.packed_file.specs.Format.{marked};
ghost use Rattle.packed_file.specs.Faults.{mark_demands, body_demands, judged, deciding_bytes};
ghost use Rattle.packed_file.specs.Judgement.{Judges, Faultless};

use crate::fault::FileFault;
use crate::fields::Fields;
use refusal::Refusal;

/// What follows the mark.
// The mark's bytes are told apart by a slice pattern, whose arms have no test that could be handed to `demand`.
fn after_mark(bytes: &[u8]) -> Result<&[u8], Refusal<FileFault>>
    ensures { MatchResult result
        (λ body. bytes.now ≡ marked body.now)
        (λ f. Err f ≡ told {A = Unit {0}} (mark_demands bytes.now) tt) }
{
    match bytes {
        [0xFE, 0xFF, body @ ..] => Ok(body),
        [0xFF, 0xFE, ..] => Err(Refusal {
            fault: FileFault::ReversedMark,
            place: 0,
        }),
        _ => Err(Refusal {
            fault: FileFault::NoMark,
            place: 0,
        }),
    }
}

/// Everything that follows the mark.
fn check_body(body: &[u8]) -> Result<(), Refusal<FileFault>>
    ensures { result ≡ told (body_demands body.now) tt }
{
    let mut fields = Fields::new(body);
    let header = fields.header()?;
    fields.rows(header)
}

/// The bytes after the mark of a file without a fault; else its first fault from the front.
pub fn faultless_body(bytes: &[u8]) -> Result<&[u8], Refusal<FileFault>>
    ensures { MatchResult result
        (λ body. (bytes.now ≡ marked body.now) × Faultless body.now)
        (λ f. Err f ≡ judged bytes.now) }
{
    let body = after_mark(bytes)?;
    check_body(body)?;
    Ok(body)
}

/// This many bytes from the front of a file decide what the check answers, however long the file is.
pub const DECIDING_BYTES: usize = 16_776;

/// Whether the file is a chain's; if not, its first fault from the front.
pub fn check(bytes: &[u8]) -> Result<(), Refusal<FileFault>>
    ensures value { result ≡ judged bytes.now }
    ensures judges { Judges bytes.now result }
    ensures front { result ≡ judged (take deciding_bytes bytes.now) }
{
    faultless_body(bytes)?;
    Ok(())
}
