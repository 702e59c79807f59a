//! The reader of a property's text.
ghost use Rattle.std.specs.Prelude.{◌≡◌, ◌≤◌, IfOk, Ok, Err, MatchResult};
ghost use Rattle.property_text.specs.Faults.{up_to};
ghost use Rattle.property_text.specs.Reading.{Reads};
ghost use Rattle.property.specs.Limits.{most_lower, most_hops};
ghost use Rattle.property.specs.Reading.{lower as lower-number, hops as hops-number, opening, until, closing, answer};
ghost use Rattle.property.specs.Meaning.{meaning};
ghost use Rattle.property.specs.Judgement.{Judges};

use crate::ceiling::Ceiling;
use crate::limits::{MOST_BYTES, MOST_HOPS, MOST_LOWER, MOST_OPEN};
use crate::property::Property;
use formula_reader::FormulaReader;
use property_parts::PartTable;
use property_text::{PropertyFault, Tokens};
use refusal::{Refusal, demand};

/// Reads the number under the line of a ceiling, which is not 0, within its limit, and not less than the one above.
fn read_lower(tokens: &mut Tokens, upper: u32) -> Result<u32, Refusal<PropertyFault>>
    ensures bound { IfOk result (λ lower. (1 ≤ lower) × (lower ≤ most_lower) × (upper ≤ lower)) }
    ensures read { Reads tokens.old tokens.new (up_to tokens.new.at result) (lower-number tokens.old.text.now upper tokens.old.at) }
{
    let place = tokens.place();
    let lower = tokens.read_number()?;
    demand(
        1 <= lower && lower <= MOST_LOWER && upper <= lower,
        PropertyFault::BadCeiling,
        place,
    )?;
    Ok(lower)
}

/// Reads a hop bound.
fn read_hops(tokens: &mut Tokens) -> Result<u32, Refusal<PropertyFault>>
    ensures bound { IfOk result (λ hops. hops ≤ most_hops) }
    ensures read { Reads tokens.old tokens.new (up_to tokens.new.at result) (hops-number tokens.old.text.now tokens.old.at) }
{
    let place = tokens.place();
    let hops = tokens.read_number()?;
    demand(hops <= MOST_HOPS, PropertyFault::TooManyHops, place)?;
    Ok(hops)
}

/// Reads `P <= number / number [`.
fn read_opening(tokens: &mut Tokens) -> Result<Ceiling, Refusal<PropertyFault>>
    ensures bound { IfOk result (λ ceiling. (1 ≤ ceiling.lower) × (ceiling.lower ≤ most_lower) × (ceiling.upper ≤ ceiling.lower)) }
    ensures read { Reads tokens.old tokens.new (up_to tokens.new.at result) (opening tokens.old.text.now tokens.old.at) }
{
    tokens.read_byte(b'P')?;
    tokens.read_at_most()?;
    let upper = tokens.read_number()?;
    tokens.read_byte(b'/')?;
    let lower = read_lower(tokens, upper)?;
    tokens.read_byte(b'[')?;
    Ok(Ceiling { upper, lower })
}

/// Reads `U <= number`.
fn read_until(tokens: &mut Tokens) -> Result<u32, Refusal<PropertyFault>>
    ensures bound { IfOk result (λ hops. hops ≤ most_hops) }
    ensures read { Reads tokens.old tokens.new (up_to tokens.new.at result) (until tokens.old.text.now tokens.old.at) }
{
    tokens.read_byte(b'U')?;
    tokens.read_at_most()?;
    read_hops(tokens)
}

/// Reads `]`, behind which the text ends.
fn read_closing(tokens: &mut Tokens) -> Result<(), Refusal<PropertyFault>>
    ensures { result ≡ closing tokens.old.text.now tokens.old.at }
{
    tokens.read_byte(b']')?;
    demand(
        tokens.is_at_end(),
        PropertyFault::TokenMissing,
        tokens.place(),
    )
}

impl Property {
    /// Reads a property; a text that is none is refused for the first thing that is wrong with it, from the front.
    pub fn read(text: &[u8]) -> Result<Property, Refusal<PropertyFault>>
        ensures value { MatchResult result (λ p. answer text.now ≡ Ok (meaning p)) (λ e. answer text.now ≡ Err e) }
        ensures judges { Judges text.now result }
    {
        demand(
            text.len() <= MOST_BYTES,
            PropertyFault::TextTooLong,
            MOST_BYTES,
        )?;
        let mut tokens = Tokens::new(text);
        let ceiling = read_opening(&mut tokens)?;
        let mut reader = FormulaReader {
            tokens,
            parts: PartTable::new(),
        };
        let ground_part = reader.read_state(MOST_OPEN)?;
        let hop_bound = read_until(&mut reader.tokens)?;
        let goal_part = reader.read_state(MOST_OPEN)?;
        read_closing(&mut reader.tokens)?;
        Ok(Property {
            ceiling,
            hop_bound,
            ground_part,
            goal_part,
            parts: reader.parts,
        })
    }
}
