//! Reading properties.
ghost use Rattle.std.specs.Prelude.{◌≡◌, Ok, Err, MatchResult};
ghost use Rattle.property.specs.Meaning.{meaning};
ghost use Rattle.property.specs.Reading.{answer};

use crate::refused_property::RefusedProperty;
use property::Property;

/// The property that a text spells; of a text that spells none, what is wrong with it.
pub fn accepted_property(text: &str) -> Result<Property, RefusedProperty<'_>>
    ensures { MatchResult result (λ p. answer text.now ≡ Ok (meaning p)) (λ e. answer text.now ≡ Err e.refusal) }
{
    Property::read(text.as_bytes()).map_err(|refusal| RefusedProperty { text, refusal })
}
