//! `lister property TEXT`
use crate::command_error::CommandError;
use inputs::accepted_property;
use property::Ceiling;

pub(crate) fn tell_property<'a>(rt: &impl Print, text: &'a str) -> Result<(), CommandError<'a>> {
    let property = accepted_property(text)?;
    let Ceiling { upper, lower } = property.ceiling();
    let hops = property.hop_bound();
    let parts = property.part_count();
    println!(rt; "PROPERTY ceiling {upper}/{lower} hops {hops} parts {parts}\n{property}")?;
    println!(rt;
        "Of all runs at most {upper} in {lower} may reach the goal within {hops} moves through the ground."
    )?;
    Ok(())
}
