//! What is wrong with the text of a property, in words.
use property::PropertyFault;
use refusal::{Fault, Refusal};
use std::error::Error;
use std::fmt;

/// Of a text that is too long no more is shown than the first byte too many.
const MOST_SHOWN: usize = 1_025;

/// A text that is no property, told to a machine in a line, and to a person by the text, a mark under the place, and a sentence.
#[derive(Clone, Copy, Debug)]
pub struct RefusedProperty<'a> {
    pub text: &'a str,
    pub refusal: Refusal<PropertyFault>,
}

/// The byte as it is, if it takes up one column, else a `?`, so that the mark stands under its place.
fn column(byte: u8) -> char {
    match byte {
        b' '..=b'~' => byte as char,
        _ => '?',
    }
}

impl fmt::Display for RefusedProperty<'_> {
    fn fmt<W: fmt::Write>(&self, f: &mut fmt::Formatter<W>) -> fmt::Result {
        let Refusal { fault, place } = self.refusal;
        let number = fault.number();
        writeln!(f, "REFUSED PROPERTY {number} {place}")?;
        for byte in self.text.bytes().take(MOST_SHOWN) {
            f.write_char(column(byte))?;
        }
        write!(f, "\n{:place$}^\n{fault}", "")
    }
}

impl Error for RefusedProperty<'_> {}
