//! A reader of formulas, and how it reads those that need no others.
ghost use Rattle.std.specs.Prelude.{◌≡◌, ◌+◌, ◌<◌, ◌≤◌, true, [], ◌∷◌, length, IfOk, MatchResult};
ghost use Rattle.property_parts.specs.Formula.{Formula, parts_of, root};
ghost use Rattle.property_parts.specs.Parts.{names_earlier, most_parts};
ghost use Rattle.property_parts.specs.Table.{Filled};
ghost use Rattle.property_text.specs.Tokens.{past};
ghost use Rattle.formula_reader.specs.Reading.{lettered, single, lone_letter, negated};
ghost use Rattle.formula_reader.specs.Answers.{Told, Answers};

use property_parts::{Part, PartTable};
use property_text::{PropertyFault, Tokens};
use refusal::Refusal;

/// Reads formulas from a text, and puts their parts into a table.
#[derive(Drop)]
pub struct FormulaReader<'a> {
    pub tokens: Tokens<'a>,
    pub parts: PartTable,
}

impl<'a> FormulaReader<'a> {
    /// From the first token of the text on.
    pub fn new(text: &'a [u8]) -> FormulaReader<'a>
        ensures text { result.tokens.text.now ≡ text.now }
        ensures at { result.tokens.at ≡ past text.now 0 }
        ensures empty { result.parts.count ≡ 0 }
    {
        FormulaReader {
            tokens: Tokens::new(text),
            parts: PartTable::new(),
        }
    }

    /// Fills a part whose token stands at `place`, and answers its number.
    pub(crate) fn fill(&mut self, part: Part, place: usize) -> Result<u8, Refusal<PropertyFault>>
        requires { names_earlier part self.old.parts.count ≡ true }
        ensures filled { MatchResult result
            (λ n. Filled self.old.parts part self.new.parts n)
            (λ e. (self.old.parts.count ≡ most_parts) × (e ≡ record { fault = PropertyFault.TooManyParts; place = place })) }
        ensures tokens { self.new.tokens ≡ self.old.tokens }
    {
        self.parts.fill(part).ok_or(Refusal {
            fault: PropertyFault::TooManyParts,
            place,
        })
    }

    // Three functions require that a token stands here: a type that carried the fact would be made and used up in one line.

    /// Reads the one token of a formula that has no other part than this.
    pub(crate) fn read_single(&mut self, part: Part) -> Result<u8, Refusal<PropertyFault>>
        requires inside { self.old.tokens.at < length self.old.tokens.text.now }
        requires earlier { names_earlier part self.old.parts.count ≡ true }
        ensures read { (a : Formula) → root a ≡ 0 → parts_of self.old.parts.count a ≡ part ∷ []
            → Told (single self.old.tokens.text.now most_parts a) self.old self.new result }
        ensures later { IfOk result (λ _. self.old.tokens.at < self.new.tokens.at) }
        ensures text { self.new.tokens.text ≡ self.old.tokens.text }
    {
        let place = self.tokens.place();
        let number = self.fill(part, place)?;
        self.tokens.advance();
        Ok(number)
    }

    /// Reads a letter.
    pub(crate) fn read_letter(&mut self) -> Result<u8, Refusal<PropertyFault>>
        ensures { Answers (lone_letter self.old.tokens.text.now most_parts) self.old self.new result }
    {
        match self.tokens.byte() {
            Some(letter @ b'a'..=b'p') => self.read_single(Part::Letter(letter - b'a')),
            _ => Err(self.tokens.refusal(PropertyFault::TokenMissing)),
        }
    }

    /// Reads `!` and a letter.
    pub(crate) fn read_negated(&mut self) -> Result<u8, Refusal<PropertyFault>>
        requires { self.old.tokens.at < length self.old.tokens.text.now }
        ensures { let text = self.old.tokens.text.now in Answers (λ n i. negated text most_parts n i (past text (i + 1))) self.old self.new result }
    {
        let place = self.tokens.place();
        self.tokens.advance();
        let letter = self.read_letter()?;
        self.fill(Part::Not(letter), place)
    }
}
