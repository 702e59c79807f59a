//! State, term and factor, each reading with the others. The bytes that are left of the text fall from call to call.
ghost use Rattle.std.specs.Prelude.{◌≡◌, ◌<◌, ◌≤◌, length};
ghost use Rattle.property_parts.specs.Parts.{most_parts};
ghost use Rattle.formula_reader.specs.Reading.{state, term, factor, nested, item, joined};
ghost use Rattle.formula_reader.specs.Answers.{Answers};

use crate::operator::Operator;
use crate::reader::FormulaReader;
use property_parts::Part;
use property_text::PropertyFault;
use refusal::{Refusal, demand};

impl FormulaReader<'_> {
    /// Reads terms joined by `|`, where `deeper` more parentheses may be open, and answers the number of their part.
    #[cycle(formula)]
    pub fn read_state(&mut self, deeper: usize) -> Result<u8, Refusal<PropertyFault>>
        ensures { Answers (state self.old.tokens.text.now most_parts deeper) self.old self.new result }
    {
        self.read_joined(Operator::Or, deeper)
    }

    /// Reads factors joined by `&`.
    #[cycle(formula)]
    fn read_term(&mut self, deeper: usize) -> Result<u8, Refusal<PropertyFault>>
        ensures { Answers (term self.old.tokens.text.now most_parts deeper) self.old self.new result }
    {
        self.read_joined(Operator::And, deeper)
    }

    /// Reads items joined by the operator, grouped from the left.
    #[cycle(formula)]
    fn read_joined(
        &mut self,
        operator: Operator,
        deeper: usize,
    ) -> Result<u8, Refusal<PropertyFault>>
        ensures { let text = self.old.tokens.text.now in Answers (joined text most_parts operator (item text most_parts operator deeper)) self.old self.new result }
    {
        let mut left = self.read_item(operator, deeper)?;
        while self.tokens.byte() == Some(operator.sign()) {
            let place = self.tokens.place();
            self.tokens.advance();
            let right = self.read_item(operator, deeper)?;
            left = self.fill(operator.part(left, right), place)?;
        }
        Ok(left)
    }

    // A match on the operator, and no closure that `read_joined` is handed: the three readers call each other in a cycle, which is to show.

    /// Reads what the operator joins.
    #[cycle(formula)]
    fn read_item(&mut self, operator: Operator, deeper: usize) -> Result<u8, Refusal<PropertyFault>>
        ensures { Answers (item self.old.tokens.text.now most_parts operator deeper) self.old self.new result }
    {
        match operator {
            Operator::And => self.read_factor(deeper),
            Operator::Or => self.read_term(deeper),
        }
    }

    /// Reads a letter, `!` and a letter, `T`, `F`, or a state formula in parentheses.
    #[cycle(formula)]
    fn read_factor(&mut self, deeper: usize) -> Result<u8, Refusal<PropertyFault>>
        ensures { Answers (factor self.old.tokens.text.now most_parts deeper) self.old self.new result }
    {
        match self.tokens.byte() {
            Some(b'!') => self.read_negated(),
            Some(b'T') => self.read_single(Part::True),
            Some(b'F') => self.read_single(Part::False),
            Some(b'(') => self.read_nested(deeper),
            _ => self.read_letter(),
        }
    }

    /// Reads a state formula between parentheses, the first of which stands here.
    #[cycle(formula)]
    fn read_nested(&mut self, deeper: usize) -> Result<u8, Refusal<PropertyFault>>
        requires { self.old.tokens.at < length self.old.tokens.text.now }
        ensures { Answers (nested self.old.tokens.text.now most_parts deeper) self.old self.new result }
    {
        demand(deeper > 0, PropertyFault::TooDeep, self.tokens.place())?;
        self.tokens.advance();
        let number = self.read_state(deeper - 1)?;
        self.tokens.read_byte(b')')?;
        Ok(number)
    }
}
