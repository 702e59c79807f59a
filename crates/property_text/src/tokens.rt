//! The tokens of a text, one by one from its front.
ghost use Rattle.std.specs.Prelude.{◌≤◌, length};

use crate::bytes::{leading_digits, number_written, space_count};
use crate::fault::PropertyFault;
use refusal::{Refusal, demand};

/// What is left of a text.
#[derive(Drop)]
pub struct Tokens<'a> {
    text: &'a [u8],
    at: usize,
    ghost within: { at ≤ length text.now },
}

impl<'a> Tokens<'a> {
    ghost use Rattle.std.specs.Prelude.{◌≡◌, ◌+◌, ◌<◌, ◌==◌, drop, cond, nat_eq, Ok, OnOk, slice_index};
    ghost use Rattle.std.specs.List.{slice_get, starts_with};
    ghost use Rattle.std.specs.Option.{unwrap_or};
    ghost use Rattle.property_text.specs.Faults.{ended, refused, up_to};
    ghost use Rattle.property_text.specs.Reading.{Reads};
    ghost use Rattle.property_text.specs.Tokens.{past, byte as byte-token, at_most, number};

    /// From the first token of the text on.
    // Not inlined: LLVM would carry all that the reader does later through the loop over the spaces in front.
    #[inline(never)]
    pub fn new(text: &'a [u8]) -> Tokens<'a>
        ensures text { result.text.now ≡ text.now }
        ensures at { result.at ≡ past text.now 0 }
    {
        let mut tokens = Tokens { text, at: 0 };
        tokens.go_past(0);
        tokens
    }

    /// Where the next token begins, or should.
    pub fn place(&self) -> usize
        ensures { result ≡ self.now.at }
    {
        self.at
    }

    /// The byte with which the next token begins; none at the end.
    pub fn byte(&self) -> Option<u8>
        ensures value { result ≡ slice_get self.now.text.now self.now.at }
        ensures stands { slice_index self.now.text.now self.now.at ≡ unwrap_or result 0 }
    {
        self.text.get(self.at).copied()
    }

    pub fn is_at_end(&self) -> bool
        ensures { result ≡ (self.now.at == length self.now.text.now) }
    {
        self.at == self.text.len()
    }

    /// What is wrong with the next token.
    pub fn refusal(&self, fault: PropertyFault) -> Refusal<PropertyFault>
        ensures { result ≡ record { fault = fault; place = self.now.at } }
    {
        Refusal {
            fault,
            place: self.at,
        }
    }

    /// Goes past the next byte, and past the spaces behind it; stays at the end.
    pub fn advance(&mut self)
        ensures at { self.old.at < length self.old.text.now → self.new.at ≡ past self.old.text.now (self.old.at + 1) }
        ensures later { self.old.at < length self.old.text.now → self.old.at < self.new.at }
        ensures end { self.old.at ≡ length self.old.text.now → self.new.at ≡ self.old.at }
        ensures text { self.new.text ≡ self.old.text }
    {
        if self.at < self.text.len() {
            self.go_past(1);
        }
    }

    /// Goes past the next `count` bytes, and past the spaces behind them.
    #[tactic(auto, unfolding(crate::specs::Tokens::past))]
    fn go_past(&mut self, count: usize)
        requires { self.old.at + count ≤ length self.old.text.now }
        ensures at { self.new.at ≡ past self.old.text.now (self.old.at + count) }
        ensures later { self.old.at + count ≤ self.new.at }
        ensures text { self.new.text ≡ self.old.text }
    {
        self.at += count;
        self.at += space_count(self.rest());
    }

    /// The text from the next token on.
    fn rest(&self) -> &'a [u8]
        ensures { result.now ≡ drop self.now.at self.now.text.now }
    {
        &self.text[self.at..]
    }

    /// Reads a token of these bytes.
    fn read_token(&mut self, token: &[u8]) -> Result<(), Refusal<PropertyFault>>
        ensures { Reads self.old self.new (ended self.new.at result) (cond (starts_with nat_eq (drop self.old.at self.old.text.now) token.now)
            (Ok (past self.old.text.now (self.old.at + length token.now)))
            (refused PropertyFault.TokenMissing self.old.at)) }
    {
        demand(
            self.rest().starts_with(token),
            PropertyFault::TokenMissing,
            self.at,
        )?;
        self.go_past(token.len());
        Ok(())
    }

    /// Reads a token of one byte.
    #[tactic(auto, unfolding(crate::specs::Tokens::past))]
    pub fn read_byte(&mut self, token: u8) -> Result<(), Refusal<PropertyFault>>
        requires { 0 < token }
        ensures read { Reads self.old self.new (ended self.new.at result) (byte-token self.old.text.now token self.old.at) }
        ensures later { OnOk result (self.old.at < self.new.at) }
    {
        self.read_token(&[token])
    }

    /// Reads `<=`.
    pub fn read_at_most(&mut self) -> Result<(), Refusal<PropertyFault>>
        ensures { Reads self.old self.new (ended self.new.at result) (at_most self.old.text.now self.old.at) }
    {
        self.read_token(b"<=")
    }

    /// Reads a number of at most five digits, with no needless 0 in front.
    pub fn read_number(&mut self) -> Result<u32, Refusal<PropertyFault>>
        ensures { Reads self.old self.new (up_to self.new.at result) (number self.old.text.now self.old.at) }
    {
        let written = leading_digits(self.rest());
        demand(!written.is_empty(), PropertyFault::TokenMissing, self.at)?;
        demand(written.len() <= 5, PropertyFault::BadNumber, self.at)?;
        demand(
            written.len() == 1 || written[0] != b'0',
            PropertyFault::BadNumber,
            self.at,
        )?;
        self.go_past(written.len());
        Ok(number_written(written))
    }
}
