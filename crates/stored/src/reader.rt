// What is left to read of a stored form (RULES, Stored form): each method takes one field from its front. Where the
// bytes end before the field does, they are cut short, and the reader is not used again.
ghost use Rattle.std.specs.Prelude.{◌≡◌, ◌*◌, ◌==◌, ◌≤◌, IfOk, Ok, Err, if◌then◌else◌, length};
ghost use Rattle.record.specs.Wanted.{counted_in};
ghost use Rattle.stored.specs.Sections.{byte, bytes, number, section_of, text, texts};
ghost use Rattle.stored.specs.Reads.{Reads};
ghost use Rattle.stored.specs.declared.error.LoadError.TheVariants.{LeftOver};

use crate::error::LoadError;
use numbers::highest;
use setup::names::CountedNames;
use std::marker::Model;
use words::texts;

/// The bytes that are left to read.
#[derive(Drop)]
pub struct FormReader<'a> {
    rest: &'a [u8],
}

impl<'a> Model for FormReader<'a> {
    ghost use Rattle.std.specs.Prelude.{ℕ, List};

    ghost Value = { List ℕ };

    ghost view = { λ r. r.rest.now };
}

impl<'a> FormReader<'a> {
    /// All of the bytes are left.
    pub fn new(bytes: &'a [u8]) -> FormReader<'a>
        ensures { result ≡ bytes.now }
    {
        FormReader { rest: bytes }
    }

    /// Nothing is left over.
    pub fn end(&self) -> Result<(), LoadError>
        ensures { result ≡ (if length self.now == 0 then Ok tt else Err LeftOver) }
    {
        if !self.rest.is_empty() {
            return Err(LoadError::LeftOver);
        }
        Ok(())
    }

    /// One byte.
    #[tactic(auto, unfolding(crate::specs::Sections::byte))]
    pub fn byte(&mut self) -> Result<u8, LoadError>
        ensures { Reads (λ b. b) result self.new (byte self.old) }
    {
        match self.rest {
            [] => Err(LoadError::CutShort),
            [b, rest @ ..] => {
                self.rest = rest;
                Ok(*b)
            }
        }
    }

    /// So many bytes.
    #[tactic(auto, unfolding(crate::specs::Sections::bytes))]
    pub fn bytes(&mut self, count: usize) -> Result<&'a [u8], LoadError>
        ensures read { Reads (λ s. s.now) result self.new (bytes count self.old) }
        ensures long { IfOk result (λ s. length s.now ≡ count) }
    {
        if self.rest.len() < count {
            return Err(LoadError::CutShort);
        }
        let (front, rest) = self.rest.split_at(count);
        self.rest = rest;
        Ok(front)
    }

    /// A number of two bytes, the highest first.
    #[tactic(auto, unfolding(crate::specs::Sections::number))]
    pub fn number(&mut self) -> Result<u32, LoadError>
        ensures { Reads (λ n. n) result self.new (number 2 self.old) }
    {
        let s = self.bytes(2)?;
        Ok(highest::two_at(s, 0))
    }

    /// Items of so many bytes each, at most 4, after their count.
    #[tactic(auto, unfolding(crate::specs::Sections::section_of))]
    pub fn section(&mut self, width: usize) -> Result<&'a [u8], LoadError>
        requires { width ≤ 4 }
        ensures read { Reads (λ s. s.now) result self.new (section_of width self.old) }
        ensures bound { IfOk result (λ s. length s.now ≤ 255 * width) }
    {
        let n = self.byte()?;
        let s = self.bytes(width * n as usize)?;
        Ok(s)
    }

    /// A text.
    pub fn text(&mut self) -> Result<&'a [u8], LoadError>
        ensures { Reads (λ s. s.now) result self.new (text self.old) }
    {
        self.section(1)
    }

    /// So many names of inputs, one after the other, each with its count before it.
    #[tactic(auto, using(crate::proofs::TextsRead::texts_read))]
    pub fn names(&mut self, count: usize) -> Result<CountedNames<'a>, LoadError>
        ensures { Reads (λ s. counted_in s.count s.bytes.now) result self.new (texts count self.old) }
    {
        let whole = self.rest;
        let mut are_named = true;
        for _ in 0..count {
            let name = self.text()?;
            are_named = are_named & texts::is_input_name(name);
        }
        Ok(CountedNames {
            bytes: &whole[..whole.len() - self.rest.len()],
            count: count,
            are_named,
        })
    }
}
