// The words of a line, handed out one by one.
ghost use Rattle.std.specs.Prelude.{◌≡◌, ◌==◌, drop, position, vec_items, ok_or};
ghost use Rattle.std.specs.Iterator.{YieldsFirstRef, item_count};
ghost use Rattle.script.specs.declared.error.ParseError.TheVariants.{Unknown};
ghost use Rattle.script.specs.Words.{words, first};
ghost use Rattle.script.specs.Reader.{ahead, Says, only_number, only_place};
ghost use Rattle.script.specs.Values.{given, number_in, numbers_in, hex_in};
ghost use Rattle.script.specs.Commands.{end};

use crate::error::ParseError;
use crate::values;
use std::alloc::Global;

// What is left of a line after the words handed out; nothing once the last word is out. The library's `split` would carry
// its closure's type into each function that takes words.
#[derive(Drop)]
pub struct Words<'a> {
    rest: Option<&'a [u8]>,
}

// Where the first space is.
fn first_space(line: &[u8]) -> Option<usize>
    ensures { result ≡ position (λ c. c == 32) line.now }
{
    line.iter().position(|c| *c == b' ')
}

impl<'a> Iterator for Words<'a> {
    type Item = &'a [u8];

    ghost next_gives = { YieldsFirstRef ahead };

    ghost remaining = { item_count ahead };

    fn next(&mut self) -> Option<&'a [u8]> {
        let line = self.rest?;
        match first_space(line) {
            Some(n) => {
                self.rest = Some(&line[n + 1..]);
                Some(&line[..n])
            }
            None => {
                self.rest = None;
                Some(line)
            }
        }
    }
}

impl<'a> Words<'a> {
    pub fn new(line: &'a [u8]) -> Words<'a>
        ensures { ahead result ≡ words line.now }
    {
        Words { rest: Some(line) }
    }

    // The next word, which is to be a number.
    pub fn number(&mut self) -> Result<u32, ParseError>
        ensures value { result ≡ ok_or (given (first (ahead self.old)) number_in) Unknown }
        ensures rest { ahead self.new ≡ drop 1 (ahead self.old) }
    {
        self.next()
            .and_then(values::number)
            .ok_or(ParseError::Unknown)
    }

    // The bytes that the next word writes.
    pub fn hex(&mut self, heap: Global) -> Result<Vec<u8>, ParseError>
        ensures value { Says vec_items result (given (first (ahead self.old)) hex_in) }
        ensures rest { ahead self.new ≡ drop 1 (ahead self.old) }
    {
        values::hex(heap, self.next().ok_or(ParseError::Unknown)?)
    }

    // All words that are left, each of which is to be a number.
    pub fn numbers(self, heap: Global) -> Result<Vec<u32>, ParseError>
        ensures { Says vec_items result (numbers_in (ahead self.entry)) }
    {
        let mut numbers = Vec::new(heap);
        for word in self {
            numbers.push(values::number(word).ok_or(ParseError::Unknown)?)?;
        }
        Ok(numbers)
    }

    // Fails where a word is left.
    pub fn end(mut self) -> Result<(), ParseError>
        ensures { result ≡ ok_or (end tt (ahead self.entry)) Unknown }
    {
        match self.next() {
            Some(_) => Err(ParseError::Unknown),
            None => Ok(()),
        }
    }

    // The one word that is left, which is to be a number.
    pub fn only_number(mut self) -> Result<u32, ParseError>
        ensures { result ≡ ok_or (only_number (ahead self.entry)) Unknown }
    {
        let n = self.number()?;
        self.end()?;
        Ok(n)
    }

    // The two words that are left, which are to be a drive and a block.
    pub fn only_place(mut self) -> Result<(u32, u32), ParseError>
        ensures { result ≡ ok_or (only_place (ahead self.entry)) Unknown }
    {
        let drive = self.number()?;
        let block = self.number()?;
        self.end()?;
        Ok((drive, block))
    }
}
