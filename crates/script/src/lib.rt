// The script of the program `depot`: its lines, taken apart into commands, and its answers as text.
//
// A line is one command: words parted by single spaces, the first of them the command's name. `forms` is the grammar:
// each name with what has to follow it. A line of no such form is unknown, and parses as none. Want of memory is the
// only error.
//
// A command more is a variant here with its clause in `said`, an arm in `named` that reads its words, and a line in
// `forms`.
#![tactic(auto)]

ghost use Rattle.std.specs.Prelude.{◌≡◌, IfOk};
ghost use Rattle.std.specs.Option.{option_map};
ghost use Rattle.script.specs.Reader.{ahead, Says};
ghost use Rattle.script.specs.Commands.{said, rack_form, poke_form, forms, form_of, command_in};

use error::ParseError;
use std::alloc::{AllocError, Global};
use words::Words;

pub mod answers;
mod error;
mod values;
mod words;

#[derive(Debug, PartialEq, Eq, Drop)]
pub enum Command {
    // a fresh rack of drives of these sizes, with so many strokes left
    Rack {
        left: u32,
        sizes: Vec<u32>,
    },
    Format {
        pages: u32,
    },
    // how many strokes are left
    Left,
    // what a block holds
    Block {
        drive: u32,
        block: u32,
    },
    // these bytes over those of a block, from `at` on
    Poke {
        drive: u32,
        block: u32,
        at: u32,
        bytes: Vec<u8>,
    },
    // makes a block unreadable
    Tear {
        drive: u32,
        block: u32,
    },
    // a power cut, with so many strokes left after it
    Stop {
        left: u32,
    },
}

// rack LEFT SIZE SIZE ..
fn rack(heap: Global, mut words: Words<'_>) -> Result<Command, ParseError>
    ensures { Says said result (rack_form (ahead words.entry)) }
{
    let left = words.number()?;
    let sizes = words.numbers(heap)?;
    Ok(Command::Rack { left, sizes })
}

// poke D B AT HEX
fn poke(heap: Global, mut words: Words<'_>) -> Result<Command, ParseError>
    ensures { Says said result (poke_form (ahead words.entry)) }
{
    let drive = words.number()?;
    let block = words.number()?;
    let at = words.number()?;
    let bytes = words.hex(heap)?;
    words.end()?;
    Ok(Command::Poke {
        drive,
        block,
        at,
        bytes,
    })
}

// The command of this name, if the words after it are of its form.
fn named(heap: Global, name: &[u8], words: Words<'_>) -> Result<Command, ParseError>
    ensures { Says said result (form_of forms name.now (ahead words.entry)) }
{
    // As text: a `match` on byte strings goes byte by byte, and its last arm is then some thirty cases to a proof.
    match str::from_utf8(name) {
        Ok("rack") => rack(heap, words),
        Ok("format") => words.only_number().map(|pages| Command::Format { pages }),
        Ok("left") => words.end().map(|()| Command::Left),
        Ok("block") => words
            .only_place()
            .map(|(drive, block)| Command::Block { drive, block }),
        Ok("poke") => poke(heap, words),
        Ok("tear") => words
            .only_place()
            .map(|(drive, block)| Command::Tear { drive, block }),
        Ok("stop") => words.only_number().map(|left| Command::Stop { left }),
        _ => Err(ParseError::Unknown),
    }
}

// The command that a line says.
fn read(heap: Global, line: &[u8]) -> Result<Command, ParseError>
    ensures { Says said result (command_in line.now) }
{
    let mut words = Words::new(line);
    let name = words.next().ok_or(ParseError::Unknown)?;
    named(heap, name, words)
}

// What a line says, given without its newline; none where it is unknown.
pub fn parse(heap: Global, line: &[u8]) -> Result<Option<Command>, AllocError>
    ensures { IfOk result (λ c. option_map said c ≡ command_in line.now) }
{
    match read(heap, line) {
        Ok(command) => Ok(Some(command)),
        Err(ParseError::Unknown) => Ok(None),
        Err(ParseError::OutOfMemory(error)) => Err(error),
    }
}
