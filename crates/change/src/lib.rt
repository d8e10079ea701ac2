// The blocks of changes: how they are written, and how they are read.
//
// A change says what some runs of bytes of a page were before it and are after it. Reading is strict: bytes read as a
// change exactly where it may be written and they are its block. What is read borrows from the block: `before` and
// `after` are parts of it.
#![tactic(auto)]

ghost use Rattle.std.specs.Prelude.{◌≡◌, ◌+◌, ◌-◌, ◌≤◌, ◌++◌, length, take, drop, Decides};
ghost use Rattle.std.specs.List.{flat_map};
ghost use Rattle.std.specs.Option.{option_map};
ghost use Rattle.block.specs.Bytes.{zeros, ReadsBack};
ghost use Rattle.change.specs.Held.{listed};
ghost use Rattle.change.specs.Changes.{ChangeOk, change_head, change_block, Writes, content_with, Marked, view};

use crate::runs::slot_bytes;
use block::{is_zero, quad, word};

mod edits;
mod runs;

pub use edits::{gather, overlay};
pub use runs::{Pair, Pairs, covers, total};

// A change of a page: the round it was made in, its set and its step there, and what the runs of bytes that it touches
// hold before it and after it, joined. The numbers are those of the layout, so set and step may be 0, which no block says.
#[derive(Clone, Copy)]
pub struct Change<'a> {
    pub page: u16,
    pub round: u32,
    pub set: u8,
    pub step: u32,
    pub pairs: Pairs,
    pub before: &'a [u8],
    pub after: &'a [u8],
}

// Writes bytes over others, from a place on.
fn put(block: &mut [u8], at: usize, part: &[u8])
    requires { at + length part.now ≤ length block.old }
    ensures { block.new ≡ take at block.old ++ (part.now ++ drop (at + length part.now) block.old) }
{
    block[at..at + part.len()].copy_from_slice(part);
}

// The block with these parts one behind the other, and zeros behind them.
fn assembled(head: &[u8; 16], slots: &[[u8; 4]; 4], before: &[u8], after: &[u8]) -> [u8; 512]
    requires { length before.now + length after.now ≤ 480 }
    ensures { result ≡ head.now ++ (flat_map (λ x. x) slots.now ++ (before.now ++ (after.now ++ zeros (480 - (length before.now + length after.now))))) }
{
    let mut block = [0; 512];
    put(&mut block, 0, head);
    put(&mut block, 16, slots.as_flattened());
    put(&mut block, 32, before);
    put(&mut block, 32 + before.len(), after);
    block
}

// Whether a block has the mark and a count of a change, and zeros behind the set and the pairs.
fn is_marked(block: &[u8; 512]) -> bool
    ensures { Decides result (Marked block.now) }
{
    block[0] == 1
        && block[1] <= 4
        && is_zero(&block[9..12])
        && is_zero(&block[16 + 4 * block[1] as usize..32])
}

impl<'a> Change<'a> {
    // The pairs, as a list.
    pub fn pairs(&self) -> &[Pair]
        ensures value { result.now ≡ (view self.now).pairs }
        ensures few { length result.now ≤ 4 }
    {
        self.pairs.as_slice()
    }

    // Whether this change has a block.
    fn is_sound(self) -> bool
        ensures { Decides result (ChangeOk (view self.entry)) }
    {
        covers(self.pairs(), self.before.len())
            && covers(self.pairs(), self.after.len())
            && self.set >= 1
            && self.step >= 1
    }

    // Bytes 0 to 15 of the block.
    fn head(&self) -> [u8; 16]
        ensures { result ≡ change_head (view self.now) }
    {
        let mut head = [0; 16];
        head[0] = 1;
        head[1] = self.pairs().len() as u8;
        head[2..4].copy_from_slice(&self.page.to_le_bytes());
        head[4..8].copy_from_slice(&self.round.to_le_bytes());
        head[8..12].copy_from_slice(&u32::from(self.set).to_le_bytes());
        head[12..16].copy_from_slice(&self.step.to_le_bytes());
        head
    }

    // The block of this change, or nothing where no block says it: its pairs cannot stand in a change, it has not as
    // many bytes before and after as they cover, or its set or its step is 0.
    pub fn block(&self) -> Option<[u8; 512]>
        ensures { Writes (view self.now) result }
    {
        if !self.is_sound() {
            return None;
        }
        Some(assembled(
            &self.head(),
            &slot_bytes(self.pairs()),
            self.before,
            self.after,
        ))
    }

    // The change that stands in a block, with these pairs and so many bytes in their runs.
    fn of(block: &'a [u8; 512], pairs: Pairs, sum: usize) -> Change<'a>
        requires { sum ≤ 240 }
        ensures { view result ≡ content_with block.now (listed pairs) sum }
    {
        Change {
            page: word(block, 2),
            round: quad(block, 4),
            set: block[8],
            step: quad(block, 12),
            pairs,
            before: &block[32..32 + sum],
            after: &block[32 + sum..32 + 2 * sum],
        }
    }

    // The change whose block this is, if it is the block of a change.
    pub fn read(block: &'a [u8]) -> Option<Change<'a>>
        ensures { ReadsBack ChangeOk change_block block.now (option_map view result) }
    {
        let block = block.as_array()?;
        if !is_marked(block) {
            return None;
        }
        let pairs = Pairs::read(block)?;
        let sum = total(pairs.as_slice())?;
        if !is_zero(&block[32 + 2 * sum..]) {
            return None;
        }
        let change = Change::of(block, pairs, sum);
        if change.set == 0 || change.step == 0 {
            return None;
        }
        Some(change)
    }
}
