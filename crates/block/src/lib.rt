// The blocks of a store: how they are written, and how they are read.
//
// A block has 512 bytes. Numbers of several bytes stand with the low byte first, and bytes that a layout does
// not name are zero. Reading is strict: bytes read as a value exactly where the value may be written and they are
// its block. So no two such values have the same block. Only a page is read whatever its block holds: its content
// counts, and the bytes behind the content are ignored.
#![tactic(auto)]

ghost use Rattle.std.specs.Prelude.{◌≡◌, Decides};
ghost use Rattle.block.specs.Bytes.{ReadsBack};
ghost use Rattle.block.specs.Heads.{HeadOk, head_front, head_block, head_of, HeadShaped};
ghost use Rattle.block.specs.Pages.{page_block, page_content, GivesBack};

use crate::bytes::padded;

mod bytes;
mod commits;

pub use bytes::{is_zero, quad, word};
pub use commits::Commit;

// The head of a store: how many pages it has, the round that it is in, and how many log drives there are. The numbers are
// those of the layout, so a round may be 0, which reads as nothing.
#[derive(Clone, Copy, PartialEq, Eq, Debug)]
pub struct Head {
    pub pages: u16,
    pub round: u32,
    pub logs: u16,
}

impl Head {
    // The bytes that the layout names.
    fn front(&self) -> [u8; 10]
        ensures { result ≡ head_front self.now }
    {
        let mut front = [0; 10];
        front[0] = 3;
        front[1] = 1;
        front[2..4].copy_from_slice(&self.pages.to_le_bytes());
        front[4..8].copy_from_slice(&self.round.to_le_bytes());
        front[8..10].copy_from_slice(&self.logs.to_le_bytes());
        front
    }

    // The block of this head. That of a head of round 0 reads as nothing.
    #[tactic(auto, unfolding(crate::specs::Heads::head_block))]
    pub fn block(&self) -> [u8; 512]
        ensures { result ≡ head_block self.now }
    {
        padded(&self.front())
    }

    // Whether a block has the marks of a head, and zeros where the layout names no byte.
    fn is_shaped(block: &[u8; 512]) -> bool
        ensures { Decides result (HeadShaped block.now) }
    {
        block[..2] == [3, 1] && is_zero(&block[10..])
    }

    // The numbers that stand in a block where a head has its numbers.
    fn of(block: &[u8; 512]) -> Head
        ensures { result ≡ head_of block.now }
    {
        Head {
            pages: word(block, 2),
            round: quad(block, 4),
            logs: word(block, 8),
        }
    }

    // The head whose block this is, if it is the block of a head. Commits and changes are read alike; a trait for them would be
    // longer than these lines, which differ in what they test.
    pub fn read(block: &[u8]) -> Option<Head>
        ensures { ReadsBack HeadOk head_block block.now result }
    {
        let block = block.as_array()?;
        if !Head::is_shaped(block) {
            return None;
        }
        let head = Head::of(block);
        if head.round == 0 {
            return None;
        }
        Some(head)
    }
}

// How many bytes the content of a page has.
pub const PAGE_BYTES: usize = 240;

// The block of a page with this content.
pub fn page_block(content: &[u8; PAGE_BYTES]) -> [u8; 512]
    ensures value { result ≡ page_block content.now }
    ensures back { GivesBack content.now result }
{
    padded(content)
}

// The content of a page's block, as a part of the block.
pub fn page_content(block: &[u8; 512]) -> &[u8; PAGE_BYTES]
    ensures { result.now ≡ page_content block.now }
{
    block.first_chunk().unwrap()
}
