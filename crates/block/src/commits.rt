// The blocks of commits.
ghost use Rattle.std.specs.Prelude.{◌≡◌, Decides};
ghost use Rattle.block.specs.Bytes.{ReadsBack};
ghost use Rattle.block.specs.Commits.{CommitOk, commit_front, commit_block, commit_of, CommitShaped};

use crate::bytes::{is_zero, padded, quad};

// The record of a commit: in which round it was made, of which set, and its number in that round. The numbers are those
// of the layout, so set and number may be 0, which reads as nothing.
#[derive(Clone, Copy, PartialEq, Eq, Debug)]
pub struct Commit {
    pub round: u32,
    pub set: u8,
    pub number: u8,
}

impl Commit {
    // The bytes up to the last that the layout names.
    fn front(self) -> [u8; 16]
        ensures { result ≡ commit_front self }
    {
        let mut front = [0; 16];
        front[0] = 2;
        front[4..8].copy_from_slice(&self.round.to_le_bytes());
        front[8] = self.set;
        front[12] = self.number;
        front
    }

    // The block of this commit. That of a commit with set or number 0 reads as nothing.
    #[tactic(auto, unfolding(crate::specs::Commits::commit_block))]
    pub fn block(&self) -> [u8; 512]
        ensures { result ≡ commit_block self.now }
    {
        padded(&self.front())
    }

    // Whether a block has the mark of a commit, and zeros where a commit has them.
    fn is_shaped(block: &[u8; 512]) -> bool
        ensures { Decides result (CommitShaped block.now) }
    {
        block[0] == 2 && is_zero(&block[1..4]) && is_zero(&block[9..12]) && is_zero(&block[13..])
    }

    // The numbers that stand in a block where a commit has its numbers.
    fn of(block: &[u8; 512]) -> Commit
        ensures { result ≡ commit_of block.now }
    {
        Commit {
            round: quad(block, 4),
            set: block[8],
            number: block[12],
        }
    }

    // The commit whose block this is, if it is the block of a commit.
    pub fn read(block: &[u8]) -> Option<Commit>
        ensures { ReadsBack CommitOk commit_block block.now result }
    {
        let block = block.as_array()?;
        if !Commit::is_shaped(block) {
            return None;
        }
        let commit = Commit::of(block);
        if commit.set == 0 || commit.number == 0 {
            return None;
        }
        Some(commit)
    }
}
