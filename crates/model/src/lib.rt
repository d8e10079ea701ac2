// The plain store: what each call answers, which strokes it makes and what state it leaves, as definitions.
//
// The code never runs these definitions. The contracts of its calls cite them (those of begin, change and commit are
// still to come), so a reader who wants to know what a call does reads them here, in specs/, and holds them against
// docs/FORMATS.md and docs/REFUSALS.md. What is said above them in the subject's words (what stands after a format) is
// proved of the same definitions. Beside them stand the refusals, and the one way to read a block.
#![tactic(auto)]

ghost use Rattle.std.specs.Prelude.{◌≡◌};
ghost use Rattle.model.specs.Logs.{value_at};
ghost use Rattle.model.specs.Refusals.{refusal_number};

use rack::{Rack, RackFault};

// Why the store turns a call down. The numbers are fixed.
#[derive(Clone, Copy, PartialEq, Eq, Debug)]
pub enum Refusal {
    // a stroke was refused for want of strokes, now or in an earlier call on this warm store
    OutOfStrokes,
    // no store stands on the rack: the head, the count of log drives or the shape is not as it should be
    NoStore,
    // a page count or a rack shape that no store can have
    BadShape,
    // the set is not open
    NoSet,
    // there is no such page
    NoPage,
    // no pairs, more than 4, a bad pair, or not as many new bytes as the pairs cover
    BadPairs,
    // the page is held by another open set
    PageHeld,
    // free blocks are fewer than open sets and one more
    LogFull,
    // 8 sets are open
    TooManySets,
    // 255 sets were begun in this round
    SetsUsedUp,
    // a set is open
    SetOpen,
    // the round is the last that a head can hold
    LastRound,
    // a page block is unreadable
    PageUnreadable,
    // a block that counts is no well-formed change of an existing page and no commit
    BadRecord,
    // the log is none of the store's or is taken already, or one is still untaken
    BadLog,
    // marks or a read buffer of the wrong length
    BadLength,
    // the rack itself refused
    Rack(RackFault),
}

// What the rack refused, the store refuses for the same reason.
impl From<RackFault> for Refusal {
    ghost use Rattle.model.specs.declared.Refusal.{Refusal};

    ghost from_gives = { λ fault result. result ≡ Refusal.Rack fault };

    fn from(fault: RackFault) -> Refusal {
        Self::Rack(fault)
    }
}

impl Refusal {
    // The refusal's number in the table. Numbers beside the cases would say the same, but no case may then hold a fault.
    pub fn number(self) -> u8
        ensures { result ≡ refusal_number self }
    {
        match self {
            Refusal::OutOfStrokes => 1,
            Refusal::NoStore => 2,
            Refusal::BadShape => 3,
            Refusal::NoSet => 4,
            Refusal::NoPage => 5,
            Refusal::BadPairs => 6,
            Refusal::PageHeld => 7,
            Refusal::LogFull => 8,
            Refusal::TooManySets => 9,
            Refusal::SetsUsedUp => 10,
            Refusal::SetOpen => 11,
            Refusal::LastRound => 12,
            Refusal::PageUnreadable => 13,
            Refusal::BadRecord => 14,
            Refusal::BadLog => 15,
            Refusal::BadLength => 16,
            Refusal::Rack(fault) => fault.number(),
        }
    }
}

// What a block of the rack holds, if it can be read.
pub fn read_block<R: Rack>(rack: &R, drive: u16, block: u16) -> Option<[u8; 512]>
    ensures { result ≡ value_at (R.Rack.meaning rack.now) drive block }
{
    let mut bytes = [0; 512];
    rack.read(drive, block, &mut bytes).ok()?;
    Some(bytes)
}
