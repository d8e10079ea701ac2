// A set of drives, as the bits of a mask.
//
// A rack has drives 0 to 9, so 16 bits suffice. A drive from 16 on is never held, and adding one changes
// nothing, so no call asks anything of its caller. Every call is promised by the drives that the set holds.
// Whoever ticks off the drives 1 to n need only count: a drive not yet held makes one more, and n of them are
// all of them.
#![tactic(auto)]

ghost use Rattle.std.specs.Prelude.{◌≡◌, ℕ, false, ◌^◌, if◌then◌else◌, nat_lt, count_ones};
ghost use Rattle.drive_set.specs.Sets.{holds, tally, Adds};
ghost use Rattle.drive_set.specs.Laws.{CountsAll, CountsMore};

// Drive d is held where bit d is set: the bits of a mask, by a rule of this project.
#[derive(Clone, Copy, PartialEq, Eq, Default, Debug)]
pub struct DriveSet {
    bits: u16,
}

// The bit of a drive; a drive from 16 on has none.
fn bit_of(drive: u16) -> u16
    ensures { result ≡ (if nat_lt drive 16 then 2 ^ drive else 0) }
{
    1u16.checked_shl(u32::from(drive)).unwrap_or(0)
}

impl DriveSet {
    // The set that holds no drive.
    pub fn empty() -> DriveSet
        ensures { (d : ℕ) → holds result d ≡ false }
    {
        DriveSet { bits: 0 }
    }

    // Whether the drive is held.
    #[tactic(auto, using(crate::proofs::Masks::has_bit))]
    pub fn has(self, drive: u16) -> bool
        ensures { result ≡ holds self drive }
    {
        self.bits & bit_of(drive) != 0
    }

    // The set with the drive besides.
    #[tactic(auto, using(crate::proofs::Masks::adds_bit))]
    pub fn with(self, drive: u16) -> DriveSet
        ensures { Adds self drive result }
    {
        DriveSet {
            bits: self.bits | bit_of(drive),
        }
    }

    // How many bits are set.
    fn ones(self) -> u16
        ensures { result ≡ count_ones self.bits }
    {
        self.bits.count_ones() as u16
    }

    // How many drives are held.
    #[tactic(auto, using(crate::proofs::Counting::ones_held, crate::proofs::Counting::counts_more))]
    pub fn count(self) -> u16
        ensures counts { result ≡ tally (holds self) 16 }
        ensures all { CountsAll self result }
        ensures more { CountsMore self result }
    {
        self.ones()
    }
}
