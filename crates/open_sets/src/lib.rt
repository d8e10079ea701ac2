// The open sets of a warm store, in the order in which they were begun.
//
// There are at most 8, at the front of an array, with a count. A set that ends leaves no gap, so the front is the list of
// open sets at any time, and each call is promised by that list. No call asks anything of its caller: a ninth set is not
// added, and a number that is not open names no set.
#![tactic(auto)]

ghost use Rattle.std.specs.Prelude.{◌≡◌, ◌==◌, position, ◌<◌, ◌≤◌, ◌⊎◌, [], ◌∷◌, ◌++◌, length, take, if◌then◌else◌, Some, None};
ghost use Rattle.std.specs.Option.{option_map};
ghost use Rattle.model.specs.Sets.{is_open, set_of, without, stepped, stepping};
ghost use Rattle.model.specs.Warming.{new_set};

use drive_set::DriveSet;

// The most sets that are open.
const MOST_SETS: usize = 8;

// An open set: its number, its last step, and the log drives that hold a record of it.
#[derive(Clone, Copy, PartialEq, Eq, Default, Debug)]
pub struct OpenSet {
    pub number: u8,
    pub steps: u32,
    pub uses: DriveSet,
}

// The first `count` are the open sets; what stands behind them does not count. They stand in an array with their count
// beside it, since there is no heap and the open sets are `Copy` to callers, which the kit's vector is not.
#[derive(Clone, Copy)]
pub struct OpenSets {
    sets: [OpenSet; MOST_SETS],
    count: u8,
    ghost few: { count ≤ 8 },
}

impl OpenSet {
    ghost use Rattle.open_sets.specs.Views.{set_in};

    // A set that has made no step.
    fn new(number: u8) -> OpenSet
        ensures { set_in result ≡ new_set number }
    {
        OpenSet {
            number,
            steps: 0,
            uses: DriveSet::empty(),
        }
    }

    // The set has one step more, whose record is on the log drive. A drive that a set of drives cannot hold, or a step
    // that cannot be numbered, changes nothing.
    fn take_step(&mut self, drive: u16)
        ensures steps { drive < 16 → self.old.steps < 4294967295 → set_in self.new ≡ stepped drive (set_in self.old) }
        ensures rests { (16 ≤ drive) ⊎ (4294967295 ≤ self.old.steps) → self.new ≡ self.old }
    {
        if drive < 16 && self.steps < u32::MAX {
            self.steps += 1;
            self.uses = self.uses.with(drive);
        }
    }
}

// Where the first set of a number stands.
fn place(sets: &[OpenSet], number: u16) -> Option<usize>
    ensures { result ≡ position (λ set. set.number == number) sets.now }
{
    sets.iter().position(|set| u16::from(set.number) == number)
}

impl OpenSets {
    ghost use Rattle.open_sets.specs.Views.{set_in, sets_in};

    // No set is open.
    pub fn none() -> OpenSets
        ensures { sets_in result ≡ [] }
    {
        OpenSets {
            sets: [OpenSet::new(0); MOST_SETS],
            count: 0,
        }
    }

    // The open sets, as the front of the array.
    fn as_slice(&self) -> &[OpenSet]
        ensures front { result.now ≡ take self.now.count self.now.sets }
        ensures count { length result.now ≡ self.now.count }
    {
        &self.sets[..usize::from(self.count)]
    }

    // How many sets are open.
    pub fn len(&self) -> u8
        ensures value { result ≡ length (sets_in self.now) }
        ensures most { result ≤ 8 }
    {
        self.as_slice().len() as u8
    }

    // The open set of a number, if there is one.
    pub fn find(&self, number: u16) -> Option<OpenSet>
        ensures { option_map set_in result ≡ (if is_open (sets_in self.now) number then Some (set_of (sets_in self.now) number) else None) }
    {
        let i = place(self.as_slice(), number)?;
        Some(self.sets[i])
    }

    // Opens a set of this number, behind the others; where 8 are open, it changes nothing.
    pub fn add(&mut self, number: u8)
        ensures adds { length (sets_in self.old) < 8 → sets_in self.new ≡ sets_in self.old ++ (new_set number ∷ []) }
        ensures full { 8 ≤ length (sets_in self.old) → self.new ≡ self.old }
    {
        let end = usize::from(self.count);
        if end < MOST_SETS {
            self.sets[end] = OpenSet::new(number);
            self.count += 1;
        }
    }

    // The open set of this number has one step more, whose record is on the log drive. Where no set of this number is
    // open, nothing changes; nor does it for a drive from 16 on, or past the last step that can be numbered.
    pub fn step(&mut self, number: u8, drive: u16)
        ensures steps { drive < 16 → (set_of (sets_in self.old) number).steps < 4294967295 → sets_in self.new ≡ stepping (sets_in self.old) number drive }
        ensures rests { (16 ≤ drive) ⊎ (4294967295 ≤ (set_of (sets_in self.old) number).steps) → sets_in self.new ≡ sets_in self.old }
    {
        if let Some(i) = place(self.as_slice(), u16::from(number)) {
            self.sets[i].take_step(drive);
        }
    }

    // Ends the set of this number; where none is open, nothing changes.
    pub fn end(&mut self, number: u8)
        ensures { sets_in self.new ≡ without (sets_in self.old) number }
    {
        // in place, by the index: an array has no `retain`
        let mut kept = 0;
        for i in 0..usize::from(self.count) {
            let set = self.sets[i];
            if set.number != number {
                self.sets[kept] = set;
                kept += 1;
            }
        }
        self.count = kept as u8;
    }
}
