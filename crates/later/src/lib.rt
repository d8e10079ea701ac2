// Keeping the later of two values, for every kind of value under every total order.
//
// Recovery meets values in any order, since the logs are never merged, and keeps in each place of the caller's slice
// the later of two. So in the end each place has the latest of what came to it, whatever the order and however often
// each value came. `KeepsTheLatest` says so, and `keep_later` is proved to do it for every kind of value that has a
// total order.
//
// Two kinds are kept so: the commit number of each set, of which the larger stays, and the marks of the page bytes, of
// which the one with the larger stamp stays. Both rank by the library's order of their types.
#![tactic(auto)]

ghost use Rattle.std.specs.Prelude.{◌≡◌, Bool, nat_le};
ghost use Rattle.later.specs.Order.{TotalOrder, TellsApart, upto_by};
ghost use Rattle.later.specs.Keeping.{kept_later, KeepsTheLatest, KeptBy};
ghost use Rattle.later.specs.Stamps.{mark_upto};
ghost use Rattle.later.specs.Fields.{numbers_ordered};
ghost use Rattle.later.specs.Marks.{marks_ordered};

// A kind of value with a total order: `upto x y` says that `x` is no later than `y`.
pub trait Ranked {
    ghost upto: { Self → Self → Bool };

    // Whether this value is no later than the other.
    fn is_upto(&self, other: &Self) -> bool
        ensures { result ≡ upto self.now other.now };

    ghost order: { TotalOrder upto };
}

// Whether a value is no later than the other, by the order of its type. Where that order tells different values apart, it
// is one to keep them by; those of commit numbers and of marks do.
#[tactic(auto, using(crate::specs::Apart::numbers_apart, crate::specs::Apart::marks_apart))]
pub fn is_upto<T: Ord>(x: &T, other: &T) -> bool
    ensures value { result ≡ upto_by T.cmp x.now other.now }
    ensures lawful { TellsApart T.cmp → KeepsTheLatest (upto_by T.cmp) }
    ensures numbers { TellsApart ⟦<u8 as Ord>⟧.cmp }
    ensures marks { TellsApart ⟦<Mark as Ord>⟧.cmp }
{
    x <= other
}

// Commit numbers: the larger is the later.
impl Ranked for u8 {
    ghost upto = { nat_le };

    ghost order = { numbers_ordered };

    fn is_upto(&self, other: &u8) -> bool {
        *self <= *other
    }
}

// Marks: the one with the larger stamp is the later.
impl Ranked for Mark {
    ghost upto = { mark_upto };

    ghost order = { marks_ordered };

    fn is_upto(&self, other: &Mark) -> bool {
        is_upto(self, other)
    }
}

// Keeps in one place of the slice the later of what is there and the new value. A place past the end changes
// nothing.
#[tactic(auto, using(crate::proofs::Derived::numbers_kept, crate::proofs::Derived::marks_kept))]
pub fn keep_later<T: Ranked + Copy>(kept: &mut [T], at: usize, new: T)
    ensures after { kept.new ≡ kept_later T.upto kept.old at new }
    ensures lawful { KeepsTheLatest T.upto }
    ensures numbers { KeptBy ⟦<u8 as Ord>⟧.cmp nat_le }
    ensures marks { KeptBy ⟦<Mark as Ord>⟧.cmp mark_upto }
{
    // by the index: of a write through `get_mut` the proof learns nothing
    if at < kept.len() && kept[at].is_upto(&new) {
        kept[at] = new;
    }
}

// Where a record stands: a block of a drive.
#[derive(Clone, Copy, Debug, PartialEq, Eq, PartialOrd, Ord)]
pub struct Place {
    pub drive: u16,
    pub block: u16,
}

// Where a byte of a page comes from. Stamps of different kinds rank in the order of the kinds here, and stamps of
// one kind by their fields, the first in which they differ: that is the derived order. The fields of the third kind stand
// in the kind itself: in a struct of their own they would make a mark, of which a caller lends one for each page byte, a
// quarter larger.
#[derive(Clone, Copy, Debug, PartialEq, Eq, PartialOrd, Ord)]
pub enum Stamp {
    // the drive's own byte
    Drive,
    // the before byte of a change whose set has no commit number
    Before(Place),
    // the after byte of a change whose set has one
    After {
        commit: u8,
        set: u8,
        step: u32,
        place: Place,
    },
}

// A byte of a page with its stamp.
#[derive(Clone, Copy, Debug, PartialEq, Eq, PartialOrd, Ord)]
pub struct Mark {
    pub stamp: Stamp,
    pub byte: u8,
}
