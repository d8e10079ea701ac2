// What a change offers: the bytes of its runs, to the caller's marks.
//
// The bytes are taken from where they stand in the block, and only the marks of bytes that the change covers are
// touched.
ghost use Rattle.std.specs.Prelude.{◌≡◌, ◌+◌, ◌*◌, ◌^◌, ◌<◌, ◌≤◌, length};
ghost use Rattle.later.specs.Keeping.{kept_all};
ghost use Rattle.later.specs.Stamps.{mark_upto};
ghost use Rattle.change.specs.Pairs.{total};
ghost use Rattle.change.specs.Changes.{ChangeOk, view};
ghost use Rattle.model.specs.Logs.{stamped, spread};
ghost use Rattle.logs.specs.Scans.{offers_of};

use block::PAGE_BYTES;
use change::{Change, Pair};
use later::{Mark, Place, Stamp, keep_later};

// Offers bytes to the places from `at` on, all with one stamp.
fn apply_run(marks: &mut [Mark], at: usize, stamp: Stamp, bytes: &[u8])
    requires { at + length bytes.now < 2 ^ 64 }
    ensures { marks.new ≡ kept_all mark_upto marks.old (stamped stamp at bytes.now) }
{
    for (i, byte) in bytes.iter().enumerate() {
        keep_later(marks, at + i, Mark { stamp, byte: *byte });
    }
}

// Offers the bytes of runs, which come joined, on the page whose first byte has the place `start`.
fn apply_pairs(marks: &mut [Mark], start: usize, stamp: Stamp, pairs: &[Pair], bytes: &[u8])
    requires { (start ≤ 65535 * 240) × (total pairs.now ≤ length bytes.now) }
    ensures { marks.new ≡ kept_all mark_upto marks.old (spread stamp start pairs.now bytes.now) }
{
    // as in `overlay`: an iterator of the runs would be longer than the two loops that cut them off
    let mut rest = bytes;
    for pair in pairs {
        let (run, after) = rest.split_at(pair.length as usize);
        apply_run(marks, start + pair.offset as usize, stamp, run);
        rest = after;
    }
}

// Offers the after bytes of a change whose set has a commit number, and else its before bytes.
pub(crate) fn apply_change(
    change: &Change<'_>,
    place: Place,
    numbers: &[u8; 256],
    marks: &mut [Mark],
)
    requires { ChangeOk (view change.now) }
    ensures { marks.new ≡ kept_all mark_upto marks.old (offers_of numbers.now place.drive place.block (view change.now)) }
{
    let start = change.page as usize * PAGE_BYTES;
    // the numbers that recovery keeps are plain, and 0 says that a set has none
    let commit = numbers[change.set as usize];
    let (stamp, bytes) = if commit == 0 {
        (Stamp::Before(place), change.before)
    } else {
        let stamp = Stamp::After {
            commit,
            set: change.set,
            step: change.step,
            place,
        };
        (stamp, change.after)
    };
    apply_pairs(marks, start, stamp, change.pairs(), bytes);
}
