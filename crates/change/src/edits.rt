// What pairs say of the content of a page: the bytes in their runs, taken out of it or put into it.
//
// Both go run by run, and touch only the bytes that the pairs cover.
ghost use Rattle.std.specs.Prelude.{◌≡◌, ◌≤◌, true, [], length, take, if◌then◌else◌};
ghost use Rattle.change.specs.Pairs.{in_order, well_paired, covering};
ghost use Rattle.change.specs.Pairs.{total as sum_of};
ghost use Rattle.change.specs.Edits.{gathered, overlaid};

use crate::put;
use crate::runs::{Pair, covers, total};
use block::PAGE_BYTES;

// The bytes in the runs of pairs that stand in order, joined at the front of a buffer; answers how many there are.
fn gather_runs(pairs: &[Pair], content: &[u8; PAGE_BYTES], joined: &mut [u8; PAGE_BYTES]) -> usize
    requires { in_order 0 pairs.now ≡ true }
    ensures count { result ≡ sum_of pairs.now }
    ensures most { result ≤ 240 }
    ensures front { take result joined.new ≡ gathered pairs.now content.now }
{
    // `at` is the answer too: with the buffer cut by `split_at_mut` it would have to be counted all the same.
    let mut at = 0;
    for pair in pairs {
        let from = pair.offset as usize;
        let n = pair.length as usize;
        put(joined, at, &content[from..from + n]);
        at += n;
    }
    at
}

// The bytes of a page's content in the runs of the pairs, joined at the front of a buffer; answers how many there are: none
// where the pairs cannot stand in a change. It answers no part of the buffer: of what it lent on, the caller's buffer would
// be known no more.
pub fn gather(pairs: &[Pair], content: &[u8; PAGE_BYTES], joined: &mut [u8; PAGE_BYTES]) -> usize
    ensures count { result ≡ (if well_paired pairs.now then sum_of pairs.now else 0) }
    ensures most { result ≤ 240 }
    ensures front { take result joined.new ≡ (if well_paired pairs.now then gathered pairs.now content.now else []) }
{
    if total(pairs).is_none() {
        return 0;
    }
    gather_runs(pairs, content, joined)
}

// Puts joined bytes into the runs of pairs that stand in order.
fn overlay_runs(pairs: &[Pair], bytes: &[u8], content: &mut [u8; PAGE_BYTES])
    requires order { in_order 0 pairs.now ≡ true }
    requires count { length bytes.now ≡ sum_of pairs.now }
    ensures { content.new ≡ overlaid pairs.now bytes.now content.old }
{
    // cut off as it goes: an iterator of the runs would be longer than this
    let mut rest = bytes;
    for pair in pairs {
        let (run, behind) = rest.split_at(pair.length as usize);
        put(content, pair.offset as usize, run);
        rest = behind;
    }
}

// Puts joined bytes into the runs of the pairs, in the content of a page; nothing is done where the pairs cannot stand in a
// change or the bytes are not as many as they cover. Pairs and bytes come as a caller has them, in two slices.
pub fn overlay(pairs: &[Pair], bytes: &[u8], content: &mut [u8; PAGE_BYTES])
    ensures { content.new ≡ (if covering pairs.now (length bytes.now) then overlaid pairs.now bytes.now content.old else content.old) }
{
    if covers(pairs, bytes.len()) {
        overlay_runs(pairs, bytes, content);
    }
}
