// Pairs of offset and length: the runs of bytes of a page that a change touches.
ghost use Rattle.std.specs.Prelude.{◌≡◌, ◌<◌, ◌≤◌, length, IfSome, if◌then◌else◌, Some, None, MatchOption, slice_index, map};
ghost use Rattle.std.specs.List.{between};
ghost use Rattle.change.specs.Pairs.{end_of, follows, in_order, total_in, covering, slots_of, pair_bytes, pair_at, pairs_in};
ghost use Rattle.change.specs.Pairs.{total as sum_of};

use block::{PAGE_BYTES, word};
use std::array;

// A run of bytes of a page: where it starts, and how many bytes it has.
#[derive(Clone, Copy, Default, PartialEq, Eq, Debug)]
pub struct Pair {
    pub offset: u16,
    pub length: u16,
}

impl Pair {
    // Where the run ends.
    fn end(self) -> usize
        ensures { result ≡ end_of self }
    {
        self.offset as usize + self.length as usize
    }

    // Whether the run has a byte, starts at `from` or behind, and ends within the page.
    fn starts_after(self, from: usize) -> bool
        ensures { result ≡ follows from self }
    {
        self.length >= 1 && self.offset as usize >= from && self.end() <= PAGE_BYTES
    }

    // The pair in four bytes.
    fn bytes(self) -> [u8; 4]
        ensures { result ≡ pair_bytes self }
    {
        // two writes into an array would be no shorter
        let [a, b] = self.offset.to_le_bytes();
        let [c, d] = self.length.to_le_bytes();
        [a, b, c, d]
    }

    // The pair in the first four bytes.
    fn read(bytes: &[u8]) -> Pair
        ensures { result ≡ pair_at bytes.now 0 }
    {
        Pair {
            offset: word(bytes, 0),
            length: word(bytes, 2),
        }
    }
}

// The sum of the lengths, where the pairs stand in order.
fn sum_in_order(pairs: &[Pair]) -> Option<usize>
    ensures value { result ≡ (if in_order 0 pairs.now then Some (sum_of pairs.now) else None) }
    ensures bound { IfSome result (λ n. n ≤ 240) }
{
    // `try_fold` was tried: that the sum fits follows from both running values, and of those a closure is told nothing
    let mut end = 0;
    let mut sum = 0;
    for p in pairs {
        if !p.starts_after(end) {
            return None;
        }
        end = p.end();
        sum += p.length as usize;
    }
    Some(sum)
}

// The sum of the lengths, where the pairs can stand in a change: 1 to 4 of them, each with a length, within the
// page, and none before the end of the one before it.
pub fn total(pairs: &[Pair]) -> Option<usize>
    ensures value { result ≡ total_in pairs.now }
    ensures bound { IfSome result (λ n. n ≤ 240) }
{
    if pairs.is_empty() || pairs.len() > 4 {
        return None;
    }
    sum_in_order(pairs)
}

// Whether the pairs can stand in a change and cover so many bytes.
pub fn covers(pairs: &[Pair], bytes: usize) -> bool
    ensures { result ≡ covering pairs.now bytes }
{
    total(pairs) == Some(bytes)
}

// The first four pairs, with empty ones where there are fewer.
fn slots(pairs: &[Pair]) -> [Pair; 4]
    ensures { result ≡ slots_of pairs.now }
{
    array::from_fn(|i| pairs.get(i).copied().unwrap_or_default())
}

// The first four pairs in four bytes each, with zeros where there are fewer.
pub(crate) fn slot_bytes(pairs: &[Pair]) -> [[u8; 4]; 4]
    ensures { result ≡ map pair_bytes (slots_of pairs.now) }
{
    slots(pairs).map(Pair::bytes)
}

// At most four pairs, held by value: there is no heap, and a change, which holds them beside what it borrows, is `Copy` to
// callers. With a model here, or the kit's vector of a fixed capacity, it would not be; so the invariant is a ghost field.
#[derive(Clone, Copy)]
pub struct Pairs {
    slots: [Pair; 4],
    count: usize,
    ghost few: { count ≤ 4 },
}

impl Pairs {
    ghost use Rattle.change.specs.Held.{listed};

    // These pairs, in any order; refused where there are more than four.
    pub fn new(pairs: &[Pair]) -> Option<Pairs>
        ensures { MatchOption result (4 < length pairs.now) (λ held. listed held ≡ pairs.now) }
    {
        if pairs.len() > 4 {
            return None;
        }
        Some(Pairs {
            slots: slots(pairs),
            count: pairs.len(),
        })
    }

    // The pairs that stand in a block where a change has its pairs, if byte 1 counts no more than four.
    pub(crate) fn read(block: &[u8; 512]) -> Option<Pairs>
        ensures { MatchOption result (4 < slice_index block.now 1) (λ held. listed held ≡ pairs_in (slice_index block.now 1) (between 16 32 block.now)) }
    {
        let all: [Pair; 4] = array::from_fn(|i| Pair::read(&block[16 + 4 * i..]));
        Pairs::new(all.get(..block[1] as usize)?)
    }

    // The pairs that are held.
    pub(crate) fn as_slice(&self) -> &[Pair]
        ensures value { result.now ≡ listed self.now }
        ensures few { length result.now ≤ 4 }
    {
        &self.slots[..self.count]
    }
}
