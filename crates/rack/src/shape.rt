// The shape of a rack: how many blocks each of its drives has, and where a block lies when all blocks of all
// drives are counted through in order.
ghost use Rattle.std.specs.Prelude.{◌≡◌, ◌*◌, ◌≤◌, length, take, sum, MatchResult};
ghost use Rattle.rack.specs.Shapes.{LegalShape, HoldsSizes, drives_in, size_answer, total_in, place_in};
ghost use Rattle.rack.specs.declared.RackFault.TheVariants.{BadShape};

use crate::RackFault;

// The most drives that a rack has.
const MOST_DRIVES: usize = 10;

// At most 10 drives, of at most 65,535 blocks each; the sizes of drives that are not there are 0. The sizes are an array
// with their count beside it, since there is no heap and a shape is `Copy` to callers. Each shape is one that `new` made, and
// its contract says so much of it. The type does not, and a count above 10 is read as 10: with a ghost field a caller's
// `Option` or `Result` of a shape beside a `&mut` is not covered by the check, and with a model what holds a shape is not copied.
#[derive(Clone, Copy, Debug)]
pub struct Shape {
    sizes: [u16; MOST_DRIVES],
    count: u16,
}

// How many blocks drives of these sizes have.
fn blocks_in(sizes: &[u16]) -> usize
    requires { length sizes.now ≤ 10 }
    ensures blocks { result ≡ sum sizes.now }
    ensures bound { result ≤ 65535 * length sizes.now }
{
    sizes.iter().map(|n| usize::from(*n)).sum()
}

impl Shape {
    // A shape of these sizes, drive 0 first; refused where there are more than 10 or one is over 65,535.
    #[tactic(auto, using(crate::proofs::Padding::padded_more, crate::proofs::Padding::padded_front, crate::proofs::Padding::padded_is, crate::proofs::Padding::padded_each))]
    pub fn new(sizes: &[u32]) -> Result<Shape, RackFault>
        ensures { MatchResult result (λ s. LegalShape sizes.now × HoldsSizes sizes.now s) (λ f. (LegalShape sizes.now → ⊥) × (f ≡ BadShape)) }
    {
        if sizes.len() > MOST_DRIVES {
            return Err(RackFault::BadShape);
        }
        // no `array::try_from_fn`: its contract does not say that each call finds the sizes as they were
        let mut narrow = [0; MOST_DRIVES];
        for (drive, size) in sizes.iter().enumerate() {
            narrow[drive] = u16::try_from(*size).map_err(|_| RackFault::BadShape)?;
        }
        Ok(Shape {
            sizes: narrow,
            count: sizes.len() as u16,
        })
    }

    // The blocks of each drive, drive 0 first.
    fn sizes(&self) -> &[u16]
        ensures sizes { result.now ≡ take (drives_in self.now) self.now.sizes }
        ensures few { length result.now ≤ 10 }
    {
        &self.sizes[..usize::from(self.drives())]
    }

    // How many drives there are.
    pub fn drives(&self) -> u16
        ensures { result ≡ drives_in self.now }
    {
        self.count.min(10)
    }

    // How many blocks a drive has.
    pub fn blocks(&self, drive: u16) -> Result<u16, RackFault>
        ensures { result ≡ size_answer self.now drive }
    {
        self.sizes()
            .get(usize::from(drive))
            .copied()
            .ok_or(RackFault::NoPlace)
    }

    // How many blocks the rack has in all.
    pub fn total(&self) -> usize
        ensures all { result ≡ total_in self.now }
        ensures small { result ≤ 655350 }
    {
        blocks_in(self.sizes())
    }

    // Where a block lies among all blocks, if there is such a block.
    pub fn place(&self, drive: u16, block: u16) -> Option<usize>
        ensures { result ≡ place_in self.now drive block }
    {
        let size = self.blocks(drive).ok()?;
        (block < size).then(|| blocks_in(&self.sizes[..usize::from(drive)]) + usize::from(block))
    }
}
