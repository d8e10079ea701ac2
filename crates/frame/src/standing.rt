// A frame and the rack that its store stands on: taking the one from the other, and holding it against it later.
ghost use Rattle.std.specs.Prelude.{◌≡◌, ℕ, suc, ◌<◌, length, nat_eq, slice_index};
ghost use Rattle.std.specs.List.{list_all};
ghost use Rattle.model.specs.Store.{shape_of, every, legal_log, legal, fits};
ghost use Rattle.frame.specs.Shapes.{shape_with};
ghost use Rattle.frame.specs.Frames.{shape_in, blocks_on, Framed};

use crate::{DRIVES, Frame};
use rack::Rack;
use std::array;

// How many blocks a drive of the rack has: 0 where there is no such drive.
fn blocks_on<R: Rack>(rack: &R, drive: u16) -> u16
    ensures { result ≡ blocks_on (R.Rack.meaning rack.now) drive }
{
    rack.blocks(drive).unwrap_or(0)
}

// How many blocks each of the first drives of the rack has.
fn sizes_of<R: Rack>(rack: &R) -> [u16; DRIVES]
    ensures len { length result ≡ DRIVES }
    ensures each { (d : ℕ) → d < DRIVES → slice_index result d ≡ blocks_on (R.Rack.meaning rack.now) d }
{
    array::from_fn(|drive| blocks_on(rack, drive as u16))
}

// Whether a drive of so many blocks can be a log.
fn log_is_legal(blocks: u16) -> bool
    ensures { result ≡ legal_log blocks }
{
    (2..=1024).contains(&blocks)
}

// Whether each of these drives can be a log.
fn logs_are_legal(sizes: &[u16]) -> bool
    ensures { result ≡ list_all legal_log sizes.now }
{
    sizes.iter().all(|&blocks| log_is_legal(blocks))
}

// Whether a store can have so many pages and log drives, with these blocks on each drive.
fn is_legal(pages: u16, logs: u16, sizes: &[u16; DRIVES]) -> bool
    ensures { result ≡ legal (shape_with pages logs sizes.now) }
{
    (1..=64).contains(&pages)
        && pages < sizes[0]
        && (1..=8).contains(&logs)
        && logs_are_legal(&sizes[1..=logs as usize])
}

impl Frame {
    // The frame of a store of so many pages on the rack, if a store can have that shape.
    pub fn of<R: Rack>(rack: &R, pages: u16) -> Option<Frame>
        ensures { Framed (shape_of pages (R.Rack.meaning rack.now)) result }
    {
        let logs = rack.drives().checked_sub(1)?;
        let sizes = sizes_of(rack);
        if !is_legal(pages, logs, &sizes) {
            return None;
        }
        Some(Frame { pages, logs, sizes })
    }

    // Whether each drive has as many blocks on the rack as in the frame.
    fn sizes_fit<R: Rack>(&self, rack: &R) -> bool
        requires { (R.Rack.meaning rack.now).count ≡ suc (shape_in self.now).logs }
        ensures { result ≡ every (λ d. nat_eq ((R.Rack.meaning rack.now).size d) ((shape_in self.now).blocks d)) (suc (shape_in self.now).logs) }
    {
        (0..=self.logs).all(|drive| blocks_on(rack, drive) == self.blocks(drive))
    }

    // Whether the rack still has this shape.
    pub fn fits<R: Rack>(&self, rack: &R) -> bool
        ensures { result ≡ fits (shape_in self.now) (R.Rack.meaning rack.now) }
    {
        rack.drives() == self.logs + 1 && self.sizes_fit(rack)
    }
}
