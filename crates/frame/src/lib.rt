// The shape of a store on its rack, as the store's code keeps it.
//
// A frame is taken from a rack once, and only where a store can have the rack's shape. From then on the code asks
// the frame for pages, logs and blocks, and asks the rack only whether it still has this shape.
#![tactic(auto)]

ghost use Rattle.std.specs.Prelude.{◌≡◌, ◌≤◌, true};
ghost use Rattle.model.specs.Store.{legal};
ghost use Rattle.frame.specs.Shapes.{shape_with};

mod shape;
mod standing;

// Drive 0 holds the pages, and up to 8 others are logs.
const DRIVES: usize = 9;

// How many pages a store has, how many log drives, and how many blocks each drive has. The sizes stand in an array with
// room for every drive that a store can have, since there is no heap and a frame is `Copy` to callers; those of drives that
// are not there are 0.
#[derive(Clone, Copy)]
pub struct Frame {
    pages: u16,
    logs: u16,
    sizes: [u16; DRIVES],
    // `legal` says this too; it stands here as the bounds that callers count with
    ghost ok: { (pages ≤ 64) × (1 ≤ logs) × (logs ≤ 8) },
    ghost legal: { legal (shape_with pages logs sizes) ≡ true },
}
