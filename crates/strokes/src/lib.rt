// Plans of strokes, played on any rack.
//
// A stroke is one write or one flush. Every call of the store is promised by a plan, the list of strokes that it
// makes. A plan is played stroke by stroke, up to its end or to the first stroke that the rack refuses. A plan
// whose strokes all have a place can be refused for want of strokes only, so it is then made up to exactly as
// many strokes as were left. Plans compose, and what can be read after one hangs on the plan alone, not on what
// a rack settles early.
#![tactic(auto)]

ghost use Rattle.std.specs.Prelude.{◌≡◌, ◌-◌};
ghost use Rattle.std.specs.Result.{result_err};
ghost use Rattle.rack.specs.Answers.{answer, Leaves};
ghost use Rattle.strokes.specs.Plan.{effect, fault, Plays, Placed, Done, run, settled_run};
ghost use Rattle.strokes.specs.declared.Stroke.TheVariants.{Write};
ghost use Rattle.strokes.specs.Laws.{PlansCompose, PlansShow};

use rack::{Rack, RackFault};
use std::ops::Range;

// One write or one flush.
#[derive(Clone, Copy, PartialEq, Eq, Debug)]
pub enum Stroke {
    Write {
        drive: u16,
        block: u16,
        bytes: [u8; 512],
    },
    Flush {
        drive: u16,
    },
}

// One write, as a stroke.
fn write_at<R: Rack>(
    rack: &mut R,
    drive: u16,
    block: u16,
    bytes: &[u8; 512],
) -> Result<(), RackFault>
    ensures answers { result ≡ answer (fault (Write drive block bytes.now) (R.Rack.meaning rack.old)) }
    ensures leaves { Leaves result (effect (Write drive block bytes.now) (R.Rack.meaning rack.old)) (R.Rack.meaning rack.old) (R.Rack.meaning rack.new) }
{
    rack.write(drive, block, bytes)
}

// One stroke.
fn play<R: Rack>(rack: &mut R, stroke: &Stroke) -> Result<(), RackFault>
    ensures answers { result ≡ answer (fault stroke.now (R.Rack.meaning rack.old)) }
    ensures leaves { Leaves result (effect stroke.now (R.Rack.meaning rack.old)) (R.Rack.meaning rack.old) (R.Rack.meaning rack.new) }
{
    match stroke {
        Stroke::Write {
            drive,
            block,
            bytes,
        } => write_at(rack, *drive, *block, bytes),
        Stroke::Flush { drive } => rack.flush(*drive),
    }
}

// Makes the strokes of a plan, up to its end or to the first that is refused.
pub fn play_all<R: Rack>(rack: &mut R, plan: &[Stroke]) -> Result<(), RackFault>
    ensures plays { Plays plan.now (R.Rack.meaning rack.old) (result_err result) (R.Rack.meaning rack.new) }
    ensures exactly { Placed plan.now (R.Rack.meaning rack.old) → Done plan.now (R.Rack.meaning rack.old) (result_err result) (R.Rack.meaning rack.new) }
    ensures composes { PlansCompose }
    ensures shows { PlansShow }
{
    for stroke in plan {
        play(rack, stroke)?;
    }
    Ok(())
}

// Writes the same bytes to each of these blocks of a drive, rising.
fn write_run<R: Rack>(
    rack: &mut R,
    drive: u16,
    blocks: Range<u16>,
    bytes: &[u8; 512],
) -> Result<(), RackFault>
    ensures { Plays (run drive blocks.start (blocks.end - blocks.start) bytes.now) (R.Rack.meaning rack.old) (result_err result) (R.Rack.meaning rack.new) }
{
    for block in blocks {
        write_at(rack, drive, block, bytes)?;
    }
    Ok(())
}

// The same, and then a flush of the drive.
pub fn settle_run<R: Rack>(
    rack: &mut R,
    drive: u16,
    blocks: Range<u16>,
    bytes: &[u8; 512],
) -> Result<(), RackFault>
    ensures { Plays (settled_run drive blocks.start (blocks.end - blocks.start) bytes.now) (R.Rack.meaning rack.old) (result_err result) (R.Rack.meaning rack.new) }
{
    write_run(rack, drive, blocks, bytes)?;
    rack.flush(drive)
}
