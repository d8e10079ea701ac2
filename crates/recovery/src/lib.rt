// From nothing to a warm store: format, open, collect, turn, apply, finish and shut.
//
// A store is of one of several types, each moved on by its calls, and the rack is lent to each call: `apply` exists
// only after `turn`, and page changes only after `finish`. A call that moves a store on takes it, and hands it back in
// the error where it is refused. A format zeroes the head before anything else and writes the new one last, each
// flushed, so a format that stops half-way leaves no head of a store that is only half there. Recovery reads each log
// by itself, in any order, and writes nothing until finish ends the round.
#![tactic(auto)]

ghost use Rattle.std.specs.Prelude.{◌≡◌, ◌-◌, ◌<◌};
ghost use Rattle.std.specs.Result.{result_err};
ghost use Rattle.strokes.specs.Plan.{Plays, settled_run};
ghost use Rattle.frame.specs.Frames.{shape_in};
ghost use Rattle.model.specs.Store.{shape_of, cold};
ghost use Rattle.model.specs.Outcome.{Does, reply_of};
ghost use Rattle.model.specs.Format.{wipe, wipes, blank_pages, format_plan, formatting, IfFormatted};

use block::{Head, PAGE_BYTES, page_block};
use drive_set::DriveSet;
use frame::Frame;
use model::Refusal;
use rack::{Rack, RackFault};
use strokes::settle_run;
use warm::Warm;

mod finishing;
mod gathering;
mod marking;
mod opening;
mod scanning;
mod shutting;

pub use shutting::Shut;

// A store that is not open.
#[derive(Drop)]
pub struct Cold;

// What recovery knows while it takes logs: the shape and the round of the store, the commit number of each set
// (0: none), and the logs taken. By a rule of this project recovery keeps plain numbers, so a set without a number has a
// 0 and no Option, and the logs taken are the bits of a mask.
#[derive(Clone, Copy)]
struct Scan {
    frame: Frame,
    round: u32,
    numbers: [u8; 256],
    taken: DriveSet,
}

// A store that takes commit records.
#[derive(Drop)]
pub struct Collecting {
    scan: Scan,
}

// A store that takes change records: it notes the pages that a counting change names.
#[derive(Drop)]
pub struct Applying {
    scan: Scan,
    named: [bool; 64],
}

// A call that was refused: the store as it was, and why.
#[derive(Drop)]
pub struct Refused<S> {
    pub store: S,
    pub refusal: Refusal,
}

// What finish gives: the store, warm, with the committed sets and the pages written.
#[derive(Drop)]
pub struct Finished {
    pub store: Warm,
    pub sets: u16,
    pub pages: u16,
}

// Why finish gives no warm store: it was refused and left the store as it was, or strokes ran out and the store is cold.
#[derive(Drop)]
pub enum Unfinished {
    Refused(Refused<Applying>),
    OutOfStrokes(Cold),
}

// Writes the head block and settles it.
fn put_head<R: Rack>(rack: &mut R, head: &[u8; 512]) -> Result<(), RackFault>
    ensures { Plays (settled_run 0 0 1 head.now) (R.Rack.meaning rack.old) (result_err result) (R.Rack.meaning rack.new) }
{
    settle_run(rack, 0, 0..1, head)
}

// Zeros every block of a log and settles them.
fn wipe_log<R: Rack>(rack: &mut R, drive: u16) -> Result<(), RackFault>
    requires { drive < (R.Rack.meaning rack.old).count }
    ensures { Plays (wipe (R.Rack.meaning rack.old).size drive) (R.Rack.meaning rack.old) (result_err result) (R.Rack.meaning rack.new) }
{
    let blocks = rack.blocks(drive)?;
    settle_run(rack, drive, 0..blocks, &[0; 512])
}

// Zeros every log.
fn wipe_logs<R: Rack>(rack: &mut R) -> Result<(), RackFault>
    ensures { Plays (wipes (R.Rack.meaning rack.old).size 1 ((R.Rack.meaning rack.old).count - 1)) (R.Rack.meaning rack.old) (result_err result) (R.Rack.meaning rack.new) }
{
    for drive in 1..rack.drives() {
        wipe_log(rack, drive)?;
    }
    Ok(())
}

// Zeros the pages and settles them.
fn blank_pages<R: Rack>(rack: &mut R, frame: &Frame) -> Result<(), RackFault>
    ensures { Plays (blank_pages (shape_in frame.now).pages) (R.Rack.meaning rack.old) (result_err result) (R.Rack.meaning rack.new) }
{
    settle_run(rack, 0, 1..frame.pages() + 1, &page_block(&[0; PAGE_BYTES]))
}

// All strokes of a format, on the rack that the frame was taken from.
fn lay_out<R: Rack>(rack: &mut R, frame: &Frame) -> Result<(), RackFault>
    requires { shape_in frame.now ≡ shape_of (shape_in frame.now).pages (R.Rack.meaning rack.old) }
    ensures { Plays (format_plan (shape_in frame.now)) (R.Rack.meaning rack.old) (result_err result) (R.Rack.meaning rack.new) }
{
    put_head(rack, &[0; 512])?;
    wipe_logs(rack)?;
    blank_pages(rack, frame)?;
    put_head(
        rack,
        &Head {
            pages: frame.pages(),
            round: 1,
            logs: frame.logs(),
        }
        .block(),
    )
}

impl Cold {
    // Lays out an empty store of so many pages on the rack. The store stays cold.
    pub fn format<R: Rack>(&self, rack: &mut R, pages: u16) -> Result<(), Refusal>
        ensures does { Does (formatting pages (R.Rack.meaning rack.old)) cold (R.Rack.meaning rack.old) (reply_of result) cold (R.Rack.meaning rack.new) }
        ensures stands { IfFormatted (reply_of result) (shape_of pages (R.Rack.meaning rack.old)) (R.Rack.meaning rack.old) (R.Rack.meaning rack.new) }
    {
        let frame = Frame::of(rack, pages).ok_or(Refusal::BadShape)?;
        lay_out(rack, &frame).map_err(|_| Refusal::OutOfStrokes)
    }
}
