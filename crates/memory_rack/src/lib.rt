// A rack in the caller's memory.
//
// The caller lends the bytes of all blocks (512 for each, drive 0 first, each drive's blocks in order) and one mark
// byte for each block, 0 where the block is unreadable. Every write is settled at once, so nothing is ever pending,
// and a power cut loses nothing. In contracts a rack is what it keeps, `Kept`, and what that means as a rack is
// `shown`: a call is promised by an equation between what the rack keeps before and after it.
//
// `poke` and `tear` are for service and tests: they reach a block past the interface and take no stroke.
#![tactic(auto)]

ghost use Rattle.std.specs.Prelude.{◌≡◌, ◌+◌, ◌*◌, ◌<◌, ◌≤◌, if◌then◌else◌, length, IfOk, Some, None, OnOk, is_ok, ok_or};
ghost use Rattle.rack.specs.declared.RackFault.TheVariants.{NoPlace};
ghost use Rattle.rack.specs.Meaning.{written, flushed};
ghost use Rattle.rack.specs.Answers.{answer, stroke_fault, write_fault, flush_fault, Leaves};
ghost use Rattle.rack.specs.Cut.{Cut};

use rack::shape::Shape;
use rack::{Rack, RackFault};
use std::marker::Model;

// The bytes of a block.
const BLOCK: usize = 512;

// The memory fits the shape: 512 bytes and one mark for each block. The caller lends bytes and marks apart, since all
// memory is the caller's; a model says that they fit, and not a ghost field, so that contracts speak of what the rack keeps
// and name no field.
#[derive(Drop)]
pub struct MemoryRack<'a> {
    shape: Shape,
    bytes: &'a mut [u8],
    marks: &'a mut [u8],
    left: u64,
}

impl<'a> Model for MemoryRack<'a> {
    ghost use Rattle.std.specs.Prelude.{IsTrue};
    ghost use Rattle.memory_rack.specs.Kept.{Kept, fresh, fitting};

    ghost Value = { Kept };

    ghost view = { λ r. fresh r.shape r.bytes.now r.marks.now r.left };

    ghost invariant = { λ r. IsTrue (fitting (fresh r.shape r.bytes.now r.marks.now r.left)) };
}

impl<'a> MemoryRack<'a> {
    ghost use Rattle.memory_rack.specs.Memory.{shown, memory_of, placed, over, put, cleared, struck, poke_fault, tear_fault, poked, torn, stopped, fresh, Makes, ReadsOnly};

    // A rack of this shape over the caller's bytes and marks; refused where they do not fit the shape.
    pub fn new(
        shape: Shape,
        bytes: &'a mut [u8],
        marks: &'a mut [u8],
        left: u64,
    ) -> Result<MemoryRack<'a>, RackFault>
        ensures { Makes (fresh shape bytes.old marks.old left) result }
    {
        let total = shape.total();
        if marks.len() != total || bytes.len() != BLOCK * total {
            return Err(RackFault::BadShape);
        }
        Ok(MemoryRack {
            shape,
            bytes,
            marks,
            left,
        })
    }

    // Writes bytes over a block from a place in it on, and makes it readable; it takes no stroke.
    pub fn poke(&mut self, drive: u16, block: u16, at: usize, bytes: &[u8]) -> Result<(), RackFault>
        ensures answers { result ≡ answer (poke_fault self.old drive block at (length bytes.now)) }
        ensures leaves { self.new ≡ poked self.old drive block at bytes.now }
        ensures reads { OnOk result (ReadsOnly (shown self.old) (shown self.new) drive block (Some (over (memory_of self.old drive block) at bytes.now))) }
    {
        let i = self.place(drive, block)?;
        if at > BLOCK || bytes.len() > BLOCK - at {
            return Err(RackFault::NoPlace);
        }
        self.put_at(i, at, bytes);
        Ok(())
    }

    // Makes a block unreadable; it takes no stroke, and the block's bytes stay in memory.
    pub fn tear(&mut self, drive: u16, block: u16) -> Result<(), RackFault>
        ensures answers { result ≡ answer (tear_fault self.old drive block) }
        ensures leaves { self.new ≡ torn self.old drive block }
        ensures reads { OnOk result (ReadsOnly (shown self.old) (shown self.new) drive block None) }
    {
        let i = self.place(drive, block)?;
        self.clear_at(i);
        Ok(())
    }

    // A power cut: every value is settled here, so all of them stand. This many strokes are left then.
    pub fn stop(&mut self, left: u64)
        ensures leaves { self.new ≡ stopped self.old left }
        ensures allowed { Cut (shown self.old) (shown self.new) }
    {
        self.left = left;
    }

    // Where a block lies, if there is such a block; it is then inside the memory.
    fn place(&self, drive: u16, block: u16) -> Result<usize, RackFault>
        ensures finds { result ≡ ok_or (placed self.now drive block) NoPlace }
        ensures inside { IfOk result (λ i. (i < length self.now.marks) × (512 * i + 512 ≤ length self.now.bytes)) }
    {
        self.shape.place(drive, block).ok_or(RackFault::NoPlace)
    }

    // Writes bytes over the i-th block, from a place in it on, and makes it readable.
    fn put_at(&mut self, i: usize, at: usize, bytes: &[u8])
        requires { (i < length self.old.marks) × (512 * i + at + length bytes.now ≤ length self.old.bytes) }
        ensures { self.new ≡ put self.old i at bytes.now }
    {
        self.marks[i] = 1;
        let from = BLOCK * i + at;
        self.bytes[from..from + bytes.len()].copy_from_slice(bytes);
    }

    // Makes the i-th block unreadable.
    fn clear_at(&mut self, i: usize)
        requires { i < length self.old.marks }
        ensures { self.new ≡ cleared self.old i }
    {
        self.marks[i] = 0;
    }

    // Takes a stroke, if one is left.
    fn take_stroke(&mut self) -> Result<(), RackFault>
        ensures answers { result ≡ answer (stroke_fault (shown self.old)) }
        ensures leaves { self.new ≡ (if is_ok result then struck self.old else self.old) }
    {
        self.left = self.left.checked_sub(1).ok_or(RackFault::NoStroke)?;
        Ok(())
    }
}

impl<'a> Rack for MemoryRack<'a> {
    ghost use Rattle.memory_rack.specs.Memory.{shown, wrote, swept};

    ghost meaning = { λ s. shown s };

    ghost survives = { λ s m. Cut (shown s) m };

    ghost cut = { λ s m h. h };

    fn drives(&self) -> u16 {
        self.shape.drives()
    }

    fn blocks(&self, drive: u16) -> Result<u16, RackFault> {
        self.shape.blocks(drive)
    }

    fn strokes_left(&self) -> u64 {
        self.left
    }

    fn read(&self, drive: u16, block: u16, buf: &mut [u8]) -> Result<(), RackFault> {
        if buf.len() != BLOCK {
            return Err(RackFault::BadLength);
        }
        let i = self.place(drive, block)?;
        if self.marks[i] == 0 {
            return Err(RackFault::Unreadable);
        }
        buf.copy_from_slice(&self.bytes[BLOCK * i..BLOCK * i + BLOCK]);
        Ok(())
    }

    // Besides what every rack promises: what stays in the memory, byte by byte.
    #[tactic(auto, using(crate::proofs::Calls::write_early))]
    fn write(&mut self, drive: u16, block: u16, bytes: &[u8]) -> Result<(), RackFault>
        ensures answers { result ≡ answer (write_fault (shown self.old) drive block (length bytes.now)) }
        ensures leaves { Leaves result (written (shown self.old) drive block bytes.now) (shown self.old) (shown self.new) }
        ensures keeps { self.new ≡ wrote self.old drive block bytes.now }
    {
        if bytes.len() != BLOCK {
            return Err(RackFault::BadLength);
        }
        let i = self.place(drive, block)?;
        self.take_stroke()?;
        self.put_at(i, 0, bytes);
        Ok(())
    }

    // Besides what every rack promises: the memory stays, and only a stroke goes.
    fn flush(&mut self, drive: u16) -> Result<(), RackFault>
        ensures answers { result ≡ answer (flush_fault (shown self.old) drive) }
        ensures leaves { Leaves result (flushed (shown self.old) drive) (shown self.old) (shown self.new) }
        ensures keeps { self.new ≡ swept self.old drive }
    {
        if drive >= self.drives() {
            return Err(RackFault::NoPlace);
        }
        self.take_stroke()
    }
}
