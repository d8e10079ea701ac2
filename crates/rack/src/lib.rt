// A rack of drives, as an interface.
//
// A rack is drive 0, which holds the pages, and log drives from 1 on. Each drive has blocks of 512 bytes.
// What a rack is, is its `meaning`: for each block the settled value and the values written since, and the
// strokes (writes and flushes) that are left. Every call is promised by what it makes of the meaning, so code
// over `R: Rack` is proved once, for every rack. `survives` says what a fresh rack like this one may show after
// a power cut, and `cut` proves that the cut rule allows it.
#![tactic(auto)]

ghost use Rattle.std.specs.Prelude.{◌≡◌, length};
ghost use Rattle.rack.specs.Meaning.{Meaning, newest, written, flushed};
ghost use Rattle.rack.specs.Cut.{Cut};
ghost use Rattle.rack.specs.Answers.{write_fault, read_fault, flush_fault, answer, blocks_answer, fetched, Leaves, fault_number};

pub mod shape;

// Why a rack or a layer turns a call down; each has its number in the table of refusals.
#[derive(Clone, Copy, PartialEq, Eq, Debug)]
pub enum RackFault {
    // a write or a flush with no stroke left
    NoStroke = 31,
    // no such drive or block
    NoPlace = 32,
    // a read of an unreadable block
    Unreadable = 33,
    // a buffer that is not 512 bytes long
    BadLength = 34,
    // a drive with fewer blocks than are to be hidden
    TooSmall = 35,
    // a shape that is too large, or memory that does not fit it
    BadShape = 36,
}

impl RackFault {
    // The fault's number in the table of refusals.
    pub fn number(self) -> u8
        ensures { result ≡ fault_number self }
    {
        self as u8
    }
}

// A rack is asked by the number of a drive and of a block, as two plain numbers: a struct round them would have to be
// made at each call and be taken apart in each clause.
pub trait Rack {
    ghost meaning: { Self → Meaning };

    ghost survives: { Self → Meaning → Type 0 };

    ghost cut: { (s : Self) (m : Meaning) → survives s m → Cut (meaning s) m };

    // How many drives there are.
    fn drives(&self) -> u16
        ensures { result ≡ (meaning self.now).count };

    // How many blocks a drive has.
    fn blocks(&self, drive: u16) -> Result<u16, RackFault>
        ensures { result ≡ blocks_answer (meaning self.now) drive };

    // How many writes and flushes can still be made.
    fn strokes_left(&self) -> u64
        ensures { result ≡ (meaning self.now).left };

    // The newest value of a block, into the buffer; a refusal leaves the buffer as it was.
    fn read(&self, drive: u16, block: u16, buf: &mut [u8]) -> Result<(), RackFault>
        ensures answers { result ≡ answer (read_fault (meaning self.now) drive block (length buf.old)) }
        ensures fills { buf.new ≡ fetched result (newest ((meaning self.now).slot drive block)) buf.old };

    // One value more for a block.
    fn write(&mut self, drive: u16, block: u16, bytes: &[u8]) -> Result<(), RackFault>
        ensures answers { result ≡ answer (write_fault (meaning self.old) drive block (length bytes.now)) }
        ensures leaves { Leaves result (written (meaning self.old) drive block bytes.now) (meaning self.old) (meaning self.new) };

    // Settles the newest value of each block of a drive.
    fn flush(&mut self, drive: u16) -> Result<(), RackFault>
        ensures answers { result ≡ answer (flush_fault (meaning self.old) drive) }
        ensures leaves { Leaves result (flushed (meaning self.old) drive) (meaning self.old) (meaning self.new) };
}
