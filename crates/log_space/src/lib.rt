// The log blocks that are used in a round, and where the next record goes.
//
// A warm store fills each log from block 0 on, so a count per drive says which blocks are used. Records go round the
// logs. Where the next one goes is decided in one place, `home`, which looks at the shape, the counts and the turn alone;
// nothing else depends on the choice but that the log has a free block. The shape is lent to the calls that look at it.
#![tactic(auto)]

ghost use Rattle.std.specs.Prelude.{◌≡◌, ℕ, ◌-◌, ◌<◌, ◌≤◌, ◌⊎◌};
ghost use Rattle.model.specs.Room.{free_in, is_full, next_log, home_in, also_used};
ghost use Rattle.frame.specs.Frames.{shape_in};

use frame::Frame;

// The blocks of each drive that are used in this round, and the log drive that is to take the next record.
#[derive(Clone, Copy)]
pub struct LogSpace {
    filled: [u16; 9],
    turn: u16,
}

// The log after this one, going round.
fn next_log(frame: &Frame, drive: u16) -> u16
    ensures { result ≡ next_log (shape_in frame.now).logs drive }
{
    drive % frame.logs() + 1
}

impl LogSpace {
    ghost use Rattle.log_space.specs.Views.{used_in};

    // At the start of a round no block is used, and the turn is drive 1's.
    pub fn fresh() -> LogSpace
        ensures used { (d : ℕ) → used_in result d ≡ 0 }
        ensures turn { result.turn ≡ 1 }
    {
        LogSpace {
            filled: [0; 9],
            turn: 1,
        }
    }

    // How many blocks of a drive are used: 0 where there is no such drive. `Frame::blocks` is the same line over other
    // counts.
    pub fn used(&self, drive: u16) -> u16
        ensures { result ≡ used_in self.now drive }
    {
        self.filled.get(drive as usize).copied().unwrap_or(0)
    }

    // How many blocks of a drive are free.
    fn free_on(&self, frame: &Frame, drive: u16) -> u16
        ensures { result ≡ (shape_in frame.now).blocks drive - used_in self.now drive }
    {
        frame.blocks(drive).saturating_sub(self.used(drive))
    }

    // How many blocks of all logs are free.
    pub fn free(&self, frame: &Frame) -> u32
        ensures { result ≡ free_in (shape_in frame.now) (used_in self.now) }
    {
        // a loop: the sum of an iterator over `1..=logs` takes half as long again
        let mut free = 0;
        for log in 0..frame.logs() {
            free += u32::from(self.free_on(frame, log + 1));
        }
        free
    }

    // Whether no block of a drive is free.
    fn is_full(&self, frame: &Frame, drive: u16) -> bool
        ensures { result ≡ is_full (shape_in frame.now) (used_in self.now) drive }
    {
        frame.blocks(drive) <= self.used(drive)
    }

    // The log that takes the next record: the first with a free block, from the one whose turn it is, going round.
    pub fn home(&self, frame: &Frame) -> u16
        ensures { result ≡ home_in (shape_in frame.now) (used_in self.now) self.now.turn }
    {
        // a `find` would want, for the case that every log is full, the turn once more and that the walk ends there
        let mut drive = self.turn;
        for _tried in 0..frame.logs() {
            if !self.is_full(frame, drive) {
                return drive;
            }
            drive = next_log(frame, drive);
        }
        drive
    }

    // The drive has taken a record, in its next block, and the turn passes to the log after it. A drive that there is
    // not, or one whose blocks cannot be counted any further, has no block used more.
    pub fn take(&mut self, frame: &Frame, drive: u16)
        ensures used { drive < 9 → used_in self.old drive < 65535 → (d : ℕ) → used_in self.new d ≡ also_used (used_in self.old) drive d }
        ensures rests { (9 ≤ drive) ⊎ (65535 ≤ used_in self.old drive) → (d : ℕ) → used_in self.new d ≡ used_in self.old d }
        ensures turn { self.new.turn ≡ next_log (shape_in frame.now).logs drive }
    {
        // by the index: of a write through `get_mut` the proof learns nothing
        let i = drive as usize;
        if i < self.filled.len() {
            self.filled[i] = self.filled[i].saturating_add(1);
        }
        self.turn = next_log(frame, drive);
    }
}
