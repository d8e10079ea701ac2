// Taking logs, each once and in any order: what collect and apply share, and the checks that calls share.
ghost use Rattle.std.specs.Prelude.{◌≡◌, ◌*◌, None, not, ◌&&◌, ◌==◌};
ghost use Rattle.rack.specs.Answers.{answer};
ghost use Rattle.rack.specs.declared.RackFault.TheVariants.{NoPlace};
ghost use Rattle.model.specs.declared.Refusal.TheVariants.{BadLog, BadLength, Rack};
ghost use Rattle.model.specs.Store.{fits};
ghost use Rattle.model.specs.Recovery.{is_log, untaken, when};
ghost use Rattle.recovery.specs.Views.{scan_in, log_in};

use crate::Scan;
use block::PAGE_BYTES;
use logs::Log;
use model::Refusal;
use rack::{Rack, RackFault};

impl Scan {
    // How many logs are still untaken.
    pub(crate) fn untaken(&self) -> u16
        ensures { result ≡ untaken (scan_in self.now).shape (scan_in self.now).taken }
    {
        self.frame.logs().saturating_sub(self.taken.count())
    }

    // Refused unless this is a log that is not taken yet.
    pub(crate) fn check_log(&self, log: u16) -> Result<(), Refusal>
        ensures { result ≡ answer (when (not (is_log (scan_in self.now).shape log && not ((scan_in self.now).taken log))) BadLog None) }
    {
        if (1..=self.frame.logs()).contains(&log) && !self.taken.has(log) {
            Ok(())
        } else {
            Err(Refusal::BadLog)
        }
    }

    // Refused unless every log is taken.
    pub(crate) fn check_all_taken(&self) -> Result<(), Refusal>
        ensures { result ≡ answer (when (not (untaken (scan_in self.now).shape (scan_in self.now).taken == 0)) BadLog None) }
    {
        if self.untaken() == 0 {
            Ok(())
        } else {
            Err(Refusal::BadLog)
        }
    }

    // Refused unless there is a mark for each byte of each page.
    pub(crate) fn check_marks(&self, marks: usize) -> Result<(), Refusal>
        ensures { result ≡ answer (when (not (marks == (scan_in self.now).shape.pages * 240)) BadLength None) }
    {
        if marks == self.frame.pages() as usize * PAGE_BYTES {
            Ok(())
        } else {
            Err(Refusal::BadLength)
        }
    }

    // Refused unless the rack still has the store's shape.
    pub(crate) fn check_rack<R: Rack>(&self, rack: &R) -> Result<(), Refusal>
        ensures { result ≡ answer (when (not (fits (scan_in self.now).shape (R.Rack.meaning rack.now))) (Rack NoPlace) None) }
    {
        if self.frame.fits(rack) {
            Ok(())
        } else {
            Err(RackFault::NoPlace.into())
        }
    }

    // The log on a drive.
    pub(crate) fn log(&self, drive: u16) -> Log
        ensures { result ≡ log_in (scan_in self.now) drive }
    {
        Log {
            drive,
            blocks: self.frame.blocks(drive),
            round: self.round,
            pages: self.frame.pages(),
        }
    }
}
