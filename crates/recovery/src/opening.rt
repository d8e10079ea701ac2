// Open: the head, the rack's shape and the pages are looked at first, and only then are the marks filled.
ghost use Rattle.std.specs.Prelude.{◌≡◌, length, Some, MatchResult};
ghost use Rattle.model.specs.Store.{cold};
ghost use Rattle.model.specs.Outcome.{Does};
ghost use Rattle.model.specs.Recovery.{head_on, open_fault, opening as opening_of};
ghost use Rattle.recovery.specs.Views.{scan_in, opened_reply, opened_store, KeepsMarks};
ghost use Rattle.recovery.specs.Found.{Found};

use crate::{Cold, Collecting, Refused, Scan};
use drive_set::DriveSet;
use frame::Frame;
use later::Mark;
use model::Refusal;
use page_drive::{are_readable, head_on, read_pages};
use rack::Rack;

impl Scan {
    // What recovery knows at first of the store that stands on the rack, if one does and its pages can be read into so
    // many marks.
    fn of<R: Rack>(rack: &R, marks: usize) -> Result<Scan, Refusal>
        ensures { MatchResult result (λ s. Found (R.Rack.meaning rack.now) marks (scan_in s)) (λ f. open_fault (head_on (R.Rack.meaning rack.now)) marks (R.Rack.meaning rack.now) ≡ Some f) }
    {
        let head = head_on(rack).ok_or(Refusal::NoStore)?;
        let frame = Frame::of(rack, head.pages).ok_or(Refusal::NoStore)?;
        if head.logs != frame.logs() {
            return Err(Refusal::NoStore);
        }
        let scan = Scan {
            frame,
            round: head.round,
            numbers: [0; 256],
            taken: DriveSet::empty(),
        };
        scan.check_marks(marks)?;
        if !are_readable(rack, head.pages) {
            return Err(Refusal::PageUnreadable);
        }
        Ok(scan)
    }
}

impl Cold {
    // Reads the head and all pages; answers the round.
    pub fn open<R: Rack>(
        self,
        rack: &R,
        marks: &mut [Mark],
    ) -> Result<(Collecting, u32), Refused<Cold>>
        ensures does { Does (opening_of (length marks.old) (R.Rack.meaning rack.now)) cold (R.Rack.meaning rack.now) (opened_reply result) (opened_store result marks.new) (R.Rack.meaning rack.now) }
        ensures untouched { KeepsMarks result marks.old marks.new }
    {
        let scan = Scan::of(rack, marks.len()).map_err(|refusal| Refused {
            store: self,
            refusal,
        })?;
        read_pages(rack, scan.frame.pages(), marks);
        Ok((Collecting { scan }, scan.round))
    }
}
