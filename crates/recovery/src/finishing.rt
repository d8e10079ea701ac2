// Finish: the round ends with the pages that recovery found, and the store is warm.
ghost use Rattle.std.specs.Prelude.{◌≡◌};
ghost use Rattle.rack.specs.Answers.{answer};
ghost use Rattle.drive_set.specs.Sets.{tally};
ghost use Rattle.model.specs.Store.{applying as applying_store};
ghost use Rattle.model.specs.Outcome.{Does};
ghost use Rattle.model.specs.Rounds.{finish_fault, finishing as finishing_of, is_named};
ghost use Rattle.recovery.specs.Views.{applying_in};
ghost use Rattle.recovery.specs.Finish.{finished_reply, finished_store};

use crate::gathering::count_committed;
use crate::{Applying, Cold, Finished, Refused, Unfinished};
use block::Head;
use later::Mark;
use model::Refusal;
use rack::Rack;
use table::{end_round, found_pages};
use warm::Warm;

impl Applying {
    // How many pages are named.
    fn count_named(&self) -> u16
        ensures { result ≡ tally (is_named (applying_in self.now)) (applying_in self.now).shape.pages }
    {
        let pages = usize::from(self.scan.frame.pages());
        self.named[..pages].iter().filter(|named| **named).count() as u16
    }

    // Refused where recovery cannot end with so many marks.
    fn check_end<R: Rack>(&self, rack: &R, marks: usize) -> Result<(), Refusal>
        ensures { result ≡ answer (finish_fault (applying_in self.now) marks (R.Rack.meaning rack.now)) }
    {
        self.scan.check_all_taken()?;
        self.scan.check_marks(marks)?;
        if self.scan.round == u32::MAX {
            return Err(Refusal::LastRound);
        }
        self.scan.check_rack(rack)
    }

    // Ends the round with the pages found; answers the committed sets and the pages written. Where strokes run out the
    // store is cold.
    pub fn finish<R: Rack>(self, rack: &mut R, marks: &[Mark]) -> Result<Finished, Unfinished>
        ensures { Does (finishing_of (applying_in self) marks.now (R.Rack.meaning rack.old)) (applying_store (applying_in self) marks.now) (R.Rack.meaning rack.old) (finished_reply result) (finished_store result marks.now) (R.Rack.meaning rack.new) }
    {
        // no `map_err` with `?`: its closure would take the store, which is needed below
        if let Err(refusal) = self.check_end(rack, marks.len()) {
            return Err(Unfinished::Refused(Refused {
                store: self,
                refusal,
            }));
        }
        let pages = self.scan.frame.pages();
        let head = Head {
            pages,
            round: self.scan.round,
            logs: self.scan.frame.logs(),
        };
        let table = found_pages(marks, pages);
        // a `match`: with `map_err` and `?` the 31 KB of the table would lie on the stack once more
        match end_round(rack, head, &self.named, &table) {
            Ok(()) => Ok(Finished {
                store: Warm::rested(self.scan.frame, self.scan.round + 1, table),
                sets: count_committed(&self.scan.numbers),
                pages: self.count_named(),
            }),
            Err(_) => Err(Unfinished::OutOfStrokes(Cold)),
        }
    }
}
