// An applying store: it takes the change records of each log once, in any order, into the caller's marks.
ghost use Rattle.std.specs.Prelude.{◌≡◌};
ghost use Rattle.rack.specs.Answers.{answer};
ghost use Rattle.model.specs.Store.{applying as applying_store};
ghost use Rattle.model.specs.Outcome.{Does};
ghost use Rattle.model.specs.Recovery.{apply_fault, apply_of};
ghost use Rattle.model.specs.Laws.{AnyOrder, LargestStays};
ghost use Rattle.recovery.specs.Views.{applying_in, number_reply};

use crate::Applying;
use later::Mark;
use model::Refusal;
use rack::Rack;

impl Applying {
    // Refused where a log cannot be taken into so many marks.
    fn check<R: Rack>(&self, rack: &R, log: u16, marks: usize) -> Result<(), Refusal>
        ensures { result ≡ answer (apply_fault (applying_in self.now) marks log (R.Rack.meaning rack.now)) }
    {
        self.scan.check_log(log)?;
        self.scan.check_marks(marks)?;
        self.scan.check_rack(rack)
    }

    // Takes the change records of a log into the marks; answers how many logs are still untaken. In which order the logs
    // are taken does not count, and each byte ends with the mark of the largest stamp.
    pub fn apply<R: Rack>(&mut self, rack: &R, log: u16, marks: &mut [Mark]) -> Result<u16, Refusal>
        ensures any_order { AnyOrder }
        ensures largest_stays { LargestStays }
        ensures does { Does (apply_of (applying_in self.old) marks.old log (R.Rack.meaning rack.now)) (applying_store (applying_in self.old) marks.old) (R.Rack.meaning rack.now) (number_reply result) (applying_store (applying_in self.new) marks.new) (R.Rack.meaning rack.now) }
    {
        self.check(rack, log, marks.len())?;
        self.scan
            .log(log)
            .apply(rack, &self.scan.numbers, marks, &mut self.named);
        self.scan.taken = self.scan.taken.with(log);
        Ok(self.scan.untaken())
    }
}
