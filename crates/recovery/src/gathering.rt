// A collecting store: it takes the commit records of each log once, in any order, and turns when all are taken.
ghost use Rattle.std.specs.Prelude.{◌≡◌, List};
ghost use Rattle.later.specs.declared.Mark.{Mark};
ghost use Rattle.rack.specs.Answers.{answer};
ghost use Rattle.rack.specs.Meaning.{Meaning};
ghost use Rattle.model.specs.Store.{collecting as collecting_store};
ghost use Rattle.model.specs.Outcome.{Does};
ghost use Rattle.model.specs.Recovery.{collect_fault, collect_of, turning, committed};
ghost use Rattle.recovery.specs.Views.{collecting_in, number_reply, turned_reply, turned_store};

use crate::{Applying, Collecting, Refused, Scan};
use drive_set::DriveSet;
use model::Refusal;
use rack::Rack;

// How many sets have a commit number.
pub(crate) fn count_committed(numbers: &[u8; 256]) -> u16
    ensures { result ≡ committed numbers.now }
{
    numbers.iter().filter(|n| **n != 0).count() as u16
}

impl Collecting {
    // Refused where a log cannot be taken, whatever stands on it.
    fn check<R: Rack>(&self, rack: &R, log: u16) -> Result<(), Refusal>
        ensures { result ≡ answer (collect_fault (collecting_in self.now) log (R.Rack.meaning rack.now)) }
    {
        self.scan.check_log(log)?;
        self.scan.check_rack(rack)
    }

    // Takes the commit records of a log; answers how many logs are still untaken.
    pub fn collect<R: Rack>(&mut self, rack: &R, log: u16) -> Result<u16, Refusal>
        ensures { (ks : List Mark) → Does (collect_of (collecting_in self.old) ks log (R.Rack.meaning rack.now)) (collecting_store (collecting_in self.old) ks) (R.Rack.meaning rack.now) (number_reply result) (collecting_store (collecting_in self.new) ks) (R.Rack.meaning rack.now) }
    {
        self.check(rack, log)?;
        // a log that is refused leaves the numbers half taken, so a copy takes them
        let mut numbers = self.scan.numbers;
        self.scan.log(log).collect(rack, &mut numbers)?;
        self.scan.numbers = numbers;
        self.scan.taken = self.scan.taken.with(log);
        Ok(self.scan.untaken())
    }

    // Ends collecting, once all logs are taken; answers how many sets are committed.
    pub fn turn(self) -> Result<(Applying, u16), Refused<Collecting>>
        ensures { (ks : List Mark) (m : Meaning) → Does (turning (collecting_in self) ks) (collecting_store (collecting_in self) ks) m (turned_reply result) (turned_store result ks) m }
    {
        // no `map_err` with `?`: its closure would take the store, which is needed below
        if let Err(refusal) = self.scan.check_all_taken() {
            return Err(Refused {
                store: self,
                refusal,
            });
        }
        let sets = count_committed(&self.scan.numbers);
        let scan = Scan {
            taken: DriveSet::empty(),
            ..self.scan
        };
        let named = [false; 64];
        Ok((Applying { scan, named }, sets))
    }
}
