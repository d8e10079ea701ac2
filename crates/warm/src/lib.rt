// The warm store: its table, at the start of a round.
//
// A warm store keeps all it knows in itself: the pages with their committed and working contents, the open sets, and how
// far each log is filled in this round. Its calls come next; today recovery makes one.
#![tactic(auto)]

ghost use Rattle.std.specs.Prelude.{◌≡◌};
ghost use Rattle.warm.specs.Views.{warm_in, fresh_warm};

use frame::Frame;
use log_space::LogSpace;
use open_sets::OpenSets;
use pages::Page;

// A store that takes changes.
#[derive(Drop)]
pub struct Warm {
    frame: Frame,
    round: u32,
    pages: [Page; 64],
    // the log blocks that are used in this round, and the turn
    space: LogSpace,
    // how many sets were begun and how many committed in this round
    begun: u8,
    commits: u8,
    sets: OpenSets,
    // a stroke was refused
    spoilt: bool,
}

impl Warm {
    // The store at the start of a round: nothing is open, numbers begin at 1, logs at block 0, and the turn is drive 1's.
    pub fn rested(frame: Frame, round: u32, pages: [Page; 64]) -> Warm
        ensures { warm_in result ≡ fresh_warm frame round pages }
    {
        Warm {
            frame,
            round,
            pages,
            space: LogSpace::fresh(),
            begun: 0,
            commits: 0,
            sets: OpenSets::none(),
            spoilt: false,
        }
    }
}
