// Duties that are added and carried.
ghost use Rattle.std.specs.Prelude.{◌≡◌};
ghost use Rattle.meaning.specs.Effects.{add as adding, carry as carrying};
ghost use Rattle.board.specs.Outcomes.{outcome_of};
ghost use Rattle.board.specs.Work.{work_of};

use crate::board::Board;
use meaning::{Duty, Stop};

impl Board {
    // Adds a duty to this state's list, once.
    pub fn add(&mut self, duty: Duty) -> Result<bool, Stop>
        ensures { outcome_of result (work_of self.new) ≡ adding duty (work_of self.old) }
    {
        self.duties.add_once(duty)
    }

    // Carries a duty to the next state, once.
    pub fn carry(&mut self, duty: Duty) -> Result<bool, Stop>
        ensures { outcome_of result (work_of self.new) ≡ carrying duty (work_of self.old) }
    {
        self.carried.add_once(duty)
    }
}
