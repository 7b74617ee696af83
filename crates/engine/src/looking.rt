// What is recorded, and what sheet is held.
ghost use Rattle.std.specs.Prelude.{◌≡◌};
ghost use Rattle.load.specs.Naming.{NameOf};
ghost use Rattle.calls.specs.Calls.{look_of};
ghost use Rattle.calls.specs.Standing.{recording};
ghost use Rattle.calls.specs.Published.{published, to_look};
ghost use Rattle.engine.specs.Meant.{meant};

use crate::engine::Engine;
use calls::Denial;
use load::Sheet;
use record::Recorder;

impl Engine {
    // The number of a variable in a state of a recorder, in any condition of the engine.
    pub fn look<R: Recorder>(
        &self,
        recorder: &R,
        state: usize,
        variable: usize,
    ) -> Result<i64, Denial>
        ensures { published (to_look result) ≡ look_of (recording R.states R.state_width R.room_left recorder.now) state variable }
    {
        if state >= recorder.count() {
            return Err(Denial::NoSuchState);
        }
        recorder.look(state, variable).ok_or(Denial::NoSuchVariable)
    }

    // The sheet that is held.
    pub fn sheet(&self) -> &Sheet
        ensures { result.now ≡ self.now.loader.sheet }
    {
        self.loader.sheet()
    }

    // The name of variable `k` of the sheet that a text spells, as the text's own bytes. None where the text is no sheet or has no such variable.
    pub fn variable_name<'a>(&mut self, text: &'a [u8], k: usize) -> Option<&'a [u8]>
        ensures name { NameOf text.entry k result }
        ensures same { meant self.new ≡ meant self.old }
    {
        self.loader.variable_name(text, k)
    }
}
