// The call that settles states.
ghost use Rattle.std.specs.Prelude.{◌≡◌, ◌<◌, true, false, length, vec_len, Ok as ok, Err as err, ◌&&◌, ◌==◌, if◌then◌else◌};
ghost use Rattle.record.specs.Rules.{all_small};
ghost use Rattle.meaning.specs.Intervals.{under};
ghost use Rattle.board.specs.Work.{work_of};
ghost use Rattle.sheet.specs.ContentOf.{content_of};
ghost use Rattle.calls.specs.declared.answers.Condition.TheVariants.{Open as is_open, Ended as ended_so};
ghost use Rattle.calls.specs.declared.answers.Ending.TheVariants.{Finished as finished_so, Stopped as stop_so};
ghost use Rattle.calls.specs.declared.answers.Cause.{Cause as Met};
ghost use Rattle.calls.specs.declared.answers.Denial.{Denial};
ghost use Rattle.calls.specs.declared.answers.NotAdvanced.TheVariants.{Denied as denied_so, Stopped as stopped_so};
ghost use Rattle.calls.specs.Calls.{Advances, Settled};
ghost use Rattle.calls.specs.Standing.{recording, with_state};
ghost use Rattle.calls.specs.Published.{published, to_advance};
ghost use Rattle.engine.specs.Meant.{meant};
ghost use Rattle.engine.specs.Advancing.{OneMore, WritesOn};

use crate::engine::Engine;
use crate::events::{Event, admit};
use calls::{Cause, Condition, Ending, NotAdvanced, Progress};
use feed::Feed;
use record::Recorder;

// The condition after a settled state.
fn following(last: bool) -> Condition
    ensures { result ≡ (if last then ended_so finished_so else is_open) }
{
    if last {
        Condition::Ended(Ending::Finished)
    } else {
        Condition::Open
    }
}

// Has a state recorded for which there is room and that fits.
fn take_state<R: Recorder>(recorder: &mut R, state: &[i64])
    requires room { 0 < R.room_left recorder.old }
    requires wide { length state.now ≡ R.state_width recorder.old }
    requires small { all_small state.now ≡ true }
    ensures recorded { recording R.states R.state_width R.room_left recorder.new ≡ with_state state.now (recording R.states R.state_width R.room_left recorder.old) }
    ensures owner { WritesOn R.capacity R.memory_name R.written_length R.memory_at recorder.old recorder.new }
{
    let _ = recorder.take(state);
}

impl Engine {
    // Settles and records up to so many states more.
    pub fn advance<F: Feed, R: Recorder>(
        &mut self,
        states: usize,
        feed: &F,
        recorder: &mut R,
    ) -> Result<Progress, NotAdvanced>
        ensures outcome { Advances (F.readings feed.now) states (meant self.old) (recording R.states R.state_width R.room_left recorder.old) (published (to_advance result)) (meant self.new) (recording R.states R.state_width R.room_left recorder.new) }
        ensures owner { WritesOn R.capacity R.memory_name R.written_length R.memory_at recorder.old recorder.new }
        ensures denied { (d : Denial) → result ≡ err (denied_so d) → recorder.new ≡ recorder.old }
        ensures stopped { (c : Met) → result ≡ err (stopped_so c) → self.new.condition ≡ ended_so (stop_so c) }
    {
        let own = self.owns(recorder);
        admit(&mut self.condition, Event::Advance(states, own)).map_err(NotAdvanced::Denied)?;
        self.go_on(states, feed, recorder)
    }

    // Settles and records up to so many states more of the open run, whose recorder this is.
    fn go_on<F: Feed, R: Recorder>(
        &mut self,
        states: usize,
        feed: &F,
        recorder: &mut R,
    ) -> Result<Progress, NotAdvanced>
        requires open { self.old.condition ≡ is_open }
        requires wide { R.state_width recorder.old ≡ vec_len self.old.loader.sheet.tables.variables }
        requires counted { length (R.states recorder.old) ≡ self.old.settler.state }
        ensures settled { Settled (under (content_of self.old.loader.sheet) (F.readings feed.now)) states (recording R.states R.state_width R.room_left recorder.old) (work_of self.old.settler.board) (published (to_advance result)) (meant self.new).standing (recording R.states R.state_width R.room_left recorder.new) }
        ensures sheet { self.new.loader ≡ self.old.loader }
        ensures owner { WritesOn R.capacity R.memory_name R.written_length R.memory_at recorder.old recorder.new }
        ensures granted { (d : Denial) → result ≡ err (denied_so d) → ⊥ }
        ensures stopped { (c : Met) → result ≡ err (stopped_so c) → self.new.condition ≡ ended_so (stop_so c) }
    {
        for _i in 0..states {
            if self.record_state(feed, recorder)? {
                return Ok(Progress::Finished(recorder.count()));
            }
        }
        Ok(Progress::Open(recorder.count()))
    }

    // Whether the recorder's width and count are the run's.
    fn owns<R: Recorder>(&self, recorder: &R) -> bool
        ensures { result ≡ (R.state_width recorder.now == vec_len self.now.loader.sheet.tables.variables && length (R.states recorder.now) == self.now.settler.state) }
    {
        let sheet = self.loader.sheet();
        recorder.width() == sheet.tables.variables.len()
            && recorder.count() == self.settler.state() as usize
    }

    // Settles one state and has it recorded. Says whether it is the last.
    fn record_state<F: Feed, R: Recorder>(
        &mut self,
        feed: &F,
        recorder: &mut R,
    ) -> Result<bool, NotAdvanced>
        requires open { self.old.condition ≡ is_open }
        requires wide { R.state_width recorder.old ≡ vec_len self.old.loader.sheet.tables.variables }
        requires counted { length (R.states recorder.old) ≡ self.old.settler.state }
        ensures one { OneMore (under (content_of self.old.loader.sheet) (F.readings feed.now)) (recording R.states R.state_width R.room_left recorder.old) (work_of self.old.settler.board) result (meant self.new).standing (recording R.states R.state_width R.room_left recorder.new) }
        ensures sheet { self.new.loader ≡ self.old.loader }
        ensures open { result ≡ ok false → self.new.condition ≡ is_open }
        ensures wide { R.state_width recorder.new ≡ R.state_width recorder.old }
        ensures counted { result ≡ ok false → length (R.states recorder.new) ≡ self.new.settler.state }
        ensures owner { WritesOn R.capacity R.memory_name R.written_length R.memory_at recorder.old recorder.new }
        ensures granted { (d : Denial) → result ≡ err (denied_so d) → ⊥ }
        ensures stopped { (c : Met) → result ≡ err (stopped_so c) → self.new.condition ≡ ended_so (stop_so c) }
    {
        let state = self.settler.state();
        if recorder.room() == 0 {
            return Err(NotAdvanced::Full(state));
        }
        let sheet = self.loader.sheet();
        match self.settler.step(sheet, feed) {
            Ok(settled) => {
                take_state(recorder, &settled.numbers[..sheet.tables.variables.len()]);
                self.condition = following(settled.last);
                Ok(settled.last)
            }
            Err(stop) => {
                let cause = Cause { stop, state };
                self.condition = Condition::Ended(Ending::Stopped(cause));
                Err(NotAdvanced::Stopped(cause))
            }
        }
    }
}
