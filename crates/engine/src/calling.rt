// The calls on an engine that settle no state.
ghost use Rattle.std.specs.Prelude.{◌≡◌, ℕ, IfOk, Ok as ok, Err as err};
ghost use Rattle.sheet.specs.Tables.{first_sheet};
ghost use Rattle.record.specs.Owned.{LeavesOwner};
ghost use Rattle.calls.specs.AnyOrder.{AdvancesAgree};
ghost use Rattle.calls.specs.declared.answers.Denial.{Denial as Reason};
ghost use Rattle.calls.specs.Calls.{Loads, Begins, Abandons, report_of};
ghost use Rattle.calls.specs.Standing.{idle, recording};
ghost use Rattle.calls.specs.Published.{published, to_load, to_begin, to_abandon};
ghost use Rattle.engine.specs.Meant.{meant};
ghost use Rattle.engine.specs.Law.{LawOfRuns};

use crate::engine::Engine;
use crate::events::{Event, admit};
use calls::{Condition, Denial, NotLoaded, Report};
use load::Loader;
use record::Recorder;
use settling::Settler;
use std::alloc::{AllocError, Global};

impl Engine {
    // An idle engine that holds the sheet `var=a 0 0`, `stmt=empty`, `run=0`. Nothing allocates after this.
    // Every run of it, and of any other engine, keeps the law of runs. Advances that go on by the rules of settling, each in whichever order, record the same and answer alike.
    pub fn new(heap: Global) -> Result<Engine, AllocError>
        ensures holds { IfOk result (λ e. meant e ≡ record { sheet = first_sheet; standing = idle }) }
        ensures runs { LawOfRuns }
        ensures order { AdvancesAgree }
    {
        let loader = Loader::new(heap)?;
        let settler = Settler::new(heap)?;
        Ok(Engine {
            loader,
            settler,
            condition: Condition::Idle,
        })
    }

    // Loads the sheet that a text spells, and is idle then. Denied while a run is open.
    pub fn load(&mut self, text: &[u8]) -> Result<(), NotLoaded>
        ensures { Loads text.now (meant self.old) (published (to_load result)) (meant self.new) }
    {
        admit(&mut self.condition, Event::Load).map_err(|_| NotLoaded::RunIsOpen)?;
        self.loader.load(text).map_err(NotLoaded::Refused)?;
        self.condition = Condition::Idle;
        Ok(())
    }

    // Starts the recorder for the sheet that is held, and opens a run. Denied while a run is open.
    pub fn begin<R: Recorder>(&mut self, recorder: &mut R) -> Result<(), Denial>
        ensures outcome { Begins (R.capacity recorder.old) (meant self.old) (recording R.states R.state_width R.room_left recorder.old) (published (to_begin result)) (meant self.new) (recording R.states R.state_width R.room_left recorder.new) }
        ensures untouched { (k : ℕ) → R.memory_at recorder.new k ≡ R.memory_at recorder.old k }
        ensures owner { LeavesOwner R.capacity R.memory_name R.written_length R.memory_at recorder.old recorder.new }
        ensures reached { result ≡ ok tt → R.written_length recorder.new ≡ 0 }
        ensures denied { (d : Reason) → result ≡ err d → recorder.new ≡ recorder.old }
    {
        admit(&mut self.condition, Event::Begin)?;
        let sheet = self.loader.sheet();
        let _ = recorder.start(sheet.tables.variables.len());
        self.settler.begin(sheet.run);
        self.condition = Condition::Open;
        Ok(())
    }

    // Gives the open run up.
    pub fn abandon(&mut self) -> Result<(), Denial>
        ensures { Abandons (meant self.old) (published (to_abandon result)) (meant self.new) }
    {
        admit(&mut self.condition, Event::Abandon)
    }

    // The engine's condition, with the count of states where a run is open.
    pub fn report(&self) -> Report
        ensures { result ≡ report_of (meant self.now).standing }
    {
        match self.condition {
            Condition::Idle => Report::Idle,
            Condition::Open => Report::Open(self.settler.state()),
            Condition::Ended(ending) => Report::Ended(ending),
        }
    }
}
