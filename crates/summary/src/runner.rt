// Runs the sheet of a text from the first state on, into a recorder of any kind.
ghost use Rattle.std.specs.Prelude.{◌≡◌};
ghost use Rattle.calls.specs.Standing.{idle, recording};
ghost use Rattle.calls.specs.Published.{published, to_advance};
ghost use Rattle.engine.specs.Meant.{meant};
ghost use Rattle.record.specs.Owned.{LeavesOwner};
ghost use Rattle.load.specs.Parsing.{parse_sheet};
ghost use Rattle.summary.specs.Shown.{RunOrRefusal, FromTheFirst};

use crate::closing::Closing;
use engine::{Engine, NotAdvanced, Progress};
use feed::Feed;
use record::Recorder;

// Begins a run of the sheet that the engine holds, and advances it once.
fn run<F: Feed, R: Recorder>(
    engine: &mut Engine,
    states: usize,
    feed: &F,
    recorder: &mut R,
) -> Result<Progress, NotAdvanced>
    requires idle { (meant engine.old).standing ≡ idle }
    ensures whole { FromTheFirst (meant engine.old).sheet (F.readings feed.now) states (R.capacity recorder.old) (published (to_advance result)) (meant engine.new).standing (recording R.states R.state_width R.room_left recorder.new) }
    ensures sheet { (meant engine.new).sheet ≡ (meant engine.old).sheet }
    ensures owner { LeavesOwner R.capacity R.memory_name R.written_length R.memory_at recorder.old recorder.new }
{
    engine.begin(recorder).map_err(NotAdvanced::Denied)?;
    engine.advance(states, feed, recorder)
}

// Runs the sheet that a text spells, or says why the text is refused. A run that the engine has open is given up.
pub(crate) fn run_text<F: Feed, R: Recorder>(
    engine: &mut Engine,
    text: &[u8],
    states: usize,
    feed: &F,
    recorder: &mut R,
) -> Closing
    ensures come { RunOrRefusal (parse_sheet text.now) (F.readings feed.now) states (R.capacity recorder.old) (recording R.states R.state_width R.room_left recorder.old) result (recording R.states R.state_width R.room_left recorder.new) (meant engine.old) (meant engine.new) }
    ensures owner { LeavesOwner R.capacity R.memory_name R.written_length R.memory_at recorder.old recorder.new }
{
    let _ = engine.abandon();
    match engine.load(text) {
        Ok(()) => Closing::Advanced(run(engine, states, feed, recorder)),
        Err(reason) => Closing::NotLoaded(reason),
    }
}
