// Carries readings from a feed of any kind into a recorder of any kind.
ghost use Rattle.std.specs.Prelude.{◌≡◌, ◌-◌, [], ◌∷◌, ◌++◌, if◌then◌else◌};
ghost use Rattle.makers.specs.Carried.{read_state};
ghost use Rattle.record.specs.Owned.{LeavesOwner};
ghost use Rattle.record.specs.Rules.{fitting};

use feed::Feed;
use record::{MOST_WIDTH, Recorder};
use std::array;

// Makes one state of the feed's readings for `state`, one for each place of the recorder's width, and has it taken.
pub fn copy_readings<F: Feed, R: Recorder>(feed: &F, state: usize, recorder: &mut R) -> bool
    ensures answer { result ≡ fitting (R.room_left recorder.old) (R.state_width recorder.old) (read_state (F.readings feed.now) state (R.state_width recorder.old)) }
    ensures listed { R.states recorder.new ≡ (if result then R.states recorder.old ++ read_state (F.readings feed.now) state (R.state_width recorder.old) ∷ [] else R.states recorder.old) }
    ensures wide { R.state_width recorder.new ≡ R.state_width recorder.old }
    ensures roomy { R.room_left recorder.new ≡ R.room_left recorder.old - (if result then 1 else 0) }
    ensures owner { LeavesOwner R.capacity R.memory_name R.written_length R.memory_at recorder.old recorder.new }
{
    let width = recorder.width();
    // There is no heap, so the values stand in an array of the largest width.
    let values: [i64; MOST_WIDTH] = array::from_fn(|variable| {
        if variable < width {
            feed.reading(variable, state).unwrap_or(0)
        } else {
            0
        }
    });
    recorder.take(&values[..width])
}
