// Fills a recorder of any kind.
ghost use Rattle.std.specs.Prelude.{◌≡◌, ◌-◌, length, if◌then◌else◌};
ghost use Rattle.makers.specs.Carried.{filled};
ghost use Rattle.record.specs.Owned.{LeavesOwner};
ghost use Rattle.record.specs.Rules.{allowed_width};

use record::Recorder;

// Starts the recorder and offers it the states of a flat slice one after another, up to the first that it denies.
// Says how many it took. A width that is not allowed leaves the recorder as it was.
pub fn fill<R: Recorder>(recorder: &mut R, numbers: &[i64], width: usize) -> usize
    ensures answer { result ≡ (if allowed_width width then length (filled (R.capacity recorder.old width) width numbers.now) else 0) }
    ensures listed { R.states recorder.new ≡ (if allowed_width width then filled (R.capacity recorder.old width) width numbers.now else R.states recorder.old) }
    ensures wide { R.state_width recorder.new ≡ (if allowed_width width then width else R.state_width recorder.old) }
    ensures roomy { R.room_left recorder.new ≡ (if allowed_width width then R.capacity recorder.old width - result else R.room_left recorder.old) }
    ensures owner { LeavesOwner R.capacity R.memory_name R.written_length R.memory_at recorder.old recorder.new }
{
    if !recorder.start(width) {
        return 0;
    }
    for state in numbers.chunks_exact(width) {
        if !recorder.take(state) {
            break;
        }
    }
    recorder.count()
}
