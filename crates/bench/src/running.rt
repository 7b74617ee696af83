// A run from its first state to its end.
use engine::{Engine, MOST_ASKED, NotAdvanced, Progress};
use feed::Feed;
use record::Recorder;

// So many advances fill any recorder.
const ADVANCES: u32 = 66;

// Runs the sheet that the engine holds until the run is no longer open or the recorder has no room. Says what the last advance answered.
pub fn run<F: Feed, R: Recorder>(
    engine: &mut Engine,
    feed: &F,
    recorder: &mut R,
) -> Result<Progress, NotAdvanced> {
    let _ = engine.abandon();
    engine.begin(recorder).map_err(NotAdvanced::Denied)?;
    for _ in 0..ADVANCES {
        match engine.advance(MOST_ASKED, feed, recorder) {
            Ok(Progress::Open(_)) => {}
            answer => return answer,
        }
    }
    Ok(Progress::Open(recorder.count()))
}
