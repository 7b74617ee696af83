// How what is recorded is looked up in tests of either recorder.
use record::Recorder;
use std::process::Abort;

// Checks what stands at each state and variable.
pub(crate) fn looks<R: Recorder>(
    rt: &impl Abort,
    recorder: &R,
    rows: &[(usize, usize, Option<i64>)],
) {
    for (state, variable, value) in rows {
        assert_eq!(rt; recorder.look(*state, *variable), *value);
    }
}
