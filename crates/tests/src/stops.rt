// The stop that the tests of closing lines and of answers tell.
use calls::Cause;
use meaning::Stop;

// A stop at state 7.
pub(crate) fn stopped(stop: Stop) -> Cause {
    Cause { stop, state: 7 }
}
