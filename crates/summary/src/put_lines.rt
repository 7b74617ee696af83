// Writes the closing lines from the front of bytes that are long enough for any.
ghost use Rattle.std.specs.Prelude.{◌≤◌, length};
ghost use Rattle.summary.specs.ClosingText.{advanced_lines, not_loaded_lines, status_lines, stopped_lines};
ghost use Rattle.record.specs.Placing.{Placed};

use calls::{Cause, NotAdvanced, NotLoaded, Progress};
use meaning::Stop;
use record::{put_bytes, put_line};

// The lines of a text that is not loaded.
pub fn put_not_loaded(bytes: &mut [u8], text: NotLoaded) -> usize
    requires long { 81 ≤ length bytes.old }
    ensures placed { Placed (not_loaded_lines text) 0 bytes.old result bytes.new }
    ensures within { result ≤ 81 }
{
    let at = put_line(bytes, 0, b"refused=", usize::from(text.number()));
    let at = put_line(bytes, at, b"line=", text.line() as usize);
    put_line(bytes, at, b"word=", usize::from(text.word()))
}

// The verdict's line, and that of the count of states.
fn put_standing(bytes: &mut [u8], word: &[u8], states: usize) -> usize
    requires short { length word.now ≤ 13 }
    requires long { 81 ≤ length bytes.old }
    ensures placed { Placed (status_lines word.now states) 0 bytes.old result bytes.new }
    ensures within { result ≤ 50 }
{
    let at = put_bytes(bytes, 0, b"verdict=");
    let at = put_bytes(bytes, at, word);
    let at = put_bytes(bytes, at, b"\n");
    put_line(bytes, at, b"states=", states)
}

// The lines of a run that met a stop.
fn put_stopped(bytes: &mut [u8], cause: Cause) -> usize
    requires long { 81 ≤ length bytes.old }
    ensures placed { Placed (stopped_lines cause.state cause.stop) 0 bytes.old result bytes.new }
    ensures within { result ≤ 81 }
{
    let states = cause.state as usize;
    match cause.stop {
        Stop::Contradiction(statement) => {
            let at = put_standing(bytes, b"contradiction", states);
            put_line(bytes, at, b"statement=", usize::from(statement))
        }
        Stop::Undetermined(left) => {
            let at = put_standing(bytes, b"undetermined", states);
            put_line(bytes, at, b"variable=", usize::from(left.number()))
        }
        Stop::Crowded => put_standing(bytes, b"crowded", states),
    }
}

// The lines of an advance.
pub fn put_advanced(bytes: &mut [u8], answer: Result<Progress, NotAdvanced>) -> usize
    requires long { 81 ≤ length bytes.old }
    ensures placed { Placed (advanced_lines answer) 0 bytes.old result bytes.new }
    ensures within { result ≤ 81 }
{
    match answer {
        Ok(Progress::Finished(states)) => put_standing(bytes, b"finished", states),
        Ok(Progress::Open(states)) => put_standing(bytes, b"open", states),
        Err(NotAdvanced::Full(state)) => put_standing(bytes, b"full", state as usize),
        Err(NotAdvanced::Stopped(cause)) => put_stopped(bytes, cause),
        Err(NotAdvanced::Denied(_)) => 0,
    }
}
