// What is to be told at the end, and its lines in the caller's bytes.
ghost use Rattle.std.specs.Prelude.{◌≡◌, ◌++◌, ◌≤◌, if◌then◌else◌, drop, length, nat_le};
ghost use Rattle.summary.specs.ClosingText.{closing_text};

use crate::put_lines::{put_advanced, put_not_loaded};
use calls::{NotAdvanced, NotLoaded, Progress};
use record::put_bytes;

// No closing lines have more bytes, as no number has more than 20 digits.
pub const MOST_CLOSING: usize = 81;

// What is to be told at the end: that a text was not loaded, or what the last advance answered.
// Others would call the word behind `verdict=` the outcome of the run.
#[derive(Clone, Copy, Debug, PartialEq, Eq)]
pub enum Closing {
    // the text was not loaded
    NotLoaded(NotLoaded),
    // a run was advanced, or its advance was denied
    Advanced(Result<Progress, NotAdvanced>),
}

// Writes the closing lines to the front of the bytes, and says their length; 0 with nothing written where they do not fit.
// A denied advance has no lines: the answer is 0 then, too, and nothing is written. `MOST_CLOSING` bytes are room for any lines.
pub fn closing_lines(closing: Closing, bytes: &mut [u8]) -> usize
    ensures short { length (closing_text closing) ≤ 81 }
    ensures most { MOST_CLOSING ≡ 81 }
    ensures answer { result ≡ (if nat_le (length (closing_text closing)) (length bytes.old) then length (closing_text closing) else 0) }
    ensures written { bytes.new ≡ (if nat_le (length (closing_text closing)) (length bytes.old) then closing_text closing ++ drop (length (closing_text closing)) bytes.old else bytes.old) }
{
    let mut lines = [0u8; MOST_CLOSING];
    let length = match closing {
        Closing::NotLoaded(text) => put_not_loaded(&mut lines, text),
        Closing::Advanced(answer) => put_advanced(&mut lines, answer),
    };
    if length <= bytes.len() {
        put_bytes(bytes, 0, &lines[..length])
    } else {
        0
    }
}
