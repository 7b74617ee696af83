// What comes of a text, in the caller's numbers or bytes.
ghost use Rattle.std.specs.Prelude.{◌≤◌, length, take};
ghost use Rattle.engine.specs.Meant.{meant};
ghost use Rattle.load.specs.Parsing.{parse_sheet};
ghost use Rattle.summary.specs.Shown.{WritesFront, InNumbers, InText, Printed};

use crate::closing::{Closing, closing_lines};
use crate::runner::run_text;
use engine::Engine;
use feed::Feed;
use record::{Recorder, TableRecorder, TextRecorder};

// Runs the sheet that a text spells, and has its record as a table at the front of the numbers.
// Says the table's width, and what the run came to, or why the text is refused. A run that the engine has open is given up.
pub fn record_numbers<F: Feed>(
    engine: &mut Engine,
    text: &[u8],
    states: usize,
    feed: &F,
    numbers: &mut [i64],
) -> (usize, Closing)
    ensures { InNumbers (parse_sheet text.now) (F.readings feed.now) states result.0 numbers.old numbers.new result.1 (meant engine.old) (meant engine.new) }
{
    let mut recorder = TableRecorder::new(numbers);
    let closing = run_text(engine, text, states, feed, &mut recorder);
    (recorder.width(), closing)
}

// Runs the sheet that a text spells, and has its record as text at the front of the bytes.
// Says the text's length, and what the run came to, or why the text is refused. A run that the engine has open is given up.
pub fn record_text<F: Feed>(
    engine: &mut Engine,
    text: &[u8],
    states: usize,
    feed: &F,
    bytes: &mut [u8],
) -> (usize, Closing)
    ensures { InText (parse_sheet text.now) (F.readings feed.now) states result.0 bytes.old bytes.new result.1 (meant engine.old) (meant engine.new) }
{
    let mut recorder = TextRecorder::new(bytes);
    let closing = run_text(engine, text, states, feed, &mut recorder);
    (recorder.length(), closing)
}

// Runs the sheet that a text spells, and has its record and the closing lines written; or the lines that say why the text is refused.
// Says how long the record and the lines are. A run that the engine has open is given up.
pub fn show<F: Feed>(
    engine: &mut Engine,
    text: &[u8],
    states: usize,
    feed: &F,
    record: &mut [u8],
    closing: &mut [u8],
) -> (usize, usize)
    ensures shown { 81 ≤ length closing.old → Printed (parse_sheet text.now) (F.readings feed.now) states (length «record».old) (take result.0 «record».new) (take result.1 closing.new) (meant engine.old) (meant engine.new) }
    ensures text_end { WritesFront result.0 «record».old «record».new }
    ensures closing_end { WritesFront result.1 closing.old closing.new }
{
    let (end, answer) = record_text(engine, text, states, feed, record);
    (end, closing_lines(answer, closing))
}
