// The calls. Each makes what it needs anew, and frees it before it returns; a `Global` is no argument to C.
ghost use Rattle.std.specs.Prelude.{◌≡◌, ◌++◌, if◌then◌else◌, drop, length, nat_le};
ghost use Rattle.feed.specs.Lists.{list_reads};
ghost use Rattle.load.specs.Parsing.{parse_sheet};
ghost use Rattle.embed.specs.Answers.{Checks, Does, RunsInNumbers, RunsInText};

use crate::answer::AnswerNumbers;
use calls::NotLoaded;
use engine::Engine;
use feed::{ListFeed, Reading};
use load::Loader;
use record::put_bytes;
use std::alloc::Global;
use summary::{Closing, record_numbers, record_text};

// Writes a part to the front of the bytes, and says its length; 0 with nothing written where it does not fit.
fn put_whole(bytes: &mut [u8], part: &[u8]) -> usize
    ensures answer { result ≡ (if nat_le (length part.now) (length bytes.old) then length part.now else 0) }
    ensures written { bytes.new ≡ (if nat_le (length part.now) (length bytes.old) then part.now ++ drop (length part.now) bytes.old else bytes.old) }
{
    if part.len() <= bytes.len() {
        put_bytes(bytes, 0, part)
    } else {
        0
    }
}

// Whether a text is a sheet; where it is not, the sentence to read out is written.
fn check(loader: &mut Loader, text: &[u8], sentence: &mut [u8]) -> AnswerNumbers
    ensures { Checks (parse_sheet text.now) sentence.old result sentence.new }
{
    match loader.load(text) {
        Ok(()) => AnswerNumbers {
            width: loader.sheet().tables.variables.len(),
            ..AnswerNumbers::nothing()
        },
        Err(refusal) => AnswerNumbers {
            length: put_whole(sentence, refusal.reason().as_bytes()),
            ..AnswerNumbers::of(Closing::NotLoaded(NotLoaded::Refused(refusal)))
        },
    }
}

// Whether a text is a sheet.
#[unsafe(no_mangle)]
pub extern "C" fn domgrauja_check(heap: Global, text: &[u8], sentence: &mut [u8]) -> AnswerNumbers
    ensures { Does (Checks (parse_sheet text.now) sentence.old) sentence.old result sentence.new }
{
    match Loader::new(heap) {
        Ok(mut loader) => check(&mut loader, text, sentence),
        Err(_) => AnswerNumbers::lacking(),
    }
}

// Runs the sheet that a text spells from the first state on, for up to so many states, with its record as text.
#[unsafe(no_mangle)]
pub extern "C" fn domgrauja_run_text(
    heap: Global,
    text: &[u8],
    readings: &[Reading],
    states: usize,
    bytes: &mut [u8],
) -> AnswerNumbers
    ensures { Does (RunsInText (parse_sheet text.now) (list_reads readings.now) states bytes.old) bytes.old result bytes.new }
{
    match Engine::new(heap) {
        Ok(mut engine) => {
            let feed = ListFeed::new(readings);
            let (length, closing) = record_text(&mut engine, text, states, &feed, bytes);
            AnswerNumbers {
                length,
                ..AnswerNumbers::of(closing)
            }
        }
        Err(_) => AnswerNumbers::lacking(),
    }
}

// The same, with its record as a table.
#[unsafe(no_mangle)]
pub extern "C" fn domgrauja_run_numbers(
    heap: Global,
    text: &[u8],
    readings: &[Reading],
    states: usize,
    numbers: &mut [i64],
) -> AnswerNumbers
    ensures { Does (RunsInNumbers (parse_sheet text.now) (list_reads readings.now) states numbers.old) numbers.old result numbers.new }
{
    match Engine::new(heap) {
        Ok(mut engine) => {
            let feed = ListFeed::new(readings);
            let (width, closing) = record_numbers(&mut engine, text, states, &feed, numbers);
            AnswerNumbers {
                width,
                ..AnswerNumbers::of(closing)
            }
        }
        Err(_) => AnswerNumbers::lacking(),
    }
}
