// Reads a record of a list of readings.
ghost use Rattle.std.specs.Prelude.{◌≡◌};
ghost use Rattle.text.specs.Cut.{pieces_from};
ghost use Rattle.script.specs.Spelling.{ReadsReading};
ghost use Rattle.script.specs.Words.{reading_in};

use feed::Reading;
use text::{MOST, Reader, natural, number};

// The record that the words which are left spell.
pub(crate) fn reading_left(words: &mut Reader<'_>) -> Option<Reading>
    ensures { result ≡ reading_in (pieces_from 32 words.old.text.now words.old.place) }
{
    let state = natural(words.word()?, MOST)?;
    let variable = natural(words.word()?, MOST)?;
    let number = number(words.word()?)?;
    let reading = Reading {
        state,
        variable,
        number: i64::from(number),
    };
    words.word().is_none().then_some(reading)
}

// The record that the words STATE VARIABLE NUMBER spell, with one space between two.
pub fn read_reading(words: &[u8]) -> Option<Reading>
    ensures { ReadsReading words.now result }
{
    reading_left(&mut Reader::new(words))
}
