// Reads a line of a script.
ghost use Rattle.std.specs.Prelude.{◌≡◌};
ghost use Rattle.text.specs.Cut.{pieces_from};
ghost use Rattle.script.specs.Spelling.{ReadsCall};
ghost use Rattle.script.specs.Words.{count_in, look_words_in, bare_of, counted_of, plain_in, LastWord};

use crate::reading::reading_left;
use feed::Reading;
use text::{MOST, Reader, natural, same};

// A line of a script. A number in it is at most a million.
#[derive(Clone, Copy, Debug, PartialEq, Eq)]
pub enum Call<'a> {
    // loads the text of the file with this path
    Sheet(&'a [u8]),
    // chooses a new table over so many numbers
    Table(u32),
    // chooses a new text over so many bytes
    Text(u32),
    // adds a record to the list of readings
    Reading(Reading),
    // empties that list
    Silence,
    // begins a run
    Begin,
    // advances it by so many states
    Advance(u32),
    // looks up, in a state, the number of a variable
    Look(u32, u32),
    // tells the engine's condition
    Report,
    // gives the run up
    Abandon,
    // prints the record
    Record,
    // tells the name of a variable of the last file
    Name(u32),
}

// The only word that is left, or none where there is not exactly one.
fn last_word<'a>(words: &mut Reader<'a>) -> Option<&'a [u8]>
    ensures { LastWord result (pieces_from 32 words.old.text.now words.old.place) }
{
    let word = words.word()?;
    words.word().is_none().then_some(word)
}

// The number that the only word left spells.
fn count_left(words: &mut Reader<'_>) -> Option<u32>
    ensures { result ≡ count_in (pieces_from 32 words.old.text.now words.old.place) }
{
    natural(last_word(words)?, MOST)
}

// The look that the two words left spell.
fn look_left(words: &mut Reader<'_>) -> Option<Call<'static>>
    ensures { result ≡ look_words_in (pieces_from 32 words.old.text.now words.old.place) }
{
    let state = natural(words.word()?, MOST)?;
    let variable = natural(words.word()?, MOST)?;
    words
        .word()
        .is_none()
        .then_some(Call::Look(state, variable))
}

// The call that a word alone spells.
fn bare(word: &[u8]) -> Option<Call<'static>>
    ensures { result ≡ bare_of word.now }
{
    if same(word, b"silence") {
        Some(Call::Silence)
    } else if same(word, b"begin") {
        Some(Call::Begin)
    } else if same(word, b"report") {
        Some(Call::Report)
    } else if same(word, b"abandon") {
        Some(Call::Abandon)
    } else if same(word, b"record") {
        Some(Call::Record)
    } else {
        None
    }
}

// The call that a word with a number spells.
fn counted(word: &[u8], n: u32) -> Option<Call<'static>>
    ensures { result ≡ counted_of word.now n }
{
    if same(word, b"table") {
        Some(Call::Table(n))
    } else if same(word, b"text") {
        Some(Call::Text(n))
    } else if same(word, b"advance") {
        Some(Call::Advance(n))
    } else if same(word, b"name") {
        Some(Call::Name(n))
    } else {
        None
    }
}

// The call that a word and those that are left spell; none where the word is `sheet`.
fn plain_left(word: &[u8], words: &mut Reader<'_>) -> Option<Call<'static>>
    ensures { result ≡ plain_in word.now (pieces_from 32 words.old.text.now words.old.place) }
{
    if same(word, b"look") {
        look_left(words)
    } else if same(word, b"reading") {
        Some(Call::Reading(reading_left(words)?))
    } else if let Some(call) = bare(word) {
        words.word().is_none().then_some(call)
    } else {
        counted(word, count_left(words)?)
    }
}

// The call that a line spells, or none.
pub fn read_call(line: &[u8]) -> Option<Call<'_>>
    ensures { ReadsCall line.now result }
{
    let mut words = Reader::new(line);
    let word = words.word()?;
    if same(word, b"sheet") {
        Some(Call::Sheet(last_word(&mut words)?))
    } else {
        plain_left(word, &mut words)
    }
}
