// What the lines of a table of examples say.
ghost use Rattle.std.specs.Prelude.{◌≡◌};
ghost use Rattle.cases.specs.Parts.{part_named, part_in};

use text::{Reader, same};

// What a line says.
#[derive(Clone, Copy, PartialEq, Eq)]
pub enum Part {
    // an example begins, with this name
    Name,
    // the formula, for readers
    Formula,
    // a text, with each of its line ends spelled `/`
    Text,
    // what loading the text answers
    Answer,
    // a reading that the run has
    Reading,
    // the numbers of a state that the run records
    Record,
    // the first of the lines that close the run
    Closing,
    // nothing: the example is at its end
    End,
    // any other line: one of the sheet, or a further one of those that close the run
    Other,
}

// What a line with this key says.
fn part_named(key: &[u8]) -> Part
    ensures { result ≡ part_named key.now }
{
    if same(key, b"example") {
        Part::Name
    } else if same(key, b"formula") {
        Part::Formula
    } else if same(key, b"text") {
        Part::Text
    } else if same(key, b"answer") {
        Part::Answer
    } else if same(key, b"reading") {
        Part::Reading
    } else if same(key, b"record") {
        Part::Record
    } else if same(key, b"verdict") || same(key, b"refused") {
        Part::Closing
    } else {
        Part::Other
    }
}

// What a line says. It goes by its key alone, which stands ahead of the first `=`.
pub fn part_of(line: &[u8]) -> Part
    ensures { result ≡ part_in line.now }
{
    if line.is_empty() {
        return Part::End;
    }
    match Reader::new(line).key() {
        Some(key) => part_named(key),
        None => Part::Other,
    }
}
