// Reads a number back from a text.
ghost use Rattle.std.specs.Prelude.{◌≡◌, drop};
ghost use Rattle.record.specs.ReadingBack.{past, next_number, number_or_zero};

use text::{Reader, number};

// The number of the line that comes after so many lines, or 0 where it has none.
pub fn read_number_at(text: &[u8], lines: usize) -> i64
    ensures { result ≡ number_or_zero (past lines text.now) }
{
    let mut reader = Reader::new(text);
    for _ in 0..lines {
        reader.line();
    }
    next_number(&mut reader).unwrap_or(0)
}

// The number between the next `=` and the end of its line.
fn next_number(reader: &mut Reader<'_>) -> Option<i64>
    ensures { result ≡ next_number (drop reader.old.place reader.old.text.now) }
{
    reader.key()?;
    let word = reader.line()?;
    number(word).map(i64::from)
}
