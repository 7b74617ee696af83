// Where a name stands in a text.
ghost use Rattle.load.specs.Naming.{LineAt, NameIn, NameAt};

use text::Reader;

// Line `k` of a text, counted from 0, as a part of the text.
fn line_at(text: &[u8], k: usize) -> Option<&[u8]>
    ensures { LineAt text.entry k result }
{
    let mut reader = Reader::new(text);
    for _i in 0..k {
        reader.line()?;
    }
    reader.line()
}

// The name in a `var` line, as a part of the line.
fn name_in(line: &[u8]) -> Option<&[u8]>
    ensures { NameIn line.entry result }
{
    // An index, since `get` does not say where the part stands.
    if line.len() < 4 {
        return None;
    }
    let mut reader = Reader::new(&line[4..]);
    reader.word()
}

// The name in line `n` of a text that ends with a line end, counted from 0, as a part of the text.
pub(crate) fn name_at(text: &[u8], n: usize) -> Option<&[u8]>
    ensures { NameAt text.entry n result }
{
    // An index, since `split_last` does not say where the part stands.
    let end = text.len().checked_sub(1)?;
    name_in(line_at(&text[..end], n)?)
}
