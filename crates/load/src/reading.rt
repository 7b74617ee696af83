// Reads a whole text into a draft.
ghost use Rattle.text.specs.Cut.{pieces_from};
ghost use Rattle.sheet.specs.PartialSheet.{partial_sheet_of, no_lines};
ghost use Rattle.load.specs.Parsing.{parse_lines, parse_sheet};
ghost use Rattle.load.specs.Loading.{Drafted};
ghost use Rattle.std.specs.Prelude.{◌≡◌, ◌+◌, ◌≤◌, length};

use crate::refusals::Refusal;
use sheet::Draft;
use text::{Reader, same};

// The longest text, in bytes.
pub const LONGEST_TEXT: usize = 16_384;

// What is enough to read of a text that is to be loaded: one byte more than it may have, so that one that is too long is still seen to be so.
pub const ENOUGH: u64 = LONGEST_TEXT as u64 + 1;

// Reads the lines after the first, which the draft has none of yet.
fn read_lines(draft: &mut Draft, reader: &mut Reader) -> Result<u16, Refusal>
    requires short { length reader.old.text.now ≤ 16384 }
    requires place { reader.old.place ≤ length reader.old.text.now + 1 }
    requires empty { partial_sheet_of draft.old ≡ no_lines }
    ensures { Drafted result draft.new (parse_lines 2 no_lines (pieces_from 10 reader.old.text.now reader.old.place)) }
{
    // Counted by hand, since lines are handed out one by one, and the count is needed after the last.
    let mut n = 2u32;
    while let Some(line) = reader.line() {
        let item = lines::read_line(draft, line).map_err(|fault| Refusal::Line(n, fault))?;
        draft.add(item);
        n += 1;
    }
    draft.run.ok_or(Refusal::NoRun(n))
}

// Reads a text. The draft then holds the sheet that the text spells, and its run number is answered; or the text is refused.
pub(crate) fn read_text(draft: &mut Draft, text: &[u8]) -> Result<u16, Refusal>
    ensures { Drafted result draft.new (parse_sheet text.now) }
{
    if text.len() > LONGEST_TEXT {
        return Err(Refusal::Length);
    }
    let (end, lines) = text.split_last().ok_or(Refusal::Length)?;
    if *end != b'\n' {
        return Err(Refusal::Unended);
    }
    let mut reader = Reader::new(lines);
    let first = reader.line().ok_or(Refusal::Header)?;
    if !same(first, b"sheet=2") {
        return Err(Refusal::Header);
    }
    draft.clear();
    read_lines(draft, &mut reader)
}
