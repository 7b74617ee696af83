// Cuts a table into its examples.
ghost use Rattle.std.specs.Prelude.{◌≡◌, ℕ, ◌+◌, ◌≤◌, ◌==◌, IfSome, IfOk, IsTrue, MatchOption, count_by, length, take};
ghost use Rattle.cases.specs.declared.part.Part.TheVariants.{Closing, End, Other};
ghost use Rattle.cases.specs.Parts.{part_in};
ghost use Rattle.cases.specs.Blocks.{AllSay, KindStandsAt, ReadsLine, StandsAt, WorkedStandsAt, behind_line, between, line_from};

use crate::kinds::{Example, Kind, LoadedText, ShownText, WorkedSheet};
use crate::part::{Part, part_of};
use feed::Reading;
use script::read_reading;
use text::Reader;

// The number of the line at which a reader stands, counted from 1.
pub fn line_number(reader: &Reader<'_>) -> usize
    ensures { result ≡ count_by (λ b. b == 10) (take reader.now.place reader.now.text.now) + 1 }
{
    let passed = reader.text.get(..reader.place).unwrap_or(reader.text);
    passed.iter().filter(|b| **b == b'\n').count() + 1
}

// The reading of a line that has one, and else none.
pub fn reading_of(line: &[u8]) -> Option<Reading>
    ensures { ReadsLine line.now result }
{
    read_reading(line.strip_prefix(b"reading=")?)
}

// Whether a line says this, and says it well.
fn says(line: &[u8], part: Part) -> bool
    ensures { IsTrue result → part_in line.now ≡ part }
{
    part_of(line) == part && (part != Part::Reading || reading_of(line).is_some())
}

// The next line if it says this. Else the place is kept.
fn line_with<'a>(reader: &mut Reader<'a>, part: Part) -> Option<&'a [u8]>
    ensures text { reader.new.text ≡ reader.old.text }
    ensures cases { MatchOption result (reader.new.place ≡ reader.old.place) (λ l. (reader.old.place ≤ length reader.old.text.now) × (l.now ≡ line_from reader.old.text.now reader.old.place) × (part_in l.now ≡ part) × (reader.new.place ≡ behind_line reader.old.text.now reader.old.place)) }
{
    let place = reader.place;
    match reader.line() {
        Some(line) if says(line, part) => Some(line),
        _ => {
            reader.place = place;
            None
        }
    }
}

// The lines from a place on up to that of the reader.
fn lines_from<'a>(reader: &Reader<'a>, start: usize) -> &'a [u8]
    ensures { result.now ≡ between reader.now.text.now start reader.now.place }
{
    let end = reader.place.min(reader.text.len());
    reader.text.get(start..end).unwrap_or(&[])
}

// The lines from the place on that say this.
fn lines_with<'a>(reader: &mut Reader<'a>, part: Part) -> &'a [u8]
    ensures text { reader.new.text ≡ reader.old.text }
    ensures say { AllSay reader.old.text.now part reader.old.place reader.new.place }
    ensures lines { result.now ≡ between reader.old.text.now reader.old.place reader.new.place }
{
    let start = reader.place;
    for _ in 0..u64::MAX {
        let Some(_) = line_with(reader, part) else {
            break;
        };
    }
    lines_from(reader, start)
}

// The lines from the place on that close a run: one with a verdict or a refusal, and those that are behind it. None where there is no such line.
fn closing_lines<'a>(reader: &mut Reader<'a>) -> Option<&'a [u8]>
    ensures text { reader.new.text ≡ reader.old.text }
    ensures lines { IfSome result (λ l. (part_in (line_from reader.old.text.now reader.old.place) ≡ Closing) × AllSay reader.old.text.now Other (behind_line reader.old.text.now reader.old.place) reader.new.place × (l.now ≡ between reader.old.text.now reader.old.place reader.new.place)) }
{
    let start = reader.place;
    line_with(reader, Part::Closing)?;
    lines_with(reader, Part::Other);
    Some(lines_from(reader, start))
}

// Goes on behind the empty line that ends an example, or stays where the table ends. None where neither is at the place.
fn end_block(reader: &mut Reader<'_>) -> Option<()>
    ensures text { reader.new.text ≡ reader.old.text }
    ensures ends { IfSome result (λ _. (part_in (line_from reader.old.text.now reader.old.place) ≡ End) × AllSay reader.old.text.now End reader.old.place reader.new.place) }
{
    if reader.place < reader.text.len() {
        line_with(reader, Part::End)?;
    }
    Some(())
}

// The worked sheet that starts at the place: its lines, its readings, its record and its closing lines.
fn read_worked<'a>(reader: &mut Reader<'a>) -> Option<WorkedSheet<'a>>
    ensures text { reader.new.text ≡ reader.old.text }
    ensures stands { IfSome result (λ w. WorkedStandsAt reader.old.text.now w reader.old.place reader.new.place) }
{
    let sheet = lines_with(reader, Part::Other);
    let readings = lines_with(reader, Part::Reading);
    let record = lines_with(reader, Part::Record);
    let closing = closing_lines(reader)?;
    Some(WorkedSheet {
        sheet,
        readings,
        record,
        closing,
    })
}

// What an example is of, from the place on. A text on one line has its answer behind it, or what is shown of its run.
fn read_kind<'a>(reader: &mut Reader<'a>) -> Option<Kind<'a>>
    ensures text { reader.new.text ≡ reader.old.text }
    ensures stands { IfSome result (λ k. KindStandsAt reader.old.text.now k reader.old.place reader.new.place) }
{
    let Some(line) = line_with(reader, Part::Text) else {
        return Some(Kind::Worked(read_worked(reader)?));
    };
    let packed = line.strip_prefix(b"text=")?;
    if let Some(line) = line_with(reader, Part::Answer) {
        let answer = line.strip_prefix(b"answer=")?;
        return Some(Kind::Loaded(LoadedText { packed, answer }));
    }
    let record = lines_with(reader, Part::Other);
    let closing = closing_lines(reader)?;
    Some(Kind::Shown(ShownText {
        packed,
        record,
        closing,
    }))
}

// The example that starts at the place, up to the empty line or the end of the table that ends it. None where the line at the place is not in order.
fn read_block<'a>(reader: &mut Reader<'a>) -> Option<Example<'a>>
    ensures text { reader.new.text ≡ reader.old.text }
    ensures stands { IfSome result (λ e. (q : ℕ) × StandsAt reader.old.text.now e reader.old.place q × AllSay reader.old.text.now End q reader.new.place) }
{
    let name = line_with(reader, Part::Name)?.strip_prefix(b"example=")?;
    lines_with(reader, Part::Formula);
    let kind = read_kind(reader)?;
    end_block(reader)?;
    Some(Example { name, kind })
}

// Goes on behind the next empty line.
fn pass_over(reader: &mut Reader<'_>)
    ensures { reader.new.text ≡ reader.old.text }
{
    for _ in 0..u64::MAX {
        if reader.line().is_none_or(|line| line.is_empty()) {
            break;
        }
    }
}

// The next example of a table, or none where only empty lines are left.
// Where one is malformed, the answer is the number of the line that is not in order, and the rest of the example is passed over.
pub fn next_example<'a>(reader: &mut Reader<'a>) -> Option<Result<Example<'a>, usize>>
    ensures text { reader.new.text ≡ reader.old.text }
    ensures over { result ≡ None → AllSay reader.old.text.now End reader.old.place reader.new.place × (length reader.old.text.now ≤ reader.new.place) }
    ensures stands { IfSome result (λ r. IfOk r (λ e. (p q : ℕ) × AllSay reader.old.text.now End reader.old.place p × StandsAt reader.old.text.now e p q × AllSay reader.old.text.now End q reader.new.place)) }
{
    lines_with(reader, Part::End);
    if reader.place >= reader.text.len() {
        return None;
    }
    match read_block(reader) {
        Some(example) => Some(Ok(example)),
        None => {
            let number = line_number(reader);
            pass_over(reader);
            Some(Err(number))
        }
    }
}
