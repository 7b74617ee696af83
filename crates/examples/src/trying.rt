// Tries the examples of a table.
use crate::differences::{show_both, tell};
use crate::playing::play;
use crate::testbed::Testbed;
use cases::{Example, Kind, LoadedText, ShownText, next_example, unpacked};
use engine::MOST_ASKED;
use feed::Silent;
use std::io;
use std::io::Write;
use summary::{MOST_CLOSING, show};
use text::Reader;

// Tries all examples of a table, and counts them.
pub fn try_table(rt: &HostRuntime, testbed: &mut Testbed, table: &[u8]) -> io::Result<()> {
    let mut reader = Reader::new(table);
    // A bound, since a reader does not say that its examples end.
    for _ in 0..u64::MAX {
        let Some(next) = next_example(&mut reader) else {
            break;
        };
        let ok = match next {
            Ok(example) => try_example(rt, testbed, &example)?,
            Err(line) => {
                println!(rt; "malformed at line {line}")?;
                false
            }
        };
        testbed.count(ok);
    }
    Ok(())
}

// Tries an example. Says whether it was ok.
fn try_example(rt: &HostRuntime, testbed: &mut Testbed, example: &Example<'_>) -> io::Result<bool> {
    match &example.kind {
        Kind::Loaded(text) => try_load(rt, testbed, example.name, text),
        Kind::Shown(text) => try_show(rt, testbed, example.name, text),
        Kind::Worked(sheet) => play(rt, testbed, example.name, sheet),
    }
}

// Loads a text, and compares the answer.
fn try_load(
    rt: &HostRuntime,
    testbed: &mut Testbed,
    name: &[u8],
    text: &LoadedText<'_>,
) -> io::Result<bool> {
    let bytes = unpacked(rt.alloc(), text.packed)?;
    let mut answer = Vec::new(rt.alloc());
    match testbed.loader.load(&bytes) {
        Ok(()) => write!(answer, "accepted")?,
        Err(refusal) => write!(answer, "{refusal}")?,
    }
    let ok = answer.as_slice() == text.answer;
    tell(rt, name, ok)?;
    if !ok {
        show_both(rt, text.answer, b"\n", &answer, b"\n")?;
    }
    Ok(ok)
}

// Runs a text without readings, and compares the record and the closing lines.
fn try_show(
    rt: &HostRuntime,
    testbed: &mut Testbed,
    name: &[u8],
    text: &ShownText<'_>,
) -> io::Result<bool> {
    let bytes = unpacked(rt.alloc(), text.packed)?;
    let mut lines = [0; MOST_CLOSING];
    let (end, length) = show(
        &mut testbed.engine,
        &bytes,
        MOST_ASKED,
        &Silent,
        &mut testbed.record,
        &mut lines,
    );
    let record = testbed.record.get(..end).unwrap_or(&[]);
    let closing = lines.get(..length).unwrap_or(&[]);
    let ok = record == text.record && closing == text.closing;
    tell(rt, name, ok)?;
    if !ok {
        show_both(rt, text.record, text.closing, record, closing)?;
    }
    Ok(ok)
}
