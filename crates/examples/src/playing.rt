// Runs worked sheets.
use crate::differences::{show_both, tell};
use crate::testbed::Testbed;
use cases::{WorkedSheet, reading_of};
use engine::{Ending, Engine, MOST_ASKED, NotAdvanced, Progress, Report};
use feed::{Feed, ListFeed};
use record::{Recorder, TableRecorder};
use script::Answer;
use std::alloc::Global;
use std::io;
use std::io::Write;
use summary::{Closing, MOST_CLOSING, closing_lines};

// Runs a worked sheet, and compares its record, its closing lines and the report. Says whether all are as expected.
pub fn play(
    rt: &HostRuntime,
    testbed: &mut Testbed,
    name: &[u8],
    sheet: &WorkedSheet<'_>,
) -> io::Result<bool> {
    let mut readings = Vec::new(rt.alloc());
    for line in sheet.readings.split(|b| *b == b'\n') {
        if let Some(reading) = reading_of(line) {
            readings.push(reading)?;
        }
    }
    let engine = &mut testbed.engine;
    let mut recorder = TableRecorder::new(&mut testbed.numbers);
    let came = run(
        engine,
        sheet.sheet,
        &ListFeed::new(&readings),
        &mut recorder,
    );
    let record = record_lines(rt.alloc(), engine, &recorder)?;
    let mut lines = [0; MOST_CLOSING];
    let length = closing_lines(came, &mut lines);
    let closing = lines.get(..length).unwrap_or(&[]);
    let ok = record.as_slice() == sheet.record
        && closing == sheet.closing
        && is_reported(engine, came);
    tell(rt, name, ok)?;
    if !ok {
        show_both(rt, sheet.record, sheet.closing, &record, closing)?;
        rt.println(Answer::Report(engine.report()))?;
    }
    Ok(ok)
}

// Loads a sheet, begins a run of it and advances once.
fn run<F: Feed, R: Recorder>(
    engine: &mut Engine,
    sheet: &[u8],
    feed: &F,
    recorder: &mut R,
) -> Closing {
    let _ = engine.abandon();
    if let Err(reason) = engine.load(sheet) {
        return Closing::NotLoaded(reason);
    }
    if let Err(denial) = engine.begin(recorder) {
        return Closing::Advanced(Err(NotAdvanced::Denied(denial)));
    }
    Closing::Advanced(engine.advance(MOST_ASKED, feed, recorder))
}

// The recorded states in the form of the table: a line for each, with its numbers.
fn record_lines<R: Recorder>(alloc: Global, engine: &Engine, recorder: &R) -> io::Result<Vec<u8>> {
    let mut lines = Vec::new(alloc);
    for state in 0..recorder.count() {
        let mut before = "record=";
        for variable in 0..recorder.width() {
            if let Ok(number) = engine.look(recorder, state, variable) {
                write!(lines, "{before}{number}")?;
                before = " ";
            }
        }
        writeln!(lines)?;
    }
    Ok(lines)
}

// Whether the engine's report agrees with what came of a run.
fn is_reported(engine: &Engine, came: Closing) -> bool {
    match (came, engine.report()) {
        (Closing::Advanced(Ok(Progress::Finished(_))), Report::Ended(Ending::Finished)) => true,
        (Closing::Advanced(Ok(Progress::Open(n))), Report::Open(states)) => n == states as usize,
        (Closing::Advanced(Err(NotAdvanced::Full(state))), Report::Open(states)) => state == states,
        (
            Closing::Advanced(Err(NotAdvanced::Stopped(cause))),
            Report::Ended(Ending::Stopped(kept)),
        ) => { cause == kept }
        (Closing::NotLoaded(_), _) => true,
        _ => false,
    }
}
