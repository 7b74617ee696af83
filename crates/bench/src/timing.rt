// Times many loads and many runs of one sheet.
use crate::running::run;
use engine::Engine;
use feed::Feed;
use record::{Recorder, TableRecorder};
use std::io;
use std::io::Write;
use std::time::{Duration, Instant};
use summary::{Closing, MOST_CLOSING, closing_lines};

// The numbers of 1,100 states of 16 variables.
const NUMBERS: usize = 17_600;

// Loads the sheet and runs it once, and prints the lines that close the run. Then times so many loads and so many runs.
pub fn measure<F: Feed>(rt: &HostRuntime, text: &[u8], times: u32, feed: &F) -> io::Result<()> {
    let mut engine = Engine::new(rt.alloc())?;
    let mut numbers = vec![in rt.alloc(); 0; NUMBERS]?;
    let mut recorder = TableRecorder::new(&mut numbers);
    if let Err(reason) = engine.load(text) {
        return print_closing(rt, Closing::NotLoaded(reason));
    }
    let answer = run(&mut engine, feed, &mut recorder);
    print_closing(rt, Closing::Advanced(answer))?;
    if times == 0 {
        return Ok(());
    }
    let loading = time_loads(rt, &mut engine, text, times)?;
    let running = time_runs(rt, &mut engine, feed, &mut recorder, times)?;
    let states = u32::try_from(recorder.count()).unwrap_or(u32::MAX).max(1);
    let each = running.as_secs_f64() * 1e9 / f64::from(states) / f64::from(times);
    println!(rt; "ns_per_state={each:.1}")?;
    print_loads(rt, loading, times)
}

// Times so many loads, and prints how many that is in a second.
pub fn measure_loads(rt: &HostRuntime, text: &[u8], times: u32) -> io::Result<()> {
    let mut engine = Engine::new(rt.alloc())?;
    if let Err(reason) = engine.load(text) {
        return print_closing(rt, Closing::NotLoaded(reason));
    }
    let loading = time_loads(rt, &mut engine, text, times)?;
    print_loads(rt, loading, times)
}

// How long so many loads take.
fn time_loads(
    rt: &HostRuntime,
    engine: &mut Engine,
    text: &[u8],
    times: u32,
) -> io::Result<Duration> {
    let _ = engine.abandon();
    let start = Instant::now(rt)?;
    for _ in 0..times {
        let _ = engine.load(text);
    }
    start.elapsed(rt)
}

// How long so many runs take.
fn time_runs<F: Feed, R: Recorder>(
    rt: &HostRuntime,
    engine: &mut Engine,
    feed: &F,
    recorder: &mut R,
    times: u32,
) -> io::Result<Duration> {
    let start = Instant::now(rt)?;
    for _ in 0..times {
        let _ = run(engine, feed, recorder);
    }
    start.elapsed(rt)
}

// Prints how many loads a second there were.
fn print_loads(rt: &HostRuntime, took: Duration, times: u32) -> io::Result<()> {
    println!(rt;
        "loads_per_second={:.0}",
        f64::from(times) / took.as_secs_f64()
    )
}

// Prints the lines that close a run, or say why the text is not loaded.
fn print_closing(rt: &HostRuntime, closing: Closing) -> io::Result<()> {
    let mut lines = [0; MOST_CLOSING];
    let length = closing_lines(closing, &mut lines);
    rt.stdout().write_all(lines.get(..length).unwrap_or(&[]))
}
