// Measures how long a sheet takes to load and to run.
//
//     bench SHEET REPETITIONS          with no readings
//     bench SHEET REPETITIONS FEED     with the readings of a file
//     bench SHEET REPETITIONS loads    only loading
//
// It loads the sheet and runs it once, and prints the lines that close that run. Then it loads so many times, and runs so many times, and prints how long that took.
#![tactic(auto)]

mod feeding;
mod running;
mod timing;

use crate::feeding::read_readings;
use crate::timing::{measure, measure_loads};
use feed::{ListFeed, Silent};
use std::process::ExitCode;
use std::{env, fs, io};
use text::natural;

// The most repetitions.
const MOST_REPETITIONS: u32 = 1_000_000;

fn main(rt: HostRuntime) -> io::Result<ExitCode> {
    let words: Vec<String> = env::args(&rt)?.collect(rt.alloc())?;
    let [_, sheet, times, rest @ ..] = words.as_slice() else {
        return usage(&rt);
    };
    let Some(times) = natural(times.as_bytes(), MOST_REPETITIONS) else {
        return usage(&rt);
    };
    let Ok(text) = fs::read(&rt, sheet.as_str()) else {
        return unread(&rt, sheet.as_str());
    };
    match rest {
        [] => measure(&rt, &text, times, &Silent)?,
        [word] if word.as_str() == "loads" => measure_loads(&rt, &text, times)?,
        [path] => {
            let Ok(lines) = fs::read(&rt, path.as_str()) else {
                return unread(&rt, path.as_str());
            };
            let Some(readings) = read_readings(rt.alloc(), &lines)? else {
                return unfit(&rt, path.as_str());
            };
            measure(&rt, &text, times, &ListFeed::new(&readings))?;
        }
        _ => return usage(&rt),
    }
    Ok(ExitCode::SUCCESS)
}

// Says how the program is called.
fn usage(rt: &HostRuntime) -> io::Result<ExitCode> {
    eprintln!(rt; "usage: bench SHEET REPETITIONS [FEED | loads]")?;
    Ok(ExitCode::from(2))
}

// Says that a file has a line that is no reading.
fn unfit(rt: &HostRuntime, path: &str) -> io::Result<ExitCode> {
    eprintln!(rt; "bench: a line of {path} is no reading")?;
    Ok(ExitCode::from(2))
}

// Says that a file cannot be read.
fn unread(rt: &HostRuntime, path: &str) -> io::Result<ExitCode> {
    eprintln!(rt; "bench: cannot read {path}")?;
    Ok(ExitCode::from(2))
}
