// Runs a sheet, and prints the states and how the run stands; or why the text is refused.
//
//     runsheet         the sheet on standard input
//     runsheet FILE    the sheet of this file
#![tactic(auto)]

use engine::{Engine, MOST_ASKED};
use feed::Silent;
use load::ENOUGH;
use std::io::{Read, Write};
use std::process::ExitCode;
use std::{env, fs, io};
use summary::{MOST_CLOSING, show};

// The most bytes of a record's text.
const RECORD: usize = 65_536;

fn main(rt: HostRuntime) -> io::Result<ExitCode> {
    let files: Vec<String> = env::args(&rt)?.skip(1).collect(rt.alloc())?;
    let mut text = Vec::new(rt.alloc());
    match files.as_slice() {
        [] => {
            rt.stdin().take(ENOUGH).read_to_end(&mut text)?;
        }
        [file] => {
            if let Err(reason) = read_file(&rt, file.as_str(), &mut text) {
                eprintln!(rt; "runsheet: {file}: cannot be read: {reason}")?;
                return Ok(ExitCode::FAILURE);
            }
        }
        _ => {
            eprintln!(rt; "usage: runsheet [FILE]")?;
            return Ok(ExitCode::from(2));
        }
    }
    show_run(&rt, &text)?;
    Ok(ExitCode::SUCCESS)
}

// Reads a file, as far as it could be a sheet.
fn read_file(rt: &HostRuntime, file: &str, text: &mut Vec<u8>) -> io::Result<()> {
    fs::open(rt, file)?.take(ENOUGH).read_to_end(text)?;
    Ok(())
}

// Runs the sheet that a text spells, and prints what comes of it.
fn show_run(rt: &HostRuntime, text: &[u8]) -> io::Result<()> {
    let mut engine = Engine::new(rt.alloc())?;
    let mut record = vec![in rt.alloc(); 0; RECORD]?;
    let mut closing = [0; MOST_CLOSING];
    let (end, length) = show(
        &mut engine,
        text,
        MOST_ASKED,
        &Silent,
        &mut record,
        &mut closing,
    );
    rt.stdout().write_all(&record[..end])?;
    rt.stdout().write_all(&closing[..length])
}
