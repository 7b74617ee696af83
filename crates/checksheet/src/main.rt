// Tells whether a text is a sheet: its counts and its names, or why it is refused.
//
//     checksheet         the text on standard input
//     checksheet FILE    the text of this file
#![tactic(auto)]

use load::{ENOUGH, Loader, RefusalLines};
use std::io::{Read, Write};
use std::process::ExitCode;
use std::{env, fs, io};

fn main(rt: HostRuntime) -> io::Result<ExitCode> {
    let files: Vec<String> = env::args(&rt)?.skip(1).collect(rt.alloc())?;
    let mut text = Vec::new(rt.alloc());
    match files.as_slice() {
        [] => {
            rt.stdin().take(ENOUGH).read_to_end(&mut text)?;
        }
        [file] => {
            if let Err(reason) = read_file(&rt, file.as_str(), &mut text) {
                eprintln!(rt; "checksheet: {file}: cannot be read: {reason}")?;
                return Ok(ExitCode::FAILURE);
            }
        }
        _ => {
            eprintln!(rt; "usage: checksheet [FILE]")?;
            return Ok(ExitCode::from(2));
        }
    }
    check_text(&rt, &text)?;
    Ok(ExitCode::SUCCESS)
}

// Reads a file, as far as it could be a sheet.
fn read_file(rt: &HostRuntime, file: &str, text: &mut Vec<u8>) -> io::Result<()> {
    fs::open(rt, file)?.take(ENOUGH).read_to_end(text)?;
    Ok(())
}

// Loads a text, and prints what it has or why it is refused.
fn check_text(rt: &HostRuntime, text: &[u8]) -> io::Result<()> {
    let mut loader = Loader::new(rt.alloc())?;
    match loader.load(text) {
        Ok(()) => show_sheet(rt, &mut loader, text),
        Err(refusal) => print!(rt; "{}", RefusalLines { refusal }),
    }
}

fn show_sheet(rt: &HostRuntime, loader: &mut Loader, text: &[u8]) -> io::Result<()> {
    let sheet = loader.sheet();
    let variables = sheet.tables.variables.len();
    println!(rt; "verdict=accepted")?;
    println!(rt; "variables={variables}")?;
    println!(rt; "expressions={}", sheet.tables.expressions.len())?;
    println!(rt; "statements={}", sheet.tables.statements.len())?;
    println!(rt; "run={}", sheet.run)?;
    for k in 0..variables {
        show_name(rt, k, loader.variable_name(text, k))?;
    }
    Ok(())
}

// The name is written as it stands in the text.
fn show_name(rt: &HostRuntime, k: usize, name: Option<&[u8]>) -> io::Result<()> {
    if let Some(letters) = name {
        print!(rt; "v{k}=")?;
        rt.stdout().write_all(letters)?;
        println!(rt; "")?;
    }
    Ok(())
}
