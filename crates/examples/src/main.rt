// Tries the examples of tables, and says of each whether what is expected comes of it.
//
//     examples             the table on standard input
//     examples TABLE ..    the tables of these files
#![tactic(auto)]

mod differences;
mod playing;
mod testbed;
mod trying;

use crate::testbed::Testbed;
use crate::trying::try_table;
use std::io::Read;
use std::process::ExitCode;
use std::{env, fs, io};

fn main(rt: HostRuntime) -> io::Result<ExitCode> {
    let names: Vec<String> = env::args(&rt)?.skip(1).collect(rt.alloc())?;
    let mut testbed = Testbed::new(&rt)?;
    if names.is_empty() {
        let mut table = Vec::new(rt.alloc());
        rt.stdin().read_to_end(&mut table)?;
        try_table(&rt, &mut testbed, &table)?;
    }
    for name in names.iter() {
        match fs::read(&rt, name.as_str()) {
            Ok(table) => try_table(&rt, &mut testbed, &table)?,
            Err(reason) => {
                eprintln!(rt; "examples: {name}: cannot be read: {reason}")?;
                return Ok(ExitCode::FAILURE);
            }
        }
    }
    println!(rt; "{} of {} examples ok", testbed.good, testbed.all)?;
    Ok(if testbed.good == testbed.all {
        ExitCode::SUCCESS
    } else {
        ExitCode::FAILURE
    })
}
