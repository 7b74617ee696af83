// Makes the calls of a script on an engine, one for each line of standard input, and prints a line for each answer.
#![tactic(auto)]

mod desk;
mod files;
mod input;

use crate::desk::{Desk, Memory};
use crate::input::Lines;
use record::{Recorder, TableRecorder, TextRecorder};
use script::read_call;
use std::io;

// The memory of the first recorder, as that of `table 1000`.
const START: Memory = Memory::Numbers(1000);

fn main(rt: HostRuntime) -> io::Result<()> {
    let mut desk = Desk::new(&rt)?;
    let mut lines = Lines::new(&rt)?;
    let mut memory = Some(START);
    for _ in 0..u64::MAX {
        memory = match memory {
            None => break,
            Some(Memory::Numbers(n)) => {
                let mut numbers = vec![in rt.alloc(); 0; n]?;
                run(
                    &rt,
                    &mut desk,
                    &mut lines,
                    &mut TableRecorder::new(&mut numbers),
                )?
            }
            Some(Memory::Bytes(n)) => {
                let mut bytes = vec![in rt.alloc(); 0; n]?;
                run(
                    &rt,
                    &mut desk,
                    &mut lines,
                    &mut TextRecorder::new(&mut bytes),
                )?
            }
        };
    }
    Ok(())
}

// Goes on with the script, up to a line that chooses another recorder, and says that one's memory. None at the end of the script.
fn run<R: Recorder>(
    rt: &HostRuntime,
    desk: &mut Desk,
    lines: &mut Lines,
    recorder: &mut R,
) -> io::Result<Option<Memory>> {
    for _ in 0..u64::MAX {
        let Some(line) = lines.next_line()? else {
            break;
        };
        match read_call(line) {
            None => println!(rt; "what={}", lines.count)?,
            Some(call) => {
                if let Some(memory) = desk.make(rt, recorder, call)? {
                    return Ok(Some(memory));
                }
            }
        }
    }
    Ok(None)
}
