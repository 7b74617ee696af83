// The lines of a script.
use std::io;
use std::io::{BufRead, BufReader, Read, Stdin};

// The longest line, in bytes.
const LONGEST: u64 = 4096;

// The lines of standard input, handed out one after another and counted.
#[derive(Drop)]
pub struct Lines {
    input: BufReader<Stdin>,
    line: Vec<u8>,
    pub count: u64,
}

impl Lines {
    // All lines are still to come.
    pub fn new(rt: &HostRuntime) -> io::Result<Lines> {
        Ok(Lines {
            input: BufReader::new(rt.alloc(), rt.stdin())?,
            line: Vec::new(rt.alloc()),
            count: 0,
        })
    }

    // The next line, without its end, or none after the last.
    // A line that is too long is handed out as an empty one, which is no call either.
    pub fn next_line(&mut self) -> io::Result<Option<&[u8]>> {
        self.line.clear();
        let read = self
            .input
            .by_ref()
            .take(LONGEST + 1)
            .read_until(b'\n', &mut self.line)?;
        if read == 0 {
            return Ok(None);
        }
        self.count = self.count.saturating_add(1);
        if self.line.ends_with(b"\n") {
            self.line.pop();
        } else if self.line.len() as u64 > LONGEST {
            self.line.clear();
            self.input.skip_until(b'\n')?;
        }
        Ok(Some(&self.line))
    }
}
