// What the calls of a script do.
use crate::files::read_file;
use engine::Engine;
use feed::{ListFeed, Reading};
use record::Recorder;
use script::{Answer, Call};
use std::io;
use std::io::Write;

// The memory of a recorder: so many numbers for a table, or so many bytes for a text.
#[derive(Clone, Copy)]
pub enum Memory {
    Numbers(usize),
    Bytes(usize),
}

// What calls work on besides the recorder: the engine, the list of readings, and the text of the last file that was read.
#[derive(Drop)]
pub struct Desk {
    engine: Engine,
    readings: Vec<Reading>,
    text: Vec<u8>,
}

impl Desk {
    // A new engine, no reading, and no text.
    pub fn new(rt: &HostRuntime) -> io::Result<Desk> {
        Ok(Desk {
            engine: Engine::new(rt.alloc())?,
            readings: Vec::new(rt.alloc()),
            text: Vec::new(rt.alloc()),
        })
    }

    // Makes a call and prints its answer. Says the memory of a new recorder, where one is chosen.
    pub fn make<R: Recorder>(
        &mut self,
        rt: &HostRuntime,
        recorder: &mut R,
        call: Call<'_>,
    ) -> io::Result<Option<Memory>> {
        match call {
            Call::Table(n) => return choose(rt, "table", Memory::Numbers(n as usize)),
            Call::Text(n) => return choose(rt, "text", Memory::Bytes(n as usize)),
            Call::Sheet(path) => self.load(rt, path)?,
            Call::Reading(reading) => {
                self.readings.push(reading)?;
                println!(rt; "reading=ok")?;
            }
            Call::Silence => {
                self.readings.clear();
                println!(rt; "silence=ok")?;
            }
            Call::Record => show_record(rt, recorder)?,
            Call::Name(k) => self.show_name(rt, k as usize)?,
            Call::Begin => rt.println(Answer::Begin(self.engine.begin(recorder)))?,
            Call::Advance(n) => {
                let feed = ListFeed::new(&self.readings);
                let answer = self.engine.advance(n as usize, &feed, recorder);
                rt.println(Answer::Advance(answer))?;
            }
            Call::Look(state, variable) => {
                let answer = self
                    .engine
                    .look(recorder, state as usize, variable as usize);
                rt.println(Answer::Look(answer))?;
            }
            Call::Report => rt.println(Answer::Report(self.engine.report()))?,
            Call::Abandon => rt.println(Answer::Abandon(self.engine.abandon()))?,
        }
        Ok(None)
    }

    // Loads the text of a file, which is then that of the last one.
    fn load(&mut self, rt: &HostRuntime, path: &[u8]) -> io::Result<()> {
        match read_file(rt, path)? {
            None => println!(rt; "sheet=unread"),
            Some(text) => {
                self.text = text;
                rt.println(Answer::Load(self.engine.load(&self.text)))
            }
        }
    }

    // Prints the name of a variable of the last file.
    fn show_name(&mut self, rt: &HostRuntime, k: usize) -> io::Result<()> {
        let name = self.engine.variable_name(&self.text, k);
        print!(rt; "name=")?;
        rt.stdout().write_all(name.unwrap_or(b"none"))?;
        println!(rt; "")
    }
}

// Answers that a recorder is chosen, with its memory.
fn choose(rt: &HostRuntime, word: &str, memory: Memory) -> io::Result<Option<Memory>> {
    println!(rt; "{word}=ok")?;
    Ok(Some(memory))
}

// Prints the record: a line for each state, with its numbers.
fn show_record<R: Recorder>(rt: &HostRuntime, recorder: &R) -> io::Result<()> {
    for state in 0..recorder.count() {
        for variable in 0..recorder.width() {
            if variable > 0 {
                print!(rt; " ")?;
            }
            if let Some(number) = recorder.look(state, variable) {
                print!(rt; "{number}")?;
            }
        }
        println!(rt; "")?;
    }
    println!(rt; "record=ok")
}
