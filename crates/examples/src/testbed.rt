// What examples are tried with.
use engine::Engine;
use load::Loader;
use std::io;

// The numbers of 1,000 states of 16 variables, which is as many states as one advance is asked for.
const NUMBERS: usize = 16_000;

// The most bytes of a record's text.
const RECORD: usize = 65_536;

// A loader and an engine, the memory of both recorders, and the counts of examples.
#[derive(Drop)]
pub struct Testbed {
    pub loader: Loader,
    pub engine: Engine,
    pub numbers: Vec<i64>,
    pub record: Vec<u8>,
    // the examples so far
    pub all: u64,
    // and those that were ok
    pub good: u64,
}

impl Testbed {
    // No example was tried yet.
    pub fn new(rt: &HostRuntime) -> io::Result<Testbed> {
        Ok(Testbed {
            loader: Loader::new(rt.alloc())?,
            engine: Engine::new(rt.alloc())?,
            numbers: vec![in rt.alloc(); 0; NUMBERS]?,
            record: vec![in rt.alloc(); 0; RECORD]?,
            all: 0,
            good: 0,
        })
    }

    // Counts an example.
    pub fn count(&mut self, ok: bool) {
        self.all = self.all.saturating_add(1);
        if ok {
            self.good = self.good.saturating_add(1);
        }
    }
}
