// Readings from a file.
use feed::Reading;
use script::read_reading;
use std::alloc::{AllocError, Global};

// The readings of a text, one a line, or none where a line spells none. Empty lines are passed over.
pub fn read_readings(alloc: Global, text: &[u8]) -> Result<Option<Vec<Reading>>, AllocError> {
    let mut readings = Vec::new(alloc);
    for line in text.split(|b| *b == b'\n') {
        if line.is_empty() {
            continue;
        }
        match read_reading(line) {
            Some(reading) => readings.push(reading)?,
            None => return Ok(None),
        }
    }
    Ok(Some(readings))
}
