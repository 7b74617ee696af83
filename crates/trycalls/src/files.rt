// The files that a script names.
use load::ENOUGH;
use std::io::Read;
use std::{fs, io, str};

// The text of the file with this path, as far as it could be that of a sheet, or none where there is no such file or it cannot be read.
// Only memory that runs out is an error.
pub fn read_file(rt: &HostRuntime, path: &[u8]) -> io::Result<Option<Vec<u8>>> {
    let mut text = Vec::new(rt.alloc());
    let Ok(path) = str::from_utf8(path) else {
        return Ok(None);
    };
    // Only a file with bytes of its own: another kind might have the program wait.
    let Ok(found) = fs::metadata(rt, path) else {
        return Ok(None);
    };
    if !found.is_file() {
        return Ok(None);
    }
    let Ok(file) = fs::open(rt, path) else {
        return Ok(None);
    };
    match file.take(ENOUGH).read_to_end(&mut text) {
        Ok(_) => Ok(Some(text)),
        Err(_) => Ok(None),
    }
}
