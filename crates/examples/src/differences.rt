// What is printed of an example.
use std::io;
use std::io::Write;

// Prints an example's name, and `ok` or that something else was expected of it.
pub fn tell(rt: &HostRuntime, name: &[u8], ok: bool) -> io::Result<()> {
    rt.stdout().write_all(name)?;
    if ok {
        println!(rt; ": ok")
    } else {
        println!(rt; ": expected")
    }
}

// Prints the record and the closing lines that were expected of an example, and those that came of it.
pub fn show_both(
    rt: &HostRuntime,
    expected_record: &[u8],
    expected_closing: &[u8],
    record: &[u8],
    closing: &[u8],
) -> io::Result<()> {
    rt.stdout().write_all(expected_record)?;
    rt.stdout().write_all(expected_closing)?;
    println!(rt; "but it came to")?;
    rt.stdout().write_all(record)?;
    rt.stdout().write_all(closing)
}
