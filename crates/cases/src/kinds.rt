// What an example is of.

// An example: its name, and the parts of its block, as they stand in the table.
#[derive(Clone, Copy)]
pub struct Example<'a> {
    pub name: &'a [u8],
    pub kind: Kind<'a>,
}

// The three kinds of examples.
#[derive(Clone, Copy)]
pub enum Kind<'a> {
    // a text, and what loading it answers
    Loaded(LoadedText<'a>),
    // a text, and what is shown of its run
    Shown(ShownText<'a>),
    // a sheet with readings, and what comes of its run
    Worked(WorkedSheet<'a>),
}

// A text that is loaded.
#[derive(Clone, Copy)]
pub struct LoadedText<'a> {
    // the text on one line
    pub packed: &'a [u8],
    // what loading it answers
    pub answer: &'a [u8],
}

// A text that is run without readings.
#[derive(Clone, Copy)]
pub struct ShownText<'a> {
    // the text on one line
    pub packed: &'a [u8],
    // the lines of the record
    pub record: &'a [u8],
    // the lines that close the run
    pub closing: &'a [u8],
}

// A sheet that is run with readings.
#[derive(Clone, Copy)]
pub struct WorkedSheet<'a> {
    // the lines of the sheet
    pub sheet: &'a [u8],
    // the lines with the readings of the run
    pub readings: &'a [u8],
    // the lines with the states that the run records
    pub record: &'a [u8],
    // the lines that close the run
    pub closing: &'a [u8],
}
