// A sheet, and the memory to load another.
use sheet::{Draft, Sheet};

// Holds a sheet, and a draft that a text is read into. All memory is reserved when it is made.
#[derive(Drop)]
pub struct Loader {
    pub(crate) sheet: Sheet,
    pub(crate) draft: Draft,
}
