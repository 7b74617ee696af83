// What the visits of a pass go by, as a plain value.
use sheet::Sheet;

// The sheet and the feed of a pass, and the state in which it is.
// It shares no struct with a `Visit` of the crate rules, which has these and a duty: that crate offers a function, and the parts of its struct are its own.
#[derive_where(Clone, Copy)]
pub(crate) struct Pass<'a, F> {
    pub(crate) sheet: &'a Sheet,
    pub(crate) feed: &'a F,
    pub(crate) state: u32,
}
