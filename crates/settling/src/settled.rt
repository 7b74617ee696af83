// What a state comes to, as a plain value.
use sheet::MOST_VARIABLES;

// A settled state: the number of each variable, and whether the interval ends there.
#[derive(Clone, Copy, Debug, PartialEq, Eq)]
pub struct SettledState {
    pub numbers: [i64; MOST_VARIABLES],
    pub last: bool,
}
