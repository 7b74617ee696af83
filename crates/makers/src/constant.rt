// A maker's own feed: one number everywhere.
ghost use Rattle.feed.specs.Readings.{within_domain};
ghost use Rattle.std.proofs.Common.{rules};
ghost use Rattle.std.specs.Prelude.{Some as Just};

use feed::{Feed, STATES, VARIABLES};

// A feed with the same reading everywhere in the ranges.
#[derive(Clone, Copy, Debug, PartialEq, Eq)]
pub struct Constant {
    pub number: i64,
}

// What a constant feed means.
impl Feed for Constant {
    // The number, in the ranges.
    ghost readings = { λ s v k. within_domain v k (Just s.number) };

    // The number, in the ranges.
    fn reading(&self, variable: usize, state: usize) -> Option<i64> {
        (variable < VARIABLES && state < STATES).then_some(self.number)
    }

    // Outside the ranges it is none.
    ghost elsewhere = { λ s v k e. Prim.search rules };
}
