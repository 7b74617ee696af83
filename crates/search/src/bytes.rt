// The order of byte strings.
ghost use Rattle.std.specs.Prelude.{◌≡◌};
ghost use Rattle.std.specs.Cmp.Lexicographic.{slice_cmp};
ghost use Rattle.std.specs.Ordering.{nat_cmp, MatchOrdering};
ghost use Rattle.search.specs.Order.{below_by};

use std::cmp::Ordering;

// Which of two byte strings comes first: the first byte that differs decides, and then the length.
// Only equal strings are the same.
#[tactic(auto, using(crate::proofs::Totals::sides_of))]
pub fn compare_bytes(a: &[u8], b: &[u8]) -> Ordering
    ensures order { result ≡ slice_cmp nat_cmp a.now b.now }
    ensures sides { MatchOrdering result (below_by (slice_cmp nat_cmp) a.now b.now) (a.now ≡ b.now) (below_by (slice_cmp nat_cmp) b.now a.now) }
{
    a.cmp(b)
}
