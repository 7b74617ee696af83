// Skips over what can have no further effect in this state.
ghost use Rattle.std.specs.Prelude.{◌≡◌, ℕ, ◌+◌, ◌<◌, ◌≤◌, length, replicate, IfOk, vec_len, slice_index, slice_set};

use board::{MOST_DUTIES, MOST_SPANS};
use std::alloc::{AllocError, Global};

// A skip for each place of the lists of duties and spans, and for the place past the last, reserved once.
// A skip of n at a place says that the n items from this place on are visited in vain, to the end of the state.
// So what is done costs a pass nothing, however much of it stands in a row.
// Skips stand beside the board's lists and not in them: a duty is looked for and carried whole, and a skip is no part of it.
#[derive(Drop)]
pub struct Skips {
    pub(crate) duties: Vec<u16>,
    pub(crate) spans: Vec<u16>,
    ghost sized: { (vec_len duties ≡ 513) × (vec_len spans ≡ 65) },
}

impl Skips {
    // Skips over nothing.
    pub fn new(heap: Global) -> Result<Skips, AllocError>
        ensures { IfOk result (λ s. (s.duties.items ≡ replicate 513 0) × (s.spans.items ≡ replicate 65 0)) }
    {
        let duties = vec![in heap; 0; MOST_DUTIES + 1]?;
        let spans = vec![in heap; 0; MOST_SPANS + 1]?;
        Ok(Skips { duties, spans })
    }
}

// Takes all skips away.
pub(crate) fn clear(skips: &mut [u16])
    ensures { (k : ℕ) → slice_index skips.new k ≡ 0 }
{
    skips.fill(0);
}

// The place to which the skip from a place leads.
pub(crate) fn next_place(skips: &[u16], from: usize) -> usize
    requires { from < length skips.now }
    ensures { result ≡ from + slice_index skips.now from }
{
    from + usize::from(skips[from])
}

// Lengthens the skip from a place by the item to which it leads, and by what is skipped after that one.
pub(crate) fn lengthen(skips: &mut [u16], from: usize, place: usize)
    requires from { from < length skips.old }
    requires place { place + 1 < length skips.old }
    requires short { slice_index skips.old from + 1 + slice_index skips.old (place + 1) ≤ 65535 }
    ensures { skips.new ≡ slice_set skips.old from (slice_index skips.old from + 1 + slice_index skips.old (place + 1)) }
{
    skips[from] = skips[from] + 1 + skips[place + 1];
}
