// The owner of a slice, and what the slice holds once the recorder is gone.
ghost use Rattle.std.specs.Prelude.{◌≡◌, ℕ, ◌*◌, ◌≤◌, true, length, pos, if◌then◌else◌, slice_index_or};
ghost use Rattle.makers.specs.Carried.{filled};
ghost use Rattle.record.specs.Rows.{table_capacity, rows};
ghost use Rattle.record.specs.Rules.{allowed_width};

use crate::filling::fill;
use record::TableRecorder;

// Lends `memory` to a table, fills the table and lets it go. Says how many states then stand at the front of `memory`.
pub fn keep(memory: &mut [i64], numbers: &[i64], width: usize) -> usize
    ensures answer { result ≡ (if allowed_width width then length (filled (table_capacity (length memory.old) width) width numbers.now) else 0) }
    ensures recorded { allowed_width width ≡ true → rows width result memory.new ≡ filled (table_capacity (length memory.old) width) width numbers.now }
    ensures untouched { (k : ℕ) → result * width ≤ k → slice_index_or memory.new k (pos 0) ≡ slice_index_or memory.old k (pos 0) }
{
    let mut table = TableRecorder::new(memory);
    fill(&mut table, numbers, width)
}
