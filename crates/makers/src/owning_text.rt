// The owner of bytes, and the text that they hold once the recorder is gone.
ghost use Rattle.std.specs.Prelude.{◌≡◌, ℕ, ◌≤◌, true, length, take, if◌then◌else◌, slice_index_or};
ghost use Rattle.makers.specs.Carried.{filled};
ghost use Rattle.record.specs.Rules.{allowed_width};
ghost use Rattle.record.specs.StatesText.{text_capacity, states_text};

use crate::filling::fill;
use record::TextRecorder;

// Lends `memory` to a recorder of text, fills the recorder and lets it go. Says how long the text is that then stands at the front of `memory`.
pub fn keep_text(memory: &mut [u8], numbers: &[i64], width: usize) -> usize
    ensures answer { result ≡ (if allowed_width width then length (states_text (filled (text_capacity (length memory.old) width) width numbers.now)) else 0) }
    ensures told { allowed_width width ≡ true → take result memory.new ≡ states_text (filled (text_capacity (length memory.old) width) width numbers.now) }
    ensures untouched { (k : ℕ) → result ≤ k → slice_index_or memory.new k 0 ≡ slice_index_or memory.old k 0 }
{
    let mut recorder = TextRecorder::new(memory);
    fill(&mut recorder, numbers, width);
    recorder.length()
}
