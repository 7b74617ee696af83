// Texts that stand on one line of a table.
ghost use Rattle.std.specs.Prelude.{◌≡◌, IfOk, map};
ghost use Rattle.cases.specs.Packed.{unpacked_byte};

use std::alloc::{AllocError, Global};

// The text that a line spells: each `/`, which no text has, stands for a line end.
pub fn unpacked(alloc: Global, line: &[u8]) -> Result<Vec<u8>, AllocError>
    ensures { IfOk result (λ text. text.items ≡ map unpacked_byte line.now) }
{
    line.iter()
        .map(|byte| if *byte == b'/' { b'\n' } else { *byte })
        .collect(alloc)
}
