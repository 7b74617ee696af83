// The words of a line.
ghost use Rattle.std.specs.Prelude.{◌≡◌, ◌≤◌, length};
ghost use Rattle.text.specs.Cut.{pieces_from};
ghost use Rattle.lines.specs.Lines.{word_list, Cut, word_in};

use crate::items::{OperandSlots, Words};
use text::Reader;

impl<'a> Words<'a> {
    // The words after the first; no bytes where there is none.
    pub(crate) fn rest(self) -> OperandSlots<&'a [u8]>
        ensures { (result.first.now ≡ word_in (word_list self.entry) 1) × (result.second.now ≡ word_in (word_list self.entry) 2) × (result.third.now ≡ word_in (word_list self.entry) 3) }
    {
        match self {
            Words::One(_) => OperandSlots::new(b"", b"", b""),
            Words::Two(_, a) => OperandSlots::new(a, b"", b""),
            Words::Three(_, a, b) => OperandSlots::new(a, b, b""),
            Words::Four(_, a, b, c) => OperandSlots::new(a, b, c),
        }
    }
}

// The words that a reader has not handed out yet, or none where they are more than four.
pub(crate) fn cut_words<'a>(reader: &mut Reader<'a>) -> Option<Words<'a>>
    requires { reader.old.place ≤ length reader.old.text.now }
    ensures { Cut result (pieces_from 32 reader.old.text.now reader.old.place) }
{
    let a = reader.word()?;
    let Some(b) = reader.word() else {
        return Some(Words::One(a));
    };
    let Some(c) = reader.word() else {
        return Some(Words::Two(a, b));
    };
    let Some(d) = reader.word() else {
        return Some(Words::Three(a, b, c));
    };
    reader.word().is_none().then_some(Words::Four(a, b, c, d))
}
