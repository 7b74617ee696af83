// The lines that are printed of a text that is refused.
ghost use Rattle.std.specs.Prelude.{Some};
ghost use Rattle.load.specs.RefusalText.{refused_lines};

use crate::refusals::Refusal;
use std::fmt;

// A text that is refused. Its lines are a struct's text and no calls of `println!`, since of those no contract speaks.
#[derive(Clone, Copy)]
pub struct RefusalLines {
    pub refusal: Refusal,
}

// The number, the line, the word and the sentence, each in its line.
impl fmt::Display for RefusalLines {
    ghost output = { λ r. Some (refused_lines r.refusal) };

    fn fmt<W: fmt::Write>(&self, f: &mut fmt::Formatter<W>) -> fmt::Result {
        let number = self.refusal.number();
        let line = self.refusal.line();
        let word = self.refusal.word();
        let reason = self.refusal.reason();
        write!(
            f,
            "refused={number}\nline={line}\nword={word}\nreason={reason}\n"
        )
    }
}
