// What is told of a state that leaves something open.
ghost use Rattle.std.specs.Prelude.{◌≡◌};
ghost use Rattle.meaning.specs.Runs.{open_number};

use crate::duties::LeftOpen;

impl LeftOpen {
    // The published number: that of the variable, or 99 where only the end of a span is unknown.
    // A method and no `From`, which would not say what is told.
    pub fn number(self) -> u16
        ensures { result ≡ open_number self }
    {
        match self {
            LeftOpen::Variable(x) => x,
            LeftOpen::End => 99,
        }
    }
}
