// What is told of a refusal.
ghost use Rattle.std.specs.Prelude.{◌≡◌, Some};
ghost use Rattle.lines.specs.Faults.{number_of_fault, word_of_fault};
ghost use Rattle.load.specs.RefusalText.{published_refusal, refusal_text, fault_sentence, sentence};

use crate::refusals::Refusal;
use lines::Fault;
use std::error::Error;
use std::fmt;

// The number of a line's fault. A function and no `From`, which would not say what is told.
fn fault_number(fault: Fault) -> u8
    ensures { result ≡ number_of_fault fault }
{
    match fault {
        Fault::Long => 4,
        Fault::Key => 5,
        Fault::Many => 6,
        Fault::Form => 7,
        Fault::Number(_) => 8,
        Fault::Name(_) => 9,
        Fault::Operand(_) => 10,
        Fault::Size => 11,
    }
}

// The word that a line's fault means, or 0.
fn fault_word(fault: Fault) -> u8
    ensures { result ≡ word_of_fault fault }
{
    match fault {
        Fault::Number(w) | Fault::Name(w) | Fault::Operand(w) => w,
        Fault::Long | Fault::Key | Fault::Many | Fault::Form | Fault::Size => 0,
    }
}

// The sentence of a line's fault.
fn fault_reason(fault: Fault) -> &'static str
    ensures { result.now ≡ fault_sentence fault }
{
    match fault {
        Fault::Long => "This line has more than 64 characters.",
        Fault::Key =>
            "This line's key is missing, unknown or out of order; the order is sheet, var, expr, stmt, run.",
        Fault::Many => "There is one line too many with this key.",
        Fault::Form => "The operation is unknown, or the line has too few or too many words.",
        Fault::Number(_) => "This word must be a plain number within its limits.",
        Fault::Name(_) => "This name is malformed, declared twice or not declared.",
        Fault::Operand(_) => "This number names an expression or statement that is not there yet.",
        Fault::Size => "The numbers of this expression could get larger than 1000000000.",
    }
}

impl Refusal {
    // The published number, 1 to 12.
    pub fn number(self) -> u8
        ensures { result ≡ (published_refusal self).number }
    {
        match self {
            Refusal::Length => 1,
            Refusal::Unended => 2,
            Refusal::Header => 3,
            Refusal::Line(_, fault) => fault_number(fault),
            Refusal::NoRun(_) => 12,
        }
    }

    // The line that is meant, counted from 1, or 0 for the whole text.
    pub fn line(self) -> u32
        ensures { result ≡ (published_refusal self).line }
    {
        match self {
            Refusal::Length | Refusal::Unended => 0,
            Refusal::Header => 1,
            Refusal::Line(n, _) | Refusal::NoRun(n) => n,
        }
    }

    // The word that is meant, counted from 1, or 0.
    pub fn word(self) -> u8
        ensures { result ≡ (published_refusal self).word }
    {
        match self {
            Refusal::Line(_, fault) => fault_word(fault),
            Refusal::Length | Refusal::Unended | Refusal::Header | Refusal::NoRun(_) => 0,
        }
    }

    // A plain sentence that can be read out.
    pub fn reason(self) -> &'static str
        ensures { result.now ≡ sentence self }
    {
        match self {
            Refusal::Length => "The sheet is empty or has more than 16384 bytes.",
            Refusal::Unended =>
                "The sheet does not end with a line end; add one after the last line.",
            Refusal::Header => "The first line must be exactly: sheet=2",
            Refusal::Line(_, fault) => fault_reason(fault),
            Refusal::NoRun(_) => "The sheet ends without a run line.",
        }
    }
}

// The number, the line and the word.
impl fmt::Display for Refusal {
    ghost output = { λ r. Some (refusal_text (published_refusal r)) };

    fn fmt<W: fmt::Write>(&self, f: &mut fmt::Formatter<W>) -> fmt::Result {
        let number = self.number();
        let line = self.line();
        let word = self.word();
        write!(f, "{number} {line} {word}")
    }
}

impl Error for Refusal {}
