// The published numbers of answers.
ghost use Rattle.std.specs.Prelude.{◌≡◌};
ghost use Rattle.calls.specs.Published.{denial_number, text_number, text_line, text_word, stop_number, advance_number};

use crate::answers::{Cause, Denial, NotAdvanced, NotLoaded};
use meaning::Stop;

impl Denial {
    // The published number, 20 to 25.
    pub fn number(self) -> u8
        ensures { result ≡ denial_number self }
    {
        match self {
            Denial::RunIsOpen => 20,
            Denial::NoRunIsOpen => 21,
            Denial::WrongStates => 22,
            Denial::NoSuchState => 23,
            Denial::NoSuchVariable => 24,
            Denial::OtherRecorder => 25,
        }
    }
}

impl NotLoaded {
    // The published number: 20, or that of the refusal.
    pub fn number(self) -> u8
        ensures { result ≡ text_number self }
    {
        match self {
            NotLoaded::RunIsOpen => Denial::RunIsOpen.number(),
            NotLoaded::Refused(refusal) => refusal.number(),
        }
    }

    // The line that is meant, counted from 1, or 0.
    pub fn line(self) -> u32
        ensures { result ≡ text_line self }
    {
        match self {
            NotLoaded::RunIsOpen => 0,
            NotLoaded::Refused(refusal) => refusal.line(),
        }
    }

    // The word that is meant, counted from 1, or 0.
    pub fn word(self) -> u8
        ensures { result ≡ text_word self }
    {
        match self {
            NotLoaded::RunIsOpen => 0,
            NotLoaded::Refused(refusal) => refusal.word(),
        }
    }
}

impl Cause {
    // The published number, 31 to 33.
    pub fn number(self) -> u8
        ensures { result ≡ stop_number self.stop }
    {
        match self.stop {
            Stop::Contradiction(_) => 31,
            Stop::Undetermined(_) => 32,
            Stop::Crowded => 33,
        }
    }
}

impl NotAdvanced {
    // The published number: that of the denial or of the stop, or 34 where the recorder is full.
    pub fn number(self) -> u8
        ensures { result ≡ advance_number self }
    {
        match self {
            NotAdvanced::Denied(denial) => denial.number(),
            NotAdvanced::Full(_) => 34,
            NotAdvanced::Stopped(cause) => cause.number(),
        }
    }
}
