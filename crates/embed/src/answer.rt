// What a call answers, in numbers.
ghost use Rattle.std.specs.Prelude.{◌≡◌};
ghost use Rattle.summary.specs.declared.closing.Closing.TheVariants.{NotLoaded as refused_so};
ghost use Rattle.embed.specs.Answers.{answer_of, lacking, nothing, stopped_at};

use calls::{Cause, NotAdvanced, NotLoaded, Progress};
use meaning::Stop;
use summary::Closing;

// An answer in numbers. Those that it has no need of are 0.
#[repr(C)]
#[derive(Clone, Copy, Debug, PartialEq, Eq)]
pub struct AnswerNumbers {
    // the published number of a refusal, a denial or a stop; or 50, where there is no memory
    pub number: u32,
    // the line and the word that a refusal means
    pub line: u32,
    pub word: u32,
    // the statement that a contradiction means
    pub statement: u32,
    // the variable that a state leaves open, 99 for the end of a span
    pub variable: u32,
    // whether the run has finished
    pub finished: bool,
    // how many states are recorded
    pub states: usize,
    // how many numbers a state has
    pub width: usize,
    // how many bytes are written
    pub length: usize,
}

impl AnswerNumbers {
    // An answer that tells nothing.
    pub fn nothing() -> AnswerNumbers
        ensures { result ≡ nothing }
    {
        AnswerNumbers {
            number: 0,
            line: 0,
            word: 0,
            statement: 0,
            variable: 0,
            finished: false,
            states: 0,
            width: 0,
            length: 0,
        }
    }

    // There is no memory for what the call needs.
    pub fn lacking() -> AnswerNumbers
        ensures { result ≡ lacking }
    {
        AnswerNumbers {
            number: 50,
            ..AnswerNumbers::nothing()
        }
    }

    // What is to be told at the end.
    pub fn of(closing: Closing) -> AnswerNumbers
        ensures { result ≡ answer_of closing }
    {
        match closing {
            Closing::NotLoaded(text) => AnswerNumbers::refused(text),
            Closing::Advanced(Ok(Progress::Finished(states))) => AnswerNumbers {
                finished: true,
                states,
                ..AnswerNumbers::nothing()
            },
            Closing::Advanced(Ok(Progress::Open(states))) => AnswerNumbers {
                states,
                ..AnswerNumbers::nothing()
            },
            Closing::Advanced(Err(NotAdvanced::Denied(denial))) => AnswerNumbers {
                number: u32::from(denial.number()),
                ..AnswerNumbers::nothing()
            },
            Closing::Advanced(Err(NotAdvanced::Full(state))) => AnswerNumbers {
                number: u32::from(NotAdvanced::Full(state).number()),
                states: state as usize,
                ..AnswerNumbers::nothing()
            },
            Closing::Advanced(Err(NotAdvanced::Stopped(cause))) => AnswerNumbers::stopped(cause),
        }
    }

    // A text that is not loaded.
    fn refused(text: NotLoaded) -> AnswerNumbers
        ensures { result ≡ answer_of (refused_so text) }
    {
        AnswerNumbers {
            number: u32::from(text.number()),
            line: text.line(),
            word: u32::from(text.word()),
            ..AnswerNumbers::nothing()
        }
    }

    // A run that met a stop.
    fn stopped(cause: Cause) -> AnswerNumbers
        ensures { result ≡ stopped_at cause.state cause.stop }
    {
        let stopped = AnswerNumbers {
            number: u32::from(cause.number()),
            states: cause.state as usize,
            ..AnswerNumbers::nothing()
        };
        match cause.stop {
            Stop::Contradiction(statement) => AnswerNumbers {
                statement: u32::from(statement),
                ..stopped
            },
            Stop::Undetermined(left) => AnswerNumbers {
                variable: u32::from(left.number()),
                ..stopped
            },
            Stop::Crowded => stopped,
        }
    }
}
