// An answer, and its line.
ghost use Rattle.std.specs.Prelude.{Some as Written};
ghost use Rattle.calls.specs.Published.{published_denial, published_stop};
ghost use Rattle.script.specs.AnswerText.{answer_text, published_text};

use calls::{Cause, Denial, Ending, NotAdvanced, NotLoaded, Progress, Report};
use meaning::Stop;
use std::fmt;

// What a call on an engine answers, with the call that it comes from.
#[derive(Clone, Copy)]
pub enum Answer {
    // the text is held as a sheet, or why not
    Load(Result<(), NotLoaded>),
    // a run is open, or why not
    Begin(Result<(), Denial>),
    // how far the run has come, or why no further
    Advance(Result<Progress, NotAdvanced>),
    // the run is given up, or why not
    Abandon(Result<(), Denial>),
    // how the engine stands
    Report(Report),
    // the number that was looked up, or why there is none
    Look(Result<i64, Denial>),
}

// A denial, to be written.
#[derive(Drop)]
struct Denied(Denial);

// Its number.
impl fmt::Display for Denied {
    ghost output = { λ d. Written (published_text (published_denial d.0)) };

    fn fmt<W: fmt::Write>(&self, f: &mut fmt::Formatter<W>) -> fmt::Result {
        let number = self.0.number();
        write!(f, "denied {number}")
    }
}

// A stop with its place, to be written.
#[derive(Drop)]
struct Met(Cause);

// The stop's number, its state, and the statement or the variable that is meant.
impl fmt::Display for Met {
    ghost output = { λ m. Written (published_text (published_stop m.0.state m.0.stop)) };

    fn fmt<W: fmt::Write>(&self, f: &mut fmt::Formatter<W>) -> fmt::Result {
        let cause = self.0;
        let number = cause.number();
        let state = cause.state;
        match cause.stop {
            Stop::Contradiction(statement) => write!(f, "stop {number} {state} {statement}"),
            Stop::Undetermined(left) => {
                let variable = left.number();
                write!(f, "stop {number} {state} {variable}")
            }
            Stop::Crowded => write!(f, "stop {number} {state}"),
        }
    }
}

// The call's word, `=`, and what the answer tells.
impl fmt::Display for Answer {
    ghost output = { λ a. Written (answer_text a) };

    fn fmt<W: fmt::Write>(&self, f: &mut fmt::Formatter<W>) -> fmt::Result {
        match *self {
            Answer::Load(Ok(())) => write!(f, "sheet=ok"),
            Answer::Load(Err(NotLoaded::RunIsOpen)) => {
                write!(f, "sheet={}", Denied(Denial::RunIsOpen))
            }
            Answer::Load(Err(NotLoaded::Refused(refusal))) => write!(f, "sheet=refused {refusal}"),
            Answer::Begin(Ok(())) => write!(f, "begin=ok"),
            Answer::Begin(Err(denial)) => write!(f, "begin={}", Denied(denial)),
            Answer::Advance(Ok(Progress::Open(states))) => write!(f, "advance=open {states}"),
            Answer::Advance(Ok(Progress::Finished(states))) => {
                write!(f, "advance=finished {states}")
            }
            Answer::Advance(Err(NotAdvanced::Denied(denial))) => {
                write!(f, "advance={}", Denied(denial))
            }
            Answer::Advance(Err(NotAdvanced::Full(state))) => {
                let number = NotAdvanced::Full(state).number();
                write!(f, "advance=stop {number} {state}")
            }
            Answer::Advance(Err(NotAdvanced::Stopped(cause))) => {
                write!(f, "advance={}", Met(cause))
            }
            Answer::Abandon(Ok(())) => write!(f, "abandon=ok"),
            Answer::Abandon(Err(denial)) => write!(f, "abandon={}", Denied(denial)),
            Answer::Report(Report::Idle) => write!(f, "report=idle"),
            Answer::Report(Report::Open(states)) => write!(f, "report=open {states}"),
            Answer::Report(Report::Ended(Ending::Finished)) => write!(f, "report=ended finished"),
            Answer::Report(Report::Ended(Ending::Abandoned)) => write!(f, "report=ended abandoned"),
            Answer::Report(Report::Ended(Ending::Stopped(cause))) => {
                write!(f, "report=ended {}", Met(cause))
            }
            Answer::Look(Ok(number)) => write!(f, "look={number}"),
            Answer::Look(Err(denial)) => write!(f, "look={}", Denied(denial)),
        }
    }
}
