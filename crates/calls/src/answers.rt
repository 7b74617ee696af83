// The condition of an engine and the answers of its calls, as plain values.
use load::Refusal;
use meaning::Stop;

// Why a call is denied. It has changed nothing then.
#[derive(Clone, Copy, Debug, PartialEq, Eq)]
pub enum Denial {
    // a run is open, which a load or a begin would end
    RunIsOpen,
    // no run is open that could be advanced or abandoned
    NoRunIsOpen,
    // the number of states asked for is not one of 1 to 1,000
    WrongStates,
    // the recorder's width or its count of states is not the run's
    OtherRecorder,
    // the recorder has no such state
    NoSuchState,
    // its states have no such variable
    NoSuchVariable,
}

// Why a text is not loaded. The sheet that is held stays.
#[derive(Clone, Copy, Debug, PartialEq, Eq)]
pub enum NotLoaded {
    // a run is open, and the text was not looked at
    RunIsOpen,
    // the text is no sheet
    Refused(Refusal),
}

// A stop with its place: the state that could not be recorded.
#[derive(Clone, Copy, Debug, PartialEq, Eq)]
pub struct Cause {
    pub stop: Stop,
    pub state: u32,
}

// How a run ended.
#[derive(Clone, Copy, Debug, PartialEq, Eq)]
pub enum Ending {
    // its record is the interval
    Finished,
    // it was given up
    Abandoned,
    // it met a stop
    Stopped(Cause),
}

// The condition of an engine.
#[derive(Clone, Copy, Debug, PartialEq, Eq)]
pub enum Condition {
    // no run was begun since the sheet was loaded
    Idle,
    // a run goes on
    Open,
    // the last run has ended
    Ended(Ending),
}

// What a report says of an engine.
#[derive(Clone, Copy, Debug, PartialEq, Eq)]
pub enum Report {
    // no run was begun since the sheet was loaded
    Idle,
    // a run goes on, with so many states
    Open(u32),
    // the last run has ended
    Ended(Ending),
}

// How far an advance has come, with the count of states that the recorder has then.
#[derive(Clone, Copy, Debug, PartialEq, Eq)]
pub enum Progress {
    // all states asked for are recorded, and the run goes on
    Open(usize),
    // the last state of the interval is recorded
    Finished(usize),
}

// Why an advance has not recorded all states that it was asked for.
#[derive(Clone, Copy, Debug, PartialEq, Eq)]
pub enum NotAdvanced {
    // nothing was done
    Denied(Denial),
    // the recorder has no room for this state; the run goes on
    Full(u32),
    // the run has ended with a stop
    Stopped(Cause),
}
